//! Users (RFC 7643 section 4.1).
ghost use Rattle.std.specs.Prelude.{◌≡◌, ℕ, List, [], Option, Some, None};
ghost use Rattle.std.specs.Option.{option_copied};
ghost use Rattle.scim_key.specs.Names.{IsUserName};
ghost use Rattle.scim_resource.specs.Emails.{IsEmailList};
ghost use Rattle.scim_resource.specs.UserTexts.{AreUserTexts, no_texts, text_at};
ghost use Rattle.scim_resource.specs.Users.{UserRecord, IsSourceRevision, IsUser};

use crate::emails::{Email, Emails};
use crate::texts::OptionalText;
use crate::user_texts::{TEXT_COUNT, USER_TEXTS, UserText};
use scim_key::{Revision, UserName};
use std::alloc::{AllocError, Global};
use std::marker::Model;

/// What a user contains.
pub struct User {
    user_name: UserName,
    texts: [OptionalText; TEXT_COUNT],
    emails: Emails,
    active: bool,
    revision: Option<Revision>,
}

impl Model for User {
    ghost use Rattle.scim_resource.specs.Users.{UserRecord, IsUser};

    ghost Value = { UserRecord };

    ghost view = { λ u. record {
      user_name = u.user_name;
      texts = u.texts;
      emails = u.emails;
      active = u.active;
      revision = u.revision;
    } };

    ghost invariant = { λ u. IsUser (record {
      user_name = u.user_name;
      texts = u.texts;
      emails = u.emails;
      active = u.active;
      revision = u.revision;
    }) };
}

/// Dropping a user is one call, and not a step for each field: each step would lengthen every proof that
/// goes through it.
impl Drop for User {
    fn drop(self) {
        let User {
            user_name: _,
            texts: _,
            emails: _,
            active: _,
            revision: _,
        } = self;
    }
}

impl User {
    /// A user without other attributes. Its name is valid because every `UserName` is.
    pub fn new(alloc: Global, user_name: UserName, active: bool, revision: Option<Revision>) -> User
        requires named { IsUserName user_name }
        requires given { IsSourceRevision revision }
        ensures { result ≡ record {
          user_name = user_name;
          texts = no_texts;
          emails = [];
          active = active;
          revision = revision;
        } }
    {
        User {
            user_name,
            texts: USER_TEXTS.map(|_| OptionalText::none(alloc)),
            emails: Emails::new(alloc),
            active,
            revision,
        }
    }

    /// The user with these texts, in the order of `USER_TEXTS`.
    pub fn with_texts(mut self, texts: [OptionalText; TEXT_COUNT]) -> User
        requires { AreUserTexts texts }
        ensures { result ≡ record self { texts = texts } }
    {
        self.texts = texts;
        self
    }

    /// The user with these email addresses.
    pub fn with_emails(mut self, emails: Emails) -> User
        requires { IsEmailList emails }
        ensures { result ≡ record self { emails = emails } }
    {
        self.emails = emails;
        self
    }

    /// The user as the image of this source revision, or of none.
    pub fn with_revision(mut self, revision: Option<Revision>) -> User
        requires { IsSourceRevision revision }
        ensures { result ≡ record self { revision = revision } }
    {
        self.revision = revision;
        self
    }

    /// The name as it was spelled.
    pub fn user_name(&self) -> &UserName
        ensures { result.now ≡ self.now.user_name }
    {
        &self.user_name
    }

    /// This text of the user, if there is one.
    pub fn text(&self, which: UserText) -> Option<&str>
        ensures { option_copied result ≡ text_at which self.now.texts }
    {
        self.texts[which.place()].as_option()
    }

    pub fn emails(&self) -> &[Email]
        ensures { result.now ≡ self.now.emails }
    {
        self.emails.as_slice()
    }

    /// Whether the account is active.
    pub fn is_active(&self) -> bool
        ensures { result ≡ self.now.active }
    {
        self.active
    }

    /// The source revision that this user is the image of, if it has one.
    pub fn revision(&self) -> Option<Revision>
        ensures value { result ≡ self.now.revision }
        ensures lawful { IsUser self.now }
    {
        self.revision
    }
}

impl Clone for User {
    ghost is_clone = { λ a b. b ≡ a };

    fn clone(&self) -> Result<User, AllocError> {
        Ok(User {
            user_name: self.user_name.clone()?,
            texts: self.texts.clone()?,
            emails: self.emails.clone()?,
            active: self.active,
            revision: self.revision,
        })
    }
}
