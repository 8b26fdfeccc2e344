//! The email addresses of a user (RFC 7643 section 4.1.2).
ghost use Rattle.std.specs.Prelude.{◌≡◌, [], true};
ghost use Rattle.std.specs.Option.{SomeIff};
ghost use Rattle.scim_resource.specs.Emails.{AreEmails, are_few, primaries, IsEmailList};

use crate::texts::{OptionalText, Text};
use std::alloc::{AllocError, Global};
use std::marker::Model;

/// The most email addresses that a user may have.
pub const EMAIL_LIMIT: usize = 10;

/// An email address.
#[derive(Drop)]
pub struct Email {
    pub value: Text,
    pub type_text: OptionalText,
    pub primary: bool,
}

impl Clone for Email {
    ghost is_clone = { λ a b. b ≡ a };

    fn clone(&self) -> Result<Email, AllocError> {
        Ok(Email {
            value: self.value.clone()?,
            type_text: self.type_text.clone()?,
            primary: self.primary,
        })
    }
}

/// At most ten email addresses, at most one of them primary.
#[derive(Drop)]
pub struct Emails {
    items: Vec<Email>,
}

impl Model for Emails {
    ghost use Rattle.std.specs.Prelude.{List};
    ghost use Rattle.scim_resource.specs.declared.emails.Email.{Email};

    ghost Value = { List Email };

    ghost use Rattle.scim_resource.specs.Emails.{IsEmailList};

    ghost view = { λ l. l.items.items };

    ghost invariant = { λ l. IsEmailList l.items.items };
}

impl Emails {
    pub fn new(alloc: Global) -> Emails
        ensures { result ≡ [] }
    {
        Emails {
            items: Vec::new(alloc),
        }
    }

    /// The list, if it has at most ten addresses and at most one of them is primary.
    pub fn from_vec(items: Vec<Email>) -> Option<Emails>
        requires { AreEmails items.items }
        ensures { SomeIff result (are_few items.items ≡ true) items.items }
    {
        if are_few(items.as_slice()) {
            Some(Emails { items })
        } else {
            None
        }
    }

    pub fn as_slice(&self) -> &[Email]
        ensures value { result.now ≡ self.now }
        ensures lawful { IsEmailList self.now }
    {
        self.items.as_slice()
    }
}

impl Clone for Emails {
    ghost is_clone = { λ a b. b ≡ a };

    fn clone(&self) -> Result<Emails, AllocError> {
        Ok(Emails {
            items: self.items.clone()?,
        })
    }
}

#[tactic(auto, unfolding(crate::specs::Emails::are_few))]
fn are_few(emails: &[Email]) -> bool
    ensures { result ≡ are_few emails.now }
{
    emails.len() <= EMAIL_LIMIT && primaries(emails) <= 1
}

fn primaries(emails: &[Email]) -> usize
    ensures { result ≡ primaries emails.now }
{
    emails.iter().filter(|email| email.primary).count()
}
