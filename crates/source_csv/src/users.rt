//! Rows of users.
ghost use Rattle.std.specs.Prelude.{◌≡◌, ◌≤◌, ◌↔◌, IsTrue, MatchOption, length};
ghost use Rattle.csv.specs.Records.{fields_of};
ghost use Rattle.scim_key.specs.Names.{IsUserName};
ghost use Rattle.scim_key.specs.Revisions.{IsRevision};
ghost use Rattle.source_csv.specs.Rows.{IsUserRow, same_user, text_of, user_says_the_same};
ghost use Rattle.source_csv.specs.Fields.{Reads, read_user, read_user_fields};
ghost use Rattle.source_csv.specs.declared.texts.TheConstants.{VALUE_LIMIT};

use crate::columns::Columns;
use crate::faults::{Refusal, RowCode};
use crate::fields::{login_of, revision_of, status_of, texts_of, values_of};
use crate::texts::{FieldValue, TEXT_FIELD_COUNT, TextField, are_short};
use csv::{ByteRecord, StringRecord};
use scim_key::{Revision, UserName};
use std::alloc::{AllocError, Global};
use std::marker::Model;

/// What the source says about a user at a revision. Each text has at most `VALUE_LIMIT` bytes.
pub struct UserRow {
    login: UserName,
    revision: Revision,
    texts: [FieldValue; TEXT_FIELD_COUNT],
    active: bool,
}

impl Model for UserRow {
    ghost use Rattle.source_csv.specs.Rows.{UserFields, IsUserRow};

    ghost Value = { UserFields };

    ghost view = { λ u. record {
      login = u.login;
      revision = u.revision;
      texts = u.texts;
      active = u.active;
    } };

    ghost invariant = { λ u. IsUserRow (record {
      login = u.login;
      revision = u.revision;
      texts = u.texts;
      active = u.active;
    }) };
}

/// Dropping a row is one call, and not a step for each field: each step would lengthen every proof that
/// goes through it.
impl Drop for UserRow {
    fn drop(self) {
        let UserRow {
            login: _,
            revision: _,
            texts: _,
            active: _,
        } = self;
    }
}

/// Reads the fields of a record with these columns.
#[tactic(auto, unfolding(crate::specs::Fields::read_user_fields, crate::specs::Fields::read_values, crate::specs::Fields::SomeIsLong))]
fn user_of(alloc: Global, columns: &Columns, texts: &StringRecord) -> Result<UserRow, Refusal>
    ensures { Reads result (read_user_fields columns.now (fields_of texts.now)) }
{
    Ok(UserRow {
        login: login_of(alloc, columns.name(texts))?,
        revision: revision_of(columns.revision(texts))?,
        texts: values_of(alloc, columns, texts)?,
        active: status_of(columns.status(texts))?,
    })
}

/// Reads a record of a users file with these columns.
#[tactic(auto, unfolding(crate::specs::Fields::read_user))]
pub(crate) fn read_user(
    alloc: Global,
    columns: &Columns,
    raw: &mut ByteRecord,
) -> Result<UserRow, Refusal>
    ensures read { Reads result (read_user columns.now (fields_of raw.old)) }
    ensures kept { fields_of raw.new ≡ fields_of raw.old }
{
    if raw.len() != columns.count {
        return Err(Refusal::Refused(RowCode::FieldCount));
    }
    let texts = texts_of(alloc, raw)?;
    let row = user_of(alloc, columns, &texts);
    *raw = texts.into_byte_record();
    row
}

impl UserRow {
    /// A row of these fields. `None` if a text has more than `VALUE_LIMIT` bytes.
    pub fn new(
        login: UserName,
        revision: Revision,
        texts: [FieldValue; TEXT_FIELD_COUNT],
        active: bool,
    ) -> Option<UserRow>
        requires { IsRevision revision }
        ensures { MatchOption result
            (IsUserRow
            (record { login = login; revision = revision; texts = texts; active = active })
            → ⊥) (λ row. row
            ≡ record { login = login; revision = revision; texts = texts; active = active }) }
    {
        if are_short(&texts) {
            Some(UserRow {
                login,
                revision,
                texts,
                active,
            })
        } else {
            None
        }
    }

    /// The fields of the row, in the order of `new`.
    pub fn into_parts(self) -> (UserName, Revision, [FieldValue; TEXT_FIELD_COUNT], bool)
        ensures value { self ≡ record {
          login = result.0;
          revision = result.1;
          texts = result.2;
          active = result.3;
        } }
        ensures lawful { IsUserRow self }
    {
        let UserRow {
            login,
            revision,
            texts,
            active,
        } = self;
        (login, revision, texts, active)
    }

    /// The user's name, as the source spells it.
    pub fn login(&self) -> &UserName
        ensures value { result.now ≡ self.now.login }
        ensures lawful { IsUserName self.now.login }
    {
        &self.login
    }

    /// The revision at which the source says this.
    pub fn revision(&self) -> Revision
        ensures value { result ≡ self.now.revision }
        ensures lawful { IsRevision self.now.revision }
        ensures row { IsUserRow self.now }
    {
        self.revision
    }

    /// A text of the user; empty if there is none.
    pub fn text(&self, text: TextField) -> &str
        ensures value { result.now ≡ text_of self.now text }
        ensures short { length result.now ≤ VALUE_LIMIT }
    {
        self.texts[text.place()].as_str()
    }

    /// Whether the status is `active`; the other one is `left`.
    pub fn is_active(&self) -> bool
        ensures { result ≡ self.now.active }
    {
        self.active
    }

    /// Whether all fields are equal, by a test of each.
    fn matches(&self, other: &UserRow) -> bool
        ensures { result ≡ same_user self.now other.now }
    {
        self.says_the_same(other) && self.revision == other.revision
    }

    /// The same row at this revision.
    pub fn at_revision(self, revision: Revision) -> UserRow
        requires { IsRevision revision }
        ensures { result ≡ record self { revision = revision } }
    {
        let UserRow {
            login,
            revision: _,
            texts,
            active,
        } = self;
        UserRow {
            login,
            revision,
            texts,
            active,
        }
    }

    /// Whether all fields but the revision are equal, by a test of each.
    fn matches_but_revision(&self, other: &UserRow) -> bool
        ensures { result ≡ user_says_the_same self.now other.now }
    {
        self.login.as_str() == other.login.as_str()
            && self.active == other.active
            && self.texts == other.texts
    }

    /// Whether all fields but the revision are equal, byte for byte.
    pub fn says_the_same(&self, other: &UserRow) -> bool
        ensures exact { result ≡ user_says_the_same self.now other.now }
        ensures equal { IsTrue result
            ↔ (record self.now { revision = other.now.revision } ≡ other.now) }
    {
        self.matches_but_revision(other)
    }

    /// Whether all fields are equal, byte for byte: a login in another spelling is another field.
    pub fn same_fields(&self, other: &UserRow) -> bool
        ensures exact { result ≡ same_user self.now other.now }
        ensures equal { IsTrue result ↔ (self.now ≡ other.now) }
    {
        self.matches(other)
    }
}

impl Clone for UserRow {
    ghost is_clone = { λ a b. b ≡ a };

    fn clone(&self) -> Result<UserRow, AllocError> {
        Ok(UserRow {
            login: self.login.clone()?,
            revision: self.revision,
            texts: self.texts.clone()?,
            active: self.active,
        })
    }
}
