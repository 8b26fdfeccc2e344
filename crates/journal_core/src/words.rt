//! The words for records in printed lines.
ghost use Rattle.std.specs.Prelude.{◌≡◌};
ghost use Rattle.journal_core.specs.Words.{kind_word};

use scim_key::Kind;

/// The word for a record of this type in a printed line: `user` or `group`.
pub fn kind_word(kind: Kind) -> &'static str
    ensures { result.now ≡ kind_word kind }
{
    match kind {
        Kind::User => "user",
        Kind::Group => "group",
    }
}
