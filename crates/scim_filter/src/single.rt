//! The record that a filter names, if the filter is one test of a name.
ghost use Rattle.std.specs.Prelude.{◌≡◌, IfOk};
ghost use Rattle.scim_key.specs.declared.records.Kind.TheVariants.{User, Group};
ghost use Rattle.scim_filter.specs.Names.{record_named, named_by, test_key};

use crate::terms::{Test, TextAttribute, TextOperator};
use scim_key::{GroupName, Key, Kind, NameFault, RecordName, UserName};
use std::alloc::{AllocError, Global};

fn user_named(alloc: Global, text: &str) -> Result<Option<RecordName>, AllocError>
    ensures { IfOk result (λ o. o ≡ record_named text.now User) }
{
    match UserName::read(alloc, text) {
        Ok(_) => Ok(Some(RecordName {
            kind: Kind::User,
            key: Key::of(alloc, text)?,
        })),
        Err(NameFault::Memory) => Err(AllocError),
        Err(_) => Ok(None),
    }
}

fn group_named(alloc: Global, text: &str) -> Result<Option<RecordName>, AllocError>
    ensures { IfOk result (λ o. o ≡ record_named text.now Group) }
{
    match GroupName::read(alloc, text) {
        Ok(_) => Ok(Some(RecordName {
            kind: Kind::Group,
            key: Key::of(alloc, text)?,
        })),
        Err(NameFault::Memory) => Err(AllocError),
        Err(_) => Ok(None),
    }
}

/// The record that a test names.
pub(crate) fn test_key(alloc: Global, test: &Test) -> Result<Option<RecordName>, AllocError>
    ensures { IfOk result (λ o. o ≡ test_key test.now) }
{
    match test {
        Test::Text(TextAttribute::UserName, TextOperator::Equal, text) => {
            user_named(alloc, text.as_str())
        }
        Test::Text(TextAttribute::DisplayName, TextOperator::Equal, text) => {
            group_named(alloc, text.as_str())
        }
        _ => Ok(None),
    }
}
