//! The fields of a record.
ghost use Rattle.std.specs.Prelude.{◌≡◌, ◌<◌, [], get_or, Ok, Err, IfErr, IfOk, MatchOption, MatchResult, true, false, map};
ghost use Rattle.std.specs.List.{list_all, position};
ghost use Rattle.std.specs.Str.{bytes_eq, is_utf8};
ghost use Rattle.csv.specs.Records.{fields_of};
ghost use Rattle.scim_key.specs.Names.{IsGroupName, IsUserName};
ghost use Rattle.scim_key.specs.Revisions.{IsRevision};
ghost use Rattle.source_csv.specs.Fields.{Reads, RefusedFor, SomeIsLong, read_group_name, read_key, read_login, read_member, read_revision, read_status, read_texts};
ghost use Rattle.source_csv.specs.Columns.{texts_in};
ghost use Rattle.source_csv.specs.Texts.{is_short};
ghost use Rattle.source_csv.specs.declared.faults.RowCode.TheVariants as code;

use crate::columns::{Columns, bytes_at};
use crate::faults::{Refusal, RowCode};
use crate::texts::{FieldValue, TEXT_FIELD_COUNT, VALUE_LIMIT};
use csv::{ByteRecord, StringRecord};
use scim_key::{GroupName, Key, Kind, NameFault, Revision, UserName};
use std::alloc::Global;
use std::{mem, str};

/// A field as text. `None` if it isn't UTF-8.
pub(crate) fn text_of(bytes: &[u8]) -> Option<&str>
    ensures { MatchOption result (is_utf8 bytes.now ≡ false)
        (λ text. (text.now ≡ bytes.now) × (is_utf8 bytes.now ≡ true)) }
{
    match str::from_utf8(bytes) {
        Ok(text) => Some(text),
        Err(_) => None,
    }
}

/// Whether every field is UTF-8.
fn is_text(raw: &ByteRecord) -> bool
    ensures { result ≡ list_all is_utf8 (fields_of raw.now) }
{
    for place in 0..raw.len() {
        let Some(_) = text_of(bytes_at(raw, place)) else {
            return false;
        };
    }
    true
}

/// The record as text, which takes its buffer. A record that isn't text keeps it.
#[tactic(auto, unfolding(crate::specs::Fields::read_texts))]
pub(crate) fn texts_of(alloc: Global, raw: &mut ByteRecord) -> Result<StringRecord, RowCode>
    ensures read { MatchResult result (λ texts. read_texts (fields_of raw.old)
        ≡ Ok (fields_of texts)) (λ code. read_texts (fields_of raw.old) ≡ Err code) }
    ensures same { IfOk result (λ texts. fields_of texts ≡ fields_of raw.old) }
    ensures kept { IfErr result (λ code. raw.new ≡ raw.old) }
{
    if !is_text(raw) {
        return Err(RowCode::NotUtf8);
    }
    let texts = mem::replace(raw, ByteRecord::new(alloc));
    Ok(StringRecord::from_byte_record(texts).unwrap())
}

/// The name of a user.
#[tactic(auto, unfolding(crate::specs::Fields::read_login))]
pub(crate) fn login_of(alloc: Global, text: &str) -> Result<UserName, Refusal>
    ensures exact { Reads result (read_login text.now) }
    ensures lawful { IfOk result (λ login. IsUserName login) }
{
    match UserName::read(alloc, text) {
        Ok(login) => Ok(login),
        Err(NameFault::Memory) => Err(Refusal::Memory),
        Err(_) => Err(Refusal::Refused(RowCode::Name)),
    }
}

/// The name of a group.
#[tactic(auto, unfolding(crate::specs::Fields::read_group_name))]
pub(crate) fn group_name_of(alloc: Global, text: &str) -> Result<GroupName, Refusal>
    ensures exact { Reads result (read_group_name text.now) }
    ensures lawful { IfOk result (λ name. IsGroupName name) }
{
    match GroupName::read(alloc, text) {
        Ok(name) => Ok(name),
        Err(NameFault::Memory) => Err(Refusal::Memory),
        Err(_) => Err(Refusal::Refused(RowCode::Name)),
    }
}

/// The key of the name of a user.
#[tactic(auto, unfolding(crate::specs::Fields::read_member))]
pub(crate) fn member_of(alloc: Global, name: &str) -> Result<Key, Refusal>
    ensures { Reads result (read_member name.now) }
{
    Ok(login_of(alloc, name)?.key(alloc)?)
}

/// The key of the name of a record of this kind.
#[tactic(auto, unfolding(crate::specs::Fields::read_key))]
pub(crate) fn key_of_name(alloc: Global, kind: Kind, name: &str) -> Result<Key, Refusal>
    ensures { Reads result (read_key kind name.now) }
{
    match kind {
        Kind::User => member_of(alloc, name),
        Kind::Group => Ok(group_name_of(alloc, name)?.key(alloc)?),
    }
}

/// The revision that a text spells; leading zeros are allowed.
#[tactic(auto, unfolding(crate::specs::Fields::read_revision))]
pub(crate) fn revision_of(text: &str) -> Result<Revision, RowCode>
    ensures exact { result ≡ read_revision text.now }
    ensures lawful { IfOk result (λ revision. IsRevision revision) }
{
    Revision::read(text).ok_or(RowCode::Revision)
}

/// A text of at most `VALUE_LIMIT` bytes.
fn value_of(alloc: Global, text: &str) -> Result<FieldValue, Refusal>
    ensures ok { IfOk result (λ value. (value ≡ text.now) × (is_short value ≡ true)) }
    ensures err { IfErr result (RefusedFor code.Value (is_short text.now ≡ false)) }
{
    if text.len() > VALUE_LIMIT {
        return Err(Refusal::Refused(RowCode::Value));
    }
    Ok(FieldValue::new(String::from_str(alloc, text)?))
}

/// The texts of a user, each from its column.
pub(crate) fn values_of(
    alloc: Global,
    columns: &Columns,
    texts: &StringRecord,
) -> Result<[FieldValue; TEXT_FIELD_COUNT], Refusal>
    ensures ok { IfOk result (λ values. (values ≡ texts_in columns.now (fields_of texts.now))
        × (list_all is_short values ≡ true)) }
    ensures err { IfErr result
        (RefusedFor code.Value (SomeIsLong (texts_in columns.now (fields_of texts.now)))) }
{
    columns.texts(texts).try_map(|text| value_of(alloc, text))
}

/// Whether a status is `active`; the only other one is `left`.
#[tactic(auto, unfolding(crate::specs::Fields::read_status))]
pub(crate) fn status_of(text: &str) -> Result<bool, RowCode>
    ensures { result ≡ read_status text.now }
{
    match text {
        "active" => Ok(true),
        "left" => Ok(false),
        _ => Err(RowCode::Value),
    }
}
