//! The records that the arguments of `reset` name.
ghost use Rattle.std.specs.Prelude.{◌≡◌, IfOk, is_none};
ghost use Rattle.clap.specs.Matches.{found_of};
ghost use Rattle.source_csv.specs.Columns.{named};
ghost use Rattle.commands.specs.Scopes.{Names, is_valid, name_in, record_in, record_of, record_texts, type_in};

use clap::ArgMatches;
use journal_store::Scope;
use scim_key::{GroupName, Key, Kind, NameFault, RecordName, UserName};
use std::alloc::{AllocError, Global};

/// What some words name.
#[derive(Drop)]
pub enum Named<'a> {
    /// These records, or all if there are no words.
    Scope(Scope),
    /// This word names no record.
    Wrong(&'a str),
}

/// The type and the name of a record that is written TYPE:NAME.
fn halves_of(text: &str) -> (&str, &str)
    ensures { (result.0.now ≡ type_in text.now) × (result.1.now ≡ name_in text.now) }
{
    text.split_once(':').unwrap_or((text, ""))
}

/// Whether a text is a valid name of a record of this type.
fn is_valid(alloc: Global, kind: Kind, name: &str) -> Result<bool, AllocError>
    ensures { IfOk result (λ valid. valid ≡ is_valid kind name.now) }
{
    let fault = match kind {
        Kind::User => UserName::read(alloc, name).err(),
        Kind::Group => GroupName::read(alloc, name).err(),
    };
    match fault {
        Some(NameFault::Memory) => Err(AllocError),
        Some(_) => Ok(false),
        None => Ok(true),
    }
}

/// The record of this type and this name, if the name is valid.
fn record_of(alloc: Global, kind: Kind, name: &str) -> Result<Option<RecordName>, AllocError>
    ensures { IfOk result (λ found. found ≡ record_of kind name.now) }
{
    if !is_valid(alloc, kind, name)? {
        return Ok(None);
    }
    let key = Key::of(alloc, name)?;
    Ok(Some(RecordName { kind, key }))
}

/// The record that a word names: `user:LOGIN` or `group:NAME`.
fn record_in(alloc: Global, text: &str) -> Result<Option<RecordName>, AllocError>
    ensures { IfOk result (λ found. found ≡ record_in text.now) }
{
    let (kind, name) = halves_of(text);
    match kind {
        "user" => record_of(alloc, Kind::User, name),
        "group" => record_of(alloc, Kind::Group, name),
        _ => Ok(None),
    }
}

/// The records that these words name, or the first word that names none.
fn records_in<'a>(alloc: Global, texts: &[&'a str]) -> Result<Named<'a>, AllocError>
    ensures { IfOk result (Names (named texts.now)) }
{
    let mut names = Vec::new(alloc);
    for text in texts {
        let record = record_in(alloc, text)?;
        let Some(name) = record else {
            return Ok(Named::Wrong(*text));
        };
        names.push(name)?;
    }
    Ok(Named::Scope(Scope::These(names)))
}

/// The records that the arguments name: all if they name none. Or the first word that names no record.
pub(crate) fn records<'a>(alloc: Global, words: &ArgMatches<'a>) -> Result<Named<'a>, AllocError>
    ensures { IfOk result (Names (record_texts (found_of words.now))) }
{
    match words.get_strs("record") {
        Some(texts) => records_in(alloc, texts),
        None => Ok(Named::Scope(Scope::All)),
    }
}
