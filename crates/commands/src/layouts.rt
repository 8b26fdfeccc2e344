//! How the snapshots of a push are laid out, by its arguments.
ghost use Rattle.std.specs.Prelude.{◌≡◌, ◌==◌, IfOk, codes, filter_map, map, option_map};
ghost use Rattle.std.specs.List.{count_by, list_all};
ghost use Rattle.clap.specs.Matches.{first_value, found_of, one_text};
ghost use Rattle.source_csv.specs.Columns.{named};
ghost use Rattle.commands.specs.Layouts.{GivesLayouts, IsLayout, LaysOut, alias_in, are_columns, is_column, is_of_ours, is_once, named_separator, ours_in, same_column, theirs_in, view_of, wanted_separator};
ghost use Rattle.commands.specs.Simulating.{is_set};

use crate::status::CommandFault;
use clap::ArgMatches;
use provisioning::Layouts;
use scim_key::Kind;
use source_csv::{Alias, Column, Layout, Separator};
use std::alloc::{AllocError, Global};

/// Whether the arguments say that the files are snapshots.
pub(crate) fn is_snapshot(words: &ArgMatches<'_>) -> bool
    ensures { result ≡ is_set (one_text (found_of words.now) (codes "snapshot")) }
{
    words.get_one("snapshot").unwrap_or(false)
}

/// What separates fields, from the arguments: a comma, unless they say otherwise.
fn separator(words: &ArgMatches<'_>) -> Result<Separator, CommandFault>
    ensures { result ≡ wanted_separator (first_value (found_of words.now) (codes "separator")) }
{
    match words.get_str("separator") {
        None => Ok(Separator::Comma),
        Some(text) => named_separator(text),
    }
}

/// The separator of this name.
fn named_separator(text: &str) -> Result<Separator, CommandFault>
    ensures { result ≡ named_separator text.now }
{
    match text {
        "comma" => Ok(Separator::Comma),
        "semicolon" => Ok(Separator::Semicolon),
        "tab" => Ok(Separator::Tab),
        _ => Err(CommandFault::Separator),
    }
}

/// A column of ours, and its name in the header of a snapshot: OURS=THEIRS.
fn halves_of(text: &str) -> (&str, &str)
    ensures { (result.0.now ≡ ours_in text.now) × (result.1.now ≡ theirs_in text.now) }
{
    text.split_once('=').unwrap_or((text, ""))
}

/// Whether a snapshot of users or of groups may have a column of this name.
fn is_of_ours(name: &str) -> bool
    ensures { result ≡ is_of_ours name.now }
{
    Column::named(Kind::User, name).is_some() || Column::named(Kind::Group, name).is_some()
}

/// Whether it is OURS=THEIRS.
fn is_column(text: &str) -> bool
    ensures { result ≡ is_column text.now }
{
    let (ours, theirs) = halves_of(text);
    is_of_ours(ours) && !theirs.is_empty()
}

/// Whether two values of `--column` are of one column of ours.
fn same_column(one: &str, other: &str) -> bool
    ensures { result ≡ same_column one.now other.now }
{
    let ((ours, _), (others, _)) = (halves_of(one), halves_of(other));
    ours == others
}

/// Whether only one of these values is of the same column of ours as this one.
fn is_once(texts: &[&str], text: &str) -> bool
    ensures { result ≡ is_once (named texts.now) text.now }
{
    texts
        .iter()
        .filter(|other| same_column(text, other))
        .count()
        == 1
}

/// Whether each is OURS=THEIRS, with each column of ours once.
fn are_columns(texts: &[&str]) -> bool
    ensures { result ≡ are_columns (named texts.now) }
{
    texts
        .iter()
        .all(|text| is_column(text) && is_once(texts, text))
}

/// The alias that a value of `--column` gives to a snapshot of this kind.
fn alias_of(alloc: Global, kind: Kind, text: &str) -> Result<Option<Alias>, AllocError>
    ensures { IfOk result (λ alias. option_map view_of alias ≡ alias_in kind text.now) }
{
    let (ours, theirs) = halves_of(text);
    match Column::named(kind, ours) {
        Some(column) => Ok(Some(Alias {
            column,
            named: String::from_str(alloc, theirs)?,
        })),
        None => Ok(None),
    }
}

/// The aliases that the values of `--column` give to a snapshot of this kind.
fn aliases_of(alloc: Global, kind: Kind, texts: &[&str]) -> Result<Vec<Alias>, AllocError>
    ensures { IfOk result
        (λ aliases. map view_of aliases.items ≡ filter_map (alias_in kind) (named texts.now)) }
{
    let mut aliases = Vec::new(alloc);
    for text in texts {
        if let Some(alias) = alias_of(alloc, kind, text)? {
            aliases.push(alias)?;
        }
    }
    Ok(aliases)
}

/// How a snapshot of this kind is laid out.
fn layout_of(
    alloc: Global,
    kind: Kind,
    separator: Separator,
    texts: &[&str],
) -> Result<Layout, AllocError>
    ensures { IfOk result (IsLayout kind separator (named texts.now)) }
{
    Ok(Layout {
        separator,
        aliases: aliases_of(alloc, kind, texts)?,
    })
}

/// How the snapshots are laid out, by the separator and the values of `--column`.
fn laid_out(alloc: Global, separator: Separator, texts: &[&str]) -> Result<Layouts, CommandFault>
    ensures { LaysOut separator (named texts.now) result }
{
    if !are_columns(texts) {
        return Err(CommandFault::Column);
    }
    Ok(Layouts {
        users: layout_of(alloc, Kind::User, separator, texts)?,
        groups: layout_of(alloc, Kind::Group, separator, texts)?,
    })
}

/// How the snapshots are laid out, from the arguments. `None` if the files aren't snapshots.
pub(crate) fn layouts(
    alloc: Global,
    words: &ArgMatches<'_>,
) -> Result<Option<Layouts>, CommandFault>
    ensures { GivesLayouts (found_of words.now) result }
{
    if !is_snapshot(words) {
        return Ok(None);
    }
    let separator = separator(words)?;
    match words.get_strs("column") {
        Some(texts) => Ok(Some(laid_out(alloc, separator, texts)?)),
        None => Ok(Some(laid_out(alloc, separator, &[])?)),
    }
}
