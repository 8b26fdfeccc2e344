//! The printed lines.
ghost use Rattle.std.specs.Prelude.{◌≡◌, IfOk, string_bytes};
ghost use Rattle.storage.specs.JournalLines.{entry_line, id_text};
ghost use Rattle.storage.specs.Resetting.{reset_line};

use journal_core::{Entry, Printable, kind_word};
use scim_key::ResourceId;
use std::alloc::{AllocError, Global};

/// The line of an entry, with its line end: `user bob wanted=1 confirmed=1 id=..`, and `-` for no id. An id is a text
/// of the provider, so it is printed as `Printable` says.
pub fn entry_line(alloc: Global, entry: &Entry) -> Result<String, AllocError>
    ensures { IfOk result (λ line. string_bytes line ≡ entry_line entry.now) }
{
    let name = entry.row.record_name(alloc)?;
    let (kind, key) = (kind_word(name.kind), name.key.as_str());
    let (wanted, confirmed) = (entry.row.revision(), entry.confirmed);
    let id = Printable(id_text(&entry.id).as_bytes());
    format!(in alloc; "{kind} {key} wanted={wanted} confirmed={confirmed} id={id}\n")
}

fn id_text(id: &Option<ResourceId>) -> &str
    ensures { result.now ≡ id_text id.now }
{
    match id {
        Some(id) => id.as_str(),
        None => "-",
    }
}

/// The line of a reset that changed this many entries, with its line end: `reset 3 records`.
pub fn reset_line(alloc: Global, count: usize) -> Result<String, AllocError>
    ensures { IfOk result (λ line. string_bytes line ≡ reset_line count) }
{
    format!(in alloc; "reset {count} records\n")
}
