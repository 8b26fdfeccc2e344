//! Rows as lines of text.
ghost use Rattle.std.specs.Prelude.{◌≡◌, IfOk, string_bytes};
ghost use Rattle.storage.specs.StoreLines.{group_line, row_line, user_line};

use scim_key::{RecordName, Revision};
use scim_resource::{Content, Stored};
use std::alloc::{AllocError, Global};

/// The line of a row, with its line end: `user bob held=1 version=1 active=true`.
pub fn row_line(alloc: Global, row: &Stored) -> Result<String, AllocError>
    ensures { IfOk result (λ line. string_bytes line ≡ row_line row.now) }
{
    let name = row.content().name(alloc)?;
    let held = row.content().revision().unwrap_or(Revision::none());
    match row.content().active() {
        Some(active) => user_line(alloc, &name, held, row.version(), active),
        None => group_line(
            alloc,
            &name,
            held,
            row.version(),
            row.content().members().len(),
        ),
    }
}

fn user_line(
    alloc: Global,
    name: &RecordName,
    held: Revision,
    version: u64,
    active: bool,
) -> Result<String, AllocError>
    ensures { IfOk result (λ line. string_bytes line ≡ user_line name.now.key held version active) }
{
    let key = name.key.as_str();
    format!(in alloc; "user {key} held={held} version={version} active={active}\n")
}

fn group_line(
    alloc: Global,
    name: &RecordName,
    held: Revision,
    version: u64,
    members: usize,
) -> Result<String, AllocError>
    ensures { IfOk result (λ line. string_bytes line
        ≡ group_line name.now.key held version members) }
{
    let key = name.key.as_str();
    format!(in alloc; "group {key} held={held} version={version} members={members}\n")
}
