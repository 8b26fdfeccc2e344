//! The bytes of a message, from its start line on (RFC 9112, section 2.1).
ghost use Rattle.std.specs.Prelude.{◌≡◌, ◌++◌, ◌∷◌, [], map, option_map, IfOk, OnOk};
ghost use Rattle.std.specs.List.{flat_map};
ghost use Rattle.httparse.specs.Grammar.{print_field};
ghost use Rattle.http_text.specs.Response.{field_line, line_of, message_text, written_lines};

use std::alloc::{AllocError, Global};

/// How many bytes a field line has beside its name and its value: `: ` and the line's end.
const LINE_ROOM: usize = 4;

/// How many bytes end the start line and the head.
const ENDS_ROOM: usize = 4;

/// A field line; it is written if it has a value.
#[derive(Clone, Copy)]
pub struct FieldLine<'a> {
    pub name: &'a str,
    pub value: Option<&'a [u8]>,
}

impl<'a> FieldLine<'a> {
    /// A line with this name, and with this value if there is one.
    pub fn new(name: &'a str, value: Option<&'a [u8]>) -> FieldLine<'a>
        ensures { line_of result ≡ (name.now, option_map (λ t. t.now) value.entry) }
    {
        FieldLine { name, value }
    }
}

/// The bytes of a message with a start line of these parts, in one allocation.
pub(crate) fn write_message(
    alloc: Global,
    start: &[&str],
    fields: &[FieldLine<'_>],
    body: &[u8],
) -> Result<Vec<u8>, AllocError>
    ensures { IfOk result (λ text. text.items
        ≡ message_text (flat_map (λ part. part.now) start.now)
        (written_lines (map line_of fields.now)) body.now) }
{
    let mut text = Vec::with_capacity(alloc, room_of(start, fields, body))?;
    write_start(&mut text, start)?;
    text.extend_from_slice(b"\r\n")?;
    write_fields(&mut text, fields)?;
    text.extend_from_slice(b"\r\n")?;
    text.extend_from_slice(body)?;
    Ok(text)
}

/// How many bytes a message has.
fn room_of(start: &[&str], fields: &[FieldLine<'_>], body: &[u8]) -> usize {
    let mut room = body.len().saturating_add(ENDS_ROOM);
    for part in start {
        room = room.saturating_add(part.len());
    }
    for field in fields {
        room = room.saturating_add(room_of_line(field));
    }
    room
}

fn room_of_line(field: &FieldLine<'_>) -> usize {
    match field.value {
        Some(value) => {
            LINE_ROOM
                .saturating_add(field.name.len())
                .saturating_add(value.len())
        }
        None => 0,
    }
}

fn write_start(text: &mut Vec<u8>, start: &[&str]) -> Result<(), AllocError>
    ensures { OnOk result
        (text.new.items ≡ text.old.items ++ flat_map (λ part. part.now) start.now) }
{
    for part in start {
        text.extend_from_slice(part.as_bytes())?;
    }
    Ok(())
}

fn write_fields(text: &mut Vec<u8>, fields: &[FieldLine<'_>]) -> Result<(), AllocError>
    ensures { OnOk result (text.new.items ≡ text.old.items
        ++ flat_map print_field (map field_line (written_lines (map line_of fields.now)))) }
{
    for field in fields {
        write_field(text, field)?;
    }
    Ok(())
}

fn write_field(text: &mut Vec<u8>, field: &FieldLine<'_>) -> Result<(), AllocError>
    ensures { OnOk result (text.new.items ≡ text.old.items
        ++ flat_map print_field (map field_line (written_lines (map line_of (field.now ∷ []))))) }
{
    match field.value {
        Some(value) => {
            text.extend_from_slice(field.name.as_bytes())?;
            text.extend_from_slice(b": ")?;
            text.extend_from_slice(value)?;
            text.extend_from_slice(b"\r\n")
        }
        None => Ok(()),
    }
}
