//! Writes the members of an object.
ghost use Rattle.std.specs.Prelude.{Some, OnOk, option_map};
ghost use Rattle.serde_json.specs.Data.{number, string, unsigned};
ghost use Rattle.scim_json.specs.Writing.{WritesPart};

use json::Writer;
use std::alloc::AllocError;

/// The initial capacity of a JSON text, in bytes.
pub const TEXT_ROOM: usize = 512;

/// Writes a member whose value is a text.
pub fn write_text(out: &mut Writer, name: &str, text: &str) -> Result<(), AllocError>
    ensures { OnOk result (WritesPart name.now (Some (string text.now)) out.old out.new) }
{
    out.key(name)?;
    out.string(text)
}

/// Writes a member whose value is a text, if there is one.
pub fn write_text_if(out: &mut Writer, name: &str, text: Option<&str>) -> Result<(), AllocError>
    ensures { OnOk result
        (WritesPart name.now
        (option_map string (option_map (λ t. t.now) text.entry)) out.old out.new) }
{
    match text {
        None => Ok(()),
        Some(text) => write_text(out, name, text),
    }
}

/// Writes a member whose value is a whole number.
pub fn write_whole(out: &mut Writer, name: &str, n: u64) -> Result<(), AllocError>
    ensures { OnOk result (WritesPart name.now (Some (number (unsigned n))) out.old out.new) }
{
    out.key(name)?;
    out.u64(n)
}
