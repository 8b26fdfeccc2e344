//! Texts of others, as they are printed.
ghost use Rattle.std.specs.Prelude.{◌≡◌, ◌<◌, true};
ghost use Rattle.std.specs.Fmt.{digit_glyph};
ghost use Rattle.journal_core.specs.Printable.{is_plain};

use std::fmt;

/// Bytes of others. Printable ASCII is printed as it is, but for the backslash; any other byte as `\xNN`.
#[derive(Clone, Copy)]
pub struct Printable<'a>(pub &'a [u8]);

/// One byte of others.
#[derive(Clone, Copy)]
struct PrintableByte(u8);

/// Whether a byte is printed as it is.
fn is_plain(byte: u8) -> bool
    ensures { result ≡ is_plain byte }
{
    0x20 <= byte && byte <= 0x7e && byte != b'\\'
}

/// A hexadecimal digit.
fn digit_glyph(digit: u8) -> char
    requires { digit < 16 }
    ensures { result ≡ digit_glyph true digit }
{
    if digit < 10 {
        char::from(b'0' + digit)
    } else {
        char::from(b'A' + (digit - 10))
    }
}

impl fmt::Display for PrintableByte {
    ghost use Rattle.std.specs.Prelude.{Some};
    ghost use Rattle.journal_core.specs.Printable.{printable_byte};

    ghost output = { λ byte. Some (printable_byte byte.0) };

    fn fmt<W: fmt::Write>(&self, f: &mut fmt::Formatter<W>) -> fmt::Result {
        let PrintableByte(byte) = *self;
        if is_plain(byte) {
            f.write_char(char::from(byte))
        } else {
            write!(f, "\\x{}{}", digit_glyph(byte / 16), digit_glyph(byte % 16))
        }
    }
}

impl<'a> fmt::Display for Printable<'a> {
    ghost use Rattle.std.specs.Prelude.{Some};
    ghost use Rattle.journal_core.specs.Printable.{printable_text};

    ghost output = { λ text. Some (printable_text text.0.now) };

    fn fmt<W: fmt::Write>(&self, f: &mut fmt::Formatter<W>) -> fmt::Result {
        for byte in self.0 {
            write!(f, "{}", PrintableByte(*byte))?;
        }
        Ok(())
    }
}
