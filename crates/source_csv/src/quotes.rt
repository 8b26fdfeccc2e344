//! Whether a file ends within quotes.
ghost use Rattle.std.specs.Prelude.{◌≡◌};
ghost use Rattle.csv.specs.Reading.{strip_bom};
ghost use Rattle.source_csv.specs.Quotes.{after, is_closed, is_open, opening, outside, quoting_after, within};
ghost use Rattle.source_csv.specs.declared.quotes.Quoting.TheVariants.{Start};

use crate::layouts::Separator;

/// Where the next byte of a file stands, as far as quotes go.
#[derive(Clone, Copy)]
pub(crate) enum Quoting {
    /// At the start of a field: a quote opens it.
    Start,
    /// In a field without quotes.
    Plain,
    /// Within quotes.
    Quoted,
    /// After a quote within quotes: it closes the field, unless another quote follows.
    AfterQuote,
}

/// Where a byte leads that isn't within quotes, and opens none.
fn outside(separator: Separator, byte: u8) -> Quoting
    ensures { result ≡ outside separator byte }
{
    if byte == separator.byte() || byte == b'\r' || byte == b'\n' {
        Quoting::Start
    } else {
        Quoting::Plain
    }
}

/// Where a byte leads at which a quote opens or goes on.
fn opening(separator: Separator, byte: u8) -> Quoting
    ensures { result ≡ opening separator byte }
{
    if byte == b'"' {
        Quoting::Quoted
    } else {
        outside(separator, byte)
    }
}

/// Where a byte within quotes leads.
fn within(byte: u8) -> Quoting
    ensures { result ≡ within byte }
{
    if byte == b'"' {
        Quoting::AfterQuote
    } else {
        Quoting::Quoted
    }
}

impl Quoting {
    /// Where the byte after this one stands.
    fn after(self, separator: Separator, byte: u8) -> Quoting
        ensures { result ≡ after separator self byte }
    {
        match self {
            Quoting::Start => opening(separator, byte),
            Quoting::Plain => outside(separator, byte),
            Quoting::Quoted => within(byte),
            Quoting::AfterQuote => opening(separator, byte),
        }
    }

    fn is_open(self) -> bool
        ensures { result ≡ is_open self }
    {
        match self {
            Quoting::Quoted => true,
            Quoting::Start | Quoting::Plain | Quoting::AfterQuote => false,
        }
    }
}

/// The bytes of a file without a byte order mark at their start.
fn without_mark(bytes: &[u8]) -> &[u8]
    ensures { result.now ≡ strip_bom bytes.now }
{
    bytes.strip_prefix(b"\xEF\xBB\xBF").unwrap_or(bytes)
}

/// Where the end of these bytes stands, from the start of a file on.
fn end_of(separator: Separator, bytes: &[u8]) -> Quoting
    ensures { result ≡ quoting_after separator Start bytes.now }
{
    let mut quoting = Quoting::Start;
    for byte in bytes {
        quoting = quoting.after(separator, *byte);
    }
    quoting
}

/// Whether no quote is open at the end of a file with this separator.
pub(crate) fn is_closed(separator: Separator, bytes: &[u8]) -> bool
    ensures { result ≡ is_closed separator bytes.now }
{
    !end_of(separator, without_mark(bytes)).is_open()
}
