//! What is said of a snapshot: which of its columns are ignored, what its header is, and why nobody who is absent is
//! switched off.
use crate::sources::{Source, label};
use journal_core::Printable;
use scim_key::Kind;
use snapshots::Unsure;
use std::fmt;
use std::io::Eprint;

/// How many bytes of a header are printed.
const MOST_SHOWN: usize = 400;

/// A text of others. Printable characters without a backslash are printed as they are, else its bytes as `Printable`.
#[derive(Clone, Copy)]
struct Readable<'a>(&'a [u8]);

impl<'a> fmt::Display for Readable<'a> {
    fn fmt<W: fmt::Write>(&self, f: &mut fmt::Formatter<W>) -> fmt::Result {
        match str::from_utf8(self.0) {
            Ok(text) if text.chars().all(is_plain) => f.write_str(text),
            _ => write!(f, "{}", Printable(self.0)),
        }
    }
}

/// Whether a character is printed as it is.
fn is_plain(character: char) -> bool {
    !character.is_control() && character != '\\'
}

/// Names of columns, with a comma between two.
#[derive(Clone, Copy)]
struct Names<'a>(&'a [Vec<u8>]);

impl<'a> fmt::Display for Names<'a> {
    fn fmt<W: fmt::Write>(&self, f: &mut fmt::Formatter<W>) -> fmt::Result {
        let mut between = "";
        for name in self.0 {
            write!(f, "{between}{}", Readable(name))?;
            between = ", ";
        }
        Ok(())
    }
}

/// What is wrong with a snapshot, so that it isn't certain who is absent.
#[derive(Clone, Copy)]
enum Doubt {
    Header,
    Of(Unsure),
}

impl fmt::Display for Doubt {
    fn fmt<W: fmt::Write>(&self, f: &mut fmt::Formatter<W>) -> fmt::Result {
        match self {
            Doubt::Header => f.write_str(": the header isn't that of a snapshot"),
            Doubt::Of(Unsure::Unreadable { place }) => {
                write!(f, " record {place} can't be read")
            }
            Doubt::Of(Unsure::OpenQuote) => f.write_str(": a quote may be missing"),
            Doubt::Of(Unsure::NoRecord) => f.write_str(": there is no record"),
        }
    }
}

/// Why it isn't certain who is absent from a snapshot, if it isn't.
fn doubt_of(source: &Source) -> Option<Doubt> {
    match (&source.rows, source.unsure) {
        (None, _) => Some(Doubt::Header),
        (Some(_), Some(why)) => Some(Doubt::Of(why)),
        (Some(_), None) => None,
    }
}

/// What isn't done to records that are absent, if it isn't certain which are.
fn kept(kind: Kind) -> &'static str {
    match kind {
        Kind::User => "nobody who is absent was switched off",
        Kind::Group => "no group that is absent was emptied",
    }
}

/// Reports the columns of a snapshot that are ignored.
pub(crate) fn tell_ignored(rt: &impl Eprint, source: &Source) {
    if !source.ignored.is_empty() {
        let (label, names) = (label(source.kind), Names(source.ignored.as_slice()));
        let _ = eprintln!(rt; "{label}: ignored columns: {names}");
    }
}

/// Whether this byte ends a line.
fn ends_line(byte: &u8) -> bool {
    *byte == b'\n' || *byte == b'\r'
}

/// The first line of a file, as far as it is printed.
fn first_line(bytes: &[u8]) -> &[u8] {
    let line = bytes.split(ends_line).next().unwrap_or(bytes);
    line.get(..MOST_SHOWN).unwrap_or(line)
}

/// Reports the first line of a file whose header isn't that of a snapshot.
pub(crate) fn tell_header(rt: &impl Eprint, source: &Source, bytes: &[u8]) {
    if source.rows.is_some() {
        return;
    }
    let label = label(source.kind);
    let _ = match first_line(bytes) {
        [] => eprintln!(rt; "{label}: the first line is empty"),
        line => eprintln!(rt; "{label}: the first line is: {}", Readable(line)),
    };
}

/// Reports why nobody who is absent is switched off, if so.
pub(crate) fn tell_unsure(rt: &impl Eprint, source: &Source) {
    if let Some(doubt) = doubt_of(source) {
        let (label, kept) = (label(source.kind), kept(source.kind));
        let _ = eprintln!(rt; "{label}{doubt}: {kept}");
    }
}
