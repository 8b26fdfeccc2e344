//! Records with a field over several lines, for example because a quote is missing.
ghost use Rattle.std.specs.Prelude.{◌≡◌};
ghost use Rattle.csv.specs.Records.{fields_of};
ghost use Rattle.source_csv.specs.Lines.{multiline_at};

use crate::line_counts::record_lines;
use csv::ByteRecord;
use std::fmt;

/// A record with a field over several lines. Its text asks whether a quote is missing.
#[derive(Clone, Copy)]
pub struct Multiline {
    /// The place of the record, from 1 after the header.
    pub place: usize,
    /// How many lines its longest field has.
    pub lines: usize,
}

impl fmt::Display for Multiline {
    ghost use Rattle.source_csv.specs.Lines.{multiline_text};

    ghost output = { multiline_text };

    fn fmt<W: fmt::Write>(&self, f: &mut fmt::Formatter<W>) -> fmt::Result {
        let Multiline { place, lines } = *self;
        write!(
            f,
            "record {place}: a quoted field goes over {lines} lines; is a quote missing?"
        )
    }
}

/// The record at this place, if it has a field over several lines.
pub fn multiline_at(place: usize, raw: &ByteRecord) -> Option<Multiline>
    ensures { result ≡ multiline_at place (fields_of raw.now) }
{
    let lines = record_lines(raw);
    if lines > 1 {
        Some(Multiline { place, lines })
    } else {
        None
    }
}
