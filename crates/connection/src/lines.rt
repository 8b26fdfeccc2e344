//! Where a head ends, by its line ends alone.
ghost use Rattle.std.specs.Prelude.{◌≡◌, ◌≤◌, ◌↔◌, IsTrue, length, take};
ghost use Rattle.connection.specs.Lines as spec;
ghost use Rattle.connection.specs.declared.lines.HeadLines.TheVariants.{Blank, Ended};

use memchr::memchr;

/// How far the lines of a head are that arrives. An empty line ends it, after its first line.
#[derive(Clone, Copy)]
pub(crate) enum HeadLines {
    /// Only line ends have come.
    Blank,
    /// Within a line.
    Inside,
    /// At the beginning of a line that isn't the first.
    Start,
    /// There too, after a carriage return.
    Return,
    /// Behind the empty line.
    Ended,
}

impl HeadLines {
    /// After one more byte.
    fn after(self, byte: u8) -> HeadLines
        ensures { result ≡ spec.line_after self byte }
    {
        if byte != b'\n' && byte != b'\r' {
            return self.within();
        }
        match self {
            HeadLines::Blank => if byte == b'\n' || byte == b'\r' {
                HeadLines::Blank
            } else {
                HeadLines::Inside
            }
            HeadLines::Inside => if byte == b'\n' {
                HeadLines::Start
            } else {
                HeadLines::Inside
            }
            HeadLines::Start => match byte {
                b'\n' => HeadLines::Ended,
                b'\r' => HeadLines::Return,
                _ => HeadLines::Inside,
            }
            HeadLines::Return => if byte == b'\n' {
                HeadLines::Ended
            } else {
                HeadLines::Inside
            }
            HeadLines::Ended => HeadLines::Ended,
        }
    }

    /// After a byte that ends no line.
    fn within(self) -> HeadLines
        ensures { result ≡ spec.line_after self 0 }
    {
        if self.have_ended() {
            HeadLines::Ended
        } else {
            HeadLines::Inside
        }
    }

    /// Whether a head that begins like this may be whole.
    pub(crate) fn have_ended(self) -> bool
        ensures { IsTrue result ↔ (self ≡ Ended) }
    {
        matches!(self, HeadLines::Ended)
    }

    /// How many of these bytes, from the first on, leave the lines as they are: within a line those before its end, and
    /// before the first line all line ends.
    fn unchanged_by(self, bytes: &[u8]) -> usize
        ensures bound { result ≤ length bytes.now }
        ensures same { spec.lines_after self (take result bytes.now) ≡ self }
    {
        match self {
            HeadLines::Inside => match memchr(b'\n', bytes) {
                Some(place) => place,
                None => bytes.len(),
            }
            HeadLines::Ended => bytes.len(),
            HeadLines::Blank => line_ends(bytes),
            HeadLines::Start | HeadLines::Return => 0,
        }
    }
}

/// How many line ends these bytes begin with.
fn line_ends(bytes: &[u8]) -> usize
    ensures bound { result ≤ length bytes.now }
    ensures same { spec.lines_after Blank (take result bytes.now) ≡ Blank }
{
    for place in 0..bytes.len() {
        let byte = bytes[place];
        if byte != b'\n' && byte != b'\r' {
            return place;
        }
    }
    bytes.len()
}

/// How far the lines are after these bytes.
pub(crate) fn lines_after(lines: HeadLines, bytes: &[u8]) -> HeadLines
    ensures { result ≡ spec.lines_after lines bytes.now }
{
    let mut reached = lines;
    let mut rest = bytes;
    while let Some((byte, more)) = rest[reached.unchanged_by(rest)..].split_first() {
        reached = reached.after(*byte);
        rest = more;
    }
    reached
}
