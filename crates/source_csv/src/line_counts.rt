//! How many lines the fields of a record have.
ghost use Rattle.std.specs.Prelude.{◌≡◌, max, nat_lt};
ghost use Rattle.std.specs.List.{list_all};
ghost use Rattle.csv.specs.Records.{fields_of};
ghost use Rattle.source_csv.specs.Lines.{ends_line, field_lines, record_lines};

use crate::columns::bytes_at;
use csv::ByteRecord;

/// Whether a byte ends a line, given whether it follows a carriage return.
fn ends_line(after_return: bool, byte: u8) -> bool
    ensures { result ≡ ends_line after_return byte }
{
    byte == b'\r' || (byte == b'\n' && !after_return)
}

/// Whether all bytes of a field come after those that end a line.
fn is_one_line(field: &[u8]) -> bool
    ensures { result ≡ list_all (nat_lt 13) field.now }
{
    field.iter().all(|byte| *byte > b'\r')
}

fn field_lines(field: &[u8]) -> usize
    ensures { result ≡ field_lines field.now }
{
    if is_one_line(field) {
        return 1;
    }
    let mut lines = 1;
    let mut after_return = false;
    for byte in field {
        if ends_line(after_return, *byte) {
            lines += 1;
        }
        after_return = *byte == b'\r';
    }
    lines
}

fn greater(one: usize, other: usize) -> usize
    ensures { result ≡ max one other }
{
    if one < other { other } else { one }
}

/// How many lines the longest field of a record has.
pub(crate) fn record_lines(raw: &ByteRecord) -> usize
    ensures { result ≡ record_lines (fields_of raw.now) }
{
    let mut most = 0;
    for place in 0..raw.len() {
        most = greater(most, field_lines(bytes_at(raw, place)));
    }
    most
}
