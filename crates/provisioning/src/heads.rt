//! The head of a response, as far as it was kept.
use http_text::{FIELD_LIMIT, INTERIM_LIMIT};
use httparse::Status;
use httparse::spans::{EMPTY_HEADER_SPAN, HeaderSpan, Span, parse_response};

/// The head of a response, and the bytes after it.
#[derive(Clone, Copy)]
pub(crate) struct Head<'a> {
    pub status: u16,
    bytes: &'a [u8],
    length: usize,
    fields: [HeaderSpan; FIELD_LIMIT],
}

impl<'a> Head<'a> {
    /// The first head of these bytes that isn't interim, if it is there whole, with a status that has a meaning.
    pub fn of(bytes: &'a [u8]) -> Option<Head<'a>> {
        let mut rest = bytes;
        for _ in 0..=INTERIM_LIMIT {
            let head = Head::at_front(rest)?;
            if head.status >= 200 || head.status == 101 {
                return Some(head);
            }
            rest = head.rest();
        }
        None
    }

    fn at_front(bytes: &'a [u8]) -> Option<Head<'a>> {
        let mut fields = [EMPTY_HEADER_SPAN; FIELD_LIMIT];
        match parse_response(bytes, &mut fields) {
            Ok(Status::Complete(head)) if head.code >= 100 => Some(Head {
                status: head.code,
                bytes,
                length: head.len,
                fields,
            }),
            _ => None,
        }
    }

    /// The value of the first field with this name, in any case.
    pub fn field(&self, name: &str) -> Option<&'a [u8]> {
        for field in &self.fields {
            if self.part(field.name).eq_ignore_ascii_case(name.as_bytes()) {
                return Some(self.part(field.value));
            }
        }
        None
    }

    /// The bytes after the head.
    pub fn rest(&self) -> &'a [u8] {
        self.part(Span {
            start: self.length,
            end: self.bytes.len(),
        })
    }

    /// The bytes of a part.
    fn part(&self, span: Span) -> &'a [u8] {
        self.bytes.get(span.start..span.end).unwrap_or(&[])
    }
}
