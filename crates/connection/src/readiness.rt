//! Whether a request is whole.
ghost use Rattle.std.specs.Prelude.{◌≡◌, ◌++◌, ℕ, List, Some, length, replicate, IfOk, IsTrue};
ghost use Rattle.http_text.specs.Message.{body_limit};
ghost use Rattle.http_text.specs.Forms.{request_form};
ghost use Rattle.http_text.specs.Heads.{IsUnfinished};
ghost use Rattle.connection.specs.Arriving.{HasExtent};

use http_text::{BODY_LIMIT, Input, ReadFault, read_request};
use std::alloc::{AllocError, Global};

/// How far a request is.
#[derive(Clone, Copy)]
pub(crate) enum Extent {
    /// Its head isn't whole.
    PartOfHead,
    /// Its head is whole, and says that the request has this length.
    Whole(usize),
    /// Nothing is known: memory ran out.
    Unknown,
}

/// Whether more bytes are needed to know what a request is, by reading it. If memory runs out, nobody waits
/// for more.
pub(crate) fn is_part(alloc: Global, bytes: &[u8]) -> bool
    ensures { IsTrue result → IsUnfinished request_form bytes.now }
{
    let mut input = Input::new(bytes);
    if let Err(ReadFault::EndedEarly) = read_request(alloc, &mut input) {
        return true;
    }
    false
}

/// How far a request is of which more bytes are needed. It is read as if the longest body had come: if the
/// head is whole, that is a request.
pub(crate) fn extent_of(alloc: Global, bytes: &[u8]) -> Extent
    ensures { HasExtent bytes.now result }
{
    let Ok(padded) = padded(alloc, bytes) else {
        return Extent::Unknown;
    };
    let mut input = Input::new(padded.as_slice());
    match read_request(alloc, &mut input) {
        Ok(request) => {
            let whole = padded.len().saturating_sub(left_in(input));
            if whole.saturating_sub(request.body().len()) <= bytes.len() {
                Extent::Whole(whole)
            } else {
                Extent::Unknown
            }
        }
        Err(ReadFault::Malformed { .. }) => Extent::PartOfHead,
        Err(_) => Extent::Unknown,
    }
}

/// These bytes, and then as many others as a body may have.
fn padded(alloc: Global, bytes: &[u8]) -> Result<Vec<u8>, AllocError>
    ensures { IfOk result (λ padded. padded.items ≡ bytes.now ++ replicate body_limit 0) }
{
    let mut padded = Vec::with_capacity(alloc, bytes.len() + BODY_LIMIT as usize)?;
    padded.extend_from_slice(bytes)?;
    padded.extend_from_slice(&[0; BODY_LIMIT as usize])?;
    Ok(padded)
}

/// How many bytes weren't taken.
fn left_in(input: Input<&[u8]>) -> usize
    ensures { (rest : List ℕ) → input.entry.remaining ≡ Some rest → result ≡ length rest }
{
    let ahead = input.ahead().len();
    ahead + input.into_inner().len()
}
