//! Reads a body in chunks from a stream (RFC 9112, section 7.1).
ghost use Rattle.std.specs.Prelude.{◌≡◌, IfOk, OnOk, IfErr};
ghost use Rattle.http_text.specs.Chunks.{TakesChunked, CutsChunked};
ghost use Rattle.http_text.specs.ChunkSteps.{TakesChunks, TakesTrailers, CutsTrailers};
ghost use Rattle.http_text.specs.Steps.{SpendsTurns, EndsTurns};

use crate::fault::ReadFault;
use crate::incoming::Incoming;
use crate::input::Input;
use crate::limits::{CHUNK_FRAMING_LIMIT, RESPONSE_BODY_LIMIT};
use crate::reading::look_ahead;
use crate::trailers::TrailerPlace;
use http1::chunked::ChunkedDecoder;
use std::alloc::Global;
use std::io::Read;

/// Reads a body in chunks, and appends its content to the message's body. The trailers are read over.
pub(crate) fn read_chunked<R: Read>(
    alloc: Global,
    reader: &mut Input<R>,
    message: &mut Incoming,
    turns: &mut u32,
) -> Result<(), ReadFault>
    ensures body { OnOk result
        (TakesChunked reader.old.remaining reader.new.remaining message.old message.new) }
    ensures cut { IfErr result (CutsChunked reader.old.remaining reader.new.remaining) }
    ensures counts { SpendsTurns reader.old reader.new turns.old turns.new }
    ensures clean { OnOk result (reader.new.failures ≡ reader.old.failures) }
    ensures fault { IfErr result (EndsTurns reader.old reader.new turns.new) }
{
    let room = read_chunks(alloc, reader, message, turns)?;
    read_trailers(alloc, reader, room, turns)
}

/// Reads chunks up to the line of the last one, and appends their content to the message's body. The result is how
/// many bytes of framing may follow. If the decoder refuses the bytes that were read ahead, it goes on byte by byte.
fn read_chunks<R: Read>(
    alloc: Global,
    reader: &mut Input<R>,
    message: &mut Incoming,
    turns: &mut u32,
) -> Result<usize, ReadFault>
    ensures chunks { IfOk result
        (TakesChunks reader.old.remaining reader.new.remaining message.old message.new) }
    ensures cut { IfErr result (CutsChunked reader.old.remaining reader.new.remaining) }
    ensures counts { SpendsTurns reader.old reader.new turns.old turns.new }
    ensures clean { OnOk result (reader.new.failures ≡ reader.old.failures) }
    ensures fault { IfErr result (EndsTurns reader.old reader.new turns.new) }
{
    let mut decoder = ChunkedDecoder::new(CHUNK_FRAMING_LIMIT);
    let mut framing = CHUNK_FRAMING_LIMIT;
    let mut content = RESPONSE_BODY_LIMIT as usize;
    let mut most = usize::MAX;
    while !decoder.is_done() {
        look_ahead(alloc, reader, turns)?;
        let count = reader
            .ahead()
            .len()
            .min(framing + 1)
            .min(content + 1)
            .min(most);
        let input = &reader.ahead()[..count];
        let mut next = decoder;
        match next.decode(input) {
            Ok(piece) => {
                let length = piece.end - piece.start;
                if piece.start > framing || length > content {
                    reader.take(piece.end);
                    return Err(ReadFault::BodyTooLong { is_head: false });
                }
                message.append(piece.of(input))?;
                reader.take(piece.end);
                framing -= piece.start;
                content -= length;
                decoder = next;
            }
            Err(_) if count == 1 => {
                reader.take(1);
                return Err(ReadFault::Malformed { is_head: false });
            }
            Err(_) => most = 1,
        }
    }
    Ok(framing)
}

/// Reads the trailers, of at most `room` bytes.
fn read_trailers<R: Read>(
    alloc: Global,
    reader: &mut Input<R>,
    room: usize,
    turns: &mut u32,
) -> Result<(), ReadFault>
    ensures trailers { OnOk result
        (TakesTrailers room reader.old.remaining reader.new.remaining) }
    ensures cut { IfErr result (CutsTrailers room reader.old.remaining reader.new.remaining) }
    ensures counts { SpendsTurns reader.old reader.new turns.old turns.new }
    ensures clean { OnOk result (reader.new.failures ≡ reader.old.failures) }
    ensures fault { IfErr result (EndsTurns reader.old reader.new turns.new) }
{
    let mut room = room;
    let mut place = TrailerPlace::LineStart;
    while place != TrailerPlace::End {
        look_ahead(alloc, reader, turns)?;
        place = place.after(reader.ahead()[0]);
        reader.take(1);
        if room == 0 {
            return Err(ReadFault::BodyTooLong { is_head: false });
        }
        if place == TrailerPlace::Malformed {
            return Err(ReadFault::Malformed { is_head: false });
        }
        room -= 1;
    }
    Ok(())
}
