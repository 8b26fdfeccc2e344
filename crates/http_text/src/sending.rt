//! Sends bytes whole, or reports how many were sent.
ghost use Rattle.std.specs.Prelude.{◌≡◌, OnOk, OnErr, IfErr};
ghost use Rattle.std.specs.Io.KnownBytes.{Keeps, Appends};
ghost use Rattle.http_text.specs.Counts.{count_up, CountsTurns};
ghost use Rattle.http_text.specs.Sending.{IsLost, EndsSending};

use crate::fault::SendFault;
use crate::limits::TURN_LIMIT;
use crate::output::{Output, WriteTurn};
use std::io::Write;

/// Sends the bytes and flushes. An interrupted write is made again.
pub fn send<W: Write>(writer: &mut Output<W>, bytes: &[u8]) -> Result<(), SendFault>
    ensures ok { OnOk result (Appends writer.old.contents writer.new.contents bytes.now) }
    ensures flushed { OnOk result (writer.new.flushes ≡ count_up writer.old.flushes 1) }
    ensures clean { OnOk result (writer.new.failures ≡ writer.old.failures) }

    // A fault reports how much was sent, and agrees with the counts.
    ensures lost { IfErr result (IsLost writer.old writer.new bytes.now) }
    ensures fault { IfErr result (EndsSending writer.old writer.new) }
    ensures counts { CountsTurns writer.old.calls writer.new.calls }
{
    let mut rest = bytes;
    for _ in 0..TURN_LIMIT {
        let sent = bytes.len() - rest.len();
        if rest.is_empty() {
            return finish(writer, sent);
        }
        match writer.write(rest) {
            WriteTurn::Taken(count) => rest = &rest[count..],
            WriteTurn::Interrupted => {}
            WriteTurn::Failed => return Err(SendFault::WriteFailed { sent }),
        }
    }
    Err(SendFault::TurnsExhausted {
        sent: bytes.len() - rest.len(),
    })
}

/// Flushes the bytes that were sent.
fn finish<W: Write>(writer: &mut Output<W>, sent: usize) -> Result<(), SendFault>
    ensures bytes { Keeps writer.old.contents writer.new.contents }
    ensures flushed { writer.new.flushes ≡ count_up writer.old.flushes 1 }
    ensures counted { writer.new.calls ≡ count_up writer.old.calls 1 }
    ensures clean { OnOk result (writer.new.failures ≡ writer.old.failures) }
    ensures fault { IfErr result (λ fault. fault ≡ SendFault.WriteFailed sent) }
    ensures failed { OnErr result (writer.new.failures ≡ count_up writer.old.failures 1) }
{
    let is_flushed = writer.flush();
    if is_flushed {
        Ok(())
    } else {
        Err(SendFault::WriteFailed { sent })
    }
}
