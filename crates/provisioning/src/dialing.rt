//! What opens streams to a provider.
ghost use Rattle.std.specs.Prelude.{◌∷◌, [], List, Option, None};
ghost use Rattle.provisioning.specs.Lists.{Adds};
ghost use Rattle.provisioning.specs.Openings.{Opening};

use crate::explaining::Ended;
use crate::recording::Heard;
use scim_key::RecordName;
use std::io;
use std::io::{Read, Write};

/// What opens streams to a provider, one for each exchange. A stream is a reader of the provider's answer
/// and a writer of the request.
pub trait Dial {
    type Reader: Read + Drop;

    type Writer: Write + Drop;

    /// The openings so far, if they are known: of each its stream, or its error.
    ghost opened: { Self → Option (List (Opening Self.Reader Self.Writer)) } = { λ _. None };

    /// Opens a stream.
    fn dial(&mut self) -> io::Result<(Self::Reader, Self::Writer)>
        ensures { Adds (opened self.old) (opened self.new) (result ∷ []) };

    /// Ends a stream after its exchange.
    fn end(&self, reader: Self::Reader, writer: Self::Writer);

    /// Hears of an exchange that had a fault, or after which its record is confirmed, when its stream has ended. Whoever
    /// explains exchanges uses it.
    fn explain(&self, _: &Ended<'_>) {}

    /// Whether the next exchange of a record waits, since the answer that was heard asks for it.
    fn puts_off(&self, _: &RecordName, _: &Heard) -> bool {
        false
    }

    /// Whether a record that waits has waited long enough.
    fn is_due(&self, _: &RecordName) -> bool {
        true
    }

    /// Waits until the first of the records that wait is due.
    fn rest(&self) {}
}
