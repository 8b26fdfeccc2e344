//! What accepts connections.
ghost use Rattle.std.specs.Prelude.{◌≡◌, List, Option, None, IfOk};
ghost use Rattle.connection.specs.Listening.{Accepts};

use provider_core::Meanwhile;
use std::io;
use std::io::{Read, Write};

/// What accepts connections, one after another. A connection is a reader of what its peer sends and a
/// writer of the answer. While one is served, it may go on with others.
pub trait Listen: Meanwhile {
    type Reader: Read + Drop;

    type Writer: Write + Drop;

    /// The connections that will be accepted from now on, if they are known.
    ghost waiting: { Self → Option (List (Self.Reader × Self.Writer)) } = { λ _. None };

    /// Whether a reader and a writer are those of one connection.
    ghost are_one: { Self.Reader → Self.Writer → Type 0 } = { λ _ _. Unit {0} };

    /// Accepts the next connection that can be served.
    fn accept(&mut self) -> io::Result<(Self::Reader, Self::Writer)>
        ensures next { Accepts (waiting self.old) (waiting self.new) result }
        ensures one { IfOk result (λ handles. are_one handles.0 handles.1) };

    /// Ends a connection that was served. Its peer gets the rest of the answer, and may still send for a
    /// while.
    fn end(&mut self, reader: Self::Reader, writer: Self::Writer)
        ensures { waiting self.new ≡ waiting self.old };

    /// Counts this many faults of connections that were served, and returns how many faults are to be
    /// reported now. Answers that were lost after `end` took them over are among these. A listener may leave
    /// some to a later call.
    fn due_faults(&mut self, faults: u32) -> u32
        ensures { waiting self.new ≡ waiting self.old }
    {
        faults
    }

    ghost keeps_waiting: { (early late : Self) → Self.Meanwhile.keeps early late
        → waiting late ≡ waiting early };
}
