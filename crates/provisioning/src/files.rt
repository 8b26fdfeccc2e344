//! Where the files of a run are read.
ghost use Rattle.std.specs.Prelude.{⊤, ℕ, IfErr, IfOk, List, Ok, Err, Result};
ghost use Rattle.std.specs.declared.io.Error.{Error as IoError};

use std::fs::Files;
use std::{fs, io};

/// Where files are read.
pub trait ReadFiles {
    /// What reading the file at a path may give: its bytes, or the system's error.
    ghost gives: { Self → List ℕ → Result (List ℕ) IoError → Type 0 };

    /// The bytes of the file at a path.
    fn bytes_at(&self, path: &str) -> io::Result<Vec<u8>>
        ensures bytes { IfOk result (λ bytes. gives self.now path.now (Ok bytes.items)) }
        ensures fault { IfErr result (λ error. gives self.now path.now (Err error)) };
}

/// The files of the system. No contract says what is in them.
impl<R: Files + AllocGlobal> ReadFiles for R {
    ghost gives = { λ _ _ _. ⊤ };

    fn bytes_at(&self, path: &str) -> io::Result<Vec<u8>> {
        fs::read(self, path)
    }
}
