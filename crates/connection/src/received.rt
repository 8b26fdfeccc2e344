//! What has come of a request.
ghost use Rattle.std.specs.Prelude.{◌≡◌, ◌≤◌, ◌<◌, ◌+◌, ◌++◌, [], length, vec_len, vec_capacity, IfSome, IsTrue, if◌then◌else◌};
ghost use Rattle.std.specs.Result.{is_ok, OnErr, OnOk};
ghost use Rattle.std.specs.Bool.{OnFalse};
ghost use Rattle.http_text.specs.Forms.{request_form};
ghost use Rattle.http_text.specs.Heads.{IsUnfinished};
ghost use Rattle.connection.specs.Arriving.{AreUndecided, HasExtent, HasLength, IsDue, IsPutOff, Waits};
ghost use Rattle.connection.specs.Lines.{lines_after};
ghost use Rattle.connection.specs.declared.lines.HeadLines.TheVariants.{Blank};

use crate::held::SHORT_READ;
use crate::lines::{HeadLines, lines_after};
use crate::readiness::{Extent, extent_of, is_part};
use http_text::HEAD_LIMIT;
use std::alloc::{AllocError, Global};

/// A part of a head is read again if more than this part of it has come since.
const PART_OF_HEAD: usize = 8;

/// The bytes that have come of a request, and what was found of them.
#[derive(Drop)]
pub(crate) struct Received {
    /// The number of the connection on which they came.
    number: usize,
    pub(crate) bytes: Vec<u8>,
    /// How many of them were read last, and don't decide what is answered.
    read: usize,
    /// How long the request is, if its head is whole.
    whole: Option<usize>,
    /// How far the lines of its head are.
    lines: HeadLines,
    ghost undecided: { ∥ AreUndecided bytes.items read ∥₁ },
    ghost length: { ∥ IfSome whole (HasLength bytes.items) ∥₁ },
    ghost followed: { lines ≡ lines_after Blank bytes.items },
}

impl Received {
    /// Nothing has come yet on the connection with this number.
    pub(crate) fn new(alloc: Global, number: usize) -> Self
        ensures number { result.number ≡ number }
        ensures bytes { result.bytes.items ≡ [] }
    {
        Received {
            number,
            bytes: Vec::new(alloc),
            read: 0,
            whole: None,
            lines: HeadLines::Blank,
        }
    }

    /// The number of the connection on which the bytes came.
    pub(crate) fn number(&self) -> usize
        ensures { result ≡ self.now.number }
    {
        self.number
    }

    /// Makes room for so many more bytes.
    pub(crate) fn reserve(&mut self, room: usize) -> Result<(), AllocError>
        ensures number { self.new.number ≡ self.old.number }
        ensures bytes { self.new.bytes.items ≡ self.old.bytes.items }
        ensures room { OnOk result (vec_len self.new.bytes + room ≤ vec_capacity self.new.bytes) }
    {
        self.bytes.reserve(room)
    }

    /// Adds bytes that have come.
    pub(crate) fn add(&mut self, bytes: &[u8]) -> Result<(), AllocError>
        ensures number { self.new.number ≡ self.old.number }
        ensures bytes { self.new.bytes.items
            ≡ (if is_ok result then self.old.bytes.items ++ bytes.now else self.old.bytes.items) }
        ensures full { OnErr result
            (vec_capacity self.old.bytes < vec_len self.old.bytes + length bytes.now) }
    {
        self.bytes.extend_from_slice(bytes)?;
        self.lines = lines_after(self.lines, bytes);
        Ok(())
    }

    /// Frees the memory that the bytes don't need.
    pub(crate) fn shrink(&mut self)
        ensures number { self.new.number ≡ self.old.number }
        ensures bytes { self.new.bytes.items ≡ self.old.bytes.items }
    {
        self.bytes.shrink_to_fit();
    }

    pub(crate) fn into_bytes(self) -> Vec<u8>
        ensures { result ≡ self.bytes }
    {
        let Received {
            number: _,
            bytes,
            read: _,
            whole: _,
            lines: _,
        } = self;
        bytes
    }

    /// How many bytes of memory are taken.
    pub(crate) fn size(&self) -> usize
        ensures { result ≡ vec_capacity self.now.bytes }
    {
        self.bytes.capacity()
    }

    /// Whether the bytes decide what is answered: they hold a whole request, or are refused. It reads them only if they
    /// may have a whole head, or if an eighth more has come since the last time. If memory runs out, nobody waits for
    /// more.
    pub(crate) fn is_ready(&mut self, alloc: Global) -> bool
        ensures waits { OnFalse result ∥ Waits self.new.bytes.items ∥₁ }
        ensures bytes { self.new.bytes ≡ self.old.bytes }
        ensures number { self.new.number ≡ self.old.number }
    {
        match self.whole {
            Some(whole) if self.bytes.len() < whole => false,
            Some(_) => true,
            None if self.is_put_off() => false,
            None => self.is_settled(alloc),
        }
    }

    /// Whether what has come since the last reading is too little to read again.
    fn is_put_off(&self) -> bool
        ensures waits { IsTrue result → ∥ IsPutOff self.now.bytes.items ∥₁ }
        ensures due { OnFalse result (IsDue self.now.bytes.items self.now.read) }
    {
        let size = self.bytes.len();
        let more = size.saturating_sub(self.read);
        size < HEAD_LIMIT && more <= self.read / PART_OF_HEAD && !self.lines.have_ended()
    }

    /// Whether the bytes decide what is answered, by reading them. A long request whose head is whole is read once, as if
    /// its body had come.
    fn is_settled(&mut self, alloc: Global) -> bool
        ensures waits { OnFalse result ∥ Waits self.new.bytes.items ∥₁ }
        ensures bytes { self.new.bytes ≡ self.old.bytes }
        ensures number { self.new.number ≡ self.old.number }
    {
        match self.extent_if_long(alloc) {
            Extent::Whole(whole) => self.is_whole(whole),
            _ => self.is_decided(alloc),
        }
    }

    /// Whether the bytes decide what is answered, by reading them. It notes what it finds.
    fn is_decided(&mut self, alloc: Global) -> bool
        ensures waits { OnFalse result ∥ Waits self.new.bytes.items ∥₁ }
        ensures bytes { self.new.bytes ≡ self.old.bytes }
        ensures number { self.new.number ≡ self.old.number }
    {
        if !is_part(alloc, &self.bytes) {
            return true;
        }
        let extent = self.extent(alloc);
        self.note(extent);
        false
    }

    /// Whether a request of this length has come. It notes the length.
    fn is_whole(&mut self, whole: usize) -> bool
        requires { HasLength self.old.bytes.items whole }
        ensures waits { OnFalse result ∥ Waits self.new.bytes.items ∥₁ }
        ensures bytes { self.new.bytes ≡ self.old.bytes }
        ensures number { self.new.number ≡ self.old.number }
    {
        self.whole = Some(whole);
        if self.bytes.len() < whole {
            return false;
        }
        true
    }

    /// How far a request is that didn't fit into the first read. Of another nothing is said.
    fn extent_if_long(&self, alloc: Global) -> Extent
        ensures { HasExtent self.now.bytes.items result }
    {
        if self.bytes.len() > SHORT_READ {
            self.extent(alloc)
        } else {
            Extent::Unknown
        }
    }

    /// How far a request is.
    fn extent(&self, alloc: Global) -> Extent
        ensures { HasExtent self.now.bytes.items result }
    {
        if self.lines.have_ended() {
            extent_of(alloc, &self.bytes)
        } else {
            Extent::PartOfHead
        }
    }

    /// Notes how far a request is that isn't decided yet.
    fn note(&mut self, extent: Extent)
        requires unfinished { IsUnfinished request_form self.old.bytes.items }
        requires extent { HasExtent self.old.bytes.items extent }
        ensures bytes { self.new.bytes ≡ self.old.bytes }
        ensures number { self.new.number ≡ self.old.number }
    {
        match extent {
            Extent::PartOfHead => self.read = self.bytes.len(),
            Extent::Whole(whole) => self.whole = Some(whole),
            Extent::Unknown => {}
        }
    }
}
