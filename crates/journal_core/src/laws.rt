//! Laws of journals.
ghost use Rattle.journal_core.specs.MemoryLaws.{StaysInMemory};

/// A journal in memory is always faithful, and its only fault is out of memory.
pub fn journals_in_memory_stay()
    ensures { StaysInMemory }
{}
