//! How the last call at a place failed.
use crate::reason::DatabaseReason;
use std::alloc::{AllocError, Global};
use std::cell::Cell;
use std::rc::Rc;

/// How the last call at a place failed, if it did. The place shares it with the files that were opened there.
#[derive(Drop)]
pub struct Notes {
    met: Rc<Cell<Option<DatabaseReason>>>,
}

impl Notes {
    /// No call has failed.
    pub(crate) fn new(alloc: Global) -> Result<Notes, AllocError> {
        Ok(Notes {
            met: Rc::new(alloc, Cell::new(None))?,
        })
    }

    /// The same notes, for another who keeps them.
    pub(crate) fn share(&self) -> Result<Notes, AllocError> {
        Ok(Notes {
            met: self.met.clone()?,
        })
    }

    /// Why the last call failed.
    pub(crate) fn met(&self) -> Option<DatabaseReason> {
        self.met.get()
    }

    pub(crate) fn keep(&self, reason: DatabaseReason) {
        self.met.set(Some(reason));
    }

    /// Forgets what was met.
    pub(crate) fn forget(&self) {
        self.met.set(None);
    }
}
