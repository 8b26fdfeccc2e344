//! What reports the finding of each record.
ghost use Rattle.std.specs.Prelude.{List, Option, OnOk};
ghost use Rattle.provisioning.specs.Lists.{Adds};
ghost use Rattle.checking.specs.Checks.{NotesOf};

use crate::findings::Finding;
use scim_key::RecordName;
use std::io;

/// What reports the finding of each record as soon as its answer is read, and notes something of it.
pub trait TellFinding {
    /// What is noted.
    type Note;

    /// What is noted of the finding of a record.
    ghost note: { NotesOf Self.Note };

    /// What was noted so far, if it is known. There is no default, so that each teller says it.
    ghost noted: { Self → Option (List Self.Note) };

    fn tell(&mut self, name: &RecordName, finding: &Finding) -> io::Result<()>
        ensures { OnOk result
            (Adds (noted self.old) (noted self.new) (note name.now finding.now)) };
}
