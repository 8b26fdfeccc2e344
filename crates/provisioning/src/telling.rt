//! What reports each record.
ghost use Rattle.std.specs.Prelude.{◌∷◌, [], List, Option, OnOk};
ghost use Rattle.provisioning.specs.Runs.{Done, Tells};

use crate::records::Pushed;
use scim_key::RecordName;
use std::io;

/// What reports each record as soon as its exchanges are done.
pub trait Tell {
    /// What was reported so far, if it is known. There is no default, so that each teller says it.
    ghost told: { Self → Option (List Done) };

    fn tell(&mut self, name: &RecordName, pushed: &Pushed) -> io::Result<()>
        ensures { OnOk result
            (Tells (told self.old) (told self.new) ((name.now, pushed.now) ∷ [])) };

    /// Whether standard error says nothing of a confirmed record.
    fn is_quiet(&self) -> bool {
        false
    }
}
