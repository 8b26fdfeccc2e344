//! The result for all records.
ghost use Rattle.std.specs.Prelude.{◌≡◌, ◌∷◌, [], IfErr, OnOk};
ghost use Rattle.provisioning.specs.Runs.{IsUntold, Tells, is_confirmed, tally_with};

use crate::faults::{RunFault, unwritten};
use crate::records::{Pushed, Standing};
use crate::telling::Tell;
use scim_key::RecordName;

/// The result for all records.
#[derive(Clone, Copy)]
pub struct Tally {
    /// How many exchanges there were, up to the greatest `u32`.
    pub exchanges: u32,
    /// Every record's wanted revision is confirmed.
    pub is_settled: bool,
}

impl Tally {
    /// The result with one more record.
    pub(crate) fn with(self, pushed: &Pushed) -> Tally
        ensures { result ≡ tally_with self pushed.now }
    {
        Tally {
            exchanges: self.exchanges.saturating_add(pushed.exchanges),
            is_settled: self.is_settled && is_confirmed(&pushed.standing),
        }
    }
}

/// Whether the wanted revision is confirmed.
pub(crate) fn is_confirmed(standing: &Standing) -> bool
    ensures { result ≡ is_confirmed standing.now }
{
    match standing {
        Standing::Confirmed(_) => true,
        Standing::Waits(_) | Standing::Unconfirmed(_) => false,
    }
}

/// Reports the result for a record.
pub(crate) fn tell<T: Tell>(
    teller: &mut T,
    name: &RecordName,
    pushed: &Pushed,
) -> Result<(), RunFault>
    ensures told { OnOk result
        (Tells (T.told teller.old) (T.told teller.new) ((name.now, pushed.now) ∷ [])) }
    ensures fault { IfErr result IsUntold }
{
    match teller.tell(name, pushed) {
        Ok(()) => Ok(()),
        Err(error) => Err(unwritten(error)),
    }
}
