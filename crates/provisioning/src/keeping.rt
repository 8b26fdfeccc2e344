//! The explanations of records that aren't reported yet.
use crate::explaining::{Ended, explain};
use crate::explanations::Explanation;
use scim_key::RecordName;
use std::alloc::{AllocError, Global};
use std::cell::Cell;

/// The last explanation of a record.
#[derive(Drop)]
struct Kept {
    name: RecordName,
    explanation: Explanation,
}

/// The last explanation of each record that isn't reported yet and has one. At most a window of records
/// is under way, so each is looked for from the first on.
#[derive(Drop)]
pub struct Explanations {
    kept: Vec<Kept>,
}

/// Keeps what is said of an exchange, in place of what was kept of its record. If memory runs out,
/// nothing is kept of it.
pub(crate) fn keep(explanations: &Cell<Option<Explanations>>, ended: &Ended<'_>) {
    let mut all = match explanations.replace(None) {
        Some(all) => all,
        None => Explanations::new(ended.alloc),
    };
    let _ = all.take(ended.name);
    let _ = all.add(ended);
    explanations.set(Some(all));
}

/// Takes what was kept of a record.
pub(crate) fn take(
    explanations: &Cell<Option<Explanations>>,
    name: &RecordName,
) -> Option<Explanation> {
    let mut all = explanations.replace(None)?;
    let taken = all.take(name);
    explanations.set(Some(all));
    taken
}

impl Explanations {
    fn new(alloc: Global) -> Explanations {
        Explanations {
            kept: Vec::new(alloc),
        }
    }

    /// Adds what is said of an exchange, if anything is.
    fn add(&mut self, ended: &Ended<'_>) -> Result<(), AllocError> {
        if let Some(explanation) = explain(ended)? {
            let name = ended.name.clone()?;
            self.kept.push(Kept { name, explanation })?;
        }
        Ok(())
    }

    /// Takes what was kept of a record.
    fn take(&mut self, name: &RecordName) -> Option<Explanation> {
        let place = self.kept.iter().position(|kept| kept.name == *name)?;
        Some(self.kept.swap_remove(place).explanation)
    }
}
