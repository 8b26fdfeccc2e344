//! How many records were checked.
ghost use Rattle.std.specs.Prelude.{◌≡◌, Some, ◌+◌, ◌-◌, ◌^◌, min};
ghost use Rattle.checking.specs.Counting.{are_in_step, no_counts, with_finding};
ghost use Rattle.checking.specs.Lines.{counts_text};

use crate::findings::Finding;
use std::fmt;

/// How many records were checked, how many of these differ, and how many couldn't be checked; up to the greatest
/// `u64`. Its text is `checked 20, differing 2, unchecked 0`.
#[derive(Clone, Copy)]
pub struct Counts {
    pub checked: u64,
    pub differing: u64,
    pub unchecked: u64,
}

impl fmt::Display for Counts {
    ghost output = { λ counts. Some (counts_text counts) };

    fn fmt<W: fmt::Write>(&self, f: &mut fmt::Formatter<W>) -> fmt::Result {
        let (checked, differing) = (self.checked, self.differing);
        let unchecked = self.unchecked;
        write!(
            f,
            "checked {checked}, differing {differing}, unchecked {unchecked}"
        )
    }
}

impl Counts {
    /// The counts before the first record.
    pub(crate) fn new() -> Counts
        ensures { result ≡ no_counts }
    {
        Counts {
            checked: 0,
            differing: 0,
            unchecked: 0,
        }
    }

    /// The counts with one record more.
    pub(crate) fn with(self, finding: &Finding) -> Counts
        ensures { result ≡ with_finding self finding.now }
    {
        if finding.is_unchecked() {
            return Counts {
                unchecked: self.unchecked.saturating_add(1),
                ..self
            };
        }
        let differing = if finding.is_differing() {
            self.differing.saturating_add(1)
        } else {
            self.differing
        };
        Counts {
            checked: self.checked.saturating_add(1),
            differing,
            ..self
        }
    }

    /// Whether nothing differs, and nothing is unchecked.
    pub fn are_in_step(self) -> bool
        ensures { result ≡ are_in_step self }
    {
        self.differing == 0 && self.unchecked == 0
    }
}
