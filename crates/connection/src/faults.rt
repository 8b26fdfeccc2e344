//! Faults of connections, which are reported at most once a second.
ghost use Rattle.std.specs.Prelude.{◌≡◌, ◌+◌, ◌<◌, ◌↔◌, None, Some, IsTrue};
ghost use Rattle.connection.specs.Reporting.{MayReport, with_more};

use crate::limits::report_pause;
use std::time::Instant;

/// Faults of connections, of which some aren't reported yet.
#[derive(Clone, Copy)]
pub(crate) struct FaultCount {
    /// When faults were reported last.
    reported: Option<Instant>,
    /// How many there were since.
    unreported: u32,
}

impl FaultCount {
    pub(crate) fn new() -> Self
        ensures reported { result.reported ≡ None }
        ensures unreported { result.unreported ≡ 0 }
    {
        FaultCount {
            reported: None,
            unreported: 0,
        }
    }

    /// Counts more faults.
    pub(crate) fn add(&mut self, faults: u32)
        ensures unreported { self.new.unreported ≡ with_more self.old.unreported faults }
        ensures reported { self.new.reported ≡ self.old.reported }
    {
        self.unreported = self.unreported.saturating_add(faults);
    }

    /// How many faults are to be reported now: all, or none within a second of the last report.
    pub(crate) fn take_due(&mut self, now: Instant) -> u32
        ensures once { result + self.new.unreported ≡ self.old.unreported }
        ensures all { MayReport self.old.reported now → self.new.unreported ≡ 0 }
        ensures none { 0 < result → MayReport self.old.reported now }
        ensures reported { 0 < result → self.new.reported ≡ Some now }
        ensures waits { result ≡ 0 → self.new.reported ≡ self.old.reported }
    {
        if self.unreported == 0 || !may_report(self.reported, now) {
            return 0;
        }
        self.reported = Some(now);
        self.take_all()
    }

    /// How many faults aren't reported yet, whenever the last report was.
    pub(crate) fn take_all(&mut self) -> u32
        ensures once { result ≡ self.old.unreported }
        ensures none { self.new.unreported ≡ 0 }
        ensures reported { self.new.reported ≡ self.old.reported }
    {
        let unreported = self.unreported;
        self.unreported = 0;
        unreported
    }
}

/// Whether the last report, if there was one, is a second ago.
pub(crate) fn may_report(reported: Option<Instant>, now: Instant) -> bool
    ensures { IsTrue result ↔ MayReport reported now }
{
    match reported {
        Some(reported) => now.duration_since(reported) >= report_pause(),
        None => true,
    }
}
