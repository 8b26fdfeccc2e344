//! A whole run of the connector.
ghost use Rattle.std.specs.Prelude.{◌≡◌};
ghost use Rattle.provisioning.specs.Carrying.{Carries, CarriesAt, is_done, outcome_of};
ghost use Rattle.provisioning.specs.Openings.{Opens};

use crate::dialing::Dial;
use crate::faults::RunFault;
use crate::offering::{Hear, offer_all};
use crate::paces::{IN_TURN, Pace, push_at};
use crate::pushing::Tally;
use crate::services::ServiceProvider;
use crate::sources::Sources;
use crate::telling::Tell;
use connector_core::Connector;
use journal_core::Journal;
use std::alloc::Global;

/// The result of a run that no fault ended.
#[derive(Clone, Copy)]
pub struct Outcome {
    /// Every record of the files is a row, and the connector took each, new or not.
    pub is_taken: bool,
    /// The result for the connector's records.
    pub tally: Tally,
}

impl Outcome {
    /// Whether nothing was refused and every record's wanted revision is confirmed.
    pub fn is_done(self) -> bool
        ensures { result ≡ is_done self }
    {
        self.is_taken && self.tally.is_settled
    }
}

/// Offers the rows of the files to the connector, the rows of each file together, then pushes each of its
/// records: users by key, then groups by key. It reports each row once its file is taken, and each record
/// as soon as the record is done.
pub fn carry<J: Journal, D: Dial, T: Hear + Tell>(
    alloc: Global,
    service: &ServiceProvider<'_>,
    connector: &mut Connector<J>,
    sources: &Sources,
    dial: &mut D,
    teller: &mut T,
) -> Result<Outcome, RunFault>
    ensures { Opens (D.opened dial.old) (D.opened dial.new) (λ opened. Carries
        D.Reader.remaining D.Writer.contents J.Journal T.heard T.told service.now sources.now
        opened connector.old connector.new teller.old teller.new result) }
{
    carry_at(alloc, service, connector, sources, dial, teller, IN_TURN)
}

/// The same, but it pushes the records at a pace.
pub fn carry_at<J: Journal, D: Dial, T: Hear + Tell>(
    alloc: Global,
    service: &ServiceProvider<'_>,
    connector: &mut Connector<J>,
    sources: &Sources,
    dial: &mut D,
    teller: &mut T,
    pace: Pace,
) -> Result<Outcome, RunFault>
    ensures { Opens (D.opened dial.old) (D.opened dial.new) (λ opened. CarriesAt
        D.Reader.remaining D.Writer.contents J.Journal pace T.heard T.told service.now sources.now
        opened connector.old connector.new teller.old teller.new result) }
{
    match offer_all(alloc, connector, sources, teller) {
        Ok(is_taken) => {
            let tally = push_at(alloc, service, connector, dial, teller, pace);
            outcome_of(is_taken, sources, tally)
        }
        Err(fault) => Err(fault),
    }
}

/// The result of a run, from the results of its rows and its records.
fn outcome_of(
    is_taken: bool,
    sources: &Sources,
    tally: Result<Tally, RunFault>,
) -> Result<Outcome, RunFault>
    ensures { result ≡ outcome_of is_taken sources.now tally }
{
    match tally {
        Ok(tally) => Ok(Outcome {
            is_taken: is_taken && sources.are_whole(),
            tally,
        }),
        Err(fault) => Err(fault),
    }
}
