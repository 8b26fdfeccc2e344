//! Pushes every record, one after another or several at once.
ghost use Rattle.std.specs.Prelude.{◌≡◌};
ghost use Rattle.std.specs.List.{prefix_len};
ghost use Rattle.provisioning.specs.Abreast.{PushesBoth, both, is_user};
ghost use Rattle.provisioning.specs.Onward.{Onward};
ghost use Rattle.provisioning.specs.Openings.{Opens};
ghost use Rattle.provisioning.specs.Paces.{OneStreamIsInTurn, PushesAt};
ghost use Rattle.provisioning.specs.Windows.{window_of};

use crate::dialing::Dial;
use crate::faults::RunFault;
use crate::orders::push_order;
use crate::pushing::Tally;
use crate::services::ServiceProvider;
use crate::telling::Tell;
use crate::windows::push_abreast;
use connector_core::Connector;
use journal_core::Journal;
use scim_key::{Kind, RecordName};
use std::alloc::Global;
use std::collections::VecDeque;

/// The most records for which exchanges may be under way at once.
pub const MOST_STREAMS: u32 = 64;

/// How many records are pushed at once, and in which order.
#[derive(Clone, Copy)]
pub struct Pace {
    /// For how many records exchanges may be under way at once, each on a stream of its own.
    pub streams: u32,
    /// Users who left come before the others.
    pub leavers_first: bool,
    /// After how many records in a row that met the same obstacle the run gives up. With 0 it doesn't.
    pub give_up_after: u32,
}

/// One record after another, in the order of keys.
pub(crate) const IN_TURN: Pace = Pace {
    streams: 1,
    leavers_first: false,
    give_up_after: 0,
};

/// Makes exchanges for every record of the connector at this pace: users by key, then groups by key; users who
/// left may come before the others. Groups begin when every user is done. It reports each record as soon as it
/// and all before it are done. With one stream, a record begins when the one before it is reported. The run ends
/// early if a stream can't be opened, the journal fails, a record can't be reported, memory runs out, or it gives
/// up; then it learns from the answers that are under way.
pub fn push_at<J: Journal, D: Dial, T: Tell>(
    alloc: Global,
    service: &ServiceProvider<'_>,
    connector: &mut Connector<J>,
    dial: &mut D,
    teller: &mut T,
    pace: Pace,
) -> Result<Tally, RunFault>
    ensures pushes { Opens (D.opened dial.old) (D.opened dial.new) (λ opened. PushesAt
        D.Reader.remaining D.Writer.contents J.Journal service.now pace opened
        connector.old connector.new (T.told teller.old) (T.told teller.new) result) }
    ensures onward { Onward connector.old.book connector.new.book }
{
    let names = push_order(alloc, connector, pace.leavers_first)?;
    let count = users_in(names.as_slice());
    let mut users = VecDeque::from_vec(names);
    let groups = users.split_off(count)?;
    let streams = pace.streams as usize;
    let limit = pace.give_up_after;
    push_both(
        alloc, service, connector, dial, teller, users, groups, streams, limit,
    )
}

/// By one stream, a push makes one exchange after another.
pub fn one_stream_is_in_turn<J: Journal, D: Dial>()
    ensures { OneStreamIsInTurn D.Reader.remaining D.Writer.contents J.Journal }
{}

/// How many users are in front of the first group.
fn users_in(names: &[RecordName]) -> usize
    ensures { result ≡ prefix_len is_user names.now }
{
    for (place, name) in names.iter().enumerate() {
        match name.kind {
            Kind::User => {}
            Kind::Group => return place,
        }
    }
    names.len()
}

/// Makes exchanges for users, and then for groups.
fn push_both<J: Journal, D: Dial, T: Tell>(
    alloc: Global,
    service: &ServiceProvider<'_>,
    connector: &mut Connector<J>,
    dial: &mut D,
    teller: &mut T,
    users: VecDeque<RecordName>,
    groups: VecDeque<RecordName>,
    streams: usize,
    limit: u32,
) -> Result<Tally, RunFault>
    ensures { Opens (D.opened dial.old) (D.opened dial.new) (λ opened. PushesBoth
        D.Reader.remaining D.Writer.contents J.Journal service.now (window_of streams) limit
        users.items groups.items opened connector.old connector.new (T.told teller.old) (T.told teller.new) result) }
{
    let tally = push_abreast(
        alloc, service, connector, dial, teller, users, streams, limit,
    )?;
    match push_abreast(
        alloc, service, connector, dial, teller, groups, streams, limit,
    ) {
        Ok(more) => Ok(both(tally, more)),
        Err(fault) => Err(fault),
    }
}

/// The result for users and groups.
fn both(tally: Tally, more: Tally) -> Tally
    ensures { result ≡ both tally more }
{
    Tally {
        exchanges: tally.exchanges.saturating_add(more.exchanges),
        is_settled: tally.is_settled && more.is_settled,
    }
}
