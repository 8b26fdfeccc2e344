//! How a push waits for requests that an earlier run may have left under way.

use crate::manners::Delivery;
use connector_core::Connector;
use journal_core::Journal;
use provisioning::ProviderKeeps;
use std::io::Eprint;
use std::thread;
use std::time::{Clock, Duration};

/// At a provider without versions nothing keeps a request that is under way from being carried out after a later one. So
/// if a record of the journal isn't confirmed, a push waits before it sends anything.
pub(crate) fn settle<R: Clock + Eprint, J: Journal>(
    rt: &R,
    connector: &Connector<J>,
    delivery: Delivery,
) {
    let seconds = delivery.settle_seconds;
    if !matches!(delivery.keeps, ProviderKeeps::Nothing) || seconds == 0 {
        return;
    }
    if !is_settled(connector) {
        report(rt, seconds);
        thread::sleep(rt, Duration::from_secs(u64::from(seconds)));
    }
}

/// Whether each record of the journal is confirmed. If there is no memory to say so, it may not be.
fn is_settled<J: Journal>(connector: &Connector<J>) -> bool {
    match connector.names() {
        Ok(names) => names.iter().all(|name| connector.is_done(name)),
        Err(_) => false,
    }
}

/// Prints for how long a push waits, and why.
fn report<E: Eprint>(stderr: &E, seconds: u32) {
    let _ = eprintln!(stderr;
        "waiting {seconds} s: a record isn't confirmed, so a request of an earlier run may be under way"
    );
}
