//! Ids that a provider gave to several records.
use journal_core::{Entry, kind_word};
use std::alloc::{AllocError, Global};
use std::io::Eprint;

/// Reports on standard error each record that has the id of another one: `user bob has the id of user ann`. No provider
/// should give an id twice.
pub(crate) fn report_shared_ids(
    stderr: &impl Eprint,
    alloc: Global,
    entries: &[Entry],
) -> Result<(), AllocError> {
    let places = places_by_id(alloc, entries)?;
    for pair in places.windows(2) {
        if let [(id, first), (other_id, second)] = pair
            && id == other_id
            && let Some(entry) = entries.get(*second)
            && let Some(other) = entries.get(*first)
        {
            report_shared(stderr, alloc, entry, other)?;
        }
    }
    Ok(())
}

/// The known ids, each with the place of its entry, in order of the ids and then of the places.
fn places_by_id(alloc: Global, entries: &[Entry]) -> Result<Vec<(&str, usize)>, AllocError> {
    let mut places = Vec::new(alloc);
    for (place, entry) in entries.iter().enumerate() {
        if let Some(id) = &entry.id {
            places.push((id.as_str(), place))?;
        }
    }
    places.sort()?;
    Ok(places)
}

/// Reports that a record has the id of another one.
fn report_shared(
    stderr: &impl Eprint,
    alloc: Global,
    entry: &Entry,
    other: &Entry,
) -> Result<(), AllocError> {
    let (name, other) = (entry.row.record_name(alloc)?, other.row.record_name(alloc)?);
    let (kind, key) = (kind_word(name.kind), name.key.as_str());
    let (other_kind, other_key) = (kind_word(other.kind), other.key.as_str());
    let _ = eprintln!(stderr; "{kind} {key} has the id of {other_kind} {other_key}");
    Ok(())
}
