//! A list without a filter: how many rows of a type there are, and one page of them.
ghost use Rattle.std.specs.Prelude.{◌≡◌, ◌++◌, ◌+◌, ◌<◌, ◌≤◌, ◌≢◌, length, map, slice_index, take, drop, IfOk, None, OnOk};
ghost use Rattle.std.specs.List.{range_with_len};
ghost use Rattle.scim_resource.specs.Rows.{shown};
ghost use Rattle.provider_core.specs.Calls.{Reads};
ghost use Rattle.provider_core.specs.Listing.{AddsRows, KeepsPlaces, places_of, rows_at};
ghost use Rattle.provider_core.specs.Outcomes.{outcome};
ghost use Rattle.provider_core.specs.Rows.{IsNumberedFrom};
ghost use Rattle.provider_core.specs.Stops.{CountsSearchFault, StopsIf};
ghost use Rattle.provider_core.specs.Stores.{CountsProviderFault};

use crate::kinds::KindPlaces;
use crate::meanwhile::{Meanwhile, SearchFault};
use crate::pending::Pending;
use crate::provider::ProviderFault;
use crate::registry::{ROWS_AT_ONCE, Registry};
use crate::searching::{first_place, listed, page_size};
use scim_key::Kind;
use scim_message::Request;
use scim_resource::{Shown, Stored};
use std::alloc::{AllocError, Global};

/// The list of a type without a filter, from the places that are kept. If there are none, or if a fault
/// comes, they are looked for anew.
pub(crate) fn list<R: Registry, M: Meanwhile>(
    registry: &mut R,
    places: &mut Option<KindPlaces>,
    alloc: Global,
    kind: Kind,
    start: i64,
    count: Option<i64>,
    meanwhile: &mut M,
) -> Result<Pending, SearchFault>
    requires { KeepsPlaces R.Registry registry.old places.old }
    ensures ok { R.is_faithful registry.new
        → IfOk result (λ pending. pending
        ≡ outcome (R.rows registry.old) (Request.Search kind None start count)) }
    ensures reads { Reads R.Registry CountsSearchFault registry.old registry.new result }
    ensures places { KeepsPlaces R.Registry registry.new places.new }
    ensures keeps { M.keeps meanwhile.old meanwhile.new }
    ensures stops { StopsIf (M.stops meanwhile.old) (M.stops meanwhile.new) result }
{
    let all = registry.count()?;
    let kept = places.take();
    let found = kept_or_found(registry, alloc, all, kept, meanwhile)?;
    let pending = list_page(registry, alloc, &found, kind, start, count)?;
    *places = Some(found);
    Ok(pending)
}

/// The places that were kept; if there are none, looks for them.
fn kept_or_found<R: Registry, M: Meanwhile>(
    registry: &mut R,
    alloc: Global,
    all: u32,
    kept: Option<KindPlaces>,
    meanwhile: &mut M,
) -> Result<KindPlaces, SearchFault>
    requires open { R.is_honest registry.old → R.is_faithful registry.old }
    requires counted { R.is_faithful registry.old → all ≡ length (R.rows registry.old) }
    requires kept { KeepsPlaces R.Registry registry.old kept }
    ensures ok { R.is_faithful registry.new →
        IfOk result (λ places. places ≡ places_of (R.rows registry.old)) }
    ensures reads { Reads R.Registry CountsSearchFault registry.old registry.new result }
    ensures keeps { M.keeps meanwhile.old meanwhile.new }
    ensures stops { StopsIf (M.stops meanwhile.old) (M.stops meanwhile.new) result }
{
    match kept {
        Some(places) => Ok(places),
        None => find_places(registry, alloc, all, meanwhile),
    }
}

/// Looks through all rows for the places of each type, `ROWS_AT_ONCE` at a time.
fn find_places<R: Registry, M: Meanwhile>(
    registry: &mut R,
    alloc: Global,
    all: u32,
    meanwhile: &mut M,
) -> Result<KindPlaces, SearchFault>
    requires open { R.is_honest registry.old → R.is_faithful registry.old }
    requires counted { R.is_faithful registry.old → all ≡ length (R.rows registry.old) }
    ensures ok { R.is_faithful registry.new →
        IfOk result (λ places. places ≡ places_of (R.rows registry.old)) }
    ensures reads { Reads R.Registry CountsSearchFault registry.old registry.new result }
    ensures keeps { M.keeps meanwhile.old meanwhile.new }
    ensures stops { StopsIf (M.stops meanwhile.old) (M.stops meanwhile.new) result }
{
    let mut places = KindPlaces::new(alloc);
    let mut after = 0;
    while after < all {
        add_page(registry, after, &mut places)?;
        let goes_on = meanwhile.after_rows();
        if !goes_on {
            return Err(SearchFault::Stopped);
        }
        after = after.saturating_add(ROWS_AT_ONCE);
    }
    Ok(places)
}

/// Adds the places of some rows after the first `after`.
fn add_page<R: Registry>(
    registry: &mut R,
    after: u32,
    places: &mut KindPlaces,
) -> Result<(), ProviderFault>
    ensures ok { R.is_faithful registry.new
        → OnOk result
        (AddsRows (take ROWS_AT_ONCE (drop after (R.rows registry.old))) places.old places.new) }
    ensures reads { Reads R.Registry CountsProviderFault registry.old registry.new result }
{
    let rows = registry.scan(after, ROWS_AT_ONCE as usize)?;
    places.add_all(&rows)?;
    Ok(())
}

/// The list of a type without a filter, from the places of its rows.
fn list_page<R: Registry>(
    registry: &mut R,
    alloc: Global,
    places: &KindPlaces,
    kind: Kind,
    start: i64,
    count: Option<i64>,
) -> Result<Pending, ProviderFault>
    requires { R.is_honest registry.old → R.is_faithful registry.old }
    ensures ok { R.is_faithful registry.new → places.now ≡ places_of (R.rows registry.old)
        → IfOk result (λ pending. pending
        ≡ outcome (R.rows registry.old) (Request.Search kind None start count)) }
    ensures reads { Reads R.Registry CountsProviderFault registry.old registry.new result }
{
    let first = first_place(start);
    let mut page = Vec::new(alloc);
    let wanted = places.page(kind, first - 1, page_size(count));
    show_rows(registry, wanted, &mut page)?;
    Ok(listed(places.total(kind), first, page))
}

/// Adds the rows at these places to a page. Places that follow each other are one call of the registry.
fn show_rows<R: Registry>(
    registry: &mut R,
    places: &[u32],
    page: &mut Vec<Shown>,
) -> Result<(), ProviderFault>
    requires few { length places.now ≤ ROWS_AT_ONCE }
    requires open { R.is_honest registry.old → R.is_faithful registry.old }
    ensures ok { R.is_faithful registry.new
        → OnOk result (page.new.items ≡ page.old.items
        ++ map shown (rows_at places.now (R.rows registry.old))) }
    ensures numbered { R.is_faithful registry.new →
        OnOk result (0 < length places.now → IsNumberedFrom 1 (R.rows registry.old)) }
    ensures reads { Reads R.Registry CountsProviderFault registry.old registry.new result }
{
    let mut done = 0;
    while done < places.len() {
        let rest = &places[done..];
        let run = run_length(rest);
        show_run(registry, rest[0], run, page)?;
        done += run;
    }
    Ok(())
}

/// How many places follow each other, from the first on.
fn run_length(places: &[u32]) -> usize
    requires { 0 < length places.now }
    ensures some { 0 < result }
    ensures within { result ≤ length places.now }
    ensures follow { take result places.now ≡ range_with_len (slice_index places.now 0) result }
    ensures longest { result < length places.now
        → slice_index places.now result ≢ slice_index places.now 0 + result }
{
    let first = places[0] as usize;
    let mut run = 1;
    while run < places.len() && places[run] as usize == first + run {
        run += 1;
    }
    run
}

/// Adds as many rows as `run` to a page, after the first `after`.
fn show_run<R: Registry>(
    registry: &mut R,
    after: u32,
    run: usize,
    page: &mut Vec<Shown>,
) -> Result<(), ProviderFault>
    requires few { run ≤ ROWS_AT_ONCE }
    ensures ok { R.is_faithful registry.new
        → OnOk result (page.new.items ≡ page.old.items
        ++ map shown (take run (drop after (R.rows registry.old)))) }
    ensures numbered { R.is_faithful registry.new
        → OnOk result (IsNumberedFrom 1 (R.rows registry.old)) }
    ensures reads { Reads R.Registry CountsProviderFault registry.old registry.new result }
{
    let rows = registry.scan(after, run)?;
    show_all(&rows, page)?;
    Ok(())
}

/// Adds rows to a page.
fn show_all(rows: &[Stored], page: &mut Vec<Shown>) -> Result<(), AllocError>
    ensures { OnOk result (page.new.items ≡ page.old.items ++ map shown rows.now) }
{
    let alloc = *page.allocator();
    for row in rows {
        page.push(Shown::of(alloc, row)?)?;
    }
    Ok(())
}
