//! What a search finds: the number of resources, and the page that is shown.
ghost use Rattle.std.specs.Prelude.{◌≡◌, ℕ, ◌∷◌, ◌++◌, [], IfOk, OnOk};
ghost use Rattle.std.specs.Option.{option_and_then};
ghost use Rattle.scim_filter.specs.Names as names;
ghost use Rattle.scim_resource.specs.Rows.{shown};
ghost use Rattle.scim_message.specs.declared.messages.Answer.TheVariants as answers;
ghost use Rattle.provider_core.specs.Searches as spec;
ghost use Rattle.provider_core.specs.Gathering.{Adds, GoesThrough, IsPlace, gathered, listed};
ghost use Rattle.provider_core.specs.Outcomes.{replied};
ghost use Rattle.provider_core.specs.Stops.{CountsSearchFault, StopsIf};
ghost use Rattle.provider_core.specs.Stores.{CountsFaults};

use crate::meanwhile::{Meanwhile, SearchFault};
use crate::outcomes::is_of_kind;
use crate::pending::Pending;
use crate::registry::ROWS_AT_ONCE;
use scim_filter::Filter;
use scim_key::{Kind, RecordName};
use scim_message::{Answer, ListResponse, Request, Resources};
use scim_resource::{Shown, Stored};
use std::alloc::{AllocError, Global};
use std::marker::Model;

/// The most resources that one list shows: as many as one call of a registry gives.
pub const MOST_LISTED: usize = ROWS_AT_ONCE as usize;

/// The place of the first resource on the page, counted from 1.
pub(crate) fn first_place(start: i64) -> u64
    ensures place { result ≡ spec.first_place start }
    ensures lawful { IsPlace result }
{
    if start < 1 { 1 } else { start as u64 }
}

/// The most resources on the page.
pub(crate) fn page_size(count: Option<i64>) -> usize
    ensures { result ≡ spec.page_size count }
{
    match count {
        None => MOST_LISTED,
        Some(count) if count < 0 => 0,
        Some(count) => if count < MOST_LISTED as i64 {
            count as usize
        } else {
            MOST_LISTED
        }
    }
}

/// The state of a search: one page and a count.
#[derive(Drop)]
pub(crate) struct Gathered {
    first: u64,
    size: usize,
    total: u64,
    page: Vec<Shown>,
}

impl Model for Gathered {
    ghost use Rattle.provider_core.specs.Gathering as spec;

    ghost Value = { spec.Gathered };

    ghost view = { λ g. record {
      first = g.first;
      size = g.size;
      total = g.total;
      page = g.page.items;
    } };
}

impl Gathered {
    /// An empty page that begins at this place, counted from 1, and has at most this size.
    pub(crate) fn new(alloc: Global, first: u64, size: usize) -> Gathered
        ensures { result ≡ gathered first size [] }
    {
        Gathered {
            first,
            size,
            total: 0,
            page: Vec::new(alloc),
        }
    }

    /// Looks through rows for the ones of this type that the filter finds. Others may have a turn after each row: a
    /// long filter takes milliseconds for a group with many members.
    pub(crate) fn look_through<M: Meanwhile>(
        &mut self,
        kind: Kind,
        filter: &Option<Filter>,
        rows: &[Stored],
        meanwhile: &mut M,
    ) -> Result<(), SearchFault>
        ensures through { OnOk result (GoesThrough kind filter.now rows.now self.old self.new) }
        ensures counts { (faults : ℕ) → CountsFaults CountsSearchFault faults faults result }
        ensures keeps { M.keeps meanwhile.old meanwhile.new }
        ensures stops { StopsIf (M.stops meanwhile.old) (M.stops meanwhile.new) result }
    {
        for row in rows {
            self.look_at(kind, filter, row)?;
            let goes_on = meanwhile.after_rows();
            if !goes_on {
                return Err(SearchFault::Stopped);
            }
        }
        Ok(())
    }

    /// Looks at one row.
    pub(crate) fn look_at(
        &mut self,
        kind: Kind,
        filter: &Option<Filter>,
        row: &Stored,
    ) -> Result<(), AllocError>
        ensures { OnOk result (GoesThrough kind filter.now (row.now ∷ []) self.old self.new) }
    {
        if is_hit(kind, filter, row) {
            self.add(row)
        } else {
            Ok(())
        }
    }

    /// Counts a row that was found, and keeps it if it is on the page.
    fn add(&mut self, row: &Stored) -> Result<(), AllocError>
        ensures { OnOk result (Adds (shown row.now) self.old self.new) }
    {
        self.total = self.total.saturating_add(1);
        if self.total >= self.first && self.page.len() < self.size {
            let alloc = *self.page.allocator();
            self.page.push(Shown::of(alloc, row)?)?;
        }
        Ok(())
    }

    /// The list of the resources that were found, without a change.
    pub(crate) fn into_pending(self) -> Pending
        ensures { result ≡ replied (listed self) }
    {
        let Gathered {
            first,
            total,
            page,
            ..
        } = self;
        listed(total, first, page)
    }
}

/// A list of this many resources in all, and the page from this place on, without a change.
pub(crate) fn listed(total: u64, first: u64, page: Vec<Shown>) -> Pending
    ensures { result ≡ replied (answers.List (record {
      total = total;
      start = first;
      resources = page.items;
    })) }
{
    let list = ListResponse {
        total,
        start: first,
        resources: Resources::from_vec(page),
    };
    Pending {
        row: None,
        answer: Answer::List(list),
    }
}

/// Whether a row is of this type and the filter holds for it.
fn is_hit(kind: Kind, filter: &Option<Filter>, row: &Stored) -> bool
    ensures { result ≡ spec.is_hit kind filter.now row.now }
{
    is_of_kind(row, kind) && is_wanted(filter, row)
}

fn is_wanted(filter: &Option<Filter>, row: &Stored) -> bool
    ensures { result ≡ spec.is_wanted filter.now row.now }
{
    match filter {
        Some(filter) => filter.matches(row),
        None => true,
    }
}

/// Whether the provider reads all rows for a request: for a search, unless its filter names one record. A list without
/// a filter reads them all only if their places aren't known yet.
pub fn reads_all_rows(alloc: Global, request: &Request) -> Result<bool, AllocError>
    ensures { IfOk result (λ reads_all. reads_all ≡ spec.reads_all request.now) }
{
    match request {
        Request::Search { filter, .. } => Ok(single_key(alloc, filter)?.is_none()),
        Request::Create { .. } | Request::Retrieve { .. } | Request::Replace { .. } => Ok(false),
    }
}

/// The record that a filter names, if the filter is one test of a name.
pub(crate) fn single_key(
    alloc: Global,
    filter: &Option<Filter>,
) -> Result<Option<RecordName>, AllocError>
    ensures { IfOk result (λ name. name ≡ option_and_then names.single_key filter.now) }
{
    match filter {
        Some(filter) => filter.single_key(alloc),
        None => Ok(None),
    }
}
