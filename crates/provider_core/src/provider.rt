//! The provider over a registry.
ghost use Rattle.std.specs.Prelude.{◌≡◌, ◌+◌, ◌++◌, ◌∷◌, [], false, is_none, length, take, drop, IfOk, OnOk};
ghost use Rattle.std.specs.Option.{option_and_then};
ghost use Rattle.scim_filter.specs.Names.{single_key};
ghost use Rattle.scim_resource.specs.Contents.{content_name};
ghost use Rattle.provider_core.specs.Outcomes.{outcome, changed_rows, IsChange, IsOutcome};
ghost use Rattle.provider_core.specs.Gathering.{Gathers, GoesThrough};
ghost use Rattle.provider_core.specs.Rows.{count_if_free, resource, row_named};
ghost use Rattle.provider_core.specs.Stores.{CountsFault, CountsProviderFault};
ghost use Rattle.provider_core.specs.Calls.{Reads, Writes, OpensAgain};
ghost use Rattle.provider_core.specs.Searches.{reads_all};
ghost use Rattle.provider_core.specs.Stops.{CountsSearchFault, StopsIf};
ghost use Rattle.provider_core.specs.declared.provider.ProviderFault.TheVariants as provider_faults;

use crate::kinds::{KindPlaces, add_kept};
use crate::listing::list;
use crate::meanwhile::{Meanwhile, Nothing, SearchFault};
use crate::outcomes::{MOST_RESOURCES, insertion, is_of_kind, refusal, replacement, retrieval};
use crate::pending::{Change, Pending};
use crate::registry::{ROWS_AT_ONCE, Registry};
use crate::reopening::Reopen;
use crate::searching::{Gathered, first_place, page_size, single_key};
use scim_filter::Filter;
use scim_key::{Kind, RecordName, ResourceId, StoreFault};
use scim_message::{Answer, Refusal, Request};
use scim_resource::{Content, Stored};
use scim_version::Condition;
use std::alloc::{AllocError, Global};
use std::marker::Model;
use thiserror::Error;

/// Why a request got no answer. Nothing was changed.
#[derive(Clone, Copy, Debug, Error)]
pub enum ProviderFault {
    #[error("P10")]
    Store,
    #[error("P11")]
    Memory,
}

impl From<AllocError> for ProviderFault {
    ghost from_gives = { λ _ fault. fault ≡ provider_faults.Memory };

    fn from(_: AllocError) -> ProviderFault {
        ProviderFault::Memory
    }
}

impl From<StoreFault> for ProviderFault {
    ghost use Rattle.provider_core.specs.Stores.{provider_fault};

    ghost from_gives = { λ from fault. fault ≡ provider_fault from };

    fn from(fault: StoreFault) -> ProviderFault {
        match fault {
            StoreFault::Store => ProviderFault::Store,
            StoreFault::Memory => ProviderFault::Memory,
        }
    }
}

/// A provider (RFC 7644 section 3) over the rows of a registry.
#[derive(Drop)]
pub struct Provider<R: Registry> {
    registry: R,
    /// The places of each type's rows, once a list without a filter has asked for them.
    places: Option<KindPlaces>,
}

impl<R: Registry> Model for Provider<R> {
    ghost use Rattle.provider_core.specs.Listing.{KeepsPlaces};

    ghost Value = { R };

    ghost view = { λ p. p.registry };

    ghost invariant = { λ p. KeepsPlaces R.Registry p.registry p.places };
}

impl<R: Registry> Provider<R> {
    /// A provider over the rows of a registry.
    pub fn new(registry: R) -> Provider<R>
        ensures { result ≡ registry }
    {
        Provider {
            registry,
            places: None,
        }
    }

    /// The registry.
    pub fn registry(&self) -> &R
        ensures { result.now ≡ self.now }
    {
        &self.registry
    }

    /// Gives the registry back.
    pub fn close(self) -> R
        ensures { result ≡ self }
    {
        let Provider { registry, .. } = self;
        registry
    }

    /// Forms the answer to a request and the change that goes with it. It doesn't make the change.
    pub fn prepare(&mut self, alloc: Global, request: &Request) -> Result<Pending, ProviderFault>
        ensures ok { R.is_faithful self.new →
            IfOk result (λ pending. pending ≡ outcome (R.rows self.old) request.now) }
        ensures reads { Reads R.Registry CountsProviderFault self.old self.new result }
    {
        match request {
            Request::Create { content } => self.prepare_create(alloc, content.clone()?),
            Request::Retrieve {
                kind,
                id,
                if_match,
                if_none_match,
            } => self.prepare_retrieve(alloc, *kind, id, if_match, if_none_match),
            Request::Search {
                kind,
                filter,
                start,
                count,
            } => self.prepare_alone(alloc, *kind, filter, *start, *count),
            Request::Replace {
                id,
                content,
                if_match,
                if_none_match,
            } => self.prepare_replace(alloc, id, content.clone()?, if_match, if_none_match),
        }
    }

    /// Forms the answer as `prepare` does, without a copy of the content. If it looks through all rows, somebody else
    /// goes on after each page of rows, and may stop the search.
    pub fn prepare_meanwhile<M: Meanwhile>(
        &mut self,
        alloc: Global,
        request: Request,
        meanwhile: &mut M,
    ) -> Result<Pending, SearchFault>
        ensures ok { R.is_faithful self.new →
            IfOk result (λ pending. pending ≡ outcome (R.rows self.old) request) }
        ensures reads { Reads R.Registry CountsSearchFault self.old self.new result }
        ensures keeps { M.keeps meanwhile.old meanwhile.new }
        ensures stops { StopsIf (M.stops meanwhile.old) (M.stops meanwhile.new) result }
        ensures alone { reads_all request ≡ false → meanwhile.new ≡ meanwhile.old }
    {
        match request {
            Request::Create { content } => Ok(self.prepare_create(alloc, content)?),
            Request::Retrieve {
                kind,
                id,
                if_match,
                if_none_match,
            } => Ok(self.prepare_retrieve(alloc, kind, &id, &if_match, &if_none_match)?),
            Request::Search {
                kind,
                filter,
                start,
                count,
            } => self.prepare_search(alloc, kind, &filter, start, count, meanwhile),
            Request::Replace {
                id,
                content,
                if_match,
                if_none_match,
            } => Ok(self.prepare_replace(alloc, &id, content, &if_match, &if_none_match)?),
        }
    }

    fn prepare_create(&mut self, alloc: Global, content: Content) -> Result<Pending, ProviderFault>
        ensures ok { R.is_faithful self.new
            → IfOk result (λ pending. pending
            ≡ outcome (R.rows self.old) (Request.Create content)) }
        ensures reads { Reads R.Registry CountsProviderFault self.old self.new result }
    {
        let reason = match self.count_if_new(alloc, &content)? {
            Some(count) if count < MOST_RESOURCES => return Ok(insertion(alloc, count, content)?),
            Some(_) => Refusal::LimitReached,
            None => Refusal::NameTaken,
        };
        Ok(refusal(alloc, reason)?)
    }

    /// How many resources there are, if none of them has this content's name.
    fn count_if_new(
        &mut self,
        alloc: Global,
        content: &Content,
    ) -> Result<Option<u32>, ProviderFault>
        ensures ok { R.is_faithful self.new
            → IfOk result (λ count. count ≡ count_if_free (content_name content.now) (R.rows self.old)) }
        ensures reads { Reads R.Registry CountsProviderFault self.old self.new result }
    {
        let name = content.name(alloc)?;
        Ok(self.registry.count_if_free(&name)?)
    }

    /// The row of this type with this id, if there is one.
    fn resource(&mut self, kind: Kind, id: &ResourceId) -> Result<Option<Stored>, ProviderFault>
        ensures ok { R.is_faithful self.new →
            IfOk result (λ row. row ≡ resource kind id.now (R.rows self.old)) }
        ensures reads { Reads R.Registry CountsProviderFault self.old self.new result }
    {
        match self.registry.by_id(id)? {
            Some(row) if is_of_kind(&row, kind) => Ok(Some(row)),
            _ => Ok(None),
        }
    }

    fn prepare_retrieve(
        &mut self,
        alloc: Global,
        kind: Kind,
        id: &ResourceId,
        if_match: &Condition,
        if_none_match: &Condition,
    ) -> Result<Pending, ProviderFault>
        ensures ok { R.is_faithful self.new
            → IfOk result (λ pending. pending
            ≡ outcome (R.rows self.old)
            (Request.Retrieve kind id.now if_match.now if_none_match.now)) }
        ensures reads { Reads R.Registry CountsProviderFault self.old self.new result }
    {
        match self.resource(kind, id)? {
            Some(row) => Ok(retrieval(alloc, &row, if_match, if_none_match)?),
            None => Ok(refusal(alloc, Refusal::NoSuchResource)?),
        }
    }

    /// A search that nobody stops.
    fn prepare_alone(
        &mut self,
        alloc: Global,
        kind: Kind,
        filter: &Option<Filter>,
        start: i64,
        count: Option<i64>,
    ) -> Result<Pending, ProviderFault>
        ensures ok { R.is_faithful self.new
            → IfOk result (λ pending. pending
            ≡ outcome (R.rows self.old) (Request.Search kind filter.now start count)) }
        ensures reads { Reads R.Registry CountsProviderFault self.old self.new result }
    {
        match self.prepare_search(alloc, kind, filter, start, count, &mut Nothing) {
            Ok(pending) => Ok(pending),
            Err(SearchFault::Provider(fault)) => Err(fault),
            Err(SearchFault::Stopped) => unreachable!(),
        }
    }

    fn prepare_search<M: Meanwhile>(
        &mut self,
        alloc: Global,
        kind: Kind,
        filter: &Option<Filter>,
        start: i64,
        count: Option<i64>,
        meanwhile: &mut M,
    ) -> Result<Pending, SearchFault>
        ensures ok { R.is_faithful self.new
            → IfOk result (λ pending. pending
            ≡ outcome (R.rows self.old) (Request.Search kind filter.now start count)) }
        ensures reads { Reads R.Registry CountsSearchFault self.old self.new result }
        ensures keeps { M.keeps meanwhile.old meanwhile.new }
        ensures stops { StopsIf (M.stops meanwhile.old) (M.stops meanwhile.new) result }
        ensures alone { is_none (option_and_then single_key filter.now) ≡ false
            → meanwhile.new ≡ meanwhile.old }
    {
        if filter.is_none() {
            return self.prepare_list(alloc, kind, start, count, meanwhile);
        }
        let mut gathered = Gathered::new(alloc, first_place(start), page_size(count));
        self.gather(alloc, kind, filter, &mut gathered, meanwhile)?;
        Ok(gathered.into_pending())
    }

    fn prepare_list<M: Meanwhile>(
        &mut self,
        alloc: Global,
        kind: Kind,
        start: i64,
        count: Option<i64>,
        meanwhile: &mut M,
    ) -> Result<Pending, SearchFault>
        ensures ok { R.is_faithful self.new
            → IfOk result (λ pending. pending
            ≡ outcome (R.rows self.old) (Request.Search kind None start count)) }
        ensures reads { Reads R.Registry CountsSearchFault self.old self.new result }
        ensures keeps { M.keeps meanwhile.old meanwhile.new }
        ensures stops { StopsIf (M.stops meanwhile.old) (M.stops meanwhile.new) result }
    {
        list(
            &mut self.registry,
            &mut self.places,
            alloc,
            kind,
            start,
            count,
            meanwhile,
        )
    }

    /// Looks for the rows of a type that a filter finds; by the index, if the filter names one record.
    fn gather<M: Meanwhile>(
        &mut self,
        alloc: Global,
        kind: Kind,
        filter: &Option<Filter>,
        gathered: &mut Gathered,
        meanwhile: &mut M,
    ) -> Result<(), SearchFault>
        ensures ok { R.is_faithful self.new →
            OnOk result (Gathers kind filter.now (R.rows self.old) gathered.old gathered.new) }
        ensures reads { Reads R.Registry CountsSearchFault self.old self.new result }
        ensures keeps { M.keeps meanwhile.old meanwhile.new }
        ensures stops { StopsIf (M.stops meanwhile.old) (M.stops meanwhile.new) result }
        ensures alone { is_none (option_and_then single_key filter.now) ≡ false
            → meanwhile.new ≡ meanwhile.old }
    {
        match single_key(alloc, filter)? {
            Some(name) => Ok(self.gather_named(kind, filter, &name, gathered)?),
            None => self.gather_all(kind, filter, gathered, meanwhile),
        }
    }

    /// Looks at the row of the one record that a filter names.
    fn gather_named(
        &mut self,
        kind: Kind,
        filter: &Option<Filter>,
        name: &RecordName,
        gathered: &mut Gathered,
    ) -> Result<(), ProviderFault>
        requires { option_and_then single_key filter.now ≡ Some name.now }
        ensures ok { R.is_faithful self.new →
            OnOk result (Gathers kind filter.now (R.rows self.old) gathered.old gathered.new) }
        ensures reads { Reads R.Registry CountsProviderFault self.old self.new result }
    {
        match self.registry.by_key(name)? {
            Some(row) => Ok(gathered.look_at(kind, filter, &row)?),
            None => Ok(()),
        }
    }

    /// Looks through all rows, `ROWS_AT_ONCE` at a time.
    fn gather_all<M: Meanwhile>(
        &mut self,
        kind: Kind,
        filter: &Option<Filter>,
        gathered: &mut Gathered,
        meanwhile: &mut M,
    ) -> Result<(), SearchFault>
        ensures ok { R.is_faithful self.new →
            OnOk result (Gathers kind filter.now (R.rows self.old) gathered.old gathered.new) }
        ensures reads { Reads R.Registry CountsSearchFault self.old self.new result }
        ensures keeps { M.keeps meanwhile.old meanwhile.new }
        ensures stops { StopsIf (M.stops meanwhile.old) (M.stops meanwhile.new) result }
    {
        let all = self.registry.count()?;
        let mut after = 0;
        while after < all {
            self.gather_page(kind, filter, after, gathered, meanwhile)?;
            after = after.saturating_add(ROWS_AT_ONCE);
        }
        Ok(())
    }

    /// Looks through some rows after the first `after`.
    fn gather_page<M: Meanwhile>(
        &mut self,
        kind: Kind,
        filter: &Option<Filter>,
        after: u32,
        gathered: &mut Gathered,
        meanwhile: &mut M,
    ) -> Result<(), SearchFault>
        ensures ok { R.is_faithful self.new
            → OnOk result
            (GoesThrough kind filter.now
            (take ROWS_AT_ONCE (drop after (R.rows self.old))) gathered.old gathered.new) }
        ensures reads { Reads R.Registry CountsSearchFault self.old self.new result }
        ensures keeps { M.keeps meanwhile.old meanwhile.new }
        ensures stops { StopsIf (M.stops meanwhile.old) (M.stops meanwhile.new) result }
    {
        let rows = self.registry.scan(after, ROWS_AT_ONCE as usize)?;
        gathered.look_through(kind, filter, &rows, meanwhile)
    }

    fn prepare_replace(
        &mut self,
        alloc: Global,
        id: &ResourceId,
        content: Content,
        if_match: &Condition,
        if_none_match: &Condition,
    ) -> Result<Pending, ProviderFault>
        ensures ok { R.is_faithful self.new
            → IfOk result (λ pending. pending
            ≡ outcome (R.rows self.old)
            (Request.Replace id.now content if_match.now if_none_match.now)) }
        ensures reads { Reads R.Registry CountsProviderFault self.old self.new result }
    {
        match self.resource(content.kind(), id)? {
            Some(row) => Ok(replacement(alloc, &row, content, if_match, if_none_match)?),
            None => Ok(refusal(alloc, Refusal::NoSuchResource)?),
        }
    }

    /// The row of a record, if there is one.
    pub fn row_of(&mut self, name: &RecordName) -> Result<Option<Stored>, ProviderFault>
        ensures row { R.is_faithful self.new
            → IfOk result (λ row. row ≡ row_named name.now (R.rows self.old)) }
        ensures reads { Reads R.Registry CountsProviderFault self.old self.new result }
    {
        Ok(self.registry.by_key(name)?)
    }

    /// Makes a prepared change on the current rows, and gives the answer. It writes at most once. If memory
    /// is out for the place of a new row, the next list looks for the places anew.
    pub fn commit(&mut self, pending: Pending) -> Result<Answer, ProviderFault>
        requires { R.is_faithful self.old → IsOutcome (R.rows self.old) pending }
        ensures answer { IfOk result (λ answer. answer ≡ pending.answer) }
        ensures writes { Writes R.Registry CountsProviderFault self.old self.new
            (changed_rows (R.rows self.old) pending.change) result }
        ensures open { R.is_honest self.new → R.is_faithful self.old →
            OnOk result (R.is_faithful self.new) }
    {
        let change = pending.change()?;
        self.make(change)?;
        Ok(pending.into_answer())
    }

    /// Makes a prepared change as `commit` does, without a copy of the content. It gives no answer.
    pub fn commit_change(&mut self, pending: Pending) -> Result<(), ProviderFault>
        requires { R.is_faithful self.old → IsOutcome (R.rows self.old) pending }
        ensures writes { Writes R.Registry CountsProviderFault self.old self.new
            (changed_rows (R.rows self.old) pending.change) result }
        ensures open { R.is_honest self.new → R.is_faithful self.old →
            OnOk result (R.is_faithful self.new) }
    {
        Ok(self.make(pending.into_change())?)
    }

    /// Makes a change on the current rows.
    fn make(&mut self, change: Change) -> Result<(), StoreFault>
        requires { R.is_faithful self.old → IsChange (R.rows self.old) change }
        ensures writes { Writes R.Registry CountsFault self.old self.new
            (changed_rows (R.rows self.old) change) result }
        ensures open { R.is_honest self.new → R.is_faithful self.old →
            OnOk result (R.is_faithful self.new) }
    {
        match change {
            Change::Unchanged => Ok(()),
            Change::Insert(row) => self.insert(row),
            Change::Update(row) => self.registry.update(&row),
        }
    }

    /// Adds a row, and keeps its place.
    fn insert(&mut self, row: Stored) -> Result<(), StoreFault>
        requires next { R.is_faithful self.old → row.number ≡ length (R.rows self.old) + 1 }
        requires free { R.is_faithful self.old →
            row_named (content_name row.content) (R.rows self.old) ≡ None }
        ensures adds { Writes R.Registry CountsFault self.old self.new
            (R.rows self.old ++ row ∷ []) result }
        ensures open { R.is_honest self.new → OnOk result (R.is_faithful self.new) }
    {
        let kind = row.content().kind();
        let place = row.number() - 1;
        self.registry.insert(row)?;
        add_kept(&mut self.places, kind, place);
        Ok(())
    }

    /// Answers a request and makes its change.
    pub fn answer(&mut self, alloc: Global, request: &Request) -> Result<Answer, ProviderFault>
        ensures answer { R.is_faithful self.new →
            IfOk result (λ answer. answer ≡ (outcome (R.rows self.old) request.now).answer) }
        ensures writes { Writes R.Registry CountsProviderFault self.old self.new
            (changed_rows (R.rows self.old) (outcome (R.rows self.old) request.now).change) result }
        ensures open { R.is_honest self.new → OnOk result (R.is_faithful self.new) }
    {
        let pending = self.prepare(alloc, request)?;
        self.commit(pending)
    }
}

impl<R: Reopen> Provider<R> {
    /// Opens the registry again.
    pub fn reopen(&mut self) -> Result<(), ProviderFault>
        ensures { OpensAgain R.Registry CountsProviderFault self.old self.new result }
    {
        self.places = None;
        Ok(self.registry.reopen()?)
    }
}
