//! What a provider asks of the store of its rows.
ghost use Rattle.std.specs.Prelude.{◌≡◌, ℕ, ◌+◌, ◌≤◌, List, [], ◌∷◌, ◌++◌, length, IfOk, OnOk, None};
ghost use Rattle.scim_resource.specs.Rows.{StoredRecord};
ghost use Rattle.scim_resource.specs.Contents.{content_name};
ghost use Rattle.provider_core.specs.Rows.{count_if_free, row_named, row_with_id, page_after, with_row, IsNumberedFrom, AreNamedApart};
ghost use Rattle.provider_core.specs.Stores.{HasRisen, CountsFault, OnlyReads, WritesOnce, HoldsNumber};

use scim_key::{RecordName, ResourceId, StoreFault};
use scim_resource::Stored;

/// The most rows that one call of a registry gives.
pub const ROWS_AT_ONCE: u32 = 200;

/// The rows of a provider in order of creation, numbered from 1, at most one for each record.
///
/// The claims about rows hold while the store is faithful: it returned what was committed, and is open. A
/// registry in memory is always faithful. A fault of the store is counted, and may close the store.
pub trait Registry {
    ghost rows: { Self → List StoredRecord };

    /// The store returned what was committed, and is open.
    ghost is_faithful: { Self → Type 0 };

    /// The store returned what was committed.
    ghost is_honest: { Self → Type 0 };

    /// The rows that may be found if the store is opened again after a stop at this moment.
    ghost may_hold: { Self → List StoredRecord → Type 0 };

    ghost faults: { Self → ℕ };

    ghost writes: { Self → ℕ };

    /// How many rows there are.
    fn count(&mut self) -> Result<u32, StoreFault>
        ensures ok { is_faithful self.new → IfOk result (λ n. n ≡ length (rows self.old)) }
        ensures reads { OnlyReads rows is_faithful is_honest may_hold faults writes CountsFault
            self.old self.new result };

    /// The row of a record, if there is one.
    fn by_key(&mut self, name: &RecordName) -> Result<Option<Stored>, StoreFault>
        ensures ok { is_faithful self.new
            → IfOk result (λ row. row ≡ row_named name.now (rows self.old)) }
        ensures apart { is_faithful self.new → AreNamedApart (rows self.old) }
        ensures reads { OnlyReads rows is_faithful is_honest may_hold faults writes CountsFault
            self.old self.new result };

    /// How many rows there are, if none of them is of this record.
    fn count_if_free(&mut self, name: &RecordName) -> Result<Option<u32>, StoreFault>
        ensures ok { is_faithful self.new
            → IfOk result (λ count. count ≡ count_if_free name.now (rows self.old)) }
        ensures reads { OnlyReads rows is_faithful is_honest may_hold faults writes CountsFault
            self.old self.new result };

    /// The row with this id, if there is one.
    fn by_id(&mut self, id: &ResourceId) -> Result<Option<Stored>, StoreFault>
        ensures ok { is_faithful self.new
            → IfOk result (λ row. row ≡ row_with_id id.now (rows self.old)) }
        ensures reads { OnlyReads rows is_faithful is_honest may_hold faults writes CountsFault
            self.old self.new result };

    /// At most `limit` rows, in order, from the first with a number above `after`.
    fn scan(&mut self, after: u32, limit: usize) -> Result<Vec<Stored>, StoreFault>
        requires few { limit ≤ ROWS_AT_ONCE }
        ensures ok { is_faithful self.new
            → IfOk result (λ page. page.items ≡ page_after after limit (rows self.old)) }
        ensures numbered { is_faithful self.new → IsNumberedFrom 1 (rows self.old) }
        ensures apart { is_faithful self.new → AreNamedApart (rows self.old) }
        ensures reads { OnlyReads rows is_faithful is_honest may_hold faults writes CountsFault
            self.old self.new result };

    /// Adds a row, with the next number and a free name.
    fn insert(&mut self, row: Stored) -> Result<(), StoreFault>
        requires next { is_faithful self.old → row.number ≡ length (rows self.old) + 1 }
        requires free { is_faithful self.old
            → row_named (content_name row.content) (rows self.old) ≡ None }
        ensures adds { WritesOnce rows is_faithful is_honest may_hold faults writes CountsFault
            self.old self.new (rows self.old ++ row ∷ []) result }
        ensures open { is_honest self.new → OnOk result (is_faithful self.new) }
        ensures counted { OnOk result (HasRisen (writes self.old) (writes self.new)) };

    /// Replaces the row with the same number, which must have the same name.
    fn update(&mut self, row: &Stored) -> Result<(), StoreFault>
        requires there { is_faithful self.old → HoldsNumber (rows self.old) row.now }
        ensures replaces { WritesOnce rows is_faithful is_honest may_hold faults writes CountsFault
            self.old self.new (with_row row.now (rows self.old)) result }
        ensures open { is_honest self.new → OnOk result (is_faithful self.new) }
        ensures counted { OnOk result (HasRisen (writes self.old) (writes self.new)) };

    /// A faithful store is honest.
    ghost is_so: { (s : Self) → is_faithful s → is_honest s };

    /// A stop at this moment leaves nothing but the rows of a faithful store.
    ghost settled: { (s : Self) (found : List StoredRecord) → is_faithful s → may_hold s found
        → found ≡ rows s };

    /// A stop at this moment may leave the rows of a faithful store.
    ghost stays: { (s : Self) → is_faithful s → may_hold s (rows s) };
}
