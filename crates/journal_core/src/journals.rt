//! What a connector asks of the store of its entries.
ghost use Rattle.std.specs.Prelude.{◌≡◌, ℕ, IfOk, OnOk};
ghost use Rattle.scim_key.specs.Revisions.{RevisionValue};
ghost use Rattle.journal_core.specs.Entries.{EntryMap, IsListOf, CanPutRow, CanPutRows, CanPutLearnt, with_row, with_rows, with_learnt};
ghost use Rattle.journal_core.specs.Stores.{CountsFault, HasRisen, OnlyReads, WritesOnce};

use crate::entries::Entry;
use scim_key::{RecordName, ResourceId, Revision, StoreFault};
use source_csv::Row;

/// The entries of a connector, one for each record.
///
/// The claims about entries hold while the store is faithful: it is open, and returns what was committed. A
/// journal in memory is always faithful. Faults of the store and writes are counted.
pub trait Journal {
    ghost entries: { Self → EntryMap };

    ghost is_faithful: { Self → Type 0 };

    /// The store returned what was committed.
    ghost is_honest: { Self → Type 0 };

    /// The entries that may be found if the store is opened again after a stop at this moment.
    ghost may_hold: { Self → EntryMap → Type 0 };

    ghost faults: { Self → ℕ };

    ghost writes: { Self → ℕ };

    /// All entries, in order of the records' names.
    fn load(&mut self) -> Result<Vec<Entry>, StoreFault>
        ensures ok { is_faithful self.new
            → IfOk result (λ list. IsListOf (entries self.old) list.items) }
        ensures reads { OnlyReads entries is_faithful is_honest may_hold faults writes CountsFault
            self.old self.new result };

    /// Replaces the last row of the row's record, whose id and confirmed revision stay. A new record has
    /// neither.
    fn put_row(&mut self, row: &Row) -> Result<(), StoreFault>
        requires lawful { is_faithful self.old → CanPutRow (entries self.old) row.now }
        ensures puts { WritesOnce entries is_faithful is_honest may_hold faults writes CountsFault
            self.old self.new (with_row (entries self.old) row.now) result }
        ensures open { is_honest self.new → OnOk result (is_faithful self.new) }
        ensures counted { OnOk result (HasRisen (writes self.old) (writes self.new)) };

    /// Puts these rows, one after another, by one write: all or none.
    fn put_rows(&mut self, rows: Vec<Row>) -> Result<(), StoreFault>
        requires lawful { is_faithful self.old → CanPutRows (entries self.old) rows.items }
        ensures puts { WritesOnce entries is_faithful is_honest may_hold faults writes CountsFault
            self.old self.new (with_rows (entries self.old) rows.items) result }
        ensures open { is_honest self.new → OnOk result (is_faithful self.new) }
        ensures counted { OnOk result (HasRisen (writes self.old) (writes self.new)) };

    /// Puts the confirmed revision and the id of an existing record. Its row stays.
    fn put_learnt(
        &mut self,
        name: &RecordName,
        confirmed: Revision,
        id: &ResourceId,
    ) -> Result<(), StoreFault>
        requires lawful { is_faithful self.old
            → CanPutLearnt (entries self.old) name.now confirmed }
        ensures puts { WritesOnce entries is_faithful is_honest may_hold faults writes CountsFault
            self.old self.new (with_learnt (entries self.old) name.now confirmed id.now) result }
        ensures open { is_honest self.new → OnOk result (is_faithful self.new) }
        ensures counted { OnOk result (HasRisen (writes self.old) (writes self.new)) };

    /// A faithful store is honest.
    ghost is_so: { (s : Self) → is_faithful s → is_honest s };

    /// A stop at this moment leaves nothing but the entries of a faithful store.
    ghost settled: { (s : Self) (found : EntryMap) → is_faithful s → may_hold s found
        → found ≡ entries s };

    /// A stop at this moment may leave the entries of a faithful store.
    ghost stays: { (s : Self) → is_faithful s → may_hold s (entries s) };
}
