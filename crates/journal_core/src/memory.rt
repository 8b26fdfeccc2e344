//! A journal in memory.
ghost use Rattle.std.specs.Prelude.{◌≡◌, false, map, IfErr, IfOk, OnOk, OnErr, IsSome, IsTrue, Some, refl};
ghost use Rattle.std.specs.BTreeMap.{IsOrdered, Updates, get, values};
ghost use Rattle.std.specs.FinMap.{empty, from_entries};
ghost use Rattle.std.specs.List.{All};
ghost use Rattle.std.specs.Option.{option_map};
ghost use Rattle.scim_key.specs.Records.{name_cmp};
ghost use Rattle.journal_core.specs.Entries.{AreUpTo, CanPutRow, CanPutRows, EntryMap, IsListOf, IsUpTo, entry_learnt, entry_with, named, with_row, with_rows};
ghost use Rattle.journal_core.specs.Memory.{AreLawful, entries_in};
ghost use Rattle.scim_key.specs.declared.stores.StoreFault.TheVariants.{Memory};

use crate::entries::Entry;
use crate::journals::Journal;
use scim_key::{RecordName, ResourceId, Revision, StoreFault};
use source_csv::Row;
use std::alloc::{AllocError, AllocFailed, Global};
use std::collections::BTreeMap;
use std::marker::Model;

/// A journal with its entries in memory.
#[derive(Drop)]
pub struct MemoryJournal {
    alloc: Global,
    entries: BTreeMap<RecordName, Entry>,
    writes: u64,
}

impl Model for MemoryJournal {
    ghost use Rattle.std.specs.Coded.{codes};
    ghost use Rattle.std.specs.FinMap as map;
    ghost use Rattle.journal_core.specs.Memory.{MemoryRecord, AreLawful, entries_in};

    ghost Value = { MemoryRecord };

    ghost coded = { Prim.hlevel (codes, map.code) };

    ghost view = { λ j. record { entries = entries_in j.entries; writes = j.writes } };

    ghost invariant = { λ j. AreLawful j.entries };
}

impl MemoryJournal {
    /// A journal without entries.
    pub fn new(alloc: Global) -> MemoryJournal
        ensures { result ≡ record { entries = empty; writes = 0 } }
    {
        MemoryJournal {
            alloc,
            entries: BTreeMap::new(alloc),
            writes: 0,
        }
    }

    /// A journal with the entries that another one listed. A list that no faithful journal gives is a fault of its store.
    pub fn from_entries(alloc: Global, list: Vec<Entry>) -> Result<MemoryJournal, StoreFault>
        ensures holds { (entries : EntryMap) → IsListOf entries list.items
            → IfOk result (λ journal. journal ≡ record { entries = entries; writes = 0 }) }
        ensures fault { (entries : EntryMap) → IsListOf entries list.items
            → IfErr result (λ fault. fault ≡ Memory) }
    {
        let entries = tree_of(alloc, list)?;
        Ok(MemoryJournal {
            alloc,
            entries,
            writes: 0,
        })
    }
}

/// Whether the confirmed revision isn't above the row's.
fn is_up_to(row: &Row, confirmed: Revision) -> bool
    ensures is { IsTrue result → IsUpTo row.now confirmed }
    ensures not { result ≡ false → IsUpTo row.now confirmed → ⊥ }
{
    !row.revision().is_before(confirmed)
}

/// The entries of a list, each under the name of its record.
fn tree_of(alloc: Global, mut list: Vec<Entry>) -> Result<BTreeMap<RecordName, Entry>, StoreFault>
    ensures lawful { IfOk result AreLawful }
    ensures holds { IfOk result (λ tree. entries_in tree ≡ from_entries (map named list.items)) }
    ensures fault { AreUpTo list.items → IfErr result (λ fault. fault ≡ Memory) }
{
    let mut entries = BTreeMap::new(alloc);
    while let Some(entry) = list.pop() {
        if !is_up_to(&entry.row, entry.confirmed) {
            return Err(StoreFault::Store);
        }
        let name = entry.row.record_name(alloc)?;
        entries.insert(name, entry)?;
    }
    Ok(entries)
}

/// Copies of the entries, in order of their names.
fn copies(alloc: Global, entries: &BTreeMap<RecordName, Entry>) -> Result<Vec<Entry>, AllocError>
    ensures copied { IfOk result (λ list. list.items ≡ values entries.now) }
    ensures ordered { IsOrdered name_cmp entries.now }
    ensures found { All (λ e. get name_cmp entries.now e.0 ≡ Some e.1) entries.now.entries }
{
    let mut list = Vec::new(alloc);
    for (_, entry) in entries.iter() {
        list.push(entry.clone()?)?;
    }
    Ok(list)
}

/// Replaces the row of the entry with this name, or makes a first entry.
fn put_row(
    entries: &mut BTreeMap<RecordName, Entry>,
    name: RecordName,
    row: Row,
) -> Result<(), AllocFailed<(RecordName, Entry)>>
    ensures ok { OnOk result
        (Updates name_cmp entries.old entries.new name
        (Some (entry_with row (get name_cmp entries.old name)))) }
    ensures err { OnErr result (entries.new.entries ≡ entries.old.entries) }
{
    match entries.get_mut(&name) {
        Some(entry) => entry.row = row,
        None => {
            entries.insert(
                name,
                Entry {
                    row,
                    confirmed: Revision::none(),
                    id: None,
                },
            )?;
        }
    }
    Ok(())
}

/// Puts a row under the name of its record.
fn put_named(
    alloc: Global,
    entries: &mut BTreeMap<RecordName, Entry>,
    row: Row,
) -> Result<(), StoreFault>
    requires lawful { AreLawful entries.old }
    requires can { CanPutRow (entries_in entries.old) row }
    ensures lawful { AreLawful entries.new }
    ensures put { OnOk result (entries_in entries.new ≡ with_row (entries_in entries.old) row) }
    ensures err { OnErr result (entries.new.entries ≡ entries.old.entries) }
    ensures fault { IfErr result (λ fault. fault ≡ Memory) }
{
    let name = row.record_name(alloc)?;
    put_row(entries, name, row)?;
    Ok(())
}

/// The entries with these rows, put one after another.
fn copy_with(
    alloc: Global,
    entries: &BTreeMap<RecordName, Entry>,
    rows: Vec<Row>,
) -> Result<BTreeMap<RecordName, Entry>, StoreFault>
    requires lawful { AreLawful entries.now }
    requires can { CanPutRows (entries_in entries.now) rows.items }
    ensures lawful { IfOk result AreLawful }
    ensures put { IfOk result (λ copy. entries_in copy
        ≡ with_rows (entries_in entries.now) rows.items) }
    ensures fault { IfErr result (λ fault. fault ≡ Memory) }
{
    let mut copy = entries.clone()?;
    for row in rows {
        put_named(alloc, &mut copy, row)?;
    }
    Ok(copy)
}

/// Puts what was learnt into the entry with this name, if there is one.
fn put_learnt(
    entries: &mut BTreeMap<RecordName, Entry>,
    name: &RecordName,
    confirmed: Revision,
    id: ResourceId,
)
    requires { IsSome (get name_cmp entries.old name.now) }
    ensures { Updates name_cmp entries.old entries.new name.now
        (option_map (entry_learnt confirmed id) (get name_cmp entries.old name.now)) }
{
    if let Some(entry) = entries.get_mut(name) {
        entry.confirmed = confirmed;
        entry.id = Some(id);
    }
}

impl Journal for MemoryJournal {
    ghost entries = { λ j. j.entries };

    ghost is_faithful = { λ _. Unit {0} };

    ghost is_honest = { λ _. Unit {0} };

    ghost may_hold = { λ j found. found ≡ j.entries };

    ghost faults = { λ _. 0 };

    ghost writes = { λ j. j.writes };

    fn load(&mut self) -> Result<Vec<Entry>, StoreFault> {
        Ok(copies(self.alloc, &self.entries)?)
    }

    fn put_row(&mut self, row: &Row) -> Result<(), StoreFault> {
        put_named(self.alloc, &mut self.entries, row.clone()?)?;
        self.writes = self.writes.saturating_add(1);
        Ok(())
    }

    fn put_rows(&mut self, rows: Vec<Row>) -> Result<(), StoreFault> {
        self.entries = copy_with(self.alloc, &self.entries, rows)?;
        self.writes = self.writes.saturating_add(1);
        Ok(())
    }

    fn put_learnt(
        &mut self,
        name: &RecordName,
        confirmed: Revision,
        id: &ResourceId,
    ) -> Result<(), StoreFault> {
        let id = id.clone()?;
        put_learnt(&mut self.entries, name, confirmed, id);
        self.writes = self.writes.saturating_add(1);
        Ok(())
    }

    ghost is_so = { λ _ faithful. faithful };

    ghost settled = { λ _ _ _ holds. holds };

    ghost stays = { λ _ _. refl };
}
