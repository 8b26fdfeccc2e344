//! A registry in memory.
ghost use Rattle.std.specs.Prelude.{◌≡◌, ◌<◌, ◌-◌, [], drop, take, slice_get, refl, IfOk};

use crate::registry::Registry;
use scim_key::{RecordName, ResourceId, StoreFault};
use scim_resource::Stored;
use std::alloc::{AllocError, Global};
use std::collections::BTreeMap;
use std::marker::Model;

/// A registry with its rows in memory, and an index by name.
#[derive(Drop)]
pub struct MemoryRegistry {
    rows: Vec<Stored>,
    numbers: BTreeMap<RecordName, u32>,
    writes: u64,
}

impl Model for MemoryRegistry {
    ghost use Rattle.provider_core.specs.Memory.{MemoryRecord, IsIndexed};

    ghost Value = { MemoryRecord };

    ghost view = { λ r. record { rows = r.rows.items; writes = r.writes } };

    ghost invariant = { λ r. IsIndexed r.numbers r.rows.items };
}

impl MemoryRegistry {
    /// A registry without rows.
    pub fn new(alloc: Global) -> MemoryRegistry
        ensures { result ≡ record { rows = []; writes = 0 } }
    {
        MemoryRegistry {
            rows: Vec::new(alloc),
            numbers: BTreeMap::new(alloc),
            writes: 0,
        }
    }
}

/// A copy of the row at this place, counted from 1, if there is one.
fn copy_at(rows: &[Stored], place: u32) -> Result<Option<Stored>, AllocError>
    requires { 0 < place }
    ensures { IfOk result (λ row. row ≡ slice_get rows.now (place - 1)) }
{
    match rows.get(place as usize - 1) {
        Some(row) => Ok(Some(row.clone()?)),
        None => Ok(None),
    }
}

/// At most `limit` rows after the first `after`.
fn part(rows: &[Stored], after: u32, limit: usize) -> &[Stored]
    ensures { result.now ≡ take limit (drop after rows.now) }
{
    let rest = &rows[rows.len().min(after as usize)..];
    &rest[..rest.len().min(limit)]
}

impl Registry for MemoryRegistry {
    ghost rows = { λ r. r.rows };

    ghost is_faithful = { λ _. Unit {0} };

    ghost is_honest = { λ _. Unit {0} };

    ghost may_hold = { λ r found. found ≡ r.rows };

    ghost faults = { λ _. 0 };

    ghost writes = { λ r. r.writes };

    fn count(&mut self) -> Result<u32, StoreFault> {
        Ok(self.rows.len() as u32)
    }

    fn by_key(&mut self, name: &RecordName) -> Result<Option<Stored>, StoreFault> {
        match self.numbers.get(name) {
            Some(number) => Ok(copy_at(self.rows.as_slice(), *number)?),
            None => Ok(None),
        }
    }

    fn count_if_free(&mut self, name: &RecordName) -> Result<Option<u32>, StoreFault> {
        match self.numbers.get(name) {
            Some(_) => Ok(None),
            None => Ok(Some(self.rows.len() as u32)),
        }
    }

    fn by_id(&mut self, id: &ResourceId) -> Result<Option<Stored>, StoreFault> {
        match id.number() {
            Some(number) => Ok(copy_at(self.rows.as_slice(), number)?),
            None => Ok(None),
        }
    }

    fn scan(&mut self, after: u32, limit: usize) -> Result<Vec<Stored>, StoreFault> {
        let alloc = *self.rows.allocator();
        Ok(part(self.rows.as_slice(), after, limit).to_vec(alloc)?)
    }

    fn insert(&mut self, row: Stored) -> Result<(), StoreFault> {
        let name = row.content().name(*self.rows.allocator())?;
        self.rows.reserve(1)?;
        self.numbers.insert(name, row.number())?;
        self.rows.push(row)?;
        self.writes = self.writes.saturating_add(1);
        Ok(())
    }

    fn update(&mut self, row: &Stored) -> Result<(), StoreFault> {
        let place = row.number() as usize - 1;
        self.rows[place] = row.clone()?;
        self.writes = self.writes.saturating_add(1);
        Ok(())
    }

    ghost is_so = { λ _ faithful. faithful };

    ghost settled = { λ _ _ _ holds. holds };

    ghost stays = { λ _ _. refl };
}
