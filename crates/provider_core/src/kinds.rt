//! Where the rows of each type are.
ghost use Rattle.std.specs.Prelude.{◌≡◌, ◌∷◌, [], length, take, drop, OnOk};
ghost use Rattle.provider_core.specs.Listing.{AddsRows, KeepsOrDrops, places_in, places_of, with_place};

use scim_key::Kind;
use scim_resource::Stored;
use std::alloc::{AllocError, Global};
use std::marker::Model;

/// The places of the users and of the groups among all rows, counted from 0, in rising order.
#[derive(Drop)]
pub(crate) struct KindPlaces {
    users: Vec<u32>,
    groups: Vec<u32>,
}

impl Model for KindPlaces {
    ghost use Rattle.provider_core.specs.Listing.{Places};

    ghost Value = { Places };

    ghost view = { λ p. record { users = p.users.items; groups = p.groups.items } };
}

impl KindPlaces {
    /// No places.
    pub(crate) fn new(alloc: Global) -> KindPlaces
        ensures { result ≡ places_of [] }
    {
        KindPlaces {
            users: Vec::new(alloc),
            groups: Vec::new(alloc),
        }
    }

    /// The places of this type.
    fn of(&self, kind: Kind) -> &[u32]
        ensures { result.now ≡ places_in kind self.now }
    {
        match kind {
            Kind::User => self.users.as_slice(),
            Kind::Group => self.groups.as_slice(),
        }
    }

    /// Adds the place of a row of this type.
    pub(crate) fn add(&mut self, kind: Kind, place: u32) -> Result<(), AllocError>
        ensures { OnOk result (self.new ≡ with_place kind place self.old) }
    {
        match kind {
            Kind::User => self.users.push(place)?,
            Kind::Group => self.groups.push(place)?,
        }
        Ok(())
    }

    /// Adds the place of a row.
    fn add_row(&mut self, row: &Stored) -> Result<(), AllocError>
        ensures { OnOk result (AddsRows (row.now ∷ []) self.old self.new) }
    {
        self.add(row.content().kind(), row.number() - 1)
    }

    /// Adds the places of rows.
    pub(crate) fn add_all(&mut self, rows: &[Stored]) -> Result<(), AllocError>
        ensures { OnOk result (AddsRows rows.now self.old self.new) }
    {
        for row in rows {
            self.add_row(row)?;
        }
        Ok(())
    }

    /// How many rows of this type there are.
    pub(crate) fn total(&self, kind: Kind) -> u64
        ensures { result ≡ length (places_in kind self.now) }
    {
        self.of(kind).len() as u64
    }

    /// At most `most` places of this type, after the first `skip`.
    pub(crate) fn page(&self, kind: Kind, skip: u64, most: usize) -> &[u32]
        ensures { result.now ≡ take most (drop skip (places_in kind self.now)) }
    {
        let all = self.of(kind);
        let rest = &all[all.len().min(skip as usize)..];
        &rest[..rest.len().min(most)]
    }
}

/// Adds the place of a row to the places that are kept. If memory is out, no places are kept any more.
pub(crate) fn add_kept(kept: &mut Option<KindPlaces>, kind: Kind, place: u32)
    ensures { KeepsOrDrops kind place kept.old kept.new }
{
    if let Some(places) = kept {
        if places.add(kind, place).is_err() {
            *kept = None;
        }
    }
}
