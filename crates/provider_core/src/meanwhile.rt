//! What goes on while a provider reads many rows.
ghost use Rattle.std.specs.Prelude.{◌≡◌, Bool, not};
ghost use Rattle.provider_core.specs.declared.provider.ProviderFault.TheVariants as provider_faults;
ghost use Rattle.provider_core.specs.declared.meanwhile.SearchFault.TheVariants as search_faults;

use crate::provider::ProviderFault;
use scim_key::StoreFault;
use std::alloc::AllocError;

/// Whoever has something to do while a provider looks through all its rows, which may take seconds.
pub trait Meanwhile {
    /// What stays the same from one moment to another.
    ghost keeps: { Self → Self → Type 0 };

    /// Whether it has last stopped a search.
    ghost stops: { Self → Bool };

    /// Some rows were read or looked at. It returns whether the search may go on.
    fn after_rows(&mut self) -> bool
        ensures keeps { keeps self.old self.new }
        ensures stops { result ≡ not (stops self.new) };

    ghost keeps_itself: { (m : Self) → keeps m m };

    ghost keeps_on: { (early middle late : Self) → keeps early middle → keeps middle late → keeps early late };
}

/// Nothing goes on, and nobody stops a search.
#[derive(Drop)]
pub struct Nothing;

impl Meanwhile for Nothing {
    ghost use Rattle.std.specs.Prelude.{false};

    ghost keeps = { λ _ _. Unit {0} };

    ghost stops = { λ _. false };

    ghost keeps_itself = { λ _. tt };

    ghost keeps_on = { λ _ _ _ _ _. tt };

    fn after_rows(&mut self) -> bool {
        true
    }
}

/// Why a request got no answer that somebody may have stopped. Nothing was changed.
#[derive(Clone, Copy)]
pub enum SearchFault {
    Provider(ProviderFault),
    /// Whoever goes on meanwhile stopped the search.
    Stopped,
}

impl From<ProviderFault> for SearchFault {
    ghost from_gives = { λ from fault. fault ≡ search_faults.Provider from };

    fn from(fault: ProviderFault) -> SearchFault {
        SearchFault::Provider(fault)
    }
}

impl From<AllocError> for SearchFault {
    ghost from_gives = { λ _ fault. fault ≡ search_faults.Provider provider_faults.Memory };

    fn from(_: AllocError) -> SearchFault {
        SearchFault::Provider(ProviderFault::Memory)
    }
}

impl From<StoreFault> for SearchFault {
    ghost use Rattle.provider_core.specs.Stores.{provider_fault};

    ghost from_gives = { λ from fault. fault ≡ search_faults.Provider (provider_fault from) };

    fn from(fault: StoreFault) -> SearchFault {
        SearchFault::Provider(ProviderFault::from(fault))
    }
}
