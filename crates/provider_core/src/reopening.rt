//! Registries that can be opened again.
ghost use Rattle.std.specs.Prelude.{◌≡◌, IsOk};
ghost use Rattle.provider_core.specs.Calls.{OpensAgain};
ghost use Rattle.provider_core.specs.Stores.{CountsFault};

use crate::memory::MemoryRegistry;
use crate::registry::Registry;
use scim_key::StoreFault;

/// A registry that can be opened again, for example after a stop of its program.
pub trait Reopen: Registry {
    /// Opens the store again. After a stop, it holds what the stop left.
    fn reopen(&mut self) -> Result<(), StoreFault>
        ensures reopens { OpensAgain Self.Registry CountsFault self.old self.new result };
}

impl Reopen for MemoryRegistry {
    /// The rows are in memory, and stay.
    fn reopen(&mut self) -> Result<(), StoreFault>
        ensures kept { self.new ≡ self.old }
        ensures done { IsOk result }
    {
        Ok(())
    }
}
