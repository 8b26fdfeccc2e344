//! The counts of a store's faults and writes.
ghost use Rattle.std.specs.Prelude.{◌≡◌, ◌≤◌, ◌+◌, OnErr, OnOk};
ghost use Rattle.scim_key.specs.Stores.{CountsFault, CountsFaults, HasRisen};
ghost use Rattle.scim_key.specs.declared.stores.StoreFault.TheVariants.{Store};

use scim_key::StoreFault;

/// Returns the fault, and counts it if it is a fault of the store.
pub fn counted(faults: &mut u64, fault: StoreFault) -> StoreFault
    ensures same { result ≡ fault }
    ensures counts { CountsFault faults.old faults.new result }
{
    if let StoreFault::Store = fault {
        *faults = faults.saturating_add(1);
    }
    fault
}

/// The fault of every call after a reopening that failed.
pub fn refusal(faults: &mut u64) -> StoreFault
    ensures is { result ≡ Store }
    ensures counts { CountsFault faults.old faults.new result }
{
    counted(faults, StoreFault::Store)
}

/// The result of a call that writes, for that of its statements. Counts the write, or the fault of the store.
pub fn concluded(
    writes: &mut u64,
    faults: &mut u64,
    made: Result<(), StoreFault>,
) -> Result<(), StoreFault>
    ensures is { result ≡ made }
    ensures faults { CountsFaults CountsFault faults.old faults.new result }
    ensures risen { OnOk result (HasRisen writes.old writes.new) }
    ensures written { writes.new ≤ writes.old + 1 }
    ensures unwritten { OnErr result (writes.new ≡ writes.old) }
{
    match made {
        Ok(()) => {
            *writes = writes.saturating_add(1);
            Ok(())
        }
        Err(fault) => Err(counted(faults, fault)),
    }
}
