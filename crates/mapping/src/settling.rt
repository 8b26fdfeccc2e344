//! The order in which records settle.
ghost use Rattle.mapping.specs.Settling.{IsSettleOrder};

use scim_key::RecordName;

/// Sorts names of records: users by key, then groups by key, so that members have ids before their groups
/// are sent. It allocates nothing.
pub fn settle_order(names: &mut [RecordName])
    ensures { IsSettleOrder names.old names.new }
{
    names.sort_unstable();
}
