//! Laws of what a connection leaves of a store, and of connections that wait.
ghost use Rattle.std.specs.Prelude.{◌≡◌, ◌⊎◌, ℕ, List, Result};
ghost use Rattle.scim_resource.specs.Rows.{StoredRecord};
ghost use Rattle.http_text.specs.Message.{Message};
ghost use Rattle.http_text.specs.declared.fault.ReadFault.{ReadFault};
ghost use Rattle.connection.specs.Rounds.{MeetsEverybody};
ghost use Rattle.connection.specs.Serving.{IsAfter, LeavesRows};

use provider_core::Registry;
use std::io::Read;

/// A stop after a connection leaves the rows with or without what the connection asked for. This holds
/// even if a fault has shut the store.
pub fn stops_leave_one_request<R: Registry>()
    ensures { (old new : R) (read : Result Message ReadFault) → R.is_faithful old → R.is_honest new
        → LeavesRows R.Registry old new read → (found : List StoredRecord) → R.may_hold new found
        → (found ≡ R.rows old) ⊎ IsAfter (R.rows old) read found }
{}

/// Each connection that is held when a round begins is looked at in it, if it is time to, or leaves, before the next
/// round begins. Neither a newcomer nor a connection that leaves puts anybody off.
pub fn rounds_meet_everybody<S: Read + Drop>()
    ensures { (most : ℕ) → MeetsEverybody S.remaining most }
{}
