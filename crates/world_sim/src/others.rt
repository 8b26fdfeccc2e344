//! Others who write at the provider of a world.
ghost use Rattle.std.specs.Option.{option_copied};
ghost use Rattle.std.specs.Prelude.{◌≡◌, IfErr, IfOk, Err, false};
ghost use Rattle.world_sim.specs.Acts.{Answers, FailsToAnswer, write_of, write_request};
ghost use Rattle.world_sim.specs.GoingOn.{unknown_entries};
ghost use Rattle.world_sim.specs.Running.{opens_of};
ghost use Rattle.world_sim.specs.declared.reports.WorldFault.TheVariants.{Store};

use crate::reports::WorldFault;
use crate::worlds::{World, prepared};
use journal_core::Journal;
use provider_core::Registry;
use scim_message::Request;
use scim_resource::{Content, Stored};
use scim_version::Condition;
use std::alloc::{AllocError, Global};

/// The request by which others write this content: a creation, or the unconditional replacement of the
/// resource that has its name.
pub(crate) fn write_request(
    alloc: Global,
    row: Option<&Stored>,
    content: Content,
) -> Result<Request, AllocError>
    ensures { IfOk result
        (λ request. request ≡ write_request (option_copied row.entry) content) }
{
    match row {
        None => Ok(Request::Create { content }),
        Some(row) => Ok(Request::Replace {
            id: row.id(alloc)?,
            content,
            if_match: Condition::Always,
            if_none_match: Condition::Always,
        }),
    }
}

impl<R: Registry + Drop, J: Journal + Drop> World<R, J> {
    /// Somebody else's request arrives at the provider, and its answer goes elsewhere: no message of ours is
    /// sent, and the connector is unchanged. It returns the status of the answer.
    pub fn arrive(&mut self, request: &Request) -> Result<u16, WorldFault>
        ensures done { IfOk result
            (Answers R.Registry J.Journal self.old self.new request.now) }
        ensures fails { IfErr result
            (FailsToAnswer R.Registry J.Journal self.old self.new request.now) }
        ensures goes_on { IfOk result
            (Answers R.Registry (unknown_entries J.Journal) self.old self.new request.now) }
        ensures fails_on { IfErr result
            (FailsToAnswer R.Registry (unknown_entries J.Journal) self.old self.new request.now) }
        ensures apart { self.new.connector ≡ self.old.connector }
        ensures sent { self.new.sent ≡ self.old.sent }
        ensures base { self.new.service ≡ self.old.service }
        ensures shut { self.old.is_provider_open ≡ false → result ≡ Err Store }
        ensures opens { opens_of self.new ≡ opens_of self.old }
    {
        if !self.is_provider_open {
            return Err(WorldFault::Store);
        }
        let (pending, _) = prepared(self.alloc, &mut self.provider, self.service.base(), request)?;
        let answer = self.provider.commit(pending)?;
        Ok(answer.status())
    }

    /// Others write this content at the provider: a creation, or, if something has its name, the
    /// unconditional replacement of that. It returns the status of the answer.
    pub fn write(&mut self, content: Content) -> Result<u16, WorldFault>
        ensures done { IfOk result (Answers R.Registry J.Journal self.old self.new
            (write_of (R.rows self.old.provider) content)) }
        ensures fails { IfErr result (FailsToAnswer R.Registry J.Journal self.old self.new
            (write_of (R.rows self.old.provider) content)) }
        ensures goes_on { IfOk result
            (Answers R.Registry (unknown_entries J.Journal) self.old self.new
            (write_of (R.rows self.old.provider) content)) }
        ensures fails_on { IfErr result
            (FailsToAnswer R.Registry (unknown_entries J.Journal) self.old self.new
            (write_of (R.rows self.old.provider) content)) }
        ensures apart { self.new.connector ≡ self.old.connector }
        ensures sent { self.new.sent ≡ self.old.sent }
        ensures base { self.new.service ≡ self.old.service }
        ensures shut { self.old.is_provider_open ≡ false → result ≡ Err Store }
        ensures opens { opens_of self.new ≡ opens_of self.old }
    {
        if !self.is_provider_open {
            return Err(WorldFault::Store);
        }
        let name = content.name(self.alloc)?;
        let row = self.provider.row_of(&name)?;
        let request = write_request(self.alloc, row.as_ref(), content)?;
        self.arrive(&request)
    }
}
