//! A record that was begun, and its finding.
ghost use Rattle.std.specs.Prelude.{◌≡◌, IfErr, IfOk};
ghost use Rattle.connector_core.specs.Maps.{book_of};
ghost use Rattle.provisioning.specs.Openings.{Opens};
ghost use Rattle.provisioning.specs.declared.faults.RunFault.TheVariants.{Memory};
ghost use Rattle.checking.specs.Checks.{Begins, IsFound};

use crate::explaining::explain;
use crate::findings::Finding;
use crate::looking::{Hindrance, Look, look_up};
use connector_core::{Connector, Keeps};
use journal_core::Journal;
use provisioning::{Dial, Flight, Recording, RunFault, ServiceProvider, hear, open_fault, send_on};
use scim_key::{RecordName, ResourceId};
use scim_resource::Content;
use std::alloc::Global;
use std::io::{Read, Write};

/// A record whose search was sent, or isn't.
#[derive(Drop)]
pub enum Begun<R: Drop, W: Drop> {
    /// The search on its stream, the wanted content and the known id.
    Asked(Flight<R, W>, Content, Option<ResourceId>),
    Hindered(Hindrance),
}

/// A record that isn't reported yet.
#[derive(Drop)]
pub struct Pending<R: Drop, W: Drop> {
    pub name: RecordName,
    pub begun: Begun<R, W>,
}

/// Sends the search for a record on a new stream, if it can be asked about.
pub(crate) fn begin<J: Journal, D: Dial>(
    alloc: Global,
    service: &ServiceProvider<'_>,
    connector: &Connector<J>,
    dial: &mut D,
    name: &RecordName,
) -> Result<Begun<D::Reader, D::Writer>, RunFault>
    ensures { Opens (D.opened dial.old) (D.opened dial.new) (λ opened. Begins
        D.Writer.contents service.now (book_of connector.now.book) name.now opened result) }
{
    let look = match look_up(alloc, service.keeps, connector, name)? {
        Ok(look) => look,
        Err(why) => return Ok(Begun::Hindered(why)),
    };
    let (reader, writer) = match dial.dial() {
        Ok(stream) => stream,
        Err(error) => return Err(open_fault(error)),
    };
    let Look {
        request,
        wanted,
        known,
    } = look;
    let flight = send_on(alloc, service, request, reader, writer);
    Ok(Begun::Asked(flight, wanted, known))
}

/// Reads the answer, and ends the stream. If the answer says nothing of the record, it has that explained.
pub(crate) fn finish<D: Dial>(
    alloc: Global,
    dial: &D,
    keeps: Keeps,
    name: &RecordName,
    begun: Begun<D::Reader, D::Writer>,
) -> Result<Finding, RunFault>
    ensures found { IfOk result (IsFound D.Reader.remaining begun) }
    ensures fault { IfErr result (λ fault. fault ≡ Memory) }
{
    match begun {
        Begun::Asked(flight, wanted, known) => {
            let Flight {
                request,
                reader,
                writer,
                sent,
            } = flight;
            let (came, recording) = hear(alloc, &request, reader, sent);
            let Recording { reader, heard } = recording;
            dial.end(reader, writer);
            explain(alloc, dial, keeps, name, &wanted, &request, &heard, &came);
            Finding::of(wanted, known, came)
        }
        Begun::Hindered(why) => Ok(Finding::Unchecked(why)),
    }
}
