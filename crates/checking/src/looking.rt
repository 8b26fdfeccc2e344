//! What is asked about a record.
ghost use Rattle.std.specs.Prelude.{◌≡◌, IfErr, IfOk, Some};
ghost use Rattle.std.specs.Option.{option_copied};
ghost use Rattle.connector_core.specs.Maps.{book_of};
ghost use Rattle.provisioning.specs.declared.faults.RunFault.TheVariants.{Memory};
ghost use Rattle.checking.specs.Findings.{looking, wanted_at};
ghost use Rattle.checking.specs.Lines.{hindrance_text};

use connector_core::{Connector, Keeps, member_at, search_for};
use journal_core::Journal;
use mapping::{ImageFault, row_content};
use provisioning::{RecordFault, RunFault};
use scim_key::{Key, RecordName, ResourceId};
use scim_message::Request;
use scim_resource::Content;
use std::alloc::{AllocError, Global};
use std::fmt;

/// The search for a record, and what its resource is compared with.
#[derive(Drop)]
pub struct Look {
    pub request: Request,
    /// The image of the wanted row, as the provider has it.
    pub wanted: Content,
    /// The id that the connector knows.
    pub known: Option<ResourceId>,
}

/// Why nothing is known of a record's resource. Its text is printed: a code, or `waits ann`.
#[derive(Drop)]
pub enum Hindrance {
    Fault(RecordFault),
    /// This member of a group, its first by key without an id.
    Waits(Key),
}

impl fmt::Display for Hindrance {
    ghost output = { λ why. Some (hindrance_text why) };

    fn fmt<W: fmt::Write>(&self, f: &mut fmt::Formatter<W>) -> fmt::Result {
        match self {
            Hindrance::Fault(fault) => write!(f, "{fault}"),
            Hindrance::Waits(member) => write!(f, "waits {}", member.as_str()),
        }
    }
}

/// What is wanted of the resource of a provider of this kind.
fn wanted_at(keeps: Keeps, image: Content) -> Content
    ensures { result ≡ wanted_at keeps image }
{
    match keeps {
        Keeps::Revisions => image,
        Keeps::Versions => image.with_revision(None),
    }
}

/// The search for a record at a provider of this kind, or why it isn't sent.
pub(crate) fn look_up<J: Journal>(
    alloc: Global,
    keeps: Keeps,
    connector: &Connector<J>,
    name: &RecordName,
) -> Result<Result<Look, Hindrance>, RunFault>
    ensures looks { IfOk result (λ looked. looked
        ≡ looking keeps (book_of connector.now.book) name.now) }
    ensures fault { IfErr result (λ fault. fault ≡ Memory) }
{
    let Some(row) = connector.row(name) else {
        return Ok(Err(Hindrance::Fault(RecordFault::NoSuchRecord)));
    };
    match row_content(alloc, row, connector) {
        Ok(image) => Ok(Ok(Look {
            request: search_for(alloc, row)?,
            wanted: wanted_at(keeps, image),
            known: copied(connector.id(name))?,
        })),
        Err(ImageFault::MemberWithoutId { place }) => {
            Ok(Err(Hindrance::Waits(member_at(alloc, row, place)?)))
        }
        Err(ImageFault::Memory) => Err(RunFault::Memory),
    }
}

fn copied(id: Option<&ResourceId>) -> Result<Option<ResourceId>, AllocError>
    ensures { IfOk result (λ copy. copy ≡ option_copied id.entry) }
{
    match id {
        Some(id) => Ok(Some(id.clone()?)),
        None => Ok(None),
    }
}
