//! What the answer to a search says of a record.
ghost use Rattle.std.specs.Prelude.{◌≡◌, IfErr, IfOk, Some};
ghost use Rattle.scim_key.specs.Records.{same_name};
ghost use Rattle.scim_resource.specs.Contents.{content_name};
ghost use Rattle.provisioning.specs.declared.faults.RunFault.TheVariants.{Memory};
ghost use Rattle.checking.specs.Findings.{answered, finding_beside, finding_of, is_above, is_differing, is_printed, is_unchecked, listed};
ghost use Rattle.checking.specs.Rechecks.{finds_in_step, finds_leaver, finds_other_id};

use crate::beside::Beside;
use crate::looking::Hindrance;
use comparing::{Aspect, agree, is_active};
use provisioning::{RecordFault, RunFault};
use scim_client::{AnswerFault, ExchangeFault};
use scim_key::ResourceId;
use scim_message::Answer;
use scim_resource::{Content, Shown};

/// What was found of a record.
#[derive(Drop)]
pub enum Finding {
    /// Its resource, beside what is wanted.
    Found(Beside),
    /// The same; its revision is above the wanted one.
    Above(Beside),
    /// The provider has none.
    Gone,
    Unchecked(Hindrance),
}

impl Finding {
    /// The finding of what came of the search for a record, beside the wanted content and the known id.
    pub fn of(
        wanted: Content,
        known: Option<ResourceId>,
        came: Result<Answer, ExchangeFault>,
    ) -> Result<Finding, RunFault>
        ensures found { IfOk result (λ finding. finding ≡ finding_of wanted known came) }
        ensures fault { IfErr result (λ fault. fault ≡ Memory) }
    {
        match came {
            Ok(answer) => Ok(answered(wanted, known, answer)),
            Err(ExchangeFault::OutOfMemory) => Err(RunFault::Memory),
            Err(ExchangeFault::NoAnswer(AnswerFault::OutOfMemory)) => Err(RunFault::Memory),
            Err(fault) => Ok(unchecked(RecordFault::Unanswered(fault))),
        }
    }

    /// Whether nothing is known of the resource.
    pub fn is_unchecked(&self) -> bool
        ensures { result ≡ is_unchecked self.now }
    {
        matches!(self, Finding::Unchecked(_))
    }

    /// Whether what was found is what is wanted.
    pub fn is_in_step(&self) -> bool
        ensures { result ≡ finds_in_step self.now }
    {
        match self {
            Finding::Found(beside) => beside.is_in_step(),
            Finding::Above(_) | Finding::Gone | Finding::Unchecked(_) => false,
        }
    }

    /// Whether the account is active, and shouldn't be.
    pub fn is_leaver(&self) -> bool
        ensures { result ≡ finds_leaver self.now }
    {
        match self {
            Finding::Found(beside) => {
                is_active(beside.found.content()) && !is_active(&beside.wanted)
            }
            Finding::Above(_) | Finding::Gone | Finding::Unchecked(_) => false,
        }
    }

    /// Whether the id that the connector knows may not be the resource's.
    pub fn has_other_id(&self) -> bool
        ensures { result ≡ finds_other_id self.now }
    {
        match self {
            Finding::Found(beside) => !beside.has_known_id(),
            Finding::Above(_) => false,
            Finding::Gone | Finding::Unchecked(_) => true,
        }
    }

    /// Whether what was found isn't what is wanted.
    pub fn is_differing(&self) -> bool
        ensures { result ≡ is_differing self.now }
    {
        match self {
            Finding::Found(beside) => !beside.is_in_step(),
            Finding::Above(_) | Finding::Gone => true,
            Finding::Unchecked(_) => false,
        }
    }

    /// Whether the record has a line, in a quiet run or in another.
    pub fn is_printed(&self, is_quiet: bool) -> bool
        ensures { result ≡ is_printed is_quiet self.now }
    {
        match self {
            Finding::Found(beside) if is_quiet => {
                !agree(&beside.wanted, beside.found.content(), Aspect::Active)
            }
            Finding::Found(beside) => !beside.is_in_step(),
            Finding::Above(_) | Finding::Gone => !is_quiet,
            Finding::Unchecked(_) => true,
        }
    }
}

fn unchecked(fault: RecordFault) -> Finding
    ensures { result ≡ Finding.Unchecked (Hindrance.Fault fault) }
{
    Finding::Unchecked(Hindrance::Fault(fault))
}

fn answered(wanted: Content, known: Option<ResourceId>, answer: Answer) -> Finding
    ensures { result ≡ answered wanted known answer }
{
    match answer {
        Answer::List(list) => listed(wanted, known, list.total, list.resources.into_vec()),
        Answer::Error(error) => unchecked(RecordFault::Refused(error.status())),
        _ => unchecked(RecordFault::Unfit),
    }
}

/// The finding of a list of this many resources, which shows these.
fn listed(wanted: Content, known: Option<ResourceId>, total: u64, resources: Vec<Shown>) -> Finding
    ensures { result ≡ listed wanted known total resources.items }
{
    let mut resources = resources.into_iter();
    match (resources.next(), resources.next()) {
        (None, _) if total == 0 => Finding::Gone,
        (Some(found), None) if total == 1 => finding_beside(Beside {
            wanted,
            known,
            found,
        }),
        _ => unchecked(RecordFault::Unfit),
    }
}

fn finding_beside(beside: Beside) -> Finding
    ensures { result ≡ finding_beside beside }
{
    if !is_of(&beside) {
        unchecked(RecordFault::Unfit)
    } else if is_above(&beside) {
        Finding::Above(beside)
    } else {
        Finding::Found(beside)
    }
}

/// Whether the resource is the record's, by its name.
fn is_of(beside: &Beside) -> bool
    ensures { result ≡ same_name (content_name beside.now.wanted)
        (content_name beside.now.found.content) }
{
    beside.wanted.has_name_of(beside.found.content())
}

/// Whether the revision is above the wanted one.
fn is_above(beside: &Beside) -> bool
    ensures { result ≡ is_above beside.now }
{
    match (beside.wanted.revision(), beside.found.content().revision()) {
        (Some(wanted), Some(found)) => wanted.is_before(found),
        _ => false,
    }
}
