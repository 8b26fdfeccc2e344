//! Finds what is said of an exchange.
use crate::excerpts::Excerpt;
use crate::explanations::{Explanation, Phrase};
use crate::faults::RecordFault;
use crate::heads::Head;
use crate::losses::{Loss, cut, unread, unsent};
use crate::misreadings::misread;
use crate::recording::Heard;
use crate::values::OtherValues;
use comparing::is_active;
use connector_core::Keeps;
use scim_client::ExchangeFault;
use scim_key::{RecordName, ResourceId, Revision};
use scim_message::{Answer, ErrorResponse, ListResponse, Request};
use scim_resource::{Content, Shown};
use std::alloc::{AllocError, Global};

/// An exchange that had a fault, or after which its record is confirmed, and what the connector knows about its record.
#[derive(Clone, Copy)]
pub struct Ended<'a> {
    pub alloc: Global,
    /// The fault. Without one the record is confirmed.
    pub fault: Option<RecordFault>,
    pub name: &'a RecordName,
    pub request: &'a Request,
    /// What came on its stream.
    pub heard: &'a Heard,
    /// The answer, if one came.
    pub answer: Option<&'a Answer>,
    /// The wanted revision.
    pub wanted: Revision,
    /// The id, if one is known.
    pub id: Option<&'a ResourceId>,
    /// What the provider keeps of what it is sent.
    pub keeps: Keeps,
}

/// What is said of an exchange. `None` if nothing is.
pub(crate) fn explain(ended: &Ended<'_>) -> Result<Option<Explanation>, AllocError> {
    match ended.fault {
        Some(fault) => explain_fault(ended, fault),
        None => explain_values(ended),
    }
}

/// What the fault of an exchange was. `None` if nothing more can be said of it.
fn explain_fault(ended: &Ended<'_>, fault: RecordFault) -> Result<Option<Explanation>, AllocError> {
    match fault {
        RecordFault::Unfit => explain_unfit(ended),
        RecordFault::Unversioned => phrase(Phrase::NoTag),
        RecordFault::Refused(_) => explain_refused(ended),
        RecordFault::Unanswered(fault) => explain_unanswered(ended, fault),
        RecordFault::NoSuchRecord => Ok(None),
    }
}

/// What a provider that drops revisions shows with other values than were asked. `None` if all values are as asked,
/// or if the answer shows no creation or replacement.
fn explain_values(ended: &Ended<'_>) -> Result<Option<Explanation>, AllocError> {
    match (ended.keeps, carried(ended.request), ended.answer) {
        (Keeps::Versions, Some(asked), Some(Answer::Created(shown) | Answer::Replaced(shown))) => {
            match OtherValues::between(ended.alloc, asked, shown.content())? {
                Some(values) => Ok(Some(Explanation::OtherValues(values))),
                None => Ok(None),
            }
        }
        _ => Ok(None),
    }
}

/// The content that a request carries, if it carries one.
fn carried(request: &Request) -> Option<&Content> {
    match request {
        Request::Create { content } | Request::Replace { content, .. } => Some(content),
        Request::Retrieve { .. } | Request::Search { .. } => None,
    }
}

/// Why no answer came.
fn explain_unanswered(
    ended: &Ended<'_>,
    fault: ExchangeFault,
) -> Result<Option<Explanation>, AllocError> {
    match fault {
        ExchangeFault::Unsent(fault) => Ok(Some(Explanation::Loss(unsent(fault)))),
        ExchangeFault::EndedEarly => Ok(Some(Explanation::Loss(cut(ended)?))),
        ExchangeFault::ReadFailed => Ok(Some(Explanation::Loss(unread(ended.heard)))),
        ExchangeFault::TurnsExhausted => {
            let count = ended.heard.count();
            Ok(Some(Explanation::Loss(Loss::SlowReading { count })))
        }
        ExchangeFault::NoAnswer(fault) => match misread(ended, fault)? {
            Some(misreading) => Ok(Some(Explanation::Misreading(misreading))),
            None => Ok(None),
        },
        ExchangeFault::OutOfMemory => Ok(None),
    }
}

fn phrase(phrase: Phrase) -> Result<Option<Explanation>, AllocError> {
    Ok(Some(Explanation::Phrase(phrase)))
}

/// What a provider said when it refused.
fn explain_refused(ended: &Ended<'_>) -> Result<Option<Explanation>, AllocError> {
    match ended.answer {
        Some(Answer::Error(error)) => Ok(Some(refused(ended, error)?)),
        _ => Ok(None),
    }
}

fn refused(ended: &Ended<'_>, error: &ErrorResponse) -> Result<Explanation, AllocError> {
    let detail = match error.detail() {
        Some(detail) => Some(Excerpt::of(ended.alloc, detail.as_bytes())?),
        None => None,
    };
    let status = error.status();
    Ok(Explanation::Refused {
        status,
        detail,
        retry_after: retry_after(ended, status)?,
    })
}

/// When a provider with too many requests (RFC 6585, section 4), or that isn't available (RFC 9110, section
/// 15.6.4), wants to be asked again, if it says so.
fn retry_after(ended: &Ended<'_>, status: u16) -> Result<Option<Excerpt>, AllocError> {
    match (status, Head::of(ended.heard.first())) {
        (429 | 503, Some(head)) => match head.field("retry-after") {
            Some(time) => Ok(Some(Excerpt::of(ended.alloc, time)?)),
            None => Ok(None),
        },
        _ => Ok(None),
    }
}

/// Why an answer can't be about the record.
fn explain_unfit(ended: &Ended<'_>) -> Result<Option<Explanation>, AllocError> {
    match ended.answer {
        Some(Answer::Created(shown) | Answer::Found(shown) | Answer::Replaced(shown)) => {
            Ok(Some(unfit(ended, shown)?))
        }
        Some(Answer::List(list)) => Ok(Some(unfit_list(ended, list)?)),
        _ => phrase(Phrase::OtherAnswer),
    }
}

/// Why a list can't be about the record.
fn unfit_list(ended: &Ended<'_>, list: &ListResponse) -> Result<Explanation, AllocError> {
    match list.resources.as_slice() {
        [only] if list.total == 1 => unfit(ended, only),
        resources => Ok(Explanation::Found {
            total: list.total,
            listed: resources.len(),
        }),
    }
}

/// Why a resource can't be that of the record.
fn unfit(ended: &Ended<'_>, shown: &Shown) -> Result<Explanation, AllocError> {
    let content = shown.content();
    if !is_named(ended.name, content) {
        let name = content.spelled_name();
        return Ok(Explanation::OtherName(Excerpt::of(ended.alloc, name.as_bytes())?));
    }
    match ended.id {
        Some(known) if known.as_str() != shown.id().as_str() => {
            other_id(ended.alloc, shown.id(), known)
        }
        _ => Ok(unfit_content(ended, content)),
    }
}

/// Whether a content has the name of a record.
fn is_named(name: &RecordName, content: &Content) -> bool {
    name.kind == content.kind()
        && name
            .key
            .as_str()
            .eq_ignore_ascii_case(content.spelled_name())
}

fn other_id(
    alloc: Global,
    shown: &ResourceId,
    known: &ResourceId,
) -> Result<Explanation, AllocError> {
    let shown = Excerpt::of(alloc, shown.as_str().as_bytes())?;
    let known = Excerpt::of(alloc, known.as_str().as_bytes())?;
    Ok(Explanation::OtherId { shown, known })
}

/// Why a resource with this content isn't the record's.
fn unfit_content(ended: &Ended<'_>, content: &Content) -> Explanation {
    match ended.keeps {
        Keeps::Revisions => unfit_revision(ended.wanted, content.revision()),
        Keeps::Versions => Explanation::Activity {
            shown: is_active(content),
        },
    }
}

/// Why a resource with this revision isn't the record's.
fn unfit_revision(wanted: Revision, shown: Option<Revision>) -> Explanation {
    match shown {
        Some(shown) => Explanation::Above { shown, wanted },
        None => Explanation::Phrase(Phrase::NoRevision),
    }
}
