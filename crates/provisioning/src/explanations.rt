//! What is said of an exchange, in words.
ghost use Rattle.std.specs.Prelude.{◌≡◌};
ghost use Rattle.provisioning.specs.Explanations.{phrase_text};

use crate::excerpts::Excerpt;
use crate::losses::Loss;
use crate::misreadings::Misreading;
use crate::values::OtherValues;
use scim_key::Revision;
use std::fmt;

/// A fault that has no more to say than which it is.
#[derive(Clone, Copy)]
pub enum Phrase {
    /// The resource has no revision of the source (C1).
    NoRevision,
    /// The answer is that to another request (C1).
    OtherAnswer,
    /// The resource has no entity tag (C2).
    NoTag,
}

impl Phrase {
    fn words(self) -> &'static str
        ensures { result.now ≡ phrase_text self }
    {
        match self {
            Phrase::NoRevision => "no revision of the source",
            Phrase::OtherAnswer => "an answer to another request",
            Phrase::NoTag => "no entity tag in meta.version",
        }
    }
}

/// What is said of an exchange: what its fault was, or what a provider that confirmed the record shows with other values
/// than were asked. Its text is printed on standard error.
#[derive(Drop)]
pub enum Explanation {
    Phrase(Phrase),
    /// No answer came (H10 to H14).
    Loss(Loss),
    /// What came isn't an answer (K1 to K3).
    Misreading(Misreading),
    /// The provider refused with this status (C4).
    Refused {
        status: u16,
        detail: Option<Excerpt>,
        retry_after: Option<Excerpt>,
    },
    /// The resource has another name (C1).
    OtherName(Excerpt),
    /// The resource has another id than the known one (C1).
    OtherId {
        shown: Excerpt,
        known: Excerpt,
    },
    /// A search found so many resources, and lists so many (C1).
    Found {
        total: u64,
        listed: usize,
    },
    /// The resource is active, and the other was asked; or the other way round (C1).
    Activity {
        shown: bool,
    },
    /// The resource has a higher revision than the wanted one (C1).
    Above {
        shown: Revision,
        wanted: Revision,
    },
    /// The record is confirmed, and these values are shown otherwise than asked.
    OtherValues(OtherValues),
}

/// A refusal.
#[derive(Clone, Copy)]
struct Refused<'a> {
    status: u16,
    detail: &'a Option<Excerpt>,
    retry_after: &'a Option<Excerpt>,
}

impl<'a> fmt::Display for Refused<'a> {
    fn fmt<W: fmt::Write>(&self, f: &mut fmt::Formatter<W>) -> fmt::Result {
        write!(f, "{}", self.status)?;
        if let Some(detail) = self.detail {
            write!(f, ", \"{detail}\"")?;
        }
        match self.retry_after {
            Some(time) => write!(f, ", Retry-After: {time}"),
            None => Ok(()),
        }
    }
}

impl fmt::Display for Explanation {
    fn fmt<W: fmt::Write>(&self, f: &mut fmt::Formatter<W>) -> fmt::Result {
        match self {
            Explanation::Phrase(phrase) => f.write_str(phrase.words()),
            Explanation::Loss(loss) => write!(f, "{loss}"),
            Explanation::Misreading(misreading) => write!(f, "{misreading}"),
            Explanation::Refused {
                status,
                detail,
                retry_after,
            } => {
                let refused = Refused {
                    status: *status,
                    detail,
                    retry_after,
                };
                write!(f, "{refused}")
            }
            Explanation::OtherName(name) => write!(f, "another name, \"{name}\""),
            Explanation::OtherId { shown, known } => {
                write!(f, "another id, \"{shown}\" in place of \"{known}\"")
            }
            Explanation::Found { total, listed } => write!(f, "{total} found, {listed} listed"),
            Explanation::Activity { shown } => {
                write!(
                    f,
                    "active is {shown}, and {asked} was asked",
                    asked = !shown
                )
            }
            Explanation::Above { shown, wanted } => {
                write!(f, "revision {shown} is above the wanted {wanted}")
            }
            Explanation::OtherValues(values) => write!(f, "{values}"),
        }
    }
}
