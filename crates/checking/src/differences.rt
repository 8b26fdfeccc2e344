//! The text of what differs.
ghost use Rattle.std.specs.Prelude.{◌≡◌, ◌++◌, Some, true};
ghost use Rattle.std.specs.Option.{option_copied};
ghost use Rattle.comparing.specs.declared.aspects.TheConstants.{ASPECTS};
ghost use Rattle.checking.specs.Lines.{difference_text, differences_text, email_text, emails_text, flag_text, id_if, more_text, other_id_text, primary_text, quoted_if, revision_if, separator, sides_text, type_text};

use crate::beside::Beside;
use comparing::{
    ASPECTS, Aspect, agree, content_emails, content_text, is_active, is_as_wanted, missing, surplus,
};
use journal_core::Printable;
use provisioning::{name_label, text_label};
use scim_key::{ResourceId, Revision};
use scim_resource::{Content, Email};
use std::fmt;

/// What differs of a resource, a text for each aspect, with `; ` between two, and another id last.
#[derive(Clone, Copy)]
pub(crate) struct Differences<'a>(pub &'a Beside);

impl<'a> fmt::Display for Differences<'a> {
    ghost output = { λ it. Some
        (differences_text it.0.now.wanted it.0.now.found.content true ASPECTS ++ other_id_text it.0.now) };

    fn fmt<W: fmt::Write>(&self, f: &mut fmt::Formatter<W>) -> fmt::Result {
        let beside = self.0;
        let contents = InAspects {
            wanted: &beside.wanted,
            found: beside.found.content(),
            aspects: &ASPECTS,
        };
        write!(f, "{contents}{}", OtherId(beside))
    }
}

/// What differs of a content in these aspects.
#[derive(Clone, Copy)]
struct InAspects<'a> {
    wanted: &'a Content,
    found: &'a Content,
    aspects: &'a [Aspect],
}

impl<'a> fmt::Display for InAspects<'a> {
    ghost output = { λ it. Some (differences_text it.wanted.now it.found.now true it.aspects.now) };

    fn fmt<W: fmt::Write>(&self, f: &mut fmt::Formatter<W>) -> fmt::Result {
        let (wanted, found) = (self.wanted, self.found);
        let mut is_first = true;
        for aspect in self.aspects {
            if agree(wanted, found, *aspect) {
                continue;
            }
            let difference = Difference {
                wanted,
                found,
                aspect: *aspect,
            };
            write!(f, "{}{difference}", separator(is_first))?;
            is_first = false;
        }
        Ok(())
    }
}

/// What is in front of a difference.
fn separator(is_first: bool) -> &'static str
    ensures { result.now ≡ separator is_first }
{
    if is_first { " " } else { "; " }
}

/// Another id than the known one: `id: 9, known 4`.
#[derive(Clone, Copy)]
struct OtherId<'a>(&'a Beside);

impl<'a> fmt::Display for OtherId<'a> {
    ghost output = { λ it. Some (other_id_text it.0.now) };

    fn fmt<W: fmt::Write>(&self, f: &mut fmt::Formatter<W>) -> fmt::Result {
        let beside = self.0;
        if beside.has_known_id() {
            return Ok(());
        }
        let is_first = is_as_wanted(&beside.wanted, beside.found.content());
        let found = Printable(beside.found.id().as_str().as_bytes());
        write!(
            f,
            "{}id: {found}, known {}",
            separator(is_first),
            IdIf(&beside.known)
        )
    }
}

/// A difference in one aspect: `active: true, wanted false`.
#[derive(Clone, Copy)]
struct Difference<'a> {
    wanted: &'a Content,
    found: &'a Content,
    aspect: Aspect,
}

impl<'a> fmt::Display for Difference<'a> {
    ghost output = { λ it. Some (difference_text it.wanted.now it.found.now it.aspect) };

    fn fmt<W: fmt::Write>(&self, f: &mut fmt::Formatter<W>) -> fmt::Result {
        let (wanted, found) = (self.wanted, self.found);
        match self.aspect {
            Aspect::Active => {
                let (found, wanted) = (is_active(found), is_active(wanted));
                write!(f, "active: {}, wanted {}", Flag(found), Flag(wanted))
            }
            Aspect::Name => {
                let label = name_label(wanted.kind());
                let (found, wanted) = (Some(found.spelled_name()), Some(wanted.spelled_name()));
                write!(f, "{label}: {}, wanted {}", Quoted(found), Quoted(wanted))
            }
            Aspect::Text(which) => {
                let label = text_label(which);
                let (found, wanted) = (content_text(found, which), content_text(wanted, which));
                write!(f, "{label}: {}, wanted {}", Quoted(found), Quoted(wanted))
            }
            Aspect::Emails => {
                let (found, wanted) = (content_emails(found), content_emails(wanted));
                write!(
                    f,
                    "emails: {}, wanted {}",
                    Addresses(found),
                    Addresses(wanted)
                )
            }
            Aspect::Members => {
                let (missing, surplus) = (missing(wanted, found), surplus(wanted, found));
                write!(f, "members: {missing} missing, {surplus} more")
            }
            Aspect::Revision => {
                let (found, wanted) = (found.revision(), wanted.revision());
                write!(
                    f,
                    "revision: {}, wanted {}",
                    RevisionIf(found),
                    RevisionIf(wanted)
                )
            }
        }
    }
}

#[derive(Clone, Copy)]
struct Flag(bool);

impl fmt::Display for Flag {
    ghost output = { λ it. Some (flag_text it.0) };

    fn fmt<W: fmt::Write>(&self, f: &mut fmt::Formatter<W>) -> fmt::Result {
        f.write_str(if self.0 { "true" } else { "false" })
    }
}

/// A text of others between quotes, or `none`.
#[derive(Clone, Copy)]
struct Quoted<'a>(Option<&'a str>);

impl<'a> fmt::Display for Quoted<'a> {
    ghost output = { λ it. Some (quoted_if (option_copied it.0)) };

    fn fmt<W: fmt::Write>(&self, f: &mut fmt::Formatter<W>) -> fmt::Result {
        match self.0 {
            Some(text) => write!(f, "\"{}\"", Printable(text.as_bytes())),
            None => f.write_str("none"),
        }
    }
}

#[derive(Clone, Copy)]
pub(crate) struct RevisionIf(pub Option<Revision>);

impl fmt::Display for RevisionIf {
    ghost output = { λ it. Some (revision_if it.0) };

    fn fmt<W: fmt::Write>(&self, f: &mut fmt::Formatter<W>) -> fmt::Result {
        match self.0 {
            Some(revision) => write!(f, "{revision}"),
            None => f.write_str("none"),
        }
    }
}

#[derive(Clone, Copy)]
struct IdIf<'a>(&'a Option<ResourceId>);

impl<'a> fmt::Display for IdIf<'a> {
    ghost output = { λ it. Some (id_if it.0.now) };

    fn fmt<W: fmt::Write>(&self, f: &mut fmt::Formatter<W>) -> fmt::Result {
        match self.0 {
            Some(id) => write!(f, "{}", Printable(id.as_str().as_bytes())),
            None => f.write_str("none"),
        }
    }
}

/// Email addresses, or `none`.
#[derive(Clone, Copy)]
struct Addresses<'a>(&'a [Email]);

impl<'a> fmt::Display for Addresses<'a> {
    ghost output = { λ it. Some (emails_text it.0.now) };

    fn fmt<W: fmt::Write>(&self, f: &mut fmt::Formatter<W>) -> fmt::Result {
        match self.0.split_first() {
            Some((email, more)) => write!(f, "{}{}", Address(email), More(more)),
            None => f.write_str("none"),
        }
    }
}

/// The addresses behind the first.
#[derive(Clone, Copy)]
struct More<'a>(&'a [Email]);

impl<'a> fmt::Display for More<'a> {
    ghost output = { λ it. Some (more_text it.0.now) };

    fn fmt<W: fmt::Write>(&self, f: &mut fmt::Formatter<W>) -> fmt::Result {
        for email in self.0 {
            write!(f, " and {}", Address(email))?;
        }
        Ok(())
    }
}

/// An email address: `"ann@example.org" work primary`.
#[derive(Clone, Copy)]
struct Address<'a>(&'a Email);

impl<'a> fmt::Display for Address<'a> {
    ghost output = { λ it. Some (email_text it.0.now) };

    fn fmt<W: fmt::Write>(&self, f: &mut fmt::Formatter<W>) -> fmt::Result {
        let value = Printable(self.0.value.as_str().as_bytes());
        let kind = EmailType(self.0.type_text.as_option());
        write!(f, "\"{value}\"{kind}{}", primary_text(self.0.primary))
    }
}

/// The type of an address, behind a space; nothing if there is none.
#[derive(Clone, Copy)]
struct EmailType<'a>(Option<&'a str>);

impl<'a> fmt::Display for EmailType<'a> {
    ghost output = { λ it. Some (type_text (option_copied it.0)) };

    fn fmt<W: fmt::Write>(&self, f: &mut fmt::Formatter<W>) -> fmt::Result {
        match self.0 {
            Some(text) => write!(f, " {}", Printable(text.as_bytes())),
            None => Ok(()),
        }
    }
}

fn primary_text(is_primary: bool) -> &'static str
    ensures { result.now ≡ primary_text is_primary }
{
    if is_primary { " primary" } else { "" }
}
