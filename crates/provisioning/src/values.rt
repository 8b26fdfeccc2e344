//! What a provider shows with another value than was asked.
use crate::labels::aspect_label;
use comparing::{ASPECTS, Aspect, agree};
use scim_key::Kind;
use scim_resource::Content;
use std::alloc::{AllocError, Global};
use std::fmt;

/// What a provider shows with other values than were asked: at least one aspect, in the order of printing.
#[derive(Drop)]
pub struct OtherValues {
    kind: Kind,
    aspects: Vec<Aspect>,
}

impl OtherValues {
    /// What differs between the asked content and the shown one, but for the revision. `None` if nothing does.
    pub(crate) fn between(
        alloc: Global,
        asked: &Content,
        shown: &Content,
    ) -> Result<Option<OtherValues>, AllocError> {
        let kind = asked.kind();
        let mut aspects = Vec::new(alloc);
        for aspect in &ASPECTS {
            if !is_as_asked(asked, shown, *aspect) {
                aspects.push(*aspect)?;
            }
        }
        Ok(if aspects.is_empty() {
            None
        } else {
            Some(OtherValues { kind, aspects })
        })
    }
}

/// Whether a content shows an aspect as it was asked. The revision isn't asked of a provider that drops it.
fn is_as_asked(asked: &Content, shown: &Content, aspect: Aspect) -> bool {
    matches!(aspect, Aspect::Revision) || agree(asked, shown, aspect)
}

impl fmt::Display for OtherValues {
    fn fmt<W: fmt::Write>(&self, f: &mut fmt::Formatter<W>) -> fmt::Result {
        f.write_str("the provider shows other values than asked")?;
        let mut separator = ": ";
        for aspect in &self.aspects {
            let label = aspect_label(self.kind, *aspect);
            write!(f, "{separator}{label}")?;
            separator = ", ";
        }
        Ok(())
    }
}
