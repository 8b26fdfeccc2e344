//! In which aspects the content of a resource differs from what is wanted of it.
#![tactic(auto)]

mod aspects;
mod laws;

pub use aspects::{
    ASPECTS, Aspect, agree, content_emails, content_text, is_active, is_as_wanted, missing, surplus,
};
pub use laws::as_wanted_means;
