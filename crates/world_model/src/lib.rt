//! The world of a provider, a connector and all messages, and the laws of all its runs.
#![tactic(auto)]

mod laws;

pub use laws::{
    always_onward, always_safe, forgets_revisions, headline_from_any_start, headline_holds, heals,
    holds_among_others, holds_for_each, holds_with_each_provider, holds_without_versions,
    invariant_is_kept, judges_by_source, never_refused, never_refused_among, only_answers_confirm,
    promised_again, settles, settles_among, settles_without_revisions, settles_without_versions,
};
