//! What a connection does after a fault of reading.
ghost use Rattle.std.specs.Prelude.{◌≡◌};
ghost use Rattle.connection.specs.Reactions as spec;

use http_text::ReadFault;
use scim_message::Refusal;

/// What to do if no message was read.
#[derive(Clone, Copy)]
pub(crate) enum Reaction {
    /// Answer with the refusal, without a body for HEAD.
    Refuse {
        refusal: Refusal,
        leaves_body_out: bool,
    },
    /// Answer with the fixed response.
    GiveUp,
    /// Write nothing.
    StaySilent,
}

/// What to do after a fault of reading.
pub(crate) fn reaction_to(fault: ReadFault) -> Reaction
    ensures { result ≡ spec.reaction_to fault }
{
    let (refusal, leaves_body_out) = match fault {
        ReadFault::Malformed { is_head } => (Refusal::Malformed, is_head),
        ReadFault::HostMissingOrRepeated { is_head } => (Refusal::Host, is_head),
        ReadFault::LengthMissing { is_head } => (Refusal::LengthMissing, is_head),
        ReadFault::BodyTooLong { is_head } => (Refusal::BodyTooLong, is_head),
        ReadFault::HeadTooLong { is_head } => (Refusal::HeadTooLong, is_head),
        ReadFault::TransferCoding { is_head } => (Refusal::TransferCoding, is_head),
        ReadFault::Expectation { is_head } => (Refusal::Expectation, is_head),
        ReadFault::OutOfMemory => return Reaction::GiveUp,
        ReadFault::EndedEarly => return Reaction::StaySilent,
        ReadFault::ReadFailed => return Reaction::StaySilent,
        ReadFault::TurnsExhausted => return Reaction::StaySilent,
    };
    Reaction::Refuse {
        refusal,
        leaves_body_out,
    }
}
