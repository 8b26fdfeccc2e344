//! The messages of a world.
ghost use Rattle.std.specs.Prelude.{◌≡◌, IfOk, OnOk};
ghost use Rattle.std.specs.Option.{option_copied, option_map};
ghost use Rattle.world_model.specs.World.{Asked, message_at};
ghost use Rattle.world_sim.specs.Fitting.{IsFormed};
ghost use Rattle.world_sim.specs.Messages.{IsMessage, messages_of, says, text_at, texts_of};

use crate::services::OwnService;
use scim_message::{Answer, Request};
use std::alloc::{AllocError, Global};

/// A request that was sent. It is dropped in a function of its own, so that whoever holds one while something may
/// fail has one call to prove for it.
pub(crate) struct SentRequest {
    pub(crate) request: Request,
}

impl Drop for SentRequest {
    fn drop(self) {
        let SentRequest { request: _ } = self;
    }
}

/// What a message says. When a message arrives, only its bytes are read: this value only says which side
/// they go to, and which request a reply answers.
#[derive(Drop)]
pub(crate) enum Said {
    Asked(SentRequest),
    Answered(SentRequest, Answer),
}

/// A message that was sent, with its bytes. It is dropped as a `SentRequest` is.
pub(crate) struct Sent {
    pub(crate) said: Said,
    pub(crate) bytes: Vec<u8>,
}

impl Drop for Sent {
    fn drop(self) {
        let Sent { said: _, bytes: _ } = self;
    }
}

/// The message of a request.
pub(crate) fn asked(
    alloc: Global,
    service: &OwnService,
    request: Request,
) -> Result<Sent, AllocError>
    ensures message { IfOk result (λ sent. IsMessage service.now sent (Asked request)) }
    ensures formed { OnOk result (IsFormed service.now (Asked request)) }
{
    let asked = SentRequest { request };
    let bytes = service.bytes_of(alloc, &asked.request)?;
    Ok(Sent {
        said: Said::Asked(asked),
        bytes,
    })
}

/// The message with this number, counted from 1.
pub(crate) fn sent_at(sent: &[Sent], number: usize) -> Option<&Sent>
    ensures said { option_map (λ s. says s.said) (option_copied result)
        ≡ message_at (messages_of sent.now) number }
    ensures text { option_map (λ s. s.bytes.items) (option_copied result)
        ≡ text_at (texts_of sent.now) number }
{
    if number == 0 {
        return None;
    }
    sent.get(number - 1)
}
