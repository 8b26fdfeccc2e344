//! Laws of the messages of all runs, and of all answers, with nothing to run.
ghost use Rattle.world_sim.specs.Amid.{RunsAlone};
ghost use Rattle.world_sim.specs.Answering.{AnswersAreReadBack, AnswersFit};
ghost use Rattle.world_sim.specs.Fitting.{MessagesAreRead, MessagesAreReadFrom, MessagesKeepLimits};
ghost use Rattle.world_sim.specs.Running.{IsAlone};

use journal_core::Journal;
use provider_core::Registry;

/// Every message that was ever sent in a run is within the limits of heads and bodies, and its bytes are
/// read as exactly that message: a request by the server, an answer by the client. So it is from any start, if others
/// leave our records alone from then on (`from`).
pub fn messages_are_read()
    ensures limits { MessagesKeepLimits }
    ensures read { MessagesAreRead }
    ensures from { MessagesAreReadFrom }
{}

/// Whatever rows the provider has and whatever it is asked: its answer fits the request, and so does every
/// refusal of a message and the fixed 500. A client that sent the request reads the text of the answer as just
/// that answer, if it is within the client's limits. This isn't about the messages of a run alone.
pub fn answers_fit()
    ensures fit { AnswersFit }
    ensures read { AnswersAreReadBack }
{}

/// Without others. If every record is ours, a world among others is a world that our events alone led to
/// (`worlds`). What `run_among` promises of our events alone is what `run` promises of them (`runs`).
pub fn without_others<R: Registry, J: Journal>()
    ensures worlds { IsAlone R.Registry J.Journal }
    ensures runs { RunsAlone R.Registry J.Journal }
{}
