//! Laws of all traces, with nothing to run.
ghost use Rattle.promise.specs.Among.{TracesAreRunsAmong, TracesWithoutOthers};
ghost use Rattle.promise.specs.AmongSeveral.{TracesOfSeveralAreRuns};
ghost use Rattle.promise.specs.AmongTyped.{TypedTracesAreRunsAmong};
ghost use Rattle.promise.specs.Calls.{DoubtsAreSteps, ExchangesAreSteps, FlightsAreExchanges, OffersAreSteps, ReopeningAfterSeveral, ReopeningIsAStep, ServingIsAStep};
ghost use Rattle.promise.specs.Moves.{ListenersAreMoves, MovesAreTracesAmong, PushAndServeAreATraceAmong, PushesAtPacesAreMoves, PushesConnect, PushesInTurnAreMoves};
ghost use Rattle.promise.specs.Resets.{ClosingIsAStep, ReopeningAfterAll, ResetsAreSteps, TracesThroughResets};
ghost use Rattle.promise.specs.Traces.{TracesAreRuns};
ghost use Rattle.promise.specs.Typed.{TypedTracesAreRuns};

use connection::Listen;
use journal_core::Journal;
use provider_core::Registry;
use provisioning::{Dial, Hear, Tell};
use std::io::{Read, Write};

/// Every trace whose messages are requests and answers is a run of the model, so the promise holds between
/// any two moments of it.
pub fn typed_traces_are_runs()
    ensures { TypedTracesAreRuns }
{}

/// Every trace of calls of connector and provider, over the bytes that they exchange, is a run of the
/// model, so the promise holds between any two moments of it.
pub fn traces_are_runs<R: Registry, J: Journal, I: Read, O: Write, P: Read, Q: Write>()
    ensures { TracesAreRuns R.Registry J.Journal I.remaining O.contents P.remaining Q.contents }
{}

/// Others write at the same provider: it serves connections of theirs too, and what is asked for there leaves
/// our records alone. Then every trace of requests and answers (`typed`), and of calls over bytes (`runs`), is
/// a run of the model among others, so the promise holds for our records between any two moments of it,
/// whether or not the provider has room. Several connectors may share the provider: if no two have a record in
/// common, the promise holds for the records of each (`several`). A trace without others is one among others,
/// and if every record is ours, a run among others is a run of our events: these are the laws above
/// (`without`).
pub fn traces_are_runs_among<R: Registry, J: Journal, I: Read, O: Write, P: Read, Q: Write>()
    ensures typed { TypedTracesAreRunsAmong }
    ensures runs { TracesAreRunsAmong R.Registry J.Journal I.remaining O.contents P.remaining
        Q.contents }
    ensures several { TracesOfSeveralAreRuns R.Registry J.Journal I.remaining O.contents P.remaining
        Q.contents }
    ensures without { TracesWithoutOthers R.Registry J.Journal I.remaining O.contents P.remaining
        Q.contents }
{}

/// The calls of the programs are steps of a trace: each connection that was served, if what came on it was a
/// first part of the text of a request that was ever sent, or all of it; each exchange, if what came on its
/// stream was a first part of what was written for its request, or all of it; each row that was offered; each
/// record that was doubted; and each opening of the connector, also after one call that offers many rows, or
/// one, whether or not it failed (`after_all`). What `close` gives back is what the next opening finds
/// (`closing`).
pub fn calls_are_steps<R: Registry, J: Journal, I: Read, O: Write, P: Read, Q: Write>()
    ensures serving { ServingIsAStep R.Registry J.Journal I.remaining O.contents P.remaining
        Q.contents }
    ensures exchanges { ExchangesAreSteps R.Registry J.Journal I.remaining O.contents P.remaining
        Q.contents }
    ensures offers { OffersAreSteps R.Registry J.Journal I.remaining O.contents P.remaining
        Q.contents }
    ensures doubts { DoubtsAreSteps R.Registry J.Journal I.remaining O.contents P.remaining
        Q.contents }
    ensures reopening { ReopeningIsAStep R.Registry J.Journal I.remaining O.contents P.remaining
        Q.contents }
    ensures after_all { ReopeningAfterAll R.Registry J.Journal I.remaining O.contents P.remaining
        Q.contents }
    ensures closing { ClosingIsAStep R.Registry J.Journal I.remaining O.contents P.remaining
        Q.contents }
{}

/// Between two runs of the connector its journal may be reset: all records, or some. Then every trace of calls
/// and resets is a story of acts and resets of the model, so the promise holds for our records between any two
/// moments of it, whatever messages from before the reset are still under way (`runs`). What `reset` makes of
/// the entries, and the opening over that, are a step (`resets`).
pub fn traces_through_resets_are_runs<
    R: Registry,
    J: Journal,
    I: Read,
    O: Write,
    P: Read,
    Q: Write,
>()
    ensures runs { TracesThroughResets R.Registry J.Journal I.remaining O.contents P.remaining
        Q.contents }
    ensures resets { ResetsAreSteps R.Registry J.Journal I.remaining O.contents P.remaining
        Q.contents }
{}

/// What `push` and `serve` do is a trace. By their contracts each makes a list of moves. A push offers the rows
/// of its files and makes exchanges on the streams that it opens: several at once, at any pace (`push`), or one
/// after another, in whichever order its records come (`in_turn`). Each request is what the connector asks for
/// when it is sent, and the answer is learnt on its stream, as the book is then; other records' requests and
/// answers may lie between. A listener serves the connections that it takes (`listener`). The moves of a push
/// are moves of a connector (`connect`). Moves of a connector and moves of a listener are one trace among
/// others, in whichever order they come, if each connection brings a request of ours that was sent before, or
/// what is asked for there leaves our records alone (`moves`). So it is for a push and the turns of a listener
/// (`together`).
pub fn programs_are_traces<R: Registry, J: Journal, D: Dial, T: Hear + Tell, L: Listen>()
    ensures in_turn { PushesInTurnAreMoves R.Registry J.Journal D.Reader.remaining D.Writer.contents
        L.Reader.remaining L.Writer.contents T.heard T.told L.waiting }
    ensures push { PushesAtPacesAreMoves R.Registry J.Journal D.Reader.remaining D.Writer.contents
        L.Reader.remaining L.Writer.contents T.heard T.told L.waiting }
    ensures listener { ListenersAreMoves R.Registry J.Journal D.Reader.remaining D.Writer.contents
        L.Reader.remaining L.Writer.contents T.heard T.told L.waiting }
    ensures connect { PushesConnect R.Registry J.Journal D.Reader.remaining D.Writer.contents
        L.Reader.remaining L.Writer.contents }
    ensures moves { MovesAreTracesAmong R.Registry J.Journal D.Reader.remaining D.Writer.contents
        L.Reader.remaining L.Writer.contents }
    ensures together { PushAndServeAreATraceAmong R.Registry J.Journal D.Reader.remaining
        D.Writer.contents L.Reader.remaining L.Writer.contents }
{}

/// The calls of a push that makes several exchanges at once: what is learnt from an answer on the stream of
/// its request is an exchange that is over; and after exchanges, also if a fault shut the journal meanwhile,
/// the connector that is opened again has a book to which a trace leads.
pub fn several_exchanges_are_steps<R: Registry, J: Journal, I: Read, O: Write, P: Read, Q: Write>()
    ensures over { FlightsAreExchanges R.Registry J.Journal I.remaining O.contents P.remaining
        Q.contents }
    ensures reopening { ReopeningAfterSeveral R.Registry J.Journal I.remaining O.contents
        P.remaining Q.contents }
{}
