//! Laws of all runs, with nothing to run.
ghost use Rattle.world_model.specs.Healing.{
  HealingIsActs,
  Heals,
  HealsAfterAnything,
  HealsAmong,
  HealsInRuns,
  IsStart,
  OldAnswersConfirm,
  PromisedAgain,
  TouchesOnlyWhatDiffers,
};
ghost use Rattle.world_model.specs.Invariant.{AlwaysKept, EventsKeepIt, EventsKeepItAt, FactsStay};
ghost use Rattle.world_model.specs.Others.{
  ActsKeepIt,
  AlwaysOnwardAmong,
  AlwaysSafeAmong,
  HeadlineHoldsAmong,
  HeadlineHoldsAmongAt,
  JudgesBySourceAmong,
  WithoutOthers,
};
ghost use Rattle.world_model.specs.Providers.{
  AlwaysForgets,
  AlwaysOnwardAt,
  AlwaysSafeAt,
  HeadlineHoldsAt,
  JudgesBySourceAt,
  OnlyAnswersConfirm,
  SettlesByAnswers,
  WithRevisions,
};
ghost use Rattle.world_model.specs.Resetting.{
  HeadlineAlone,
  HeadlineFromAnyStart,
  HeadlineThroughResets,
  HealsAfterResets,
  PromisedThroughResets,
  WithoutResets,
};
ghost use Rattle.world_model.specs.Room.{
  ActsAnyTime,
  NeverRefusedAmong,
  RoomWasThere,
  RoomWithoutOthers,
  SettlesAmong,
  StaysSettled,
};
ghost use Rattle.world_model.specs.Safe.{AlwaysOnward, AlwaysSafe, HeadlineHolds, JudgesBySource};
ghost use Rattle.world_model.specs.Settled.{LeadsOn, OneWay, Settles};
ghost use Rattle.world_model.specs.Several.{
  AlwaysOnwardForEach,
  AlwaysSafeForEach,
  EachIsAmongOthers,
  HeadlineHoldsForEach,
  NeverRefusedForEach,
  SettlesForEach,
};
ghost use Rattle.world_model.specs.Untroubled.{NeverRefused};
ghost use Rattle.world_model.specs.Unversioned.{
  AlwaysOnwardWithoutVersions,
  AlwaysOnwardWithoutVersionsAmong,
  AlwaysSafeWithoutVersions,
  HeadlineHoldsWithoutVersions,
  HeadlineHoldsWithoutVersionsAmong,
  JudgesBySourceWithoutVersions,
  SettlesWithoutVersions,
};
ghost use Rattle.world_model.specs.World.{empty};

/// After every run, the connector judges each row as the history of the source alone does.
pub fn judges_by_source()
    ensures { JudgesBySource }
{}

/// From each moment of a run on, nothing that was accepted, held or sent is lost or changed, and no
/// confirmed revision falls.
pub fn always_onward()
    ensures { AlwaysOnward }
{}

/// After every run: no two entries are of the same record; revisions rise along each story, and each
/// content is the image of its row; what counts as confirmed is held or surpassed; and a leaver stays
/// inactive.
pub fn always_safe()
    ensures { AlwaysSafe }
{}

/// The invariant, which is why the promise holds: what is true of source, connector, provider and all
/// messages. Every event keeps it, so it is true after every run. What a message said truly when it was sent
/// is true for ever: no later event makes it false, and the message stays there to arrive.
pub fn invariant_is_kept()
    ensures kept { EventsKeepIt }
    ensures always { AlwaysKept }
    ensures facts_stay { FactsStay }
{}

/// The headline, at each moment of a run and at each later one: the provider holds at most one resource per
/// name, it is the image of its revision, its revision never goes back, and every revision that the
/// connector counts as confirmed is held or surpassed.
pub fn headline_holds()
    ensures { HeadlineHolds }
{}

/// If each row that is offered is within the limits of the source, the connector learns from every reply
/// that was ever given, and no request that was ever sent meets a limit of the provider. A story has at
/// most as many versions as there are revisions, there are at most as many entries as records of the
/// source, and the body of a request is under 9,000 bytes for a User, and under 21,000 for a Group.
pub fn never_refused()
    ensures { NeverRefused }
{}

/// If each row that is offered is within the limits of the source: from every world that a run reaches,
/// at most three exchanges for each record, in the order of names (users before groups), settle the
/// record. In an exchange, the connector's next request is sent and arrives, and so does its reply.
/// Then the wanted revision of each record is confirmed, and the provider holds the image of its last
/// row. Making exchanges for each record in turn, until there is nothing to send for it, makes exactly
/// these exchanges; after any first part of them, the others follow.
pub fn settles()
    ensures by_three { Settles }
    ensures one_way { OneWay }
    ensures leads_on { LeadsOn }
{}

/// Others write at the same provider, at any time and whatever they like, except records of ours. Then the
/// headline holds for our records (`headline`), the world is safe for them (`safe`), nothing of ours is lost
/// or changed, and no confirmed revision falls (`onward`), and the connector judges as before (`judges`).
/// Each act keeps the invariant (`kept`). Without others these are the laws above (`without`).
pub fn holds_among_others()
    ensures headline { HeadlineHoldsAmong }
    ensures safe { AlwaysSafeAmong }
    ensures onward { AlwaysOnwardAmong }
    ensures judges { JudgesBySourceAmong }
    ensures kept { ActsKeepIt }
    ensures without { WithoutOthers }
{}

/// Several connectors share the provider, each with a source of its own, and others write there too. If no
/// two connectors have a record in common, and the others leave the records of all alone, then to each
/// connector all others are others who leave its records alone (`among`). So the headline holds for each
/// (`headline`), and the world of each is safe (`safe`). Whatever anybody writes, nothing of any is lost or
/// changed, and no confirmed revision falls (`onward`). While the provider has room for the records of one,
/// it refuses no request of that one (`untroubled`), and exchanges settle its records, whatever the others do
/// (`settles`).
pub fn holds_for_each()
    ensures among { EachIsAmongOthers }
    ensures headline { HeadlineHoldsForEach }
    ensures safe { AlwaysSafeForEach }
    ensures onward { AlwaysOnwardForEach }
    ensures untroubled { NeverRefusedForEach }
    ensures settles { SettlesForEach }
{}

/// Others can fill the provider. If it still has a free place for each record of the source without a
/// resource, it had one at each earlier moment (`earlier`). Then, if each row that is offered is within the
/// limits of the source, the connector learns from every reply that was ever given to it, and no request of
/// ours that was ever sent meets a limit of the provider (`untroubled`). Without others there is always
/// room, and these are the laws above (`without`).
pub fn never_refused_among()
    ensures earlier { RoomWasThere }
    ensures untroubled { NeverRefusedAmong }
    ensures without { RoomWithoutOthers }
{}

/// From every world with room that a run among others reaches, at most three exchanges for each record, in
/// the order of names, settle the record, if each row that is offered is within the limits of the source.
/// Before each exchange others may do whatever leaves our records alone and leaves room (`by_three`), and
/// they may as well do it within the exchange (`any_time`). What is settled stays settled while they go on
/// (`stays`).
pub fn settles_among()
    ensures by_three { SettlesAmong }
    ensures stays { StaysSettled }
    ensures any_time { ActsAnyTime }
{}

/// Whatever the provider holds, whoever wrote it and under whatever ids: if it has at most one resource per
/// name and room for the records of the source, and no resource of a record shows a revision above the wanted
/// one or is at its last version, doubting each record and at most two exchanges for each, in which nothing is
/// lost, heal all records (`all`). Then each wanted revision is confirmed, and the provider holds what is
/// wanted. Others may act before each exchange, if from then on they leave our records alone and leave room
/// (`among`). After every run in which others leave our records alone, it is enough that there is room (`runs`).
/// What is asked of book, rows and table is so after every run from any start in which anybody requests
/// anything, about our records too (`anything`). A record whose resource is as it is wanted takes one search,
/// and no resource changes (`untouched`). But an answer to a request from before the doubt may end it,
/// whatever the provider holds by then (`old`).
pub fn heals()
    ensures all { Heals }
    ensures among { HealsAmong }
    ensures runs { HealsInRuns }
    ensures anything { HealsAfterAnything }
    ensures untouched { TouchesOnlyWhatDiffers }
    ensures old { OldAnswersConfirm }
{}

/// From any start, whatever anybody did before: once all records are healed, the promise holds for them from
/// then on, with old messages under way, if others leave our records alone (`again`). What heals them is acts
/// too, so it may be part of what was done before (`acts`). A provider and a connector that have nothing are a
/// start (`empty`).
pub fn promised_again()
    ensures again { PromisedAgain }
    ensures acts { HealingIsActs }
    ensures empty { IsStart empty }
{}

/// Most providers drop the source extension, so they show no revision. If such a provider shows versions, obeys
/// `If-Match` and never uses a version twice for a resource, the answers to our own requests stand for what
/// was asked, and the headline holds, word for word (`headline`). So it does with each kind of provider: the world
/// is safe, where stories may repeat a revision that isn't shown (`safe`); nothing of ours is lost or changed,
/// and no confirmed revision falls (`onward`); the connector judges as before (`judges`). Each event keeps
/// the invariant of the kind (`kept`). If others write there too and leave our records alone, the headline holds
/// for our records (`among`). With a provider that keeps revisions these are the laws above (`revisions`).
pub fn holds_with_each_provider()
    ensures headline { HeadlineHoldsAt }
    ensures safe { AlwaysSafeAt }
    ensures onward { AlwaysOnwardAt }
    ensures judges { JudgesBySourceAt }
    ensures kept { EventsKeepItAt }
    ensures among { HeadlineHoldsAmongAt }
    ensures revisions { WithRevisions }
{}

/// Some providers drop the source extension, show no versions and obey no condition. The headline holds there too, word
/// for word, if no request that writes a record is delivered after a later one that writes the same record was sent
/// (`headline`). Then the world is safe, too: what was seen is the record's resource, and some version of it has the
/// noted revision or a later one (`safe`). In whatever order requests arrive, nothing of ours is lost or changed, no
/// confirmed revision falls (`onward`), and the connector judges as before (`judges`). If others write there too and
/// leave our records alone, the order is asked of our own requests alone, and the headline holds for our records
/// (`among`). Whatever others write, nothing of ours is lost or changed, and no confirmed revision falls
/// (`onward_among`).
pub fn holds_without_versions()
    ensures headline { HeadlineHoldsWithoutVersions }
    ensures safe { AlwaysSafeWithoutVersions }
    ensures onward { AlwaysOnwardWithoutVersions }
    ensures judges { JudgesBySourceWithoutVersions }
    ensures among { HeadlineHoldsWithoutVersionsAmong }
    ensures onward_among { AlwaysOnwardWithoutVersionsAmong }
{}

/// At such a provider, too, at most three exchanges for each record settle all records, from every world that a run
/// reaches in which no request that writes a record is delivered after a later one of the same record was sent, if
/// each row that is offered is within the limits of the source. The events and the exchanges must be fewer than the
/// versions that a resource may have.
pub fn settles_without_versions()
    ensures { SettlesWithoutVersions }
{}

/// A provider that never gets a revision gives the same answers as one that gets revisions and shows none, and
/// what it holds is what that one holds, without revisions.
pub fn forgets_revisions()
    ensures { AlwaysForgets }
{}

/// With a provider that shows no revision, too, at most three exchanges for each record settle all records, from
/// every world that a run reaches, if each row that is offered is within the limits of the source. There a revision
/// may be written more than once, so the events and the exchanges must be fewer than the versions that a
/// resource may have.
pub fn settles_without_revisions()
    ensures { SettlesByAnswers }
{}

/// Whatever a provider answers that shows no revision, and whoever wrote what it shows: a confirmed revision changes
/// only by an answer to a Create or a Replace of this record. The answer shows the name and the activity that were
/// asked, and the revision is the one that the request carried. So no search confirms.
pub fn only_answers_confirm()
    ensures { OnlyAnswersConfirm }
{}

/// From any start, whoever wrote what the provider holds, and through doubts and resets, whatever messages are
/// under way: if from then on others leave our records alone, no two resources have the same name; each of our
/// records that was written since holds the image of an accepted row; no record is lost, or goes back; and what
/// counts as confirmed is held or surpassed, if it was so at the start, or the record was reset since (`any`).
/// From the empty start that is the headline, word for word, among others (`empty`) and without them (`alone`).
/// Whatever anybody did before: once all records are healed, the promise holds for them through resets too
/// (`again`), and after resets they can be healed (`heals`). Without resets all of this is about acts
/// (`without`).
pub fn headline_from_any_start()
    ensures any { HeadlineFromAnyStart }
    ensures empty { HeadlineThroughResets }
    ensures alone { HeadlineAlone }
    ensures again { PromisedThroughResets }
    ensures heals { HealsAfterResets }
    ensures without { WithoutResets }
{}
