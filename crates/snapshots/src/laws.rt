//! Laws of what is offered for a snapshot.
ghost use Rattle.snapshots.specs.Laws.{AgainOffersNothing, BooksAreNamed, NoSetbacks, NobodyIsWithdrawnIfUnsure, RevisionsRise, SnapshotIsTaken};

/// Each row that is offered is the wanted row of its record, or has a later revision, or is the first of its record.
/// So no verdict on them is `Older` or S7.
pub fn revisions_rise()
    ensures rise { RevisionsRise }
    ensures verdicts { NoSetbacks }
{}

/// If it isn't certain who is absent, each row that is offered is of a record of the file.
pub fn nobody_is_withdrawn_if_unsure()
    ensures { NobodyIsWithdrawnIfUnsure }
{}

/// If the connector takes all rows that are offered, each record of the file wants what its row says; and if it is
/// certain who is absent, every other user has left, or every other group is empty.
pub fn snapshot_is_taken()
    ensures { SnapshotIsTaken }
{}

/// After that, the same snapshot offers nothing that the connector doesn't have.
pub fn again_offers_nothing()
    ensures { AgainOffersNothing }
{}

/// The wanted rows of a connector are each of the record that wants them, as the other laws ask: when it is opened, and
/// after each row that it takes.
pub fn books_are_named()
    ensures { BooksAreNamed }
{}
