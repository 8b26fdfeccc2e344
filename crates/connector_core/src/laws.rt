//! Laws of the connector.
ghost use Rattle.connector_core.specs.Changing.{MapsAccept};
ghost use Rattle.connector_core.specs.Laws.{
  AllMapsAreBooks,
  NoStoreFaults,
  ReplacesWhatWasSeen,
  StandForWhatWasAsked,
};
ghost use Rattle.connector_core.specs.Noting.{LearnsByNotes};

/// Putting into the book's map is putting into the book, and an accepted row changes both in the same way.
pub fn maps_are_books()
    ensures put { AllMapsAreBooks }
    ensures accepted { MapsAccept }
{}

/// What is learnt from an answer is a note about one record, put into the book.
pub fn learns_by_notes()
    ensures { LearnsByNotes }
{}

/// Over a journal in memory, no call has a store fault.
pub fn memory_never_faults()
    ensures { NoStoreFaults }
{}

/// A connector replaces a resource as it saw it, and doesn't search for it.
pub fn what_was_seen_is_replaced()
    ensures { ReplacesWhatWasSeen }
{}

/// Where a provider shows no revision: an answer to a creation or a replacement stands for what was asked, and is
/// refused if it shows another name, or another activity; a search stands for no revision.
pub fn answers_stand_for_what_was_asked()
    ensures { StandForWhatWasAsked }
{}
