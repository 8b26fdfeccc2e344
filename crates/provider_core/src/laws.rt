//! Laws of the provider.
ghost use Rattle.provider_core.specs.Stories.{RowsFollowStories, StoriesGrow, VersionsCount};
ghost use Rattle.provider_core.specs.MemoryFaults.{OnlyMemoryWants, AlwaysFaithful};
ghost use Rattle.provider_core.specs.Tables.{EntriesAreFound, FoundByName, GoOnAt, GoOnFurther, GoOnStaying, ShowsFacts, StepsWrite, TablesStayWhole};

/// Rows with a version counter answer and change as the table of whole stories does.
pub fn rows_follow_stories()
    ensures { RowsFollowStories }
{}

/// Over a registry in memory, a request fails only if it is out of memory.
pub fn memory_never_faults()
    ensures { OnlyMemoryWants }
{}

/// A registry in memory always returns what was put into it.
pub fn memory_is_faithful()
    ensures { AlwaysFaithful }
{}

/// A request only adds contents to stories, and a version is the length of its story.
pub fn stories_only_grow()
    ensures grow { StoriesGrow }
    ensures counted { VersionsCount }
{}

/// After every request, no two entries of the table are of the same record, and each content of a story is
/// of its entry's record.
pub fn tables_stay_whole()
    ensures { TablesStayWhole }
{}

/// The row of a record, found by its name, is the row of its entry.
pub fn records_are_found_by_name()
    ensures rows { FoundByName }
    ensures entries { EntriesAreFound }
{}

/// A request writes nothing, a first content under a free name, or the next content of a story. The entry
/// of that story has the request's id and name, and the condition holds for its version.
pub fn requests_write_one_content()
    ensures { StepsWrite }
{}

/// Each resource that an answer shows is a content that the entry with its id held, with the tag of that
/// version.
pub fn answers_show_facts()
    ensures { ShowsFacts }
{}

/// Entries go on: read at a place, if nothing changes, and over two steps.
pub fn entries_go_on()
    ensures at { GoOnAt }
    ensures staying { GoOnStaying }
    ensures further { GoOnFurther }
{}
