//! Laws of the definitions of requests, replies, segments and paths.
ghost use Rattle.scim_http.specs.Laws.{AnswersAreResponses, LocationsAreRouted, OneMeaning, RepliesAreLawful, SegmentsAreSpelled};

/// A message has only one meaning.
pub fn one_meaning()
    ensures { OneMeaning }
{}

/// A 304 has only the resource's location and version, and the fixed response is an ordinary error message.
pub fn replies_are_lawful()
    ensures { RepliesAreLawful }
{}

/// The grammar of path segments and the function that reads them agree.
pub fn segments_are_spelled()
    ensures { SegmentsAreSpelled }
{}

/// The location that is written for a resource has a path that names this resource.
pub fn locations_are_routed()
    ensures { LocationsAreRouted }
{}

/// The text of an answer is a response of the grammar, and is read as exactly its status, its field lines
/// and its body.
pub fn answers_are_responses()
    ensures { AnswersAreResponses }
{}
