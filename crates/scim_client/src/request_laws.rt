//! Laws of the texts of requests.
ghost use Rattle.scim_client.specs.Spelling.{OneRequest, RequestsAreSpelled};

/// A text spells at most one request.
pub fn one_request()
    ensures { OneRequest }
{}

/// The server reads the text of a request as a message that asks for that request.
pub fn requests_are_spelled()
    ensures { RequestsAreSpelled }
{}
