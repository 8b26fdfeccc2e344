//! Laws of what the bytes of responses say.
ghost use Rattle.scim_client.specs.AnswerLaws.{OneAnswer, AnswersAreRead};

/// A law: bytes are at most one answer to a request.
pub fn one_answer()
    ensures { OneAnswer }
{}

/// A law: the text that a server writes for an answer is read as that answer, if the answer fits the
/// request and its head and body are within their limits. Its body is UTF-8 by `body_of`.
pub fn answers_are_read()
    ensures { AnswersAreRead }
{}
