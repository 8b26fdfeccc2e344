//! Laws of the definitions, with nothing to run.
ghost use Rattle.std.specs.Prelude.{◌≡◌, ℕ, List, Option, Ok};
ghost use Rattle.std.specs.Str.{IsUtf8};
ghost use Rattle.scim_message.specs.Answers.{read_body};
ghost use Rattle.scim_message.specs.Bodies.{body_text};
ghost use Rattle.scim_message.specs.Fitting.{Fits, HasTag};
ghost use Rattle.scim_message.specs.Messages.{answer_status};
ghost use Rattle.scim_message.specs.declared.messages.Answer.{Answer};
ghost use Rattle.scim_message.specs.declared.messages.Request.{Request};

/// An answer that fits its request is read back from its status, its tag and its body, which is UTF-8
/// by `body_of`.
pub fn bodies_are_read_back()
    ensures { (r : Request) (a : Answer) (base : List ℕ) (etag : Option (List ℕ)) → Fits r a
        → HasTag a etag → IsUtf8 (body_text base a)
        → read_body r (answer_status a) etag (body_text base a) ≡ Ok a }
{}
