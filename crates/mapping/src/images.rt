//! Images of rows.
ghost use Rattle.std.specs.Prelude.{◌≡◌, ◌≤◌, IfOk, length};
ghost use Rattle.scim_resource.specs.Texts.{text_if};
ghost use Rattle.scim_resource.specs.declared.texts.TheConstants.{TEXT_LIMIT};
ghost use Rattle.mapping.specs.Images.{emails_of, user_image};

use scim_resource::{Content, Email, Emails, OptionalText, TEXT_LIMIT, User};
use source_csv::{FieldValue, UserRow};
use std::alloc::{AllocError, Global};

/// The content for a user's row. An empty field is an absent attribute.
pub fn user_content(alloc: Global, row: &UserRow) -> Result<Content, AllocError>
    ensures { IfOk result (λ content. content ≡ user_image row.now) }
{
    user_image(alloc, row.clone()?)
}

/// The content for a user's row, which takes its texts.
pub(crate) fn user_image(alloc: Global, row: UserRow) -> Result<Content, AllocError>
    ensures { IfOk result (λ content. content ≡ user_image row) }
{
    let (login, revision, texts, active) = row.into_parts();
    let [number, given, family, mail, department] = texts;
    let user = User::new(alloc, login, active, Some(revision));
    let texts = [text(department), text(number), text(family), text(given)];
    let emails = emails(alloc, mail)?;
    Ok(Content::User(user.with_texts(texts).with_emails(emails)))
}

/// A field as the text of an attribute; absent if it is empty.
fn text(field: FieldValue) -> OptionalText
    requires { length field ≤ TEXT_LIMIT }
    ensures { result ≡ text_if field }
{
    OptionalText::from_string(field.into_string())
}

/// The mail as the only email address; none if it is empty.
#[tactic(auto, using(crate::proofs::ImageLemmas::few_of_one))]
fn emails(alloc: Global, mail: FieldValue) -> Result<Emails, AllocError>
    requires { length mail ≤ TEXT_LIMIT }
    ensures { IfOk result (λ emails. emails ≡ emails_of mail) }
{
    let Some(value) = text(mail).into_text() else {
        return Ok(Emails::new(alloc));
    };
    let mut items = Vec::with_capacity(alloc, 1)?;
    items.push(Email {
        value,
        type_text: text(FieldValue::new(String::from_str(alloc, "work")?)),
        primary: true,
    })?;
    Ok(Emails::from_vec(items).unwrap())
}
