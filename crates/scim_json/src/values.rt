//! What an attribute's value must be. An absent value isn't a fault.
ghost use Rattle.std.specs.Prelude.{◌≡◌, option_map};
ghost use Rattle.std.specs.Result.{result_map_both};
ghost use Rattle.serde_json.specs.View.{view, items_view, members_view};
ghost use Rattle.scim_json.specs.Values as spec;

use crate::attributes::same_name;
use serde_json::{Map, Value};

/// Why an attribute can't have this value.
#[derive(Clone, Copy, Drop)]
pub enum ValueFault {
    WrongType,
}

/// A boolean, or `absent` if there is no value.
pub fn flag_or(value: Option<&Value>, absent: bool) -> Result<bool, ValueFault>
    ensures { result ≡ spec.flag_or absent (option_map (λ v. view v.now) value.entry) }
{
    match value {
        None => Ok(absent),
        Some(Value::Bool(flag)) => Ok(*flag),
        Some(_) => Err(ValueFault::WrongType),
    }
}

/// A whole number without sign, fraction or exponent.
pub fn whole_in(value: Option<&Value>) -> Result<Option<u64>, ValueFault>
    ensures { result ≡ spec.whole_in (option_map (λ v. view v.now) value.entry) }
{
    match value {
        None => Ok(None),
        Some(value) => match value.as_u64() {
            Some(number) => Ok(Some(number)),
            None => Err(ValueFault::WrongType),
        },
    }
}

/// The items of a list; empty if there is no value.
pub fn items_in(value: Option<&Value>) -> Result<&[Value], ValueFault>
    ensures { result_map_both (λ vs. items_view vs.now) (λ e. e) result
        ≡ spec.items_in (option_map (λ v. view v.now) value.entry) }
{
    match value {
        None => Ok(&[]),
        Some(Value::Array(items)) => Ok(items.as_slice()),
        Some(_) => Err(ValueFault::WrongType),
    }
}

/// The members of an object.
pub fn members_in(value: Option<&Value>) -> Result<Option<&Map<String, Value>>, ValueFault>
    ensures { result_map_both (option_map (λ m. members_view m.now.entries)) (λ e. e) result
        ≡ spec.members_in (option_map (λ v. view v.now) value.entry) }
{
    match value {
        None => Ok(None),
        Some(Value::Object(members)) => Ok(Some(members)),
        Some(_) => Err(ValueFault::WrongType),
    }
}

/// Whether the value is a list that contains this text, in any case.
pub fn lists_text(value: Option<&Value>, text: &str) -> bool
    ensures { result ≡ spec.lists_text text.now (option_map (λ v. view v.now) value.entry) }
{
    match value {
        Some(Value::Array(items)) => some_text(items.as_slice(), text),
        _ => false,
    }
}

fn some_text(items: &[Value], text: &str) -> bool
    ensures { result ≡ spec.some_text text.now (items_view items.now) }
{
    items.iter().any(|item| is_text(item, text))
}

/// Whether the value is this text, in any case.
fn is_text(value: &Value, text: &str) -> bool
    ensures { result ≡ spec.is_text text.now (view value.now) }
{
    match value {
        Value::String(found) => same_name(found.as_str(), text),
        _ => false,
    }
}

/// The text, if the value is a text.
pub fn text_of(value: Option<&Value>) -> Option<&str>
    ensures { option_map (λ s. s.now) result
        ≡ spec.text_of (option_map (λ v. view v.now) value.entry) }
{
    match value {
        Some(Value::String(text)) => Some(text.as_str()),
        _ => None,
    }
}
