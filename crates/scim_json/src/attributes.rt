//! Finds an attribute in an object. Names are compared with ASCII letters in lower case (RFC 7643 section
//! 2.1).
ghost use Rattle.std.specs.Prelude.{◌≡◌, IfOk, option_map};
ghost use Rattle.serde_json.specs.View.{view, items_view, members_view};
ghost use Rattle.scim_json.specs.Attributes as spec;

use serde_json::{Map, Value};
use std::alloc::{AllocError, Global};
use std::collections::BTreeSet;
use std::collections::btree_map::Iter;

/// The attribute with this name in any case. `null` and the empty text count as absent.
pub fn attribute<'v>(members: &'v Map<String, Value>, name: &str) -> Option<&'v Value>
    ensures { option_map (λ v. view v.now) result
        ≡ spec.attribute name.now (members_view members.now.entries) }
{
    present(named(members, name))
}

#[tactic(auto, unfolding(crate::specs::Attributes::named))]
fn named<'v>(members: &'v Map<String, Value>, name: &str) -> Option<&'v Value>
    ensures { option_map (λ v. view v.now) result
        ≡ spec.named name.now (members_view members.now.entries) }
{
    for (key, value) in members {
        if same_name(key.as_str(), name) {
            return Some(value);
        }
    }
    None
}

/// The value of an attribute. `null` and the empty text count as absent.
fn present(value: Option<&Value>) -> Option<&Value>
    ensures { option_map (λ v. view v.now) result
        ≡ spec.present (option_map (λ v. view v.now) value.entry) }
{
    match value {
        None => None,
        Some(found) => if is_empty(found) { None } else { Some(found) },
    }
}

fn is_empty(value: &Value) -> bool
    ensures { result ≡ spec.is_empty (view value.now) }
{
    match value {
        Value::Null => true,
        Value::String(text) => text.is_empty(),
        _ => false,
    }
}

/// An object with at most so many names is looked through without memory.
const FEW_NAMES: usize = 16;

/// Whether two names of the object are equal in lower case.
pub fn repeats(alloc: Global, members: &Map<String, Value>) -> Result<bool, AllocError>
    ensures { IfOk result (λ b. b ≡ spec.repeats (members_view members.now.entries)) }
{
    if members.len() <= FEW_NAMES {
        repeats_one_of_few(members)
    } else {
        repeats_one_of_many(alloc, members)
    }
}

/// Compares each name with each later one.
#[tactic(auto, unfolding(crate::specs::Attributes::repeats))]
fn repeats_one_of_few(members: &Map<String, Value>) -> Result<bool, AllocError>
    ensures { IfOk result (λ b. b ≡ spec.repeats (members_view members.now.entries)) }
{
    let mut later = members.iter();
    while let Some((key, _)) = later.next() {
        if has_name(key.as_str(), later.clone()?) {
            return Ok(true);
        }
    }
    Ok(false)
}

/// Whether one of these members has the name, in any case.
#[tactic(auto, unfolding(crate::specs::Attributes::has_name))]
fn has_name(name: &str, members: Iter<'_, String, Value>) -> bool
    ensures { result ≡ spec.has_name name.now (members_view members.entry) }
{
    for (key, _) in members {
        if same_name(name, key.as_str()) {
            return true;
        }
    }
    false
}

/// Keeps the names so far in lower case.
#[tactic(auto, unfolding(crate::specs::Attributes::repeats))]
fn repeats_one_of_many(alloc: Global, members: &Map<String, Value>) -> Result<bool, AllocError>
    ensures { IfOk result (λ b. b ≡ spec.repeats (members_view members.now.entries)) }
{
    let mut seen = BTreeSet::new(alloc);
    for (key, _) in members {
        let mut lowered = key.clone()?;
        lowered.make_ascii_lowercase();
        if !seen.insert(lowered)? {
            return Ok(true);
        }
    }
    Ok(false)
}

/// Whether the names are equal in lower case.
pub fn same_name(a: &str, b: &str) -> bool
    ensures { result ≡ spec.same_name a.now b.now }
{
    a == b || a.eq_ignore_ascii_case(b)
}

/// Whether the value is an object with two names that are equal in lower case.
pub fn value_repeats(alloc: Global, value: Option<&Value>) -> Result<bool, AllocError>
    ensures { IfOk result (λ b. b
        ≡ spec.value_repeats (option_map (λ v. view v.now) value.entry)) }
{
    match value {
        Some(Value::Object(members)) => repeats(alloc, members),
        _ => Ok(false),
    }
}

/// Whether the value is a list that contains an object with two names that are equal in lower case.
pub fn list_repeats(alloc: Global, value: Option<&Value>) -> Result<bool, AllocError>
    ensures { IfOk result (λ b. b
        ≡ spec.list_repeats (option_map (λ v. view v.now) value.entry)) }
{
    match value {
        Some(Value::Array(items)) => items_repeat(alloc, items.as_slice()),
        _ => Ok(false),
    }
}

#[tactic(auto, unfolding(crate::specs::Attributes::items_repeat))]
fn items_repeat(alloc: Global, items: &[Value]) -> Result<bool, AllocError>
    ensures { IfOk result (λ b. b ≡ spec.items_repeat (items_view items.now)) }
{
    for item in items {
        if value_repeats(alloc, Some(item))? {
            return Ok(true);
        }
    }
    Ok(false)
}
