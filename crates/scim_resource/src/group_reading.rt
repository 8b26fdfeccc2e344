//! Reading a group from JSON (RFC 7643 section 4.2).
ghost use Rattle.std.specs.Prelude.{◌≡◌, [], true, IfOk, IfSome, OnOk, option_map};
ghost use Rattle.scim_key.specs.Names.{IsGroupName};
ghost use Rattle.scim_key.specs.Outcome.{Gives, GivesBy};
ghost use Rattle.serde_json.specs.View.{view, items_view};
ghost use Rattle.scim_resource.specs.GroupObjects.{IsGroupObject, members_of};
ghost use Rattle.scim_resource.specs.Groups.{AreTexts, IsMemberList, are_distinct};
ghost use Rattle.scim_resource.specs.Texts.{IsTextIf};
ghost use Rattle.scim_resource.specs.Reading as spec;

use crate::faults::ContentFault;
use crate::group_objects::GroupObject;
use crate::groups::{Group, MEMBER_LIMIT, Members, is_among};
use crate::reading::{lists_schema, revision_in, text_in};
use crate::schemas::core_group;
use crate::texts::Text;
use scim_json::{attribute, items_in, list_repeats, repeats, value_repeats};
use scim_key::GroupName;
use serde_json::Value;
use std::alloc::{AllocError, Global};

pub(crate) fn read_group(alloc: Global, value: &Value) -> Result<Group, ContentFault>
    ensures { Gives ContentFault.Memory result (spec.read_group (view value.now)) }
{
    let Value::Object(members) = value else {
        return Err(ContentFault::InvalidSyntax);
    };
    let object = GroupObject::of(members);
    if group_repeats(alloc, &object)? {
        return Err(ContentFault::InvalidSyntax);
    }
    group_fields(alloc, &object)
}

/// Whether one of the objects that reading looks into repeats a name.
#[tactic(auto, unfolding(crate::specs::Reading::group_repeats))]
fn group_repeats(alloc: Global, object: &GroupObject) -> Result<bool, AllocError>
    requires { IsGroupObject object.now }
    ensures { IfOk result (λ b. b ≡ spec.group_repeats (members_of object.now)) }
{
    Ok(
        repeats(alloc, object.members)?
            || value_repeats(alloc, object.source)?
            || list_repeats(alloc, object.group_members)?,
    )
}

#[tactic(auto, unfolding(crate::specs::Reading::group_fields))]
fn group_fields(alloc: Global, object: &GroupObject) -> Result<Group, ContentFault>
    requires { IsGroupObject object.now }
    ensures { Gives ContentFault.Memory result (spec.group_fields (members_of object.now)) }
{
    if !lists_schema(object.schemas, core_group()) {
        return Err(ContentFault::InvalidValue);
    }
    let display_name = display_name_in(alloc, object.display_name)?;
    let external_id = text_in(alloc, object.external_id)?;
    let values = group_members_in(alloc, object.group_members)?;
    let revision = revision_in(object.source)?;
    Ok(Group::new(alloc, display_name, values, revision).with_external_id(external_id))
}

fn display_name_in(alloc: Global, value: Option<&Value>) -> Result<GroupName, ContentFault>
    ensures given { Gives ContentFault.Memory result
        (spec.display_name_in (option_map (λ v. view v.now) value.entry)) }
    ensures lawful { IfOk result IsGroupName }
{
    match value {
        Some(Value::String(text)) => Ok(GroupName::read(alloc, text.as_str())?),
        _ => Err(ContentFault::InvalidValue),
    }
}

/// The values of the members; a repeated value is kept once, at its first place.
fn group_members_in(alloc: Global, value: Option<&Value>) -> Result<Members, ContentFault>
    ensures given { Gives ContentFault.Memory result
        (spec.group_members_in (option_map (λ v. view v.now) value.entry)) }
    ensures lawful { IfOk result IsMemberList }
{
    let values = members_of(alloc, items_in(value)?)?;
    match Members::from_vec(values) {
        Some(members) => Ok(members),
        None => Err(ContentFault::InvalidValue),
    }
}

/// Reading stops as soon as there are more values than a group may have.
#[tactic(auto, unfolding(crate::specs::Reading::members_after))]
fn members_of(alloc: Global, items: &[Value]) -> Result<Vec<Text>, ContentFault>
    ensures given { GivesBy (λ values. values.items) ContentFault.Memory result
        (spec.members_of (items_view items.now)) }
    ensures lawful { IfOk result (λ values. AreTexts values.items) }
    ensures distinct { IfOk result (λ values. are_distinct values.items ≡ true) }
{
    let mut values = Vec::new(alloc);
    for item in items {
        let value = member_in(alloc, item)?;
        keep(&mut values, value)?;
        if values.len() > MEMBER_LIMIT {
            return Err(ContentFault::InvalidValue);
        }
    }
    Ok(values)
}

/// Adds a value, unless it is there already.
fn keep(values: &mut Vec<Text>, value: Option<Text>) -> Result<(), AllocError>
    requires { IsTextIf value }
    ensures kept { OnOk result (values.new.items ≡ spec.with_member values.old.items value) }
{
    match value {
        Some(value) if !is_among(&value, values.as_slice()) => Ok(values.push(value)?),
        _ => Ok(()),
    }
}

/// The value of a member, or none.
fn member_in(alloc: Global, item: &Value) -> Result<Option<Text>, ContentFault>
    ensures given { Gives ContentFault.Memory result (spec.member_in (view item.now)) }
    ensures lawful { IfOk result IsTextIf }
{
    match item {
        Value::Null => Ok(None),
        Value::Object(members) => Ok(text_in(alloc, attribute(members, "value"))?.into_text()),
        _ => Err(ContentFault::InvalidValue),
    }
}
