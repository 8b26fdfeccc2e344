//! Writes a group as JSON, directly as text.
ghost use Rattle.std.specs.Prelude.{IfSome, OnOk, codes, map, option_map};
ghost use Rattle.serde_json.specs.Data.{array, string};
ghost use Rattle.serde_json.specs.View.{items_of};
ghost use Rattle.scim_json.specs.Writing.{Writes, WritesPart, WritesParts};
ghost use Rattle.scim_resource.specs.Groups.{IsGroup};
ghost use Rattle.scim_resource.specs.Rows.{IsShown};
ghost use Rattle.scim_resource.specs.Writing as spec;

use crate::groups::Group;
use crate::rows::Shown;
use crate::schemas::{core_group, source_extension};
use crate::texts::Text;
use crate::writing::{write_id, write_meta_if, write_schemas, write_source};
use json::Writer;
use scim_json::{write_text, write_text_if};
use std::alloc::AllocError;

/// Writes the group's attributes, with the id and `meta` of the resource if it is shown.
pub(crate) fn write_group(
    out: &mut Writer,
    group: &Group,
    shown: Option<(&str, &Shown)>,
) -> Result<(), AllocError>
    ensures written { OnOk result
        (Writes
        (spec.group_data (option_map (λ s. string s.1.now.id) shown.entry)
        (option_map (λ s. spec.meta_data s.0.now s.1.now) shown.entry) group.now)
        out.old out.new) }
    ensures lawful { OnOk result (IsGroup group.now) }
    ensures shown { OnOk result (IfSome shown.entry (λ s. IsShown s.1.now)) }
{
    out.begin_object()?;
    write_group_front(out, group)?;
    write_id(out, shown)?;
    write_members(out, group.members())?;
    write_meta_if(out, shown)?;
    write_group_back(out, group)?;
    out.end_object()
}

#[tactic(auto, unfolding(crate::specs::Writing::group_front))]
fn write_group_front(out: &mut Writer, group: &Group) -> Result<(), AllocError>
    ensures { OnOk result (WritesParts (spec.group_front group.now) out.old out.new) }
{
    write_text(out, "displayName", group.display_name().as_str())?;
    write_text_if(out, "externalId", group.external_id())
}

#[tactic(auto, unfolding(crate::specs::Writing::group_back))]
fn write_group_back(out: &mut Writer, group: &Group) -> Result<(), AllocError>
    ensures written { OnOk result (WritesParts (spec.group_back group.now) out.old out.new) }
    ensures lawful { OnOk result (IsGroup group.now) }
{
    write_schemas(
        out,
        core_group(),
        &[(source_extension(), group.revision().is_some())],
    )?;
    write_source(out, group.revision())
}

/// Writes the members, if there are any.
#[tactic(auto, using(crate::proofs::Written::members_some))]
fn write_members(out: &mut Writer, values: &[Text]) -> Result<(), AllocError>
    ensures { OnOk result
        (WritesPart (codes "members") (spec.group_members_data values.now) out.old out.new) }
{
    if values.is_empty() {
        return Ok(());
    }
    out.key("members")?;
    write_member_list(out, values)
}

fn write_member_list(out: &mut Writer, values: &[Text]) -> Result<(), AllocError>
    ensures { OnOk result
        (Writes (array (items_of (map spec.member_data values.now))) out.old out.new) }
{
    out.begin_array()?;
    for value in values {
        write_member(out, value)?;
    }
    out.end_array()
}

#[tactic(auto, unfolding(crate::specs::Writing::member_data))]
fn write_member(out: &mut Writer, value: &Text) -> Result<(), AllocError>
    ensures { OnOk result (Writes (spec.member_data value.now) out.old out.new) }
{
    out.begin_object()?;
    write_text(out, "value", value.as_str())?;
    out.end_object()
}
