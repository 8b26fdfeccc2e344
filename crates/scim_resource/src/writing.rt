//! Writes a resource as JSON, directly as text.
ghost use Rattle.std.specs.Prelude.{◌≡◌, Some, IfOk, IfSome, OnOk, codes, map, option_map, string_bytes};
ghost use Rattle.std.specs.Str.{IsUtf8};
ghost use Rattle.serde_json.specs.Data.{array, object, string};
ghost use Rattle.serde_json.specs.View.{items_of};
ghost use Rattle.serde_json.specs.Written.{compact_text};
ghost use Rattle.scim_json.specs.Writing.{members_from, Adds, Writes, WritesPart, WritesParts};
ghost use Rattle.scim_resource.specs.Contents.{IsContent};
ghost use Rattle.scim_resource.specs.Rows.{IsShown};
ghost use Rattle.scim_resource.specs.Schemas.{source_extension as urn};
ghost use Rattle.scim_resource.specs.UserTexts.{has_some};
ghost use Rattle.scim_resource.specs.Users.{IsUser};
ghost use Rattle.scim_resource.specs.Writing as spec;

use crate::contents::Content;
use crate::emails::Email;
use crate::group_writing::write_group;
use crate::locations::{location, type_name};
use crate::rows::Shown;
use crate::schemas::{core_user, enterprise_extension, source_extension};
use crate::user_texts::{ENTERPRISE_TEXTS, NAME_TEXTS, TOP_TEXTS, UserText};
use crate::users::User;
use json::Writer;
use scim_json::{TEXT_ROOM, write_text, write_text_if, write_whole};
use scim_key::{Base, Revision};
use std::alloc::{AllocError, Global};
use std::str;

impl Content {
    /// The text that a store keeps of the resource: its attributes as compact JSON in UTF-8.
    #[tactic(auto, using(scim_json::proofs::Written::written_text))]
    pub fn text(&self, alloc: Global) -> Result<Vec<u8>, AllocError>
        ensures text { IfOk result (λ text. text.items
            ≡ compact_text (spec.content_data self.now)) }
        ensures utf8 { IfOk result (λ text. IsUtf8 text.items) }
        ensures lawful { OnOk result (IsContent self.now) }
    {
        let mut out = Writer::new(Vec::with_capacity(alloc, TEXT_ROOM)?);
        self.write(&mut out, None)?;
        Ok(out.into_inner())
    }

    /// Writes the content, with the id and `meta` of the resource if it is shown, at this location.
    fn write(&self, out: &mut Writer, shown: Option<(&str, &Shown)>) -> Result<(), AllocError>
        ensures written { OnOk result
            (Writes
            (spec.resource_data (option_map (λ s. string s.1.now.id) shown.entry)
            (option_map (λ s. spec.meta_data s.0.now s.1.now) shown.entry) self.now)
            out.old out.new) }
        ensures lawful { OnOk result (IsContent self.now) }
        ensures shown { OnOk result (IfSome shown.entry (λ s. IsShown s.1.now)) }
    {
        match self {
            Content::User(user) => write_user(out, user, shown),
            Content::Group(group) => write_group(out, group, shown),
        }
    }
}

impl Shown {
    /// The URI of the resource at a service with this base.
    pub fn location(&self, alloc: Global, base: &Base) -> Result<String, AllocError>
        ensures { IfOk result (λ text. string_bytes text ≡ spec.shown_location base.now self.now) }
    {
        location(alloc, base, self.content().kind(), self.id())
    }

    /// Writes the resource as a service at this base shows it.
    pub fn write(&self, alloc: Global, base: &Base, out: &mut Writer) -> Result<(), AllocError>
        ensures written { OnOk result (Writes (spec.shown_data base.now self.now) out.old out.new) }
        ensures lawful { OnOk result (IsContent self.now.content) }
        ensures shown { OnOk result (IsShown self.now) }
    {
        let location = self.location(alloc, base)?;
        self.write_at(location.as_str(), out)
    }

    /// Writes the resource as it is shown at this location.
    pub fn write_at(&self, location: &str, out: &mut Writer) -> Result<(), AllocError>
        ensures written { OnOk result
            (Writes (spec.data_at location.now self.now) out.old out.new) }
        ensures lawful { OnOk result (IsContent self.now.content) }
        ensures shown { OnOk result (IsShown self.now) }
    {
        self.content().write(out, Some((location, self)))
    }

    fn write_meta(&self, location: &str, out: &mut Writer) -> Result<(), AllocError>
        ensures written { OnOk result
            (WritesPart (codes "meta")
            (Some (spec.meta_data location.now self.now)) out.old out.new) }
        ensures lawful { OnOk result (IsShown self.now) }
    {
        out.key("meta")?;
        out.begin_object()?;
        write_text(out, "location", location)?;
        write_text(out, "resourceType", type_name(self.content().kind()))?;
        self.write_version(out)?;
        out.end_object()
    }

    /// Writes the entity tag as text, if it is known.
    fn write_version(&self, out: &mut Writer) -> Result<(), AllocError>
        ensures written { OnOk result
            (WritesPart (codes "version") (option_map string self.now.version) out.old out.new) }
        ensures lawful { OnOk result (IsShown self.now) }
    {
        match self.version() {
            None => Ok(()),
            Some(tag) => write_text(out, "version", str::from_utf8(tag.text()).unwrap()),
        }
    }
}

/// Writes the id, if the resource is shown.
pub(crate) fn write_id(out: &mut Writer, shown: Option<(&str, &Shown)>) -> Result<(), AllocError>
    ensures { OnOk result
        (WritesPart (codes "id")
        (option_map (λ s. string s.1.now.id) shown.entry) out.old out.new) }
{
    match shown {
        None => Ok(()),
        Some((_, shown)) => write_text(out, "id", shown.id().as_str()),
    }
}

/// Writes `meta`, if the resource is shown.
pub(crate) fn write_meta_if(
    out: &mut Writer,
    shown: Option<(&str, &Shown)>,
) -> Result<(), AllocError>
    ensures written { OnOk result
        (WritesPart (codes "meta")
        (option_map (λ s. spec.meta_data s.0.now s.1.now) shown.entry) out.old out.new) }
    ensures lawful { OnOk result (IfSome shown.entry (λ s. IsShown s.1.now)) }
{
    match shown {
        None => Ok(()),
        Some((location, shown)) => shown.write_meta(location, out),
    }
}

/// Writes the user's attributes, with the id and `meta` of the resource if it is shown.
fn write_user(
    out: &mut Writer,
    user: &User,
    shown: Option<(&str, &Shown)>,
) -> Result<(), AllocError>
    ensures written { OnOk result
        (Writes
        (spec.user_data (option_map (λ s. string s.1.now.id) shown.entry)
        (option_map (λ s. spec.meta_data s.0.now s.1.now) shown.entry) user.now)
        out.old out.new) }
    ensures lawful { OnOk result (IsUser user.now) }
    ensures shown { OnOk result (IfSome shown.entry (λ s. IsShown s.1.now)) }
{
    out.begin_object()?;
    write_user_front(out, user)?;
    write_id(out, shown)?;
    write_meta_if(out, shown)?;
    write_user_back(out, user)?;
    out.end_object()
}

#[tactic(auto, unfolding(crate::specs::Writing::user_front))]
fn write_user_front(out: &mut Writer, user: &User) -> Result<(), AllocError>
    ensures { OnOk result (WritesParts (spec.user_front user.now) out.old out.new) }
{
    out.key("active")?;
    out.boolean(user.is_active())?;
    write_emails(out, user.emails())?;
    write_texts(out, user, &TOP_TEXTS)
}

#[tactic(auto, unfolding(crate::specs::Writing::user_back))]
fn write_user_back(out: &mut Writer, user: &User) -> Result<(), AllocError>
    ensures written { OnOk result (WritesParts (spec.user_back user.now) out.old out.new) }
    ensures lawful { OnOk result (IsUser user.now) }
{
    write_held(out, "name", user, &NAME_TEXTS)?;
    write_schemas(out, core_user(), &extensions_of(user))?;
    write_source(out, user.revision())?;
    write_held(out, enterprise_extension(), user, &ENTERPRISE_TEXTS)?;
    write_text(out, "userName", user.user_name().as_str())
}

/// The extensions of a user, in the order of `schemas`, and whether the user has each.
fn extensions_of(user: &User) -> [(&'static str, bool); 2]
    ensures { map (λ e. (e.0.now, e.1)) result ≡ spec.user_extensions user.now }
{
    let enterprise = (enterprise_extension(), has_some(user, &ENTERPRISE_TEXTS));
    let source = (source_extension(), user.revision().is_some());
    [enterprise, source]
}

/// Writes these texts of a user, as far as it has them.
fn write_texts(out: &mut Writer, user: &User, texts: &[UserText]) -> Result<(), AllocError>
    ensures { OnOk result
        (WritesParts (spec.text_parts user.now.texts texts.now) out.old out.new) }
{
    for which in texts {
        write_text_if(out, which.member().1, user.text(*which))?;
    }
    Ok(())
}

fn has_some(user: &User, texts: &[UserText]) -> bool
    ensures { result ≡ has_some user.now.texts texts.now }
{
    texts.iter().any(|which| user.text(*which).is_some())
}

/// Writes an object of these texts of a user, if it has one of them.
fn write_held(
    out: &mut Writer,
    name: &str,
    user: &User,
    texts: &[UserText],
) -> Result<(), AllocError>
    ensures { OnOk result (WritesPart name.now
        (spec.held_data user.now.texts texts.now) out.old out.new) }
{
    if !has_some(user, texts) {
        return Ok(());
    }
    out.key(name)?;
    write_text_object(out, user, texts)
}

fn write_text_object(out: &mut Writer, user: &User, texts: &[UserText]) -> Result<(), AllocError>
    ensures { OnOk result
        (Writes
        (object (members_from (spec.text_parts user.now.texts texts.now))) out.old out.new) }
{
    out.begin_object()?;
    write_texts(out, user, texts)?;
    out.end_object()
}

/// Writes the emails, if there are any.
#[tactic(auto, using(crate::proofs::Written::emails_some))]
fn write_emails(out: &mut Writer, emails: &[Email]) -> Result<(), AllocError>
    ensures { OnOk result
        (WritesPart (codes "emails") (spec.emails_data emails.now) out.old out.new) }
{
    if emails.is_empty() {
        return Ok(());
    }
    out.key("emails")?;
    write_email_list(out, emails)
}

fn write_email_list(out: &mut Writer, emails: &[Email]) -> Result<(), AllocError>
    ensures { OnOk result
        (Writes (array (items_of (map spec.email_data emails.now))) out.old out.new) }
{
    out.begin_array()?;
    for email in emails {
        write_email(out, email)?;
    }
    out.end_array()
}

fn write_email(out: &mut Writer, email: &Email) -> Result<(), AllocError>
    ensures { OnOk result (Writes (spec.email_data email.now) out.old out.new) }
{
    out.begin_object()?;
    write_primary(out, email.primary)?;
    write_text_if(out, "type", email.type_text.as_option())?;
    write_text(out, "value", email.value.as_str())?;
    out.end_object()
}

/// Writes `primary`, if it is true.
fn write_primary(out: &mut Writer, primary: bool) -> Result<(), AllocError>
    ensures { OnOk result
        (WritesPart (codes "primary") (spec.primary_data primary) out.old out.new) }
{
    if !primary {
        return Ok(());
    }
    out.key("primary")?;
    out.boolean(true)
}

/// Writes the source extension, if there is a revision.
pub(crate) fn write_source(out: &mut Writer, revision: Option<Revision>) -> Result<(), AllocError>
    ensures { OnOk result
        (WritesPart urn (spec.source_data revision) out.old out.new) }
{
    match revision {
        None => Ok(()),
        Some(revision) => write_revision(out, revision),
    }
}

fn write_revision(out: &mut Writer, revision: Revision) -> Result<(), AllocError>
    ensures { OnOk result
        (WritesPart urn (spec.source_data (Some revision)) out.old out.new) }
{
    out.key(source_extension())?;
    out.begin_object()?;
    write_epoch(out, revision.epoch())?;
    write_whole(out, "revision", u64::from(revision.number()))?;
    out.end_object()
}

/// Writes `epoch`, if it isn't 0.
fn write_epoch(out: &mut Writer, epoch: u32) -> Result<(), AllocError>
    ensures { OnOk result (WritesPart (codes "epoch") (spec.epoch_data epoch) out.old out.new) }
{
    if epoch == 0 {
        return Ok(());
    }
    write_whole(out, "epoch", u64::from(epoch))
}

/// Writes the core URN, then the URN of each of these extensions that the resource has.
pub(crate) fn write_schemas(
    out: &mut Writer,
    core: &str,
    extensions: &[(&str, bool)],
) -> Result<(), AllocError>
    ensures { OnOk result
        (WritesPart (codes "schemas")
        (Some (array (spec.schemas_data core.now (map (λ e. (e.0.now, e.1)) extensions.now))))
        out.old out.new) }
{
    out.key("schemas")?;
    out.begin_array()?;
    out.string(core)?;
    for extension in extensions {
        write_urn(out, extension.0, extension.1)?;
    }
    out.end_array()
}

/// Writes the URN of an extension, if the resource has it.
fn write_urn(out: &mut Writer, urn: &str, is_there: bool) -> Result<(), AllocError>
    ensures { OnOk result (Adds (spec.urn_tokens urn.now is_there) out.old out.new) }
{
    if is_there { out.string(urn) } else { Ok(()) }
}
