//! A service, and the requests to it.
ghost use Rattle.std.specs.Prelude.{◌≡◌, None, IfOk, option_map, pos};
ghost use Rattle.scim_message.specs.declared.messages.Request.TheVariants as requests;
ghost use Rattle.scim_version.specs.declared.conditions.Condition.TheVariants.{Always};
ghost use Rattle.scim_key.specs.Bases.{IsBase};
ghost use Rattle.scim_client.specs.ServicePaths.{IsAddress, address_text, path_text};
ghost use Rattle.scim_client.specs.Requests.{tag_alone, text_of, through_filter, under_tag};
ghost use Rattle.scim_client.specs.Spelling.{IsWritable, KeepsLimits, SpellsRequest};

use crate::requests::bytes_of;
use crate::service_paths::ServicePath;
use scim_filter::Filter;
use scim_key::{Base, Kind, ResourceId};
use scim_message::Request;
use scim_resource::Content;
use scim_version::{Condition, EntityTag, TagList};
use std::alloc::{AllocError, Global};
use std::marker::Model;

/// The path of a service that has none of its own.
const OWN_PATH: &str = "/v2";

/// A SCIM service, to which requests are sent.
#[derive(Drop)]
pub struct ScimService {
    base: Base,
    path: Option<ServicePath>,
}

impl Model for ScimService {
    ghost use Rattle.std.specs.Prelude.{List, ℕ};
    ghost use Rattle.scim_client.specs.ServicePaths.{IsAddress, address_text};

    ghost Value = { List ℕ };

    ghost view = { λ s. address_text s.base s.path };

    ghost invariant = { λ s. IsAddress s.base s.path };
}

/// The types of a base and of a path guarantee their forms.
fn keeps_forms(base: &Base, path: &Option<ServicePath>)
    ensures { IsAddress base.now path.now }
{
    let _ = base.as_str();
    if let Some(path) = path {
        let _ = path.as_str();
    }
}

/// The path of a service: its own, or else `/v2`.
fn path_text(path: &Option<ServicePath>) -> &str
    ensures { result.now ≡ path_text path.now }
{
    match path {
        Some(path) => path.as_str(),
        None => OWN_PATH,
    }
}

impl ScimService {
    /// The service at this base.
    pub fn new(base: Base) -> ScimService
        ensures { result ≡ base }
    {
        ScimService::with_path(base, None)
    }

    /// The service at the host of this base, with a path in place of the base's if there is one.
    pub fn with_path(base: Base, path: Option<ServicePath>) -> ScimService
        ensures { result ≡ address_text base path }
    {
        keeps_forms(&base, &path);
        ScimService { base, path }
    }

    /// The base, whatever the path is.
    pub fn base(&self) -> &Base
        ensures { IsBase self.now → result.now ≡ self.now }
    {
        &self.base
    }

    /// The bytes of a request to this service.
    pub fn bytes_of(&self, alloc: Global, request: &Request) -> Result<Vec<u8>, AllocError>
        ensures text { IfOk result (λ text. text.items ≡ text_of self.now request.now) }
        // The bytes spell this request and no other, if they are within the limits.
        ensures spelled { IfOk result (λ text. IsWritable request.now
            → KeepsLimits self.now request.now → SpellsRequest text.items request.now) }
    {
        bytes_of(alloc, &self.base, path_text(&self.path), request)
    }

    /// A new resource with this content.
    pub fn create_request<'a>(&'a self, content: &'a Content) -> CreateRequest<'a>
        ensures { result ≡ record { address = self.now; request = requests.Create content.now } }
    {
        CreateRequest {
            service: self,
            content,
        }
    }

    /// The resource of this type with this id.
    pub fn retrieve_request<'a>(&'a self, kind: Kind, id: &'a ResourceId) -> RetrieveRequest<'a>
        ensures { result ≡ record {
          address = self.now;
          request = requests.Retrieve kind id.now Always Always;
        } }
    {
        RetrieveRequest {
            service: self,
            kind,
            id,
        }
    }

    /// The resources of this type, from the first on, as many as the provider lists at once.
    pub fn search_request(&self, kind: Kind) -> SearchRequest<'_>
        ensures { result ≡ record {
          address = self.now;
          request = requests.Search kind None (pos 1) None;
        } }
    {
        SearchRequest {
            service: self,
            kind,
            filter: None,
        }
    }

    /// A new content for the resource with this id, whatever its version.
    pub fn replace_request<'a>(
        &'a self,
        content: &'a Content,
        id: &'a ResourceId,
    ) -> ReplaceRequest<'a>
        ensures { result ≡ record {
          address = self.now;
          request = requests.Replace id.now content.now Always Always;
        } }
    {
        ReplaceRequest {
            service: self,
            content,
            id,
            if_match: None,
        }
    }
}

/// A Create that is being built.
#[derive(Drop)]
pub struct CreateRequest<'a> {
    service: &'a ScimService,
    content: &'a Content,
}

impl<'a> Model for CreateRequest<'a> {
    ghost use Rattle.std.specs.Coded.{codes};
    ghost use Rattle.scim_filter.specs.Codes.{expression_code};
    ghost use Rattle.scim_client.specs.Requests.{Planned};
    ghost use Rattle.scim_message.specs.declared.messages.Request.TheVariants.{Create};

    ghost Value = { Planned };

    ghost coded = { Prim.hlevel (codes, expression_code) };

    ghost view = { λ r. record { address = r.service.now; request = Create r.content.now } };
}

impl<'a> CreateRequest<'a> {
    /// The request.
    pub fn request(&self, _alloc: Global) -> Result<Request, AllocError>
        ensures { IfOk result (λ request. request ≡ self.now.request) }
    {
        Ok(Request::Create {
            content: self.content.clone()?,
        })
    }

    /// Its bytes.
    pub fn build(&self, alloc: Global) -> Result<Vec<u8>, AllocError>
        ensures text { IfOk result (λ text. text.items ≡ text_of self.now.address self.now.request) }
        ensures spelled { IfOk result (λ text. IsWritable self.now.request
            → KeepsLimits self.now.address self.now.request
            → SpellsRequest text.items self.now.request) }
    {
        let create = self.request(alloc)?;
        self.service.bytes_of(alloc, &create)
    }
}

/// A Retrieve that is being built.
#[derive(Drop)]
pub struct RetrieveRequest<'a> {
    service: &'a ScimService,
    kind: Kind,
    id: &'a ResourceId,
}

impl<'a> Model for RetrieveRequest<'a> {
    ghost use Rattle.std.specs.Coded.{codes};
    ghost use Rattle.scim_filter.specs.Codes.{expression_code};
    ghost use Rattle.scim_client.specs.Requests.{Planned};
    ghost use Rattle.scim_message.specs.declared.messages.Request.TheVariants.{Retrieve};
    ghost use Rattle.scim_version.specs.declared.conditions.Condition.TheVariants.{Always};

    ghost Value = { Planned };

    ghost coded = { Prim.hlevel (codes, expression_code) };

    ghost view = { λ r. record {
      address = r.service.now;
      request = Retrieve r.kind r.id.now Always Always;
    } };
}

impl<'a> RetrieveRequest<'a> {
    /// The request.
    pub fn request(&self, _alloc: Global) -> Result<Request, AllocError>
        ensures { IfOk result (λ request. request ≡ self.now.request) }
    {
        Ok(Request::Retrieve {
            kind: self.kind,
            id: self.id.clone()?,
            if_match: Condition::Always,
            if_none_match: Condition::Always,
        })
    }

    /// Its bytes.
    pub fn build(&self, alloc: Global) -> Result<Vec<u8>, AllocError>
        ensures text { IfOk result (λ text. text.items ≡ text_of self.now.address self.now.request) }
        ensures spelled { IfOk result (λ text. IsWritable self.now.request
            → KeepsLimits self.now.address self.now.request
            → SpellsRequest text.items self.now.request) }
    {
        let retrieve = self.request(alloc)?;
        self.service.bytes_of(alloc, &retrieve)
    }
}

/// A Search that is being built.
#[derive(Drop)]
pub struct SearchRequest<'a> {
    service: &'a ScimService,
    kind: Kind,
    filter: Option<&'a Filter>,
}

impl<'a> Model for SearchRequest<'a> {
    ghost use Rattle.std.specs.Prelude.{None, option_map, pos};
    ghost use Rattle.std.specs.Coded.{codes};
    ghost use Rattle.scim_filter.specs.Codes.{expression_code};
    ghost use Rattle.scim_client.specs.Requests.{Planned};
    ghost use Rattle.scim_message.specs.declared.messages.Request.TheVariants.{Search};

    ghost Value = { Planned };

    ghost coded = { Prim.hlevel (codes, expression_code) };

    ghost view = { λ r. record {
      address = r.service.now;
      request = Search r.kind (option_map (λ t. t.now) r.filter) (pos 1) None;
    } };
}

impl<'a> SearchRequest<'a> {
    /// Only the resources that this filter finds.
    pub fn filter(mut self, filter: &'a Filter) -> SearchRequest<'a>
        ensures { result ≡ record {
          address = self.entry.address;
          request = through_filter filter.now self.entry.request;
        } }
    {
        self.filter = Some(filter);
        self
    }

    /// The request.
    pub fn request(&self, _alloc: Global) -> Result<Request, AllocError>
        ensures { IfOk result (λ request. request ≡ self.now.request) }
    {
        let filter = match self.filter {
            Some(filter) => Some(filter.clone()?),
            None => None,
        };
        Ok(Request::Search {
            kind: self.kind,
            filter,
            start: 1,
            count: None,
        })
    }

    /// Its bytes.
    pub fn build(&self, alloc: Global) -> Result<Vec<u8>, AllocError>
        ensures text { IfOk result (λ text. text.items ≡ text_of self.now.address self.now.request) }
        ensures spelled { IfOk result (λ text. IsWritable self.now.request
            → KeepsLimits self.now.address self.now.request
            → SpellsRequest text.items self.now.request) }
    {
        let search = self.request(alloc)?;
        self.service.bytes_of(alloc, &search)
    }
}

/// A Replace that is being built.
#[derive(Drop)]
pub struct ReplaceRequest<'a> {
    service: &'a ScimService,
    content: &'a Content,
    id: &'a ResourceId,
    if_match: Option<&'a EntityTag>,
}

impl<'a> Model for ReplaceRequest<'a> {
    ghost use Rattle.std.specs.Prelude.{option_map};
    ghost use Rattle.std.specs.Coded.{codes};
    ghost use Rattle.scim_filter.specs.Codes.{expression_code};
    ghost use Rattle.scim_client.specs.Requests.{Planned, tag_alone};
    ghost use Rattle.scim_message.specs.declared.messages.Request.TheVariants.{Replace};
    ghost use Rattle.scim_version.specs.declared.conditions.Condition.TheVariants.{Always};

    ghost Value = { Planned };

    ghost coded = { Prim.hlevel (codes, expression_code) };

    ghost view = { λ r. record {
      address = r.service.now;
      request = Replace r.id.now r.content.now (tag_alone (option_map (λ t. t.now) r.if_match)) Always;
    } };
}

impl<'a> ReplaceRequest<'a> {
    /// Replaces only if the resource has the version with this tag (RFC 7232 section 3.1).
    pub fn if_match(mut self, tag: &'a EntityTag) -> ReplaceRequest<'a>
        ensures { result ≡ record {
          address = self.entry.address;
          request = under_tag tag.now self.entry.request;
        } }
    {
        self.if_match = Some(tag);
        self
    }

    /// The request.
    pub fn request(&self, alloc: Global) -> Result<Request, AllocError>
        ensures { IfOk result (λ request. request ≡ self.now.request) }
    {
        Ok(Request::Replace {
            id: self.id.clone()?,
            content: self.content.clone()?,
            if_match: tag_alone(alloc, self.if_match)?,
            if_none_match: Condition::Always,
        })
    }

    /// Its bytes.
    pub fn build(&self, alloc: Global) -> Result<Vec<u8>, AllocError>
        ensures text { IfOk result (λ text. text.items ≡ text_of self.now.address self.now.request) }
        ensures spelled { IfOk result (λ text. IsWritable self.now.request
            → KeepsLimits self.now.address self.now.request
            → SpellsRequest text.items self.now.request) }
    {
        let replace = self.request(alloc)?;
        self.service.bytes_of(alloc, &replace)
    }
}

/// The condition of only this tag, if there is one.
fn tag_alone(alloc: Global, tag: Option<&EntityTag>) -> Result<Condition, AllocError>
    ensures { IfOk result (λ condition. condition ≡ tag_alone (option_map (λ t. t.now) tag.entry)) }
{
    match tag {
        None => Ok(Condition::Always),
        Some(tag) => {
            let mut tags = Vec::new(alloc);
            tags.push(tag.clone()?)?;
            Ok(Condition::Tags(TagList::from_vec(tags)))
        }
    }
}
