//! Refusals, and their error messages (RFC 7644 section 3.12).
ghost use Rattle.std.specs.Prelude.{◌≡◌, IfOk, string_bytes};
ghost use Rattle.std.specs.Option.{option_map};
ghost use Rattle.scim_message.specs.Refusals.{refusal_status, refusal_type, refusal_detail, error_of, bare_error, IsErrorStatus};

use std::alloc::{AllocError, Global};
use std::marker::Model;
use thiserror::Error;

/// Why a request is refused, each reason with its code.
#[derive(Clone, Copy, Debug, Error)]
pub enum Refusal {
    #[error("P1")]
    UnreadableBody,
    #[error("P2")]
    ValueNotAllowed,
    #[error("P3")]
    FilterNotSupported,
    #[error("P4")]
    NameFixed,
    #[error("P5")]
    NoSuchResource,
    #[error("P6")]
    NameTaken,
    #[error("P7")]
    OtherVersion,
    #[error("P8")]
    MethodNotSupported,
    #[error("P9")]
    LimitReached,
    #[error("H1")]
    Malformed,
    #[error("H2")]
    Host,
    #[error("H3")]
    LengthMissing,
    #[error("H4")]
    BodyTooLong,
    #[error("H5")]
    HeadTooLong,
    #[error("H6")]
    TransferCoding,
    #[error("H7")]
    Expectation,
    #[error("H8")]
    MediaType,
    #[error("H9")]
    NoSuchPath,
}

impl Refusal {
    /// The status code of the answer.
    pub fn status(self) -> u16
        ensures code { result ≡ refusal_status self }
        ensures lawful { IsErrorStatus result }
    {
        match self {
            Refusal::UnreadableBody | Refusal::ValueNotAllowed | Refusal::FilterNotSupported => 400,
            Refusal::NameFixed | Refusal::Malformed | Refusal::Host => 400,
            Refusal::NoSuchResource | Refusal::NoSuchPath => 404,
            Refusal::NameTaken => 409,
            Refusal::LengthMissing => 411,
            Refusal::OtherVersion => 412,
            Refusal::BodyTooLong => 413,
            Refusal::MediaType => 415,
            Refusal::Expectation => 417,
            Refusal::HeadTooLong => 431,
            Refusal::LimitReached => 500,
            Refusal::MethodNotSupported | Refusal::TransferCoding => 501,
        }
    }

    /// Its `scimType`, if the standard has one for it.
    pub fn scim_type(self) -> Option<&'static str>
        ensures { option_map (λ text. text.now) result ≡ refusal_type self }
    {
        match self {
            Refusal::UnreadableBody => Some("invalidSyntax"),
            Refusal::ValueNotAllowed => Some("invalidValue"),
            Refusal::FilterNotSupported => Some("invalidFilter"),
            Refusal::NameFixed => Some("mutability"),
            Refusal::NameTaken => Some("uniqueness"),
            _ => None,
        }
    }

    /// The explanation for a human reader.
    pub fn detail(self) -> &'static str
        ensures { result.now ≡ refusal_detail self }
    {
        match self {
            Refusal::UnreadableBody => "the body is not a readable resource",
            Refusal::ValueNotAllowed => "a value is missing or not allowed",
            Refusal::FilterNotSupported => "the filter is not supported",
            Refusal::NameFixed => "the name of a resource is fixed",
            Refusal::NoSuchResource => "no such resource",
            Refusal::NameTaken => "the name is taken",
            Refusal::OtherVersion => "the resource has another version",
            Refusal::MethodNotSupported => "the method is not supported",
            Refusal::LimitReached => "a limit of the provider is reached",
            Refusal::Malformed => "the request is malformed",
            Refusal::Host => "the Host field is missing or repeated",
            Refusal::LengthMissing => "the length of the body is missing",
            Refusal::BodyTooLong => "the body is too long",
            Refusal::HeadTooLong => "the head is too long",
            Refusal::TransferCoding => "transfer codings are not supported",
            Refusal::Expectation => "expectations are not supported",
            Refusal::MediaType => "the media type is not supported",
            Refusal::NoSuchPath => "no such path",
        }
    }
}

/// An error message: a status code from 400 to 599, and a `scimType` and a detail if it has them.
pub struct ErrorResponse {
    status: u16,
    scim_type: Option<String>,
    detail: Option<String>,
}

impl Model for ErrorResponse {
    ghost use Rattle.std.specs.Prelude.{string_bytes};
    ghost use Rattle.std.specs.Option.{option_map};
    ghost use Rattle.scim_message.specs.Refusals.{ErrorRecord, IsErrorStatus};

    ghost Value = { ErrorRecord };

    ghost view = { λ e. record {
      status = e.status;
      scim_type = option_map string_bytes e.scim_type;
      detail = option_map string_bytes e.detail;
    } };

    ghost invariant = { λ e. IsErrorStatus e.status };
}

/// Dropping an error message is one call, and not a step for each field: each step would lengthen every
/// proof that goes through it.
impl Drop for ErrorResponse {
    fn drop(self) {
        let ErrorResponse {
            status: _,
            scim_type: _,
            detail: _,
        } = self;
    }
}

fn owned(alloc: Global, text: Option<&str>) -> Result<Option<String>, AllocError>
    ensures { IfOk result (λ owned. option_map string_bytes owned
        ≡ option_map (λ t. t.now) text.entry) }
{
    match text {
        Some(text) => Ok(Some(String::from_str(alloc, text)?)),
        None => Ok(None),
    }
}

impl ErrorResponse {
    /// The error message for a refusal.
    pub fn of(alloc: Global, refusal: Refusal) -> Result<ErrorResponse, AllocError>
        ensures { IfOk result (λ error. error ≡ error_of refusal) }
    {
        Ok(ErrorResponse {
            status: refusal.status(),
            scim_type: owned(alloc, refusal.scim_type())?,
            detail: owned(alloc, Some(refusal.detail()))?,
        })
    }

    /// The message with only this status.
    pub fn bare(status: u16) -> ErrorResponse
        requires { IsErrorStatus status }
        ensures { result ≡ bare_error status }
    {
        ErrorResponse {
            status,
            scim_type: None,
            detail: None,
        }
    }

    /// The message with this status and these texts.
    pub(crate) fn with_texts(
        alloc: Global,
        status: u16,
        scim_type: Option<&str>,
        detail: Option<&str>,
    ) -> Result<ErrorResponse, AllocError>
        requires { IsErrorStatus status }
        ensures { IfOk result (λ error. error ≡ record {
          status = status;
          scim_type = option_map (λ text. text.now) scim_type.entry;
          detail = option_map (λ text. text.now) detail.entry;
        }) }
    {
        Ok(ErrorResponse {
            status,
            scim_type: owned(alloc, scim_type)?,
            detail: owned(alloc, detail)?,
        })
    }

    pub fn status(&self) -> u16
        ensures code { result ≡ self.now.status }
        ensures lawful { IsErrorStatus result }
    {
        self.status
    }

    /// Its `scimType`, if it has one.
    pub fn scim_type(&self) -> Option<&str>
        ensures { option_map (λ text. text.now) result ≡ self.now.scim_type }
    {
        self.scim_type.as_deref()
    }

    /// The explanation for a human reader, if it has one.
    pub fn detail(&self) -> Option<&str>
        ensures { option_map (λ text. text.now) result ≡ self.now.detail }
    {
        self.detail.as_deref()
    }
}
