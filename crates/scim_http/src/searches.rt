//! What GET on a collection asks for (RFC 7644 section 3.4.2).
ghost use Rattle.std.specs.Prelude.{codes};
ghost use Rattle.scim_http.specs.Meaning.{Tells, TellsOf};
ghost use Rattle.scim_http.specs.Numbers.{number_in};
ghost use Rattle.scim_http.specs.Queries.{parameter};
ghost use Rattle.scim_http.specs.Searches as spec;

use crate::numbers::number_in;
use crate::queries::parameter;
use crate::requests::MeaningFault;
use scim_filter::{Filter, FilterFault};
use scim_key::Kind;
use scim_message::{Refusal, Request};
use std::alloc::Global;

/// What a query asks of the resources of a type. The numbers are checked before the filter.
pub(crate) fn search(alloc: Global, kind: Kind, query: &[u8]) -> Result<Request, MeaningFault>
    ensures { TellsOf (spec.IsSearch kind query.now) result }
{
    let (start, count) = page_of(alloc, query)?;
    let filter = filter_of(alloc, query)?;
    Ok(Request::Search {
        kind,
        filter,
        start,
        count,
    })
}

/// Where the page starts, and the most resources on it.
fn page_of(alloc: Global, query: &[u8]) -> Result<(i64, Option<i64>), MeaningFault>
    ensures { Tells result (spec.page_of query.now) }
{
    let start = start_of(alloc, query)?;
    let count = count_of(alloc, query)?;
    Ok((start, count))
}

fn start_of(alloc: Global, query: &[u8]) -> Result<i64, MeaningFault>
    ensures { Tells result (spec.start_of query.now) }
{
    match parameter(alloc, "startIndex", query)? {
        Some(text) => read_number(&text),
        None => Ok(1),
    }
}

fn count_of(alloc: Global, query: &[u8]) -> Result<Option<i64>, MeaningFault>
    ensures { Tells result (spec.count_of query.now) }
{
    match parameter(alloc, "count", query)? {
        Some(text) => Ok(Some(read_number(&text)?)),
        None => Ok(None),
    }
}

fn read_number(text: &str) -> Result<i64, MeaningFault>
    ensures { Tells result (spec.number_read (number_in text.now)) }
{
    match number_in(text) {
        Some(number) => Ok(number),
        None => Err(MeaningFault::Refused(Refusal::ValueNotAllowed)),
    }
}

fn filter_of(alloc: Global, query: &[u8]) -> Result<Option<Filter>, MeaningFault>
    ensures { TellsOf (spec.IsFilter (parameter (codes "filter") query.now)) result }
{
    match parameter(alloc, "filter", query)? {
        Some(text) => Ok(Some(read_filter(alloc, &text)?)),
        None => Ok(None),
    }
}

fn read_filter(alloc: Global, text: &str) -> Result<Filter, MeaningFault>
    ensures { TellsOf (spec.IsRead text.now) result }
{
    match Filter::read(alloc, text) {
        Ok(filter) => Ok(filter),
        Err(FilterFault::Unsupported) => Err(MeaningFault::Refused(Refusal::FilterNotSupported)),
        Err(FilterFault::Memory) => Err(MeaningFault::OutOfMemory),
    }
}
