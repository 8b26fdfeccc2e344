//! Filters as trees of tests.
ghost use Rattle.std.specs.Prelude.{◌≡◌, ◌≤◌, IfOk, length, string_bytes};
ghost use Rattle.scim_key.specs.Outcome.{Gives};
ghost use Rattle.scim_filter.specs.Expressions.{Expression, Only, Both, Either, Negated, expression_of};

use crate::matching::satisfies;
use crate::reader::read_filter;
use crate::single::test_key;
use crate::terms::{FilterText, Test, TextAttribute, TextOperator};
use crate::texts::write_filter;
use crate::tokens::tokens_of;
use scim_key::{GroupName, RecordName, UserName};
use scim_resource::Stored;
use std::alloc::{AllocError, AllocFailed, Global};
use std::marker::Model;
use thiserror::Error;

/// The most bytes that a filter's text may have.
pub const TEXT_LIMIT: usize = 2_048;

/// The initial capacity of a filter's text, in bytes; a filter of one name has fewer.
const TEXT_ROOM: usize = 256;

/// Why a text isn't a filter.
#[derive(Clone, Copy, Debug, Error)]
pub enum FilterFault {
    #[error("P3")]
    Unsupported,
    #[error("memory")]
    Memory,
}

impl From<AllocError> for FilterFault {
    ghost use Rattle.scim_filter.specs.declared.filters.FilterFault.TheVariants.{Memory};

    ghost from_gives = { λ _ fault. fault ≡ Memory };

    fn from(_: AllocError) -> FilterFault {
        FilterFault::Memory
    }
}

impl<T: Drop> From<AllocFailed<T>> for FilterFault {
    ghost use Rattle.scim_filter.specs.declared.filters.FilterFault.TheVariants.{Memory};

    ghost from_gives = { λ _ fault. fault ≡ Memory };

    fn from(_: AllocFailed<T>) -> FilterFault {
        FilterFault::Memory
    }
}

/// The tree of a filter.
#[derive(Drop)]
pub(crate) enum Node {
    Test(Test),
    And(Box<Node>, Box<Node>),
    Or(Box<Node>, Box<Node>),
    Not(Box<Node>),
}

/// A filter: tests of attributes, joined by `and`, `or` and `not`.
#[derive(Drop)]
pub struct Filter {
    root: Node,
}

impl Model for Filter {
    ghost use Rattle.scim_filter.specs.Expressions.{Expression, expression_of};
    ghost use Rattle.scim_filter.specs.Codes.{expression_code};

    ghost Value = { Expression };

    ghost coded = { expression_code };

    ghost view = { λ f. expression_of f.root };
}

impl Filter {
    ghost use Rattle.scim_filter.specs.Grammar.{Spells, text_limit, depth_limit};
    ghost use Rattle.scim_filter.specs.Texts.{filter_text, nesting};
    ghost use Rattle.scim_filter.specs.Names.{name_filter, single_key};
    ghost use Rattle.scim_filter.specs.Matching as meaning;
    ghost use Rattle.scim_filter.specs.declared.terms.TextAttribute.TheVariants as tests;

    /// Reads a filter (RFC 7644 section 3.4.2.2). The fault is `Unsupported` if the text spells none, has
    /// more than `TEXT_LIMIT` bytes, or nests parentheses deeper than `DEPTH_LIMIT`.
    pub fn read(alloc: Global, text: &str) -> Result<Filter, FilterFault>
        ensures found { IfOk result (λ f. Spells text.now f) }
        ensures only { (f : Expression) → Spells text.now f
            → Gives FilterFault.Memory result (Ok f) }
    {
        if text.len() > TEXT_LIMIT {
            return Err(FilterFault::Unsupported);
        }
        let tokens = tokens_of(alloc, text)?;
        read_filter(alloc, &tokens)
    }

    /// The filter `userName eq` with this name.
    pub fn eq_user_name(alloc: Global, name: &UserName) -> Result<Filter, AllocError>
        ensures { IfOk result (λ f. f ≡ name_filter tests.UserName name.now) }
    {
        let text = FilterText::from_string(String::from_str(alloc, name.as_str())?);
        Ok(Filter::of_test(Test::Text(TextAttribute::UserName, TextOperator::Equal, text)))
    }

    /// The filter `displayName eq` with this name.
    pub fn eq_display_name(alloc: Global, name: &GroupName) -> Result<Filter, AllocError>
        ensures { IfOk result (λ f. f ≡ name_filter tests.DisplayName name.now) }
    {
        let text = FilterText::from_string(String::from_str(alloc, name.as_str())?);
        Ok(Filter::of_test(Test::Text(TextAttribute::DisplayName, TextOperator::Equal, text)))
    }

    /// The filter's text: one space where more are allowed, words in lower case, and only the parentheses
    /// that the filter's meaning needs.
    pub fn to_text(&self, alloc: Global) -> Result<String, AllocError>
        ensures text { IfOk result (λ s. string_bytes s ≡ filter_text self.now) }
        // If the text is within both limits, it spells the filter.
        ensures spells { IfOk result (λ s. length (string_bytes s) ≤ text_limit
            → nesting self.now ≤ depth_limit → Spells (string_bytes s) self.now) }
    {
        let mut out = String::with_capacity(alloc, TEXT_ROOM)?;
        write_filter(alloc, &mut out, &self.root)?;
        Ok(out)
    }

    /// Whether a row of the provider satisfies the filter (RFC 7644 section 3.4.2.2). An attribute that the
    /// type of resource lacks is absent. It allocates nothing.
    pub fn matches(&self, row: &Stored) -> bool
        ensures { result ≡ meaning.satisfies self.now row.now }
    {
        satisfies(&self.root, row)
    }

    /// The record that the filter names, if its only test is `userName eq` or `displayName eq` with a valid
    /// name.
    pub fn single_key(&self, alloc: Global) -> Result<Option<RecordName>, AllocError>
        ensures { IfOk result (λ name. name ≡ single_key self.now) }
    {
        match &self.root {
            Node::Test(test) => test_key(alloc, test),
            _ => Ok(None),
        }
    }

    /// The filter with this one test.
    pub(crate) fn of_test(test: Test) -> Filter
        ensures { result ≡ Only test }
    {
        Filter {
            root: Node::Test(test),
        }
    }

    /// The filter that holds if both of these hold.
    pub(crate) fn both(alloc: Global, left: Filter, right: Filter) -> Result<Filter, AllocError>
        ensures { IfOk result (λ f. f ≡ Both left right) }
    {
        let Filter { root: left } = left;
        let Filter { root: right } = right;
        let left = Box::new(alloc, left)?;
        let right = Box::new(alloc, right)?;
        Ok(Filter {
            root: Node::And(left, right),
        })
    }

    /// The filter that holds if at least one of these holds.
    pub(crate) fn either(alloc: Global, left: Filter, right: Filter) -> Result<Filter, AllocError>
        ensures { IfOk result (λ f. f ≡ Either left right) }
    {
        let Filter { root: left } = left;
        let Filter { root: right } = right;
        let left = Box::new(alloc, left)?;
        let right = Box::new(alloc, right)?;
        Ok(Filter {
            root: Node::Or(left, right),
        })
    }

    /// The filter that holds if this one doesn't.
    pub(crate) fn negated(alloc: Global, inner: Filter) -> Result<Filter, AllocError>
        ensures { IfOk result (λ f. f ≡ Negated inner) }
    {
        let Filter { root: inner } = inner;
        let inner = Box::new(alloc, inner)?;
        Ok(Filter {
            root: Node::Not(inner),
        })
    }
}

/// A copy of a tree.
fn copy_of(node: &Node) -> Result<Node, AllocError>
    ensures { IfOk result (λ copy. expression_of copy ≡ expression_of node.now) }
{
    match node {
        Node::Test(test) => Ok(Node::Test(test.clone()?)),
        Node::And(left, right) => {
            let alloc = *Box::allocator(left);
            let left = copy_of(left)?;
            let right = copy_of(right)?;
            let left = Box::new(alloc, left)?;
            let right = Box::new(alloc, right)?;
            Ok(Node::And(left, right))
        }
        Node::Or(left, right) => {
            let alloc = *Box::allocator(left);
            let left = copy_of(left)?;
            let right = copy_of(right)?;
            let left = Box::new(alloc, left)?;
            let right = Box::new(alloc, right)?;
            Ok(Node::Or(left, right))
        }
        Node::Not(inner) => {
            let alloc = *Box::allocator(inner);
            let inner = copy_of(inner)?;
            let inner = Box::new(alloc, inner)?;
            Ok(Node::Not(inner))
        }
    }
}

impl Clone for Filter {
    ghost is_clone = { λ a b. b ≡ a };

    fn clone(&self) -> Result<Filter, AllocError> {
        Ok(Filter {
            root: copy_of(&self.root)?,
        })
    }
}
