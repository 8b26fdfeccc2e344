//! Writes a filter as text.
ghost use Rattle.std.specs.Prelude.{◌≡◌, ◌++◌, OnOk, List, ℕ, string_bytes, codes};
ghost use Rattle.json.specs.Print.{quoted};
ghost use Rattle.scim_filter.specs.Expressions.{expression_of};
ghost use Rattle.scim_filter.specs.Texts.{text_attribute_name, flag_attribute_name, attribute_name, operator_name, truth_name, test_text, is_either, is_joined, in_parentheses_if, filter_text};
ghost use Rattle.scim_filter.specs.Grammar.{as_text};

use crate::filters::Node;
use crate::terms::{Attribute, FlagAttribute, FlagOperator, Test, TextAttribute, TextOperator};
use json::Writer;
use std::alloc::{AllocError, Global};
use std::mem;

fn text_attribute_name(attribute: TextAttribute) -> &'static str
    ensures { result.now ≡ text_attribute_name attribute }
{
    match attribute {
        TextAttribute::UserName => "userName",
        TextAttribute::DisplayName => "displayName",
        TextAttribute::GivenName => "name.givenName",
        TextAttribute::FamilyName => "name.familyName",
        TextAttribute::EmailValue => "emails",
        TextAttribute::EmailType => "emails.type",
        TextAttribute::Member => "members",
        TextAttribute::Id => "id",
        TextAttribute::ExternalId => "externalId",
        TextAttribute::Version => "meta.version",
    }
}

fn flag_attribute_name(attribute: FlagAttribute) -> &'static str
    ensures { result.now ≡ flag_attribute_name attribute }
{
    match attribute {
        FlagAttribute::Active => "active",
        FlagAttribute::EmailPrimary => "emails.primary",
    }
}

fn attribute_name(attribute: Attribute) -> &'static str
    ensures { result.now ≡ attribute_name attribute }
{
    match attribute {
        Attribute::OfText(attribute) => text_attribute_name(attribute),
        Attribute::OfFlag(attribute) => flag_attribute_name(attribute),
    }
}

fn operator_name(operator: TextOperator) -> &'static str
    ensures { result.now ≡ operator_name operator }
{
    match operator {
        TextOperator::Equal => "eq",
        TextOperator::NotEqual => "ne",
        TextOperator::Contains => "co",
        TextOperator::StartsWith => "sw",
        TextOperator::EndsWith => "ew",
    }
}

fn flag_operator_name(operator: FlagOperator) -> &'static str
    ensures { result.now ≡ operator_name (as_text operator) }
{
    match operator {
        FlagOperator::Is => "eq",
        FlagOperator::IsNot => "ne",
    }
}

fn truth_name(value: bool) -> &'static str
    ensures { result.now ≡ truth_name value }
{
    if value { "true" } else { "false" }
}

/// Appends a text as a JSON string. Out of memory leaves nothing in `out`.
fn write_quoted(alloc: Global, out: &mut String, text: &str) -> Result<(), AllocError>
    ensures { OnOk result (string_bytes out.new ≡ string_bytes out.old ++ quoted text.now) }
{
    let written = mem::replace(out, String::new(alloc));
    let mut writer = Writer::new(written.into_bytes());
    writer.string(text)?;
    *out = String::from_utf8(writer.into_inner()).unwrap();
    Ok(())
}

fn write_test(alloc: Global, out: &mut String, test: &Test) -> Result<(), AllocError>
    ensures { OnOk result (string_bytes out.new ≡ string_bytes out.old ++ test_text test.now) }
{
    match test {
        Test::Present(attribute) => {
            out.push_str(attribute_name(*attribute))?;
            out.push_str(" pr")
        }
        Test::Text(attribute, operator, text) => {
            out.push_str(text_attribute_name(*attribute))?;
            out.push_str(" ")?;
            out.push_str(operator_name(*operator))?;
            out.push_str(" ")?;
            write_quoted(alloc, out, text.as_str())
        }
        Test::Flag(attribute, operator, value) => {
            out.push_str(flag_attribute_name(*attribute))?;
            out.push_str(" ")?;
            out.push_str(flag_operator_name(*operator))?;
            out.push_str(" ")?;
            out.push_str(truth_name(*value))
        }
    }
}

fn is_either(node: &Node) -> bool
    ensures { result ≡ is_either (expression_of node.now) }
{
    match node {
        Node::Or(_, _) => true,
        _ => false,
    }
}

fn is_joined(node: &Node) -> bool
    ensures { result ≡ is_joined (expression_of node.now) }
{
    match node {
        Node::And(_, _) | Node::Or(_, _) => true,
        _ => false,
    }
}

/// Appends the text of a filter.
pub(crate) fn write_filter(alloc: Global, out: &mut String, node: &Node) -> Result<(), AllocError>
    ensures { OnOk result (string_bytes out.new ≡ string_bytes out.old
        ++ filter_text (expression_of node.now)) }
{
    match node {
        Node::Test(test) => write_test(alloc, out, test),
        Node::And(left, right) => {
            if is_either(left) {
                out.push_str("(")?;
                write_filter(alloc, out, left)?;
                out.push_str(")")?;
            } else {
                write_filter(alloc, out, left)?;
            }
            out.push_str(" and ")?;
            if is_joined(right) {
                out.push_str("(")?;
                write_filter(alloc, out, right)?;
                out.push_str(")")
            } else {
                write_filter(alloc, out, right)
            }
        }
        Node::Or(left, right) => {
            write_filter(alloc, out, left)?;
            out.push_str(" or ")?;
            if is_either(right) {
                out.push_str("(")?;
                write_filter(alloc, out, right)?;
                out.push_str(")")
            } else {
                write_filter(alloc, out, right)
            }
        }
        Node::Not(inner) => {
            out.push_str("not (")?;
            write_filter(alloc, out, inner)?;
            out.push_str(")")
        }
    }
}
