//! Reads a filter from its tokens, by recursive descent.
ghost use Rattle.std.specs.Prelude.{◌≡◌, ◌<◌, ◌≤◌, IfOk, IfSome, length, option_map};
ghost use Rattle.scim_key.specs.Outcome.{Gives, GivesBy};
ghost use Rattle.scim_filter.specs.Expressions.{Only};
ghost use Rattle.scim_filter.specs.Lexing.{or_unsupported};
ghost use Rattle.scim_filter.specs.Parsing.{after_gap, flag_operator, condition, item_by, join, after_connective, operand, chain, group, read_filter};

use crate::filters::{Filter, FilterFault};
use crate::terms::{Attribute, FlagOperator, Test, TextOperator};
use crate::tokens::Token;
use crate::words::Word;
use std::alloc::{AllocError, Global};

/// How deep the parentheses of a filter may be nested.
pub const DEPTH_LIMIT: usize = 32;

/// What joins two filters. `and` binds tighter than `or`.
#[derive(Clone, Copy)]
pub(crate) enum Connective {
    And,
    Or,
}

/// The tokens, without a gap at their front.
#[tactic(auto, unfolding(crate::specs::Parsing::after_gap))]
fn after_gap(tokens: &[Token]) -> &[Token]
    ensures value { result.now ≡ after_gap tokens.now }
    ensures within { length result.now ≤ length tokens.now }
{
    match tokens {
        [Token::Gap, rest @ ..] => rest,
        _ => tokens,
    }
}

fn flag_operator(operator: TextOperator) -> Option<FlagOperator>
    ensures { result ≡ flag_operator operator }
{
    match operator {
        TextOperator::Equal => Some(FlagOperator::Is),
        TextOperator::NotEqual => Some(FlagOperator::IsNot),
        _ => None,
    }
}

/// What follows the name of an attribute and a gap.
#[tactic(auto, unfolding(crate::specs::Parsing::condition))]
fn condition(attribute: Attribute, tokens: &[Token]) -> Result<(Test, &[Token]), FilterFault>
    ensures value { GivesBy (λ x. (Only x.0, x.1.now)) FilterFault.Memory result
        (or_unsupported (condition attribute tokens.now)) }
    ensures shorter { IfOk result (λ x. length x.1.now < length tokens.now) }
{
    match (attribute, tokens) {
        (_, [Token::Plain(Word::Present), rest @ ..]) => Ok((Test::Present(attribute), rest)),
        (
            Attribute::OfText(attribute),
            [
                Token::Plain(Word::Compare(operator)),
                Token::Gap,
                Token::Quoted(text),
                rest @ ..,
            ],
        ) => Ok((Test::Text(attribute, *operator, text.clone()?), rest)),
        (
            Attribute::OfFlag(attribute),
            [
                Token::Plain(Word::Compare(operator)),
                Token::Gap,
                Token::Plain(Word::Truth(value)),
                rest @ ..,
            ],
        ) => match flag_operator(*operator) {
            Some(operator) => Ok((Test::Flag(attribute, operator, *value), rest)),
            None => Err(FilterFault::Unsupported),
        },
        _ => Err(FilterFault::Unsupported),
    }
}

/// What follows the connective between two gaps.
#[tactic(auto, unfolding(crate::specs::Parsing::after_connective))]
fn after_connective(connective: Connective, tokens: &[Token]) -> Option<&[Token]>
    ensures value { option_map (λ x. x.now) result ≡ after_connective connective tokens.now }
    ensures shorter { IfSome result (λ x. length x.now < length tokens.now) }
{
    match (connective, tokens) {
        (Connective::And, [Token::Gap, Token::Plain(Word::And), Token::Gap, rest @ ..]) => {
            Some(rest)
        }
        (Connective::Or, [Token::Gap, Token::Plain(Word::Or), Token::Gap, rest @ ..]) => Some(rest),
        _ => None,
    }
}

fn join(
    alloc: Global,
    connective: Connective,
    left: Filter,
    right: Filter,
) -> Result<Filter, AllocError>
    ensures { IfOk result (λ f. f ≡ join connective left right) }
{
    match connective {
        Connective::And => Filter::both(alloc, left, right),
        Connective::Or => Filter::either(alloc, left, right),
    }
}

/// What follows an open parenthesis, with the one that closes. `depth` says how deep parentheses may still be
/// nested, before this one.
#[cycle(reading)]
#[tactic(auto, unfolding(crate::specs::Parsing::group, crate::specs::Parsing::closed))]
fn group(alloc: Global, tokens: &[Token], depth: usize) -> Result<(Filter, &[Token]), FilterFault>
    ensures value { GivesBy (λ x. (x.0, x.1.now)) FilterFault.Memory result
        (or_unsupported (group depth tokens.now)) }
    ensures shorter { IfOk result (λ x. length x.1.now < length tokens.now) }
{
    if depth == 0 {
        return Err(FilterFault::Unsupported);
    }
    let (filter, rest) = chain(alloc, Connective::Or, after_gap(tokens), depth - 1)?;
    match after_gap(rest) {
        [Token::Close, rest @ ..] => Ok((filter, rest)),
        _ => Err(FilterFault::Unsupported),
    }
}

/// A test, a filter in parentheses, or the negation of one.
#[cycle(reading)]
#[tactic(auto, unfolding(crate::specs::Parsing::item_by, crate::specs::Parsing::negation))]
fn item(alloc: Global, tokens: &[Token], depth: usize) -> Result<(Filter, &[Token]), FilterFault>
    ensures value { GivesBy (λ x. (x.0, x.1.now)) FilterFault.Memory result
        (or_unsupported (item_by (group depth) tokens.now)) }
    ensures shorter { IfOk result (λ x. length x.1.now < length tokens.now) }
{
    match tokens {
        [Token::Open, rest @ ..] => group(alloc, rest, depth),
        [Token::Plain(Word::Not), rest @ ..] => match after_gap(rest) {
            [Token::Open, rest @ ..] => {
                let (inner, rest) = group(alloc, rest, depth)?;
                Ok((Filter::negated(alloc, inner)?, rest))
            }
            _ => Err(FilterFault::Unsupported),
        },
        [Token::Plain(Word::Name(attribute)), Token::Gap, rest @ ..] => {
            let (test, rest) = condition(*attribute, rest)?;
            Ok((Filter::of_test(test), rest))
        }
        _ => Err(FilterFault::Unsupported),
    }
}

/// An operand of the connective: `or` joins filters that `and` joins, and `and` joins items.
#[cycle(reading)]
fn operand(
    alloc: Global,
    connective: Connective,
    tokens: &[Token],
    depth: usize,
) -> Result<(Filter, &[Token]), FilterFault>
    ensures value { GivesBy (λ x. (x.0, x.1.now)) FilterFault.Memory result
        (or_unsupported (operand connective depth tokens.now)) }
    ensures shorter { IfOk result (λ x. length x.1.now < length tokens.now) }
{
    match connective {
        Connective::And => item(alloc, tokens, depth),
        Connective::Or => chain(alloc, Connective::And, tokens, depth),
    }
}

/// Operands of the connective, grouped to the left.
#[cycle(reading)]
fn chain(
    alloc: Global,
    connective: Connective,
    tokens: &[Token],
    depth: usize,
) -> Result<(Filter, &[Token]), FilterFault>
    ensures value { GivesBy (λ x. (x.0, x.1.now)) FilterFault.Memory result
        (or_unsupported (chain connective (operand connective depth) tokens.now)) }
    ensures shorter { IfOk result (λ x. length x.1.now < length tokens.now) }
{
    let (mut left, mut rest) = operand(alloc, connective, tokens, depth)?;
    while let Some(more) = after_connective(connective, rest) {
        let (right, after) = operand(alloc, connective, more, depth)?;
        left = join(alloc, connective, left, right)?;
        rest = after;
    }
    Ok((left, rest))
}

/// The filter that all tokens spell.
pub(crate) fn read_filter(alloc: Global, tokens: &[Token]) -> Result<Filter, FilterFault>
    ensures { Gives FilterFault.Memory result (or_unsupported (read_filter tokens.now)) }
{
    let (filter, rest) = chain(alloc, Connective::Or, after_gap(tokens), DEPTH_LIMIT)?;
    match after_gap(rest) {
        [] => Ok(filter),
        _ => Err(FilterFault::Unsupported),
    }
}
