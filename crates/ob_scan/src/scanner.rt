//! The tokens of a text.

ghost use Rattle.std.specs.Prelude.{◌≡◌, ◌≤◌, ◌<◌, ◌^◌, ◌-◌, ◌↔◌, ℕ, List, Some, length, IfOk, IfSome};
ghost use Rattle.ob_scan.specs.declared.token.Token.{Token};
ghost use Rattle.ob_scan.specs.Exactly.{Exactly};
ghost use Rattle.ob_scan.specs.Places.{Fits};
ghost use Rattle.ob_scan.specs.Scanning.{StepExactly, AnswersTokens, FaultsOnly};
ghost use Rattle.ob_scan.specs.Tokens.{Stands, Tokens};
ghost use Rattle.ob_scan.specs.TokensOf.{tokens_of};

use crate::class::{Class, class_at};
use crate::found::{Found, Step};
use crate::gap::{after_gap, begins};
use crate::number::number;
use crate::place::{Place, passed, span_between};
use crate::sign::sign;
use crate::string::string;
use crate::token::Token;
use crate::word::{refused, word};
use ob_base::{Code, Items, Refused};
use std::alloc::Global;

/// The token at the front of a text, told by its first character.
fn token<'a>(alloc: Global, place: Place, text: &'a [u8]) -> Result<Found<'a>, Refused>
    ensures { Exactly (Stands text.now) result }
{
    match class_at(text) {
        Some(Class::Letter) => word(alloc, place, text),
        Some(Class::Digit) => number(alloc, place, text),
        Some(Class::Quote) => string(alloc, place, text),
        Some(Class::Other) => sign(place, text),
        None => Err(refused(Code::Character, place)),
    }
}

/// The next token, if one is left.
fn next_token<'a>(alloc: Global, place: Place, text: &'a [u8]) -> Result<Option<Step<'a>>, Refused>
    requires { Fits place (length text.now) }
    ensures exact { StepExactly place text.now result }
    ensures fits { IfOk result (λ found. IfSome found (λ step. Fits step.place (length step.rest.now))) }
    ensures shorter { IfOk result (λ found. IfSome found (λ step. length step.rest.now < length text.now)) }
{
    let middle = after_gap(text);
    let from = passed(place, text, middle);
    if middle.is_empty() {
        return Ok(None);
    }
    if begins(middle, b'(', b'*') {
        return Err(refused(Code::Comment, from));
    }
    let found = token(alloc, from, middle)?;
    let Found { kind, rest } = found;
    let to = passed(from, middle, rest);
    let span = span_between(from, to);
    Ok(Some(Step {
        token: Token { kind, span },
        place: to,
        rest,
    }))
}

/// The tokens of a text, each with its span. There is no room for those of 2^32 bytes.
pub fn scan(alloc: Global, text: &str) -> Result<Items<Token>, Refused>
    ensures found { IfOk result (λ tokens. Tokens text.now tokens) }
    ensures only { (tokens : List Token) → Tokens text.now tokens → AnswersTokens tokens result }
    ensures faults { FaultsOnly text.now result }
{
    if text.len() >= u32::MAX as usize {
        return Err(Refused::Memory);
    }
    let mut place = Place::start();
    let mut rest = text.as_bytes();
    let mut tokens = Items::new(alloc);
    while let Some(step) = next_token(alloc, place, rest)? {
        let Step {
            token,
            place: behind,
            rest: after,
        } = step;
        tokens.push(token)?;
        place = behind;
        rest = after;
    }
    Ok(tokens)
}

/// A text has at most one list of tokens, whether there is memory for it or not.
pub fn one_list_law()
    ensures { (text : List ℕ) (one other : List Token) → Tokens text one → Tokens text other → one ≡ other }
{}

/// The function `tokens_of` finds a list exactly where it is the list of tokens of the text.
pub fn token_function_law()
    ensures { (text : List ℕ) (tokens : List Token) → (tokens_of text ≡ Some tokens) ↔ Tokens text tokens }
{}
