// Text taken for the terms that are written in it, in the order in which they stand there (RULES 12.1 and 12.2). It goes over the text once,
// variable by variable, and stops at the first byte that shows that the text is refused.
#![tactic(auto)]

ghost use Rattle.std.specs.Prelude.{◌≡◌, [], ◌≤◌, length, get_or, MatchResult};
ghost use Rattle.answer.specs.Table.{numbers_of, refusal_of};
ghost use Rattle.typed.specs.Form.{digit};
ghost use Rattle.typed.specs.Machine.{start, named, one};
ghost use Rattle.scan.specs.Told.{digit_in, ends_name, ends_term, begins_term, Numbered, Named, Always, Another, Told, Full, Finished, Scanned};

use answer::{Outcome, Refusal};
use terms::TermList;

// What was read, a variable's number or a term, and where it ends.
#[derive(Clone, Copy)]
struct Found {
    value: u64,
    end: usize,
}

// The byte that stands at a place; behind the end 0, which stands in no equation.
fn byte_at(text: &[u8], at: usize) -> u8
    ensures { result ≡ get_or text.now at 0 }
{
    text.get(at).copied().unwrap_or(0)
}

// The refusal of a sign that does not belong at its place.
fn sign(place: usize) -> Refusal
    ensures { result ≡ Refusal.Sign place }
{
    Refusal::Sign {
        place: place as u64,
    }
}

// The digit that stands at a place, if one does.
fn digit_at(text: &[u8], at: usize) -> Option<u64>
    ensures { result ≡ digit_in (get_or text.now at 0) }
{
    match byte_at(text, at) {
        byte @ b'0'..=b'9' => Some(u64::from(byte - b'0')),
        _ => None,
    }
}

// The number of the variable whose digits begin at a place, one digit or two. Where there is none, the byte that shows it is refused.
fn number(text: &[u8], at: usize) -> Result<Found, Refusal>
    requires { at ≤ length text.now }
    ensures { Numbered TermList.MAX_VARS text.now at result }
{
    let Some(first) = digit_at(text, at) else {
        return Err(sign(at));
    };
    let short = Found {
        value: first,
        end: at + 1,
    };
    let alone = first == 0;
    if alone {
        return Ok(short);
    }
    let Some(next) = digit_at(text, at + 1) else {
        return Ok(short);
    };
    let value = 10 * first + next;
    if (TermList::MAX_VARS as u64) <= value {
        return Err(sign(at + 1));
    }
    Ok(Found { value, end: at + 2 })
}

// Whether a byte may stand behind a variable.
fn ends_name(byte: u8) -> bool
    ensures { result ≡ ends_name byte }
{
    matches!(byte, b'*' | b'+' | b'\n')
}

// The same of a variable with the byte behind it, where one stands that may.
fn variable(text: &[u8], at: usize) -> Result<Found, Refusal>
    requires { at ≤ length text.now }
    ensures { Named TermList.MAX_VARS text.now at result }
{
    let found = number(text, at)?;
    if ends_name(byte_at(text, found.end)) {
        Ok(found)
    } else {
        Err(sign(found.end))
    }
}

// The term whose first variable's number begins at a place.
fn product(text: &[u8], from: usize) -> Result<Found, Refusal>
    requires { from ≤ length text.now }
    ensures { Told TermList.MAX_VARS Always (λ ts. named ts []) text.now from result }
{
    let mut term = 0;
    let mut at = from;
    // Where a variable ends shows only when it is read, so no range goes over the variables.
    loop {
        let Found { value, end } = variable(text, at)?;
        let bit = 1 << value;
        if term & bit != 0 {
            return Err(Refusal::Twice { place: end as u64 });
        }
        term |= bit;
        if byte_at(text, end) != b'*' {
            return Ok(Found { value: term, end });
        }
        let next = end + 1;
        if byte_at(text, next) != b'x' {
            return Err(sign(next));
        }
        at = next + 1;
    }
}

// Whether a byte may stand behind a term.
fn ends_term(byte: u8) -> bool
    ensures { result ≡ ends_term byte }
{
    matches!(byte, b'+' | b'\n')
}

// The term `1` that ends at a place.
fn constant(text: &[u8], end: usize) -> Result<Found, Refusal>
    requires { end ≤ length text.now }
    ensures { Told TermList.MAX_VARS Always one text.now end result }
{
    if ends_term(byte_at(text, end)) {
        Ok(Found { value: 0, end })
    } else {
        Err(sign(end))
    }
}

// The term that begins at a place, where there may be another one.
fn term(text: &[u8], at: usize) -> Result<Found, Refusal>
    requires { at ≤ length text.now }
    ensures { Told TermList.MAX_VARS (Another (get_or text.now at 0)) (λ ts. start ts []) text.now at result }
{
    match byte_at(text, at) {
        b'x' => product(text, at + 1),
        b'1' => constant(text, at + 1),
        _ => Err(sign(at)),
    }
}

// Whether a term may begin with a byte.
fn begins_term(byte: u8) -> bool
    ensures { result ≡ begins_term byte }
{
    matches!(byte, b'x' | b'1')
}

// What is refused at the place where a term would begin, if there were room for another one.
fn full(text: &[u8], at: usize) -> Refusal
    requires { at ≤ length text.now }
    ensures { Full TermList.MAX_TERMS TermList.MAX_VARS text.now at (refusal_of result) }
{
    if begins_term(byte_at(text, at)) {
        Refusal::TooMany { operand: 1 }
    } else {
        sign(at)
    }
}

// The place behind the line feed, where so many terms have been read.
fn finish(text: &[u8], at: usize, count: usize) -> Outcome
    requires { at ≤ length text.now }
    ensures { Finished TermList.MAX_TERMS TermList.MAX_VARS text.now at count (numbers_of result) }
{
    if at < text.len() {
        return Err(sign(at));
    }
    Ok(count as u64)
}

// The terms of a text that does not begin with `0`, as they are written.
fn terms(text: &[u8], words: &mut [u64]) -> Outcome
    requires { (TermList.MAX_TERMS ≤ length words.old) × ¬ (get_or text.now 0 0 ≡ digit 0) }
    ensures { Scanned TermList.MAX_TERMS TermList.MAX_VARS text.now words.old (numbers_of result) words.new }
{
    let mut at = 0;
    for count in 0..TermList::MAX_TERMS {
        let found = term(text, at)?;
        words[count] = found.value;
        at = found.end + 1;
        if byte_at(text, found.end) == b'\n' {
            return finish(text, at, count + 1);
        }
    }
    Err(full(text, at))
}

// The terms of a text as they are written, at the start of the words, and how many they are; or the refusal that the text shows.
pub fn scan(text: &[u8], words: &mut [u64]) -> Outcome
    requires { TermList.MAX_TERMS ≤ length words.old }
    ensures { Scanned TermList.MAX_TERMS TermList.MAX_VARS text.now words.old (numbers_of result) words.new }
{
    match (byte_at(text, 0), byte_at(text, 1)) {
        (b'0', b'\n') => finish(text, 2, 0),
        (b'0', _) => Err(sign(1)),
        _ => terms(text, words),
    }
}
