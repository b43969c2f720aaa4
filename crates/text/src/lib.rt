// Equations as text (RULES 12): a reader and a writer. A refusal leaves the lent buffer alone, so each call checks first and then writes: the
// reader keeps the terms as written in an array of its own, and the writer reckons the bytes beforehand.
#![tactic(auto)]

ghost use Rattle.std.specs.Prelude.{◌≡◌, ◌+◌, ◌≤◌, ◌<◌, length, take};
ghost use Rattle.answer.specs.Table.{numbers_of, verdict_of};
ghost use Rattle.answer.specs.Ends.{Writes};
ghost use Rattle.answer.specs.Checked.{Passed, Checked};
ghost use Rattle.typed.specs.Says.{left, written};
ghost use Rattle.text.specs.Calls.{ReadTextEnds, write_text_checks, WriteTextEnds};
ghost use Rattle.text.specs.Found.{LeftEnds};

use answer::{Outcome, Refusal};
use narrow::Narrow;
use terms::TermList;

// A text has at most this many bytes.
pub const MAX_BYTES: usize = 65536;

// Reads a text into a term list.
pub fn read_text(text: &[u8], out: &mut [u64]) -> Outcome
    ensures { ReadTextEnds MAX_BYTES TermList.MAX_TERMS TermList.MAX_VARS text.now out.old (numbers_of result) out.new }
{
    if MAX_BYTES < text.len() {
        return Err(Refusal::TooMany { operand: 1 });
    }
    let mut words = [0u64; TermList::MAX_TERMS];
    let count = scan::scan(text, &mut words)?;
    write_left(&mut words, count as usize, out)
}

// Brings what is left of the first terms of the words, where two equal ones cancel, to their start, and counts it.
fn keep_left(words: &mut [u64], count: usize) -> usize
    requires { (count ≤ length words.old) × (count ≤ TermList.MAX_TERMS) }
    ensures { (take result words.new ≡ left (take count words.old)) × (result ≡ length (left (take count words.old))) × (result ≤ length words.new) }
{
    let mut spare = [0u64; TermList::MAX_TERMS];
    cancel::cancel(&mut words[..count], &mut spare)
}

// Writes what is left of the first terms of the words, if there is room.
fn write_left(words: &mut [u64], count: usize, out: &mut [u64]) -> Outcome
    requires { (count ≤ length words.old) × (count ≤ TermList.MAX_TERMS) }
    ensures { LeftEnds (take count words.old) out.old (numbers_of result) out.new }
{
    let left = keep_left(words, count);
    if out.len() < left {
        return Err(Refusal::Room { operand: 1 });
    }
    out[..left].copy_from_slice(&words[..left]);
    Ok(left as u64)
}

// Writes the text of a term list.
#[tactic(auto, using(answer::proofs::Checking::calling))]
pub fn write_text(terms: &[u64], out: &mut [u8]) -> Outcome
    ensures { WriteTextEnds MAX_BYTES TermList.MAX_TERMS terms.now out.old (numbers_of result) out.new }
{
    write_checks(terms, out.len())?;
    let size = put_terms(terms, out);
    Ok(size as u64)
}

// What the writer refuses, in the order of the rules.
#[tactic(auto, unfolding(answer::specs::Checked::Checked), using(answer::proofs::Checking::came))]
fn write_checks(terms: &[u64], room: usize) -> Result<(), Refusal>
    ensures { Checked (write_text_checks MAX_BYTES TermList.MAX_TERMS terms.now room) (verdict_of result) }
{
    operands::check_count::<Narrow>(terms, 1)?;
    operands::check_order::<Narrow>(terms, 1)?;
    let size = text_size(terms);
    if MAX_BYTES < size {
        return Err(Refusal::TooLarge { operand: 1 });
    }
    if room < size {
        return Err(Refusal::Room { operand: 1 });
    }
    Ok(())
}

// How many bytes the text of a list has.
fn text_size(terms: &[u64]) -> usize
    requires { length terms.now ≤ TermList.MAX_TERMS }
    ensures { result ≡ length (written terms.now) }
{
    if terms.is_empty() {
        return 2;
    }
    let mut size = 0;
    for &term in terms {
        size += spell::term_size(term);
    }
    size
}

// Writes the text of a list that passed the checks, and counts its bytes.
fn put_terms(terms: &[u64], out: &mut [u8]) -> usize
    requires { Passed (write_text_checks MAX_BYTES TermList.MAX_TERMS terms.now (length out.old)) }
    ensures { Writes (written terms.now) out.old result out.new }
{
    let Some((&last, others)) = terms.split_last() else {
        out[0] = b'0';
        out[1] = b'\n';
        return 2;
    };
    let mut at = 0;
    for &term in others {
        at = spell::put_term(out, at, term, b'+');
    }
    spell::put_term(out, at, last, b'\n')
}
