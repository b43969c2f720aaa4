// Read and write: between a term list and its block (RULES 4 and 5). A refusal leaves the lent buffer alone, so each call checks
// first and then writes; read goes through the block twice.
#![tactic(auto)]

ghost use Rattle.std.specs.Prelude.{◌*◌, ◌≤◌, length};
ghost use Rattle.answer.specs.Table.{numbers_of, verdict_of};
ghost use Rattle.answer.specs.Ends.{Writes};
ghost use Rattle.answer.specs.Checked.{Passed, Checked};
ghost use Rattle.narrow.specs.Numbers.{numbers, lines};
ghost use Rattle.packing.specs.Format.{n_in, t_in, terms_in, block_of};
ghost use Rattle.block.specs.Calls.{body_checks, read_checks, ReadEnds, write_checks, WriteEnds};

use answer::{Outcome, Refusal};
use narrow::Narrow;
use packing::Body;
use term::Term;
use terms::TermList;

// Reads a block into a term list.
#[tactic(auto, using(answer::proofs::Checking::calling))]
pub fn read(bytes: &[u8], out: &mut [u64]) -> Outcome
    ensures { ReadEnds TermList.MAX_TERMS TermList.MAX_VARS bytes.now (numbers out.old) (numbers_of result) (numbers out.new) }
{
    read_checks(bytes, Narrow::count(out))?;
    let t = read_terms(bytes, out);
    Ok(t as u64)
}

// What read refuses, in the order of the rules.
#[tactic(auto, unfolding(answer::specs::Checked::Checked))]
fn read_checks(bytes: &[u8], room: usize) -> Result<(), Refusal>
    ensures { Checked (read_checks TermList.MAX_TERMS TermList.MAX_VARS bytes.now room) (verdict_of result) }
{
    if bytes.len() < 3 {
        return Err(Refusal::Short { operand: 1 });
    }
    let form = digits::field(bytes, 0, 4);
    if form != 1 {
        return Err(Refusal::Form);
    }
    let n = digits::field(bytes, 4, 7) as usize;
    if TermList::MAX_VARS < n {
        return Err(Refusal::Wide);
    }
    let t = digits::field(bytes, 11, 13) as usize;
    if TermList::MAX_TERMS < t {
        return Err(Refusal::TooMany { operand: 1 });
    }
    body_checks(bytes, n, t, room)
}

// And what it refuses behind the header.
#[tactic(auto, unfolding(answer::specs::Checked::Checked))]
fn body_checks(bytes: &[u8], n: usize, t: usize, room: usize) -> Result<(), Refusal>
    requires { (n ≤ lines) × (n * t ≤ 524288) }
    ensures { Checked (body_checks bytes.now n t room) (verdict_of result) }
{
    let size = packing::block_size(n, t);
    if bytes.len() < size {
        return Err(Refusal::Short { operand: 1 });
    }
    if size < bytes.len() {
        return Err(Refusal::Extra { operand: 1 });
    }
    if room < t {
        return Err(Refusal::Room { operand: 1 });
    }
    let body = Body { bytes, n, t };
    let found = body.first_unordered();
    if found < t {
        return Err(Refusal::Order {
            operand: 1,
            place: found as u64,
        });
    }
    let own = body.polynomial_n();
    if own < n {
        return Err(Refusal::Misfit);
    }
    let rest = packing::padding(bytes, n, t);
    if 0 < rest {
        return Err(Refusal::Pad);
    }
    Ok(())
}

// Writes the terms of a block that passed the checks, and counts them.
fn read_terms(bytes: &[u8], out: &mut [u64]) -> usize
    requires { Passed (read_checks TermList.MAX_TERMS TermList.MAX_VARS bytes.now (length (numbers out.old))) }
    ensures { Writes (terms_in bytes.now (n_in bytes.now) (t_in bytes.now)) (numbers out.old) result (numbers out.new) }
{
    let n = digits::field(bytes, 4, 7) as usize;
    let t = digits::field(bytes, 11, 13) as usize;
    let body = Body { bytes, n, t };
    body.unpack(out);
    t
}

// Writes the block of a term list.
#[tactic(auto, using(answer::proofs::Checking::calling))]
pub fn write(terms: &[u64], out: &mut [u8]) -> Outcome
    ensures { WriteEnds TermList.MAX_TERMS (numbers terms.now) out.old (numbers_of result) out.new }
{
    write_checks(terms, out.len())?;
    let size = write_block(terms, out);
    Ok(size as u64)
}

// What write refuses, in the order of the rules.
#[tactic(auto, unfolding(answer::specs::Checked::Checked), using(answer::proofs::Checking::came))]
fn write_checks(terms: &[u64], room: usize) -> Result<(), Refusal>
    ensures { Checked (write_checks TermList.MAX_TERMS (numbers terms.now) room) (verdict_of result) }
{
    operands::check_count::<Narrow>(terms, 1)?;
    operands::check_order::<Narrow>(terms, 1)?;
    let t = Narrow::count(terms);
    let n = packing::list_n(terms);
    let size = packing::block_size(n, t);
    if room < size {
        return Err(Refusal::Room { operand: 1 });
    }
    Ok(())
}

// Writes the block of a list that passed the checks, and counts its bytes.
fn write_block(terms: &[u64], out: &mut [u8]) -> usize
    requires { Passed (write_checks TermList.MAX_TERMS (numbers terms.now) (length out.old)) }
    ensures { Writes (block_of (numbers terms.now)) out.old result out.new }
{
    let n = packing::list_n(terms);
    packing::pack(terms, n, out);
    packing::block_size(n, Narrow::count(terms))
}
