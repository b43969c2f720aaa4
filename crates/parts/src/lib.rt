// Split (RULES 2.5, 5.3, 5.4): checks the equation and the lent buffers, then lets its parts be taken out one by one and laid back to
// back in the lent buffer.
#![tactic(auto)]

ghost use Rattle.std.specs.Prelude.{◌≤◌, length};
ghost use Rattle.answer.specs.Table.{numbers_of, verdict_of};
ghost use Rattle.answer.specs.Checked.{Passed, Checked};
ghost use Rattle.parts.specs.Split.{split_checks, room_checks, Splits, SplitEnds};
ghost use Rattle.parts.specs.Lent.{lent, SameLoans};

use answer::{Outcome, Refusal};
use term::Term;
use terms::TermList;

// What is lent to split: room for the terms of the parts, for their lengths, and a work area.
#[derive(Drop)]
pub struct Outputs<'a> {
    pub terms: &'a mut [u64],
    pub lengths: &'a mut [u64],
    pub work: &'a mut [u64],
}

// Writes the parts of a list that passed the checks, clears the work area, and counts the parts.
fn take_apart<T: Term>(list: &[u64], outputs: &mut Outputs<'_>) -> usize
    requires { Passed (split_checks TermList.MAX_TERMS T.LINES (T.numbers list.now)
        (length (T.numbers outputs.old.terms.now)) (length outputs.old.lengths.now) (length (T.numbers outputs.old.work.now))) }
    ensures splits { Splits (T.numbers list.now) (lent T.numbers outputs.old) result (lent T.numbers outputs.new) }
    ensures loans { SameLoans outputs.old outputs.new }
{
    let held: T = taking::common(list);
    taking::put_off(list, held, outputs.work);
    let t = T::count(list);
    let count = taking::write_parts(outputs.terms, outputs.lengths, outputs.work, t, held);
    taking::clear::<T>(outputs.work);
    count
}

// What is refused, in the order of the rules: of the list, and then of the room for part terms, the room for part lengths and the work area.
#[tactic(auto, unfolding(answer::specs::Checked::Checked), using(answer::proofs::Checking::came))]
fn checks<T: Term>(list: &[u64], outputs: &Outputs<'_>) -> Result<(), Refusal>
    ensures { Checked (split_checks TermList.MAX_TERMS T.LINES (T.numbers list.now)
        (length (T.numbers outputs.now.terms.now)) (length outputs.now.lengths.now) (length (T.numbers outputs.now.work.now)))
        (verdict_of result) }
{
    let t = T::count(list);
    operands::check_count::<T>(list, 1)?;
    if t == 0 {
        return Err(Refusal::Zero);
    }
    operands::check_order::<T>(list, 1)?;
    check_room::<T>(t, outputs)
}

// Refuses too little room for the parts of t terms: for their terms, for their lengths, and the work area.
#[tactic(auto, unfolding(answer::specs::Checked::Checked))]
pub fn check_room<T: Term>(t: usize, outputs: &Outputs<'_>) -> Result<(), Refusal>
    requires { t ≤ TermList.MAX_TERMS }
    ensures { Checked (room_checks T.LINES t
        (length (T.numbers outputs.now.terms.now)) (length outputs.now.lengths.now) (length (T.numbers outputs.now.work.now)))
        (verdict_of result) }
{
    let room = T::count(outputs.terms);
    if room < t {
        return Err(Refusal::Room { operand: 1 });
    }
    if room - t < T::LINES {
        return Err(Refusal::Room { operand: 1 });
    }
    if outputs.lengths.len() < T::LINES {
        return Err(Refusal::Room { operand: 1 });
    }
    if T::count(outputs.work) < 4 * t {
        return Err(Refusal::Work);
    }
    Ok(())
}

// The irreducible parts of an equation.
#[tactic(auto, using(answer::proofs::Checking::calling))]
pub fn split<T: Term>(list: &[u64], outputs: &mut Outputs<'_>) -> Outcome
    ensures ends { SplitEnds TermList.MAX_TERMS T.LINES (T.numbers list.now)
        (lent T.numbers outputs.old) (numbers_of result) (lent T.numbers outputs.new) }
    ensures loans { SameLoans outputs.old outputs.new }
{
    checks::<T>(list, outputs)?;
    let count = take_apart::<T>(list, outputs);
    Ok(count as u64)
}
