// Same products (RULES 3): whether AD = BC for any four lists, shared variables included. The lists are checked, then the four-list
// test of crate cross answers. Nothing is written.
#![tactic(auto)]

ghost use Rattle.std.specs.Prelude.{◌↔◌, IsTrue, [], ◌∷◌, ltb, length};
ghost use Rattle.answer.specs.Table.{numbers_of, verdict_of};
ghost use Rattle.answer.specs.Ends.{check};
ghost use Rattle.answer.specs.Checked.{Passed, Checked};
ghost use Rattle.terms.specs.Order.{unordered};
ghost use Rattle.ring.specs.Same.{SameProducts};
ghost use Rattle.same.specs.Same.{same_checks, SameEnds};

use answer::{Outcome, Refusal};
use term::Term;
use terms::TermList;

// Whether AD = BC: count 1 for yes, 0 for no. The operands are A, D, B, C, in this order.
#[tactic(auto, using(answer::proofs::Checking::calling))]
pub fn same_products<T: Term>(a: &[u64], d: &[u64], b: &[u64], c: &[u64]) -> Outcome
    ensures { SameEnds TermList.MAX_TERMS T.LINES (T.numbers a.now) (T.numbers d.now) (T.numbers b.now) (T.numbers c.now) (numbers_of result) }
{
    checks::<T>(a, d, b, c)?;
    let equal = judge::<T>(a, d, b, c);
    Ok(u64::from(equal))
}

// What is refused, in the order of the rules.
#[tactic(auto, unfolding(answer::specs::Checked::Checked), using(answer::proofs::Checking::came))]
fn checks<T: Term>(a: &[u64], d: &[u64], b: &[u64], c: &[u64]) -> Result<(), Refusal>
    ensures { Checked (same_checks TermList.MAX_TERMS (T.numbers a.now) (T.numbers d.now) (T.numbers b.now) (T.numbers c.now)) (verdict_of result) }
{
    operands::check_count::<T>(a, 1)?;
    operands::check_count::<T>(d, 2)?;
    operands::check_count::<T>(b, 3)?;
    operands::check_count::<T>(c, 4)?;
    operands::check_order::<T>(a, 1)?;
    operands::check_order::<T>(d, 2)?;
    operands::check_order::<T>(b, 3)?;
    operands::check_order::<T>(c, 4)
}

// The answer for four lists that passed the checks.
fn judge<T: Term>(a: &[u64], d: &[u64], b: &[u64], c: &[u64]) -> bool
    requires { Passed (same_checks TermList.MAX_TERMS (T.numbers a.now) (T.numbers d.now) (T.numbers b.now) (T.numbers c.now)) }
    ensures { IsTrue result ↔ (SameProducts T.LINES (T.numbers a.now) (T.numbers d.now) (T.numbers b.now) (T.numbers c.now)) }
{
    cross::same::<T>(a, d, b, c, T::LINES as u64)
}
