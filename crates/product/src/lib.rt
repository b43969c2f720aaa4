// Multiply (RULES 2.1): the product of two term lists that share no variable. Two lists that pass the checks are handed to
// `unions`, which writes their product in ascending order at once.
#![tactic(auto)]

ghost use Rattle.std.specs.Prelude.{◌*◌, ◌≤◌, ◌≡◌, length};
ghost use Rattle.polys.specs.Poly.{times};
ghost use Rattle.answer.specs.Table.{numbers_of, verdict_of};
ghost use Rattle.answer.specs.Ends.{Writes};
ghost use Rattle.answer.specs.Checked.{Passed, Checked};
ghost use Rattle.product.specs.Multiply.{multiply_checks, MultiplyEnds};

use answer::{Outcome, Refusal};
use term::Term;
use terms::TermList;

// The product of two polynomials that share no variable, into a lent room for as many terms as it has.
#[tactic(auto, using(answer::proofs::Checking::calling))]
pub fn multiply<T: Term>(a: &[u64], b: &[u64], out: &mut [u64]) -> Outcome
    ensures { MultiplyEnds TermList.MAX_TERMS (T.numbers a.now) (T.numbers b.now) (T.numbers out.old) (numbers_of result) (T.numbers out.new) }
{
    checks::<T>(a, b, T::count(out))?;
    let count = write_product::<T>(a, b, out);
    Ok(count as u64)
}

// What is refused, in the order of the rules.
#[tactic(auto, unfolding(answer::specs::Checked::Checked), using(answer::proofs::Checking::came))]
fn checks<T: Term>(a: &[u64], b: &[u64], room: usize) -> Result<(), Refusal>
    ensures { Checked (multiply_checks TermList.MAX_TERMS (T.numbers a.now) (T.numbers b.now) room) (verdict_of result) }
{
    operands::check_count::<T>(a, 1)?;
    operands::check_count::<T>(b, 2)?;
    operands::check_order::<T>(a, 1)?;
    operands::check_order::<T>(b, 2)?;
    let shared: T = terms::shared(a, b);
    if !shared.empty() {
        return Err(Refusal::Shared);
    }
    let count = product_count::<T>(a, b);
    if TermList::MAX_TERMS < count {
        return Err(Refusal::TooLarge { operand: 0 });
    }
    if room < count {
        return Err(Refusal::Room { operand: 0 });
    }
    Ok(())
}

// How many terms the product of two lists within the limit has, where they share no variable.
fn product_count<T: Term>(a: &[u64], b: &[u64]) -> usize
    requires { (length (T.numbers a.now) ≤ TermList.MAX_TERMS) × (length (T.numbers b.now) ≤ TermList.MAX_TERMS) }
    ensures { result ≡ length (T.numbers a.now) * length (T.numbers b.now) }
{
    T::count(a) * T::count(b)
}

// Writes the product of two lists that passed the checks, and counts its terms.
fn write_product<T: Term>(a: &[u64], b: &[u64], out: &mut [u64]) -> usize
    requires { Passed (multiply_checks TermList.MAX_TERMS (T.numbers a.now) (T.numbers b.now) (length (T.numbers out.old))) }
    ensures { Writes (times (T.numbers a.now) (T.numbers b.now)) (T.numbers out.old) result (T.numbers out.new) }
{
    let count = product_count::<T>(a, b);
    if 0 < count {
        let end = T::words(count);
        unions::unions::<T>(a, b, &mut out[0..end]);
    }
    count
}
