// What every call asks of a list that it is given (RULES 1, 5.3): that it is not too long, and that its terms ascend. An operand's number goes
// into the refusal.
#![tactic(auto)]

ghost use Rattle.std.specs.Prelude.{[], ◌∷◌, ltb, length};
ghost use Rattle.answer.specs.Table.{verdict_of};
ghost use Rattle.answer.specs.Ends.{check};
ghost use Rattle.answer.specs.Checked.{Checked};
ghost use Rattle.terms.specs.Order.{unordered};

use answer::Refusal;
use term::Term;
use terms::TermList;

// Refuses a list with too many terms,
#[tactic(auto, unfolding(answer::specs::Checked::Checked))]
pub fn check_count<T: Term>(list: &[u64], operand: u64) -> Result<(), Refusal>
    ensures { Checked (check (ltb TermList.MAX_TERMS (length (T.numbers list.now))) 2 operand 0 ∷ []) (verdict_of result) }
{
    if TermList::MAX_TERMS < T::count(list) {
        return Err(Refusal::TooMany { operand });
    }
    Ok(())
}

// and one whose terms do not ascend: the place is that of the first term that is not above the one before it.
#[tactic(auto, unfolding(answer::specs::Checked::Checked))]
pub fn check_order<T: Term>(list: &[u64], operand: u64) -> Result<(), Refusal>
    ensures { Checked
        (check (ltb (unordered (T.numbers list.now)) (length (T.numbers list.now))) 3 operand (unordered (T.numbers list.now)) ∷ [])
        (verdict_of result) }
{
    let found = terms::first_unordered::<T>(list);
    if found < T::count(list) {
        return Err(Refusal::Order {
            operand,
            place: found as u64,
        });
    }
    Ok(())
}
