// The papers' rule, callable (RULES 8): whether two variables lie in one part of an equation, found by forming the four lists
// of the second paper and asking *same products*. That the answer speaks of the parts that split gives is a theorem (crate rule).
#![tactic(auto)]

ghost use Rattle.std.specs.Prelude.{◌≡◌, not, ◌≤◌, length};
ghost use Rattle.std.specs.Int.{from_bool};
ghost use Rattle.masks.specs.Bit.{bit};
ghost use Rattle.polys.specs.Poly.{vars};
ghost use Rattle.answer.specs.Table.{numbers_of, verdict_of};
ghost use Rattle.answer.specs.Ends.{over};
ghost use Rattle.answer.specs.Checked.{Checked};
ghost use Rattle.papers.specs.Together.{together_checks, Tells, TogetherEnds};
ghost use Rattle.papers.specs.Steps.{selected, four_selected, Laid, Askable};

use answer::{Answer, Outcome, Refusal};
use narrow::Narrow;
use terms::TermList;

// Of the terms that have just `value` of the variables `fixed`: what is left of them without it, written at the start of the room. Gives how
// many they are.
fn select(list: &[u64], fixed: u64, value: u64, room: &mut [u64]) -> usize
    requires { length (selected fixed value list.now) ≤ length room.old }
    ensures { (result ≡ length (selected fixed value list.now)) × (room.new ≡ over (selected fixed value list.now) room.old) }
{
    let mut end = 0;
    for &t in list {
        if t & fixed == value {
            room[end] = t ^ value;
            end += 1;
        }
    }
    end
}

// Where the four lists end that lie one after another.
#[derive(Clone, Copy)]
pub struct FourEnds {
    pub a: usize,
    pub b: usize,
    pub c: usize,
    pub d: usize,
}

// The four lists A, B, C, D of the variables x and y, given as masks, one after another.
fn lay_out(list: &[u64], x: u64, y: u64, room: &mut [u64]) -> FourEnds
    requires { length (four_selected x y list.now) ≤ length room.old }
    ensures { Laid x y list.now room.old room.new result.a result.b result.c result.d }
{
    let both = x | y;
    let a = select(list, x, x, room);
    let b = a + select(list, x, 0, &mut room[a..]);
    let c = b + select(list, both, both, &mut room[b..]);
    let d = c + select(list, both, y, &mut room[c..]);
    FourEnds { a, b, c, d }
}

// The question itself, whether some part holds both variables: AD = BC exactly if none does. The four lists A, B, C, D of the variables lie
// one after another in the room.
fn ask(list: &[u64], x: u64, y: u64, room: &mut [u64]) -> bool
    requires { Askable TermList.MAX_TERMS TermList.MAX_VARS list.now x y (length room.old) }
    ensures { Tells list.now x y room.old (from_bool result) room.new }
{
    let FourEnds { a, b, c, d } = lay_out(list, 1 << x, 1 << y, room);
    let room = &*room;
    let said = same::same_products::<Narrow>(&room[..a], &room[c..d], &room[a..b], &room[b..c]);
    Answer::from(said).count != 1
}

// Whether a variable stands in a set.
pub fn occurs(all: u64, x: u64) -> bool
    ensures { result ≡ bit all x }
{
    x < TermList::MAX_VARS as u64 && all >> x & 1 == 1
}

// Whether a variable stands in no term of a list.
fn lacks(list: &[u64], x: u64) -> bool
    ensures { result ≡ not (bit (vars list.now) x) }
{
    !occurs(terms::variables::<Narrow>(list).bits, x)
}

// What is refused, in the order of the rules.
#[tactic(auto, unfolding(answer::specs::Checked::Checked), using(answer::proofs::Checking::came))]
fn checks(list: &[u64], x: u64, y: u64, room: usize) -> Result<(), Refusal>
    ensures { Checked (together_checks TermList.MAX_TERMS list.now x y room) (verdict_of result) }
{
    operands::check_count::<Narrow>(list, 1)?;
    operands::check_order::<Narrow>(list, 1)?;
    if lacks(list, x) {
        return Err(Refusal::Misfit);
    }
    if lacks(list, y) {
        return Err(Refusal::Misfit);
    }
    if x == y {
        return Err(Refusal::Shared);
    }
    if room < 2 * list.len() {
        return Err(Refusal::Room { operand: 1 });
    }
    Ok(())
}

// Whether the variables x and y lie in one part of the equation: count 1 if they do, 0 if not. The room then holds the four lists.
#[tactic(auto, using(answer::proofs::Checking::calling))]
pub fn together(list: &[u64], x: u64, y: u64, room: &mut [u64]) -> Outcome
    ensures { TogetherEnds TermList.MAX_TERMS list.now x y room.old (numbers_of result) room.new }
{
    checks(list, x, y, room.len())?;
    Ok(u64::from(ask(list, x, y, room)))
}
