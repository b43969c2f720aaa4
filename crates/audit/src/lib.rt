// Audit (RULES 13): whether given parts are the parts of an approved equation. The given parts are checked with it, then it is split into the
// lent buffers, and what stands there is compared with what was given.
#![tactic(auto)]

ghost use Rattle.std.specs.Prelude.{◌≡◌, ◌∷◌, ◌≤◌, ◌↔◌, IsTrue, length};
ghost use Rattle.std.specs.Int.{from_bool};
ghost use Rattle.answer.specs.Table.{numbers_of, verdict_of};
ghost use Rattle.answer.specs.Checked.{Passed, Checked};
ghost use Rattle.lists.specs.Lists.{cut, added};
ghost use Rattle.narrow.specs.Numbers.{numbers};
ghost use Rattle.parts.specs.Split.{split_checks, Splits};
ghost use Rattle.parts.specs.Lent.{lent, SameLoans};
ghost use Rattle.audit.specs.Audit.{long_checks, order_checks, list_checks, audit_checks, Audited, AuditEnds};
ghost use Rattle.audit.specs.Agree.{Agree};

use answer::{Answer, Outcome, Refusal};
use lists::Lists;
use narrow::Narrow;
use parts::Outputs;
use terms::TermList;

// Whether the given parts are the parts of the approved list: count 1 for yes, 0 for no. The parts themselves are left in the lent buffers.
// The given words and lengths stay two parameters here, since every caller has them as two slices from C.
#[tactic(auto, using(answer::proofs::Checking::calling))]
pub fn audit(
    list: &[u64],
    given: &[u64],
    given_lengths: &[u64],
    outputs: &mut Outputs<'_>,
) -> Outcome
    ensures ends { AuditEnds TermList.MAX_TERMS TermList.MAX_VARS list.now given.now given_lengths.now
        (lent numbers outputs.old) (numbers_of result) (lent numbers outputs.new) }
    ensures loans { SameLoans outputs.old outputs.new }
{
    let given = Lists {
        words: given,
        lengths: given_lengths,
    };
    checks(list, given, outputs)?;
    let same = judge(list, given, outputs);
    Ok(u64::from(same))
}

// What is refused, in the order of the rules.
fn checks(list: &[u64], given: Lists<'_>, outputs: &Outputs<'_>) -> Result<(), Refusal>
    ensures { Checked (audit_checks TermList.MAX_TERMS TermList.MAX_VARS list.now given.entry.words.now given.entry.lengths.now
        (length outputs.now.terms.now) (length outputs.now.lengths.now) (length outputs.now.work.now)) (verdict_of result) }
{
    lists::check_lent(TermList::MAX_VARS, given.words.len(), given.lengths)?;
    check_long(list.len(), given.lengths)?;
    check_lists(list, given, outputs)
}

// The checks behind those of the numbers of terms: an approved list without terms, terms out of order, too little room.
fn check_lists(list: &[u64], given: Lists<'_>, outputs: &Outputs<'_>) -> Result<(), Refusal>
    requires { (length list.now ≤ TermList.MAX_TERMS) × (length given.lengths.now ≤ TermList.MAX_VARS)
        × (added given.lengths.now ≡ length given.words.now) }
    ensures { Checked (list_checks TermList.MAX_VARS list.now (cut given.entry.lengths.now given.entry.words.now)
        (length outputs.now.terms.now) (length outputs.now.lengths.now) (length outputs.now.work.now)) (verdict_of result) }
{
    if list.is_empty() {
        return Err(Refusal::Zero);
    }
    check_order(list, given)?;
    parts::check_room::<Narrow>(list.len(), outputs)
}

// Refuses the first list with too many terms: the approved one with t, then the given parts.
fn check_long(t: usize, given_lengths: &[u64]) -> Result<(), Refusal>
    requires { length given_lengths.now ≤ TermList.MAX_VARS }
    ensures { Checked (long_checks TermList.MAX_TERMS 1 (t ∷ given_lengths.now)) (verdict_of result) }
{
    if TermList::MAX_TERMS < t {
        return Err(Refusal::TooMany { operand: 1 });
    }
    for (i, &length) in given_lengths.iter().enumerate() {
        if length > TermList::MAX_TERMS as u64 {
            let operand = i as u64 + 2;
            return Err(Refusal::TooMany { operand });
        }
    }
    Ok(())
}

// Refuses the first list with a term out of order: the approved one, then the given parts.
fn check_order(list: &[u64], given: Lists<'_>) -> Result<(), Refusal>
    requires { (length given.lengths.now ≤ TermList.MAX_VARS) × (added given.lengths.now ≡ length given.words.now) }
    ensures { Checked (order_checks 1 (list.now ∷ cut given.entry.lengths.now given.entry.words.now)) (verdict_of result) }
{
    operands::check_order::<Narrow>(list, 1)?;
    let mut rest = given.words;
    for (i, &length) in given.lengths.iter().enumerate() {
        let (part, behind) = rest.split_at(length as usize);
        // not by `operands::check_order`, so that it stands here, for a wrong program to turn, which list the place counts in
        let place = terms::first_unordered::<Narrow>(part);
        if place < part.len() {
            return Err(Refusal::Order {
                operand: i as u64 + 2,
                place: place as u64,
            });
        }
        rest = behind;
    }
    Ok(())
}

// Whether the given parts are those of the approved list, for lists and buffers that passed the checks: the list is split, and what was
// given is held against its parts.
fn judge(list: &[u64], given: Lists<'_>, outputs: &mut Outputs<'_>) -> bool
    requires { Passed (audit_checks TermList.MAX_TERMS TermList.MAX_VARS list.now given.words.now given.lengths.now
        (length outputs.old.terms.now) (length outputs.old.lengths.now) (length outputs.old.work.now)) }
    ensures judged { Audited list.now (cut given.entry.lengths.now given.entry.words.now) (lent numbers outputs.old) (from_bool result) (lent numbers outputs.new) }
    ensures loans { SameLoans outputs.old outputs.new }
{
    let parts = split(list, outputs);
    agree(given, outputs, parts)
}

// The number of the parts that split writes.
fn split(list: &[u64], outputs: &mut Outputs<'_>) -> u64
    requires { Passed (split_checks TermList.MAX_TERMS TermList.MAX_VARS list.now
        (length outputs.old.terms.now) (length outputs.old.lengths.now) (length outputs.old.work.now)) }
    ensures splits { Splits list.now (lent numbers outputs.old) result (lent numbers outputs.new) }
    ensures loans { SameLoans outputs.old outputs.new }
{
    Answer::from(parts::split::<Narrow>(list, outputs)).count
}

// Whether the given words and lengths are those that split wrote and counted.
fn agree(given: Lists<'_>, outputs: &Outputs<'_>, parts: u64) -> bool
    ensures { IsTrue result ↔ Agree given.entry.words.now given.entry.lengths.now outputs.now.terms.now outputs.now.lengths.now parts }
{
    given.lengths.len() as u64 == parts
        && outputs.lengths.starts_with(given.lengths)
        && outputs.terms.starts_with(given.words)
}
