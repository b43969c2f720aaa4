// Deploy (RULES 15): the lists of a whole deployment, split in turn. Each is given the room that earlier ones left, and its answer stands among
// the answers.
#![tactic(auto)]

ghost use Rattle.std.specs.Prelude.{◌+◌, ◌≤◌, ◌<◌, ◌^◌, ◌≡◌, ◌∷◌, [], ◌++◌, length, drop, sum, slice_range};
ghost use Rattle.answer.specs.Table.{numbers_of, verdict_of};
ghost use Rattle.answer.specs.Checked.{Passed, Checked};
ghost use Rattle.lists.specs.Lists.{cut};
ghost use Rattle.narrow.specs.Numbers.{numbers};
ghost use Rattle.parts.specs.Split.{SplitEnds};
ghost use Rattle.parts.specs.Lent.{lent, SameLoans};
ghost use Rattle.deploy.specs.Deploy.{answer_words, deploy_checks, Deployed, DeployEnds};
ghost use Rattle.deploy.specs.Turn.{SplitBehind, Turned};

use answer::{Answer, Outcome, Refusal};
use lists::Lists;
use narrow::Narrow;
use parts::Outputs;
use terms::TermList;

// The most boards that a ship carries.
pub const MAX_BOARDS: usize = 64;

// The words of one answer.
pub const ANSWER: usize = 4;

// How many words of part terms and how many part lengths are filled.
#[derive(Clone, Copy)]
pub struct Filled {
    pub terms: usize,
    pub parts: usize,
}

// The parts of each list of a deployment, or its refusal. The words and the lengths stay two parameters here, since every caller has them as
// two slices from C.
#[tactic(auto, using(answer::proofs::Checking::calling))]
pub fn deploy(
    words: &[u64],
    lengths: &[u64],
    answers: &mut [u64],
    outputs: &mut Outputs<'_>,
) -> Outcome
    ensures ends { DeployEnds MAX_BOARDS TermList.MAX_TERMS TermList.MAX_VARS words.now lengths.now
        (record { answers = answers.old; outputs = lent numbers outputs.old })
        (numbers_of result)
        (record { answers = answers.new; outputs = lent numbers outputs.new }) }
    ensures loans { SameLoans outputs.old outputs.new }
{
    checks(words.len(), lengths, answers.len())?;
    in_turn(Lists { words, lengths }, answers, outputs);
    Ok(lengths.len() as u64)
}

// What is refused of the whole deployment, in the order of the rules; `room` is the words that are lent for answers.
#[tactic(auto, unfolding(answer::specs::Checked::Checked), using(answer::proofs::Checking::came))]
fn checks(words: usize, lengths: &[u64], room: usize) -> Result<(), Refusal>
    ensures { Checked (deploy_checks MAX_BOARDS words lengths.now room) (verdict_of result) }
{
    lists::check_lent(MAX_BOARDS, words, lengths)?;
    if room < ANSWER * lengths.len() {
        return Err(Refusal::Room { operand: 0 });
    }
    Ok(())
}

// Splits the lists of a deployment that passed the checks one after another, and writes their answers.
fn in_turn(lists: Lists<'_>, answers: &mut [u64], outputs: &mut Outputs<'_>)
    requires { Passed (deploy_checks MAX_BOARDS (length lists.words.now) lists.lengths.now (length answers.old)) }
    ensures deployed { Deployed TermList.MAX_TERMS TermList.MAX_VARS (cut lists.entry.lengths.now lists.entry.words.now)
        (record { answers = answers.old; outputs = lent numbers outputs.old })
        (length lists.entry.lengths.now)
        (record { answers = answers.new; outputs = lent numbers outputs.new }) }
    ensures loans { SameLoans outputs.old outputs.new }
{
    let mut rest = lists.words;
    let mut filled = Filled { terms: 0, parts: 0 };
    for (i, &length) in lists.lengths.iter().enumerate() {
        let (list, behind) = rest.split_at(length as usize);
        let room = &mut answers[ANSWER * i..];
        filled = board(list, room, outputs, filled);
        rest = behind;
    }
}

// Splits one list into the room behind what is filled, writes its answer at the start of the room for answers, and gives back what is filled
// then.
fn board(list: &[u64], room: &mut [u64], outputs: &mut Outputs<'_>, filled: Filled) -> Filled
    requires { (ANSWER ≤ length room.old) × (filled.terms ≤ length outputs.old.terms.now) × (filled.parts ≤ length outputs.old.lengths.now) }
    ensures turned { Turned TermList.MAX_TERMS TermList.MAX_VARS list.now filled room.old (lent numbers outputs.old)
        room.new (lent numbers outputs.new) result }
    ensures loans { SameLoans outputs.old outputs.new }
{
    let said = split(list, outputs, filled);
    tell(room, said);
    let parts = filled.parts + said.count as usize;
    Filled {
        terms: filled.terms + total(outputs, filled.parts, parts),
        parts,
    }
}

// Splits one list into the room behind what is filled.
fn split(list: &[u64], outputs: &mut Outputs<'_>, filled: Filled) -> Answer
    requires { (filled.terms ≤ length outputs.old.terms.now) × (filled.parts ≤ length outputs.old.lengths.now) }
    ensures behind { SplitBehind TermList.MAX_TERMS TermList.MAX_VARS list.now filled (lent numbers outputs.old) result (lent numbers outputs.new) }
    ensures sizes { (length outputs.new.terms.now ≡ length outputs.old.terms.now)
        × (length outputs.new.lengths.now ≡ length outputs.old.lengths.now) }
    ensures loans { SameLoans outputs.old outputs.new }
{
    split_into(
        list,
        &mut outputs.terms[filled.terms..],
        &mut outputs.lengths[filled.parts..],
        outputs.work,
    )
}

// Splits one list into what is lent. It is a function of its own, since no proof is made of a call with `&mut` of a struct whose slices are
// parts of those in another.
fn split_into(list: &[u64], terms: &mut [u64], lengths: &mut [u64], work: &mut [u64]) -> Answer
    ensures { SplitEnds TermList.MAX_TERMS TermList.MAX_VARS list.now
        (record { terms = terms.old; lengths = lengths.old; work = work.old })
        result
        (record { terms = terms.new; lengths = lengths.new; work = work.new }) }
{
    let mut outputs = Outputs {
        terms,
        lengths,
        work,
    };
    Answer::from(parts::split::<Narrow>(list, &mut outputs))
}

// Writes the four numbers of an answer at the start of the room.
fn tell(room: &mut [u64], said: Answer)
    requires { ANSWER ≤ length room.old }
    ensures { room.new ≡ answer_words (said ∷ []) ++ drop ANSWER room.old }
{
    room[..ANSWER].copy_from_slice(&[said.code, said.operand, said.place, said.count]);
}

// The part lengths from one place to another, added.
fn total(outputs: &Outputs<'_>, from: usize, to: usize) -> usize
    requires { (from ≤ to) × (to ≤ length outputs.now.lengths.now) × (sum (slice_range outputs.now.lengths.now from to) < 2 ^ 64) }
    ensures { result ≡ sum (slice_range outputs.now.lengths.now from to) }
{
    outputs.lengths[from..to].iter().sum::<u64>() as usize
}
