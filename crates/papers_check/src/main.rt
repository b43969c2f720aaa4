// Compares, for every two different variables of a list, what the papers' rule answers with what split gives: whether they lie in one part.
// A line for each list: its terms, the pairs asked about, how many of them lie in one part by split, and on how many the two ways differ; a pair
// on which they differ is printed before it. Then what is refused, with the room after each question. What cannot be written is passed
// over: the program has no status of its own.
#![tactic(auto)]

ghost use Rattle.std.specs.Prelude.{◌<◌};

use answer::Answer;
use narrow::Narrow;
use parts::Outputs;
use show::{Out, Words, fill};
use std::fmt::{self, Write};
use terms::TermList;

// What was counted: pairs asked about, those in one part, those where the two ways differ.
#[derive(Clone, Copy, Default)]
pub struct Tally {
    pub pairs: u64,
    pub one: u64,
    pub differ: u64,
}

impl Tally {
    // One more pair: whether split has it in one part, and whether the papers' rule says otherwise.
    fn count(&mut self, one: bool, differ: bool) {
        self.pairs = self.pairs.wrapping_add(1);
        self.one = self.one.wrapping_add(u64::from(one));
        self.differ = self.differ.wrapping_add(u64::from(differ));
    }
}

// As it stands behind what the lists are, `, pairs 2, in one part 2, differ 0`.
impl fmt::Display for Tally {
    fn fmt<W: fmt::Write>(&self, f: &mut fmt::Formatter<W>) -> fmt::Result {
        let Tally { pairs, one, differ } = *self;
        write!(f, ", pairs {pairs}, in one part {one}, differ {differ}")
    }
}

// An equation and its parts, as split writes them: the terms of one behind those of another, and how many each has.
#[derive(Clone, Copy)]
struct Parts<'a> {
    list: &'a [u64],
    terms: &'a [u64],
    lengths: &'a [u64],
}

impl Parts<'_> {
    // The number, from 0, of the part that holds the variable.
    fn part_with(self, x: u64) -> Option<usize> {
        let mut rest = self.terms;
        for (i, length) in self.lengths.iter().enumerate() {
            let (part, behind) = rest.split_at_checked(*length as usize)?;
            if papers::occurs(TermList::of(part).vars.bits, x) {
                return Some(i);
            }
            rest = behind;
        }
        None
    }

    // One more pair, of which split says whether it lies in one part. The room for the four lists is lent, since a new one is 16 KB of zeros.
    fn ask(self, x: u64, y: u64, one: bool, room: &mut [u64], tally: &mut Tally) {
        let said = papers::together(self.list, x, y, room);
        let differ = said != Ok(u64::from(one));
        if differ {
            let Answer { code, count, .. } = Answer::from(said);
            let _ = writeln!(
                Out,
                "differ: x{x} x{y}, papers say code {code} count {count}"
            );
        }
        tally.count(one, differ);
    }

    // Every other variable against x, whose part is a.
    fn row(self, x: u64, a: usize, room: &mut [u64], tally: &mut Tally) {
        for y in 0..TermList::MAX_VARS as u64 {
            if let Some(b) = self.part_with(y)
                && x != y
            {
                self.ask(x, y, a == b, room, tally);
            }
        }
    }

    // Every two different variables of the parts.
    fn all_pairs(self, room: &mut [u64], tally: &mut Tally) {
        for x in 0..TermList::MAX_VARS as u64 {
            if let Some(a) = self.part_with(x) {
                self.row(x, a, room, tally);
            }
        }
    }
}

// Splits a list, asks about all its pairs, and adds them to the tally.
fn measure(list: &[u64], tally: &mut Tally) {
    let mut terms = [0; TermList::MAX_TERMS + TermList::MAX_VARS];
    let mut lengths = [0; TermList::MAX_VARS];
    let mut work = [0; 4 * TermList::MAX_TERMS];
    let mut room = [0; 2 * TermList::MAX_TERMS];
    let mut outputs = Outputs {
        terms: &mut terms,
        lengths: &mut lengths,
        work: &mut work,
    };
    if let Ok(count) = parts::split::<Narrow>(list, &mut outputs)
        && let Some(lengths) = lengths.get(..count as usize)
    {
        let terms = &terms;
        let parts = Parts {
            list,
            terms,
            lengths,
        };
        parts.all_pairs(&mut room, tally);
    }
}

// A line for one list.
fn compare(list: &[u64]) {
    let mut tally = Tally::default();
    measure(list, &mut tally);
    let _ = writeln!(Out, "terms {}{tally}", list.len());
}

// The lists of RULES 7.1 that have variables, and some more with x or x + 1 among the factors.
fn small() {
    compare(&[1]);
    compare(&[0, 1]);
    compare(&[3]);
    compare(&[0, 3]);
    compare(&[0, 1, 2]);
    compare(&[1, 2, 5, 6]);
    compare(&[6, 7, 12, 13]);
    compare(&[4, 7, 12, 15, 16, 19]);
    compare(&[1, 3]);
    compare(&[0, 1, 2, 3]);
    compare(&[0, 3, 5, 6]);
    compare(&[u64::MAX]);
}

// The bits of i below 10, each moved to twice its place.
fn spread(i: u64) -> u64 {
    let a = (i | (i << 8)) & 16711935;
    let b = (a | (a << 4)) & 252645135;
    let c = (b | (b << 2)) & 858993459;
    (c | (c << 1)) & 1431655765
}

// The product of ten sums of two variables: each index chooses one of each two.
fn choose(list: &mut [u64]) {
    for (i, term) in list.iter_mut().enumerate() {
        *term = spread(i as u64).wrapping_add(349525);
    }
}

// A thousand terms: all terms in ten variables, all but the last, and the product of ten sums.
fn large() {
    let mut list = [0; 1024];
    fill(&mut list, 0);
    compare(&list);
    if let Some((_, others)) = list.split_last() {
        compare(others);
    }
    choose(&mut list);
    compare(&list);
}

// The next of a row of numbers that look random.
fn next(seed: u64) -> u64 {
    let a = seed ^ (seed << 13);
    let b = a ^ (a >> 7);
    b ^ (b << 17)
}

// Ascending terms with steps of 1 to mask + 1, moved up by `shift` bits.
fn scatter(list: &mut [u64], seed: u64, mask: u64, shift: u64)
    requires { shift < 64 }
{
    let mut last = 0u64;
    let mut now = seed;
    for term in list.iter_mut() {
        now = next(now);
        last = last.wrapping_add(now & mask);
        *term = last << shift;
        last = last.wrapping_add(1);
    }
}

// A list of six terms in about six variables.
fn sparse(seed: u64, tally: &mut Tally) {
    let mut list = [0; 6];
    scatter(&mut list, seed, 15, 0);
    measure(&list, tally);
}

// A list of twelve terms in about five variables.
fn dense(seed: u64, tally: &mut Tally) {
    let mut list = [0; 12];
    scatter(&mut list, seed, 3, 0);
    measure(&list, tally);
}

// A product of three terms in low variables with four terms in high ones.
fn composed(seed: u64, tally: &mut Tally) {
    let mut low = [0; 3];
    let mut high = [0; 4];
    let mut list = [0; 12];
    scatter(&mut low, seed, 3, 0);
    scatter(&mut high, next(next(seed)), 7, 5);
    let _ = product::multiply::<Narrow>(&low, &high, &mut list);
    measure(&list, tally);
}

// So many lists of each kind.
fn random(lists: u64) {
    let mut tally = Tally::default();
    let mut seed = 88172645463325252u64;
    for _ in 0..lists {
        seed = next(seed);
        sparse(seed, &mut tally);
        dense(seed, &mut tally);
        composed(seed, &mut tally);
    }
    let _ = writeln!(Out, "random, {lists} of each kind{tally}");
}

// The four numbers of one question with a room of six words, each 9, and the room after it.
fn question(list: &[u64], x: u64, y: u64) {
    let mut room = [9; 6];
    let said = Answer::from(papers::together(list, x, y, &mut room));
    let _ = writeln!(
        Out,
        "code {} operand {} place {} count {} |{}",
        said.code,
        said.operand,
        said.place,
        said.count,
        Words(&room)
    );
}

// A list that is too long.
fn too_many() {
    let mut many = [0; 1025];
    fill(&mut many, 0);
    question(&many, 0, 1);
}

// What is refused, in the order of the checks, and two questions that are not.
fn endings() {
    too_many();
    question(&[2, 1], 0, 64);
    question(&[1, 2], 2, 2);
    question(&[1, 2], 0, 64);
    question(&[], 0, 1);
    question(&[1, 2, 4, 8], 1, 1);
    question(&[1, 2, 4, 8], 0, 1);
    question(&[1, 2], 0, 1);
    question(&[1, 2, 3], 1, 0);
    question(&[0, 1, 3], 0, 1);
    question(&[2, 3], 0, 1);
}

fn main() {
    small();
    large();
    random(300);
    endings();
}
