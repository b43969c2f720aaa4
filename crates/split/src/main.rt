// The program `split` (RULES 6): reads a block from standard input and prints its parts, or the refusal.
// Thin over the proved library: each term of a part is spelled by the library's own writer, so the form of its text is proved (RULES 12.1).
// That it is these bytes that come out, and the lines around them, is tested, not proved. What cannot be written is passed over: the
// program has no status of its own, and bin/split looks at what came out.
#![tactic(auto)]

use answer::{Answer, Refusal};
use narrow::Narrow;
use parts::Outputs;
use show::Out;
use std::fmt::Write;
use terms::TermList;

// One byte more than the longest block has, so that a longer input is seen to be longer.
const MOST_BYTES: usize = 8196;

// A term and the byte behind it. The longest has 246 bytes: three for each of the first ten variables, four for each of the others.
#[tactic(auto, using(spell::proofs::Longest::spelled_longest))]
fn print_term(term: u64, behind: u8) {
    let mut text = [0; 246];
    let n = spell::put_term(&mut text, 0, term, behind);
    Out.put(&text[..n]);
}

// The terms of a part, ascending, a `+` behind each but the last, and a line feed behind that.
fn print_part(part: &[u64]) {
    if let Some((last, others)) = part.split_last() {
        for term in others {
            print_term(*term, b'+');
        }
        print_term(*last, b'\n');
    }
}

// `parts K`, then a line for each part. Lengths that reach behind the terms do not occur: split's contract rules them out.
fn print_parts(count: u64, part_terms: &[u64], part_lengths: &[u64]) {
    let _ = writeln!(Out, "parts {count}");
    let mut rest = part_terms;
    for length in part_lengths.iter().take(count as usize) {
        let Some((part, behind)) = rest.split_at_checked(*length as usize) else {
            return;
        };
        print_part(part);
        rest = behind;
    }
}

// Splits a list and prints its parts.
fn split_list(list: &[u64]) -> Result<(), Refusal> {
    let mut terms = [0; TermList::MAX_TERMS + TermList::MAX_VARS];
    let mut lengths = [0; TermList::MAX_VARS];
    let mut work = [0; 4 * TermList::MAX_TERMS];
    let mut outputs = Outputs {
        terms: &mut terms,
        lengths: &mut lengths,
        work: &mut work,
    };
    let count = parts::split::<Narrow>(list, &mut outputs)?;
    print_parts(count, &terms, &lengths);
    Ok(())
}

// Splits the list of a block and prints its parts. More words than there are do not occur: read's contract rules them out.
fn split_block(block: &[u8]) -> Result<(), Refusal> {
    let mut words = [0; TermList::MAX_TERMS];
    let t = block::read(block, &mut words)?;
    match words.get(..t as usize) {
        Some(list) => split_list(list),
        None => Ok(()),
    }
}

fn main() {
    let mut bytes = [0; MOST_BYTES];
    // not by std's readers, whose buffers are a Vec: input that fails is input that ends here, and bin/split watches its side
    let n = io::read_full(0, &mut bytes);
    if let Err(refusal) = split_block(&bytes[..n]) {
        let Answer {
            code,
            operand,
            place,
            ..
        } = Answer::from(Err(refusal));
        let _ = writeln!(Out, "refused {code} {operand} {place}");
    }
}
