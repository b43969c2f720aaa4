// Runs the examples of RULES 7 over split, multiply and same products, with more for the order of the checks and their notes (RULES 5.3),
// and prints what it found: the call, its lists, the four numbers, and every lent buffer whole. A buffer holds 9 in every place before the
// call; `9(64)` at a buffer's end is 64 words of 9. The examples stand in the file stdin, which the program reads. What cannot be written
// is passed over: the program has no status of its own.
#![tactic(auto)]

mod calls;
mod cases;

fn main() {
    let mut text = [0; 8192];
    // not by std's readers, whose buffers are a Vec and whose lines are no bytes: a read that fails is the end of the text here
    let n = io::read_full(0, &mut text);
    cases::run_each(&text[..n]);
}
