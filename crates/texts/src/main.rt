// Runs examples of the reader and the writer of text (RULES 12) and prints what it found: the call, its text or its list, the four numbers
// and the whole lent buffer; behind a text that was written, what the reader says of it. A buffer holds 99 or hex ee in every place before
// the call; `99(6)` at a buffer's end is six words of 99, and `\xee(6)` six bytes of ee. Of a text that is too long to print there
// is printed how many bytes it has, and the last of them. What cannot be written is passed over: the program has no status of its own.
//
// The examples stand in the file stdin, a line for each: a digit, which says how many words are lent, and a text to read (made.rt); or `write`,
// how many bytes are lent, how many terms the list to write has, and the first of these, from the last of which the others count up. Other
// lines are passed over.
#![tactic(auto)]

mod calls;
mod made;
mod printed;

// Runs the call of a line, which its first character says.
fn run(line: &[u8], text: &mut made::Text) {
    match line {
        [b'w', ..] => calls::write(line),
        [digit @ b'0'..=b'9', ..] => calls::read(line, *digit, text),
        _ => {}
    }
}

// Runs the calls of all lines. What stands behind the last line feed is no line.
fn run_each(lines: &[u8]) {
    let mut text = made::Text::new();
    for line in lines.split_inclusive(|c| *c == b'\n') {
        if let Some(line) = line.strip_suffix(b"\n") {
            run(line, &mut text);
        }
    }
}

fn main() {
    let mut lines = [0; 16384];
    // not by std's readers, whose buffers are a Vec and whose lines are no bytes: a read that fails is the end of the lines here
    let n = io::read_full(0, &mut lines);
    run_each(&lines[..n]);
}
