// Runs the block examples (RULES 7.4) over read and write, with more for the order of the checks and their notes (RULES 5.3), and prints what it found:
// the block or the terms, the four numbers, and the whole lent buffer. The buffer holds 9 or ee in every place before the call.
// What cannot be written is passed over: the program has no status of its own.
#![tactic(auto)]

use show::{Bytes, Numbers, Out, Words, fill, starts_with};
use std::fmt::Write;

fn read_into(block: &[u8], out: &mut [u64]) {
    let said = Numbers(block::read(block, out));
    let _ = writeln!(Out, "read{}{said} |{}", Bytes(block), Words(out));
}

fn write_into(terms: &[u64], out: &mut [u8]) {
    let said = Numbers(block::write(terms, out));
    let _ = writeln!(Out, "write{}{said} |{}", Words(terms), Bytes(out));
}

// Read, with room for six terms.
fn read(block: &[u8]) {
    read_into(block, &mut [9; 6]);
}

// Read, with room for one term.
fn read_one(block: &[u8]) {
    read_into(block, &mut [9]);
}

// Write, with room for twelve bytes.
fn write(terms: &[u64]) {
    write_into(terms, &mut [0xee; 12]);
}

// Write, with room for four bytes.
fn write_four(terms: &[u64]) {
    write_into(terms, &mut [0xee; 4]);
}

// The blocks of RULES 7.4 and 6.4.
fn of_the_rules() {
    read(b"\x10\x00\x00");
    read(b"\x10\x00\x01");
    read(b"\x10\x60\x04\x2a\xe0");
    read(b"\x10\x60\x04\x2a\xe1");
    read(b"\x10\x60\x04\x2a");
    read(b"\x10\x60\x04\x2a\xe0\x00");
    read(b"\x20\x00\x01");
    read(b"\x10\x00\x02");
    read(b"\x10\x20\x01\x00");
}

// The order of the checks: under 3 bytes before the form, the header's checks before the length, room before what the terms say.
fn order_of_checks() {
    read(b"");
    read(b"\x20");
    read(b"\x20\x00");
    read(b"\x2f\xff\xff");
    read(b"\x1f\xff\xff");
    read(b"\x18\x20\x00");
    read(b"\x10\x24\x01");
    read(b"\x10\x40\x04");
    read_one(b"\x10\x00\x02");
    read_one(b"\x10\x60\x04\x2a\xe1");
    read_one(b"\x10\x00\x00");
    read(b"\x10\x60\x02\x20");
    read(b"\x10\x60\x02\x09");
    read(b"\x10\x60\x02\x25");
}

// Zero with a larger n, terms without variables, bytes behind the block, the highest variable, the first of several in disorder.
fn corners() {
    read(b"\x10\x20\x00");
    read(b"\x18\x00\x00");
    read(b"\x10\x00\x03");
    read(b"\x10\x00\x00\x00");
    read(b"\x10\x00\x01\x00");
    read(b"\x18\x00\x01\x80\x00\x00\x00\x00\x00\x00\x00");
    read(b"\x18\x00\x01\x7f\xff\xff\xff\xff\xff\xff\xff");
    read(b"\x10\x40\x02\x90");
    read(b"\x10\x40\x02\xf0");
    read(b"\x10\x40\x03\x68");
    read(b"\x10\x20\x02\x40");
}

// The lists of the same blocks, and those that write refuses.
fn lists() {
    write(&[]);
    write(&[0]);
    write(&[1, 2, 5, 6]);
    write(&[0, 1]);
    write(&[9223372036854775808]);
    write(&[1, 1]);
    write(&[2, 1]);
    write(&[1, 2, 2]);
    write_four(&[1, 2, 5, 6]);
    write_four(&[64, 1]);
    write_four(&[0, 1]);
}

// Writes a list that is too long to print, reads the block back and says whether the list came back.
fn write_and_read(terms: &[u64], bytes: &mut [u8], back: &mut [u64]) {
    let written = block::write(terms, bytes);
    let _ = write!(Out, "write {} terms{}", terms.len(), Numbers(written));
    if let Some(block) = bytes.get(..written.unwrap_or(0) as usize) {
        let said = Numbers(block::read(block, back));
        let _ = write!(Out, ", read{said}");
    }
    let found = if starts_with(back, terms) {
        ", the same list\n"
    } else {
        ", no list\n"
    };
    let _ = Out.write_str(found);
}

// The largest lists: ten variables, 64 variables, and one term too many.
fn large() {
    let mut bytes = [0xee; 8195];
    let mut back = [9; 1025];
    let mut terms = [0; 1024];
    fill(&mut terms, 0);
    write_and_read(&terms, &mut bytes, &mut back);
    fill(&mut terms, 54);
    write_and_read(&terms, &mut bytes, &mut back);
    let mut more = [0; 1025];
    fill(&mut more, 0);
    write_and_read(&more, &mut bytes, &mut back);
}

fn main() {
    of_the_rules();
    order_of_checks();
    corners();
    lists();
    large();
}
