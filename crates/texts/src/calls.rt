// A call on what a line means, and what is printed of it.
use super::made;
use super::printed::{Rest, Text};
use show::{Buffer, Numbers, Out, starts_with};
use std::fmt::Write;

// Reads the text that a line means, with as many words lent as the digit says.
pub fn read(line: &[u8], digit: u8, text: &mut made::Text) {
    made::text(line, text);
    let mut out = [99; 10];
    let room = usize::from(digit & 15);
    if let Some(lent) = out.get_mut(..room) {
        let said = Numbers(text::read_text(text, lent));
        let _ = writeln!(Out, "read {}{said} |{}", Text(text), Buffer(lent));
    }
}

// What the reader says of a text that was written, and whether it gives the list back.
fn read_back(terms: &[u64], bytes: &[u8]) {
    let mut back = [99; 1100];
    let said = Numbers(text::read_text(bytes, &mut back));
    let same = if starts_with(&back, terms) {
        ", the same list"
    } else {
        ""
    };
    let _ = write!(Out, ", read{said}{same}");
}

// Writes a list, with so many bytes lent.
fn write_lent(terms: &[u64], room: usize) {
    let mut out = [0xee; 65600];
    if let Some(lent) = out.get_mut(..room) {
        let said = text::write_text(terms, lent);
        let _ = write!(Out, "{} | ", Numbers(said));
        if let Some((written, rest)) = lent.split_at_checked(said.unwrap_or(0) as usize) {
            let _ = write!(Out, "{}{}", Text(written), Rest(rest));
            if !written.is_empty() {
                read_back(terms, written);
            }
        }
        let _ = writeln!(Out);
    }
}

// Writes the list that a line means.
pub fn write(line: &[u8]) {
    let mut numbers = [0; 1100];
    made::numbers(line, &mut numbers);
    Out.put(line);
    if let [room, count, terms @ ..] = &numbers[..]
        && let Some(terms) = terms.get(..*count as usize)
    {
        write_lent(terms, *room as usize);
    }
}
