// Reads the cases from a text, a line for each: the call and its lists as RULES 7 writes them, `{1,2,5,6}`, `{0..1023}` or
// `{32j, j = 0..31}`; then how many words are lent for each buffer, a blank before each. Where the lists are printed otherwise than they
// are read, what is printed stands before them, and a bar behind it. Lines that are empty or begin with `#` are passed over.
use super::calls;
use arrayvec::ArrayVec;

// The words of a line. They are lent to its reading, and cleared for the next: new ones are 32 KB of zeros.
type Words = ArrayVec<u64, 4100>;

// How far the lists of a line are read: a number, if one has begun, the start of the run that it ends, if there is one, and the run's
// step; and where the last four lists end among the words, a number outside of a list being one too.
#[derive(Clone, Copy)]
pub struct Reading {
    pub number: Option<u64>,
    pub run: Option<u64>,
    pub step: u64,
    pub ends: [usize; 4],
}

impl Reading {
    fn new() -> Reading {
        Reading {
            number: None,
            run: None,
            step: 1,
            ends: [0; 4],
        }
    }

    // Puts `from` and as many more words as there are numbers from there to `to`, each a step above the one before it, while there is room.
    fn put(self, from: u64, to: u64, words: &mut Words) {
        for k in 0..=to.wrapping_sub(from) {
            let word = from.wrapping_add(self.step.wrapping_mul(k));
            if words.try_push(word).is_err() {
                return;
            }
        }
    }

    // A number ends with the character c: it is where a run begins, the step of one, or a word or the last of a run.
    fn number_ends(&mut self, number: u64, c: u8, words: &mut Words) {
        match c {
            b'.' => self.run = self.run.or(Some(number)),
            b'j' => self.step = number,
            _ => {
                let from = self.run.take().unwrap_or(number);
                self.put(from, number, words);
                self.step = 1;
            }
        }
    }

    fn list_ends(&mut self, words: &Words) {
        let [_, a, b, c] = self.ends;
        self.ends = [a, b, c, words.len()];
    }

    // One character more.
    fn read(&mut self, c: u8, words: &mut Words) {
        if c.is_ascii_digit() {
            let ten_times = self.number.unwrap_or(0).wrapping_mul(10);
            self.number = Some(ten_times.wrapping_add(u64::from(c & 15)));
            return;
        }
        let number = self.number.take();
        if let Some(number) = number {
            self.number_ends(number, c, words);
        }
        if c == b'}' || number.is_some() && (c == b' ' || c == b'\n') {
            self.list_ends(words);
        }
    }
}

// What is printed of a line, up to its bar or else to its last list, and where its lists are read.
fn name_and_lists(line: &[u8]) -> (&[u8], &[u8]) {
    match line.iter().rposition(|c| *c == b'|') {
        Some(bar) => (&line[..bar], &line[bar..]),
        None => {
            let end = line.iter().rposition(|c| *c == b'}').map_or(0, |i| i + 1);
            (&line[..end], line)
        }
    }
}

// Runs the call of a line.
fn run(line: &[u8], words: &mut Words) {
    let (name, lists) = name_and_lists(line);
    let mut reading = Reading::new();
    words.clear();
    for c in lists {
        reading.read(*c, words);
    }
    calls::run(name, words, reading.ends);
}

// Runs all cases of the text. What stands behind the last line feed is none.
pub fn run_each(text: &[u8]) {
    let mut words = Words::new();
    for line in text.split_inclusive(|c| *c == b'\n') {
        if line.ends_with(b"\n") {
            run(line, &mut words);
        }
    }
}
