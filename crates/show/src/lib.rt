// What the programs that run the examples of RULES 7 print, as `{}` writes it: bytes, words, lists, whole buffers and the four numbers; and
// the long lists that they make and compare. What is printed is tested, not proved.
#![tactic(auto)]

ghost use Rattle.std.specs.Prelude.{◌≤◌, ◌<◌, ◌≡◌, length};
ghost use Rattle.show.specs.Lists.{Counted, starts_with};

use answer::{Answer, Outcome};
use std::fmt::{self, InlineText};

// The number of standard output.
const STDOUT: i32 = 1;

// Standard output, over the C library's write alone. A piece that cannot be written is passed over, and the next one is tried: no
// program that prints here has a status of its own.
#[derive(Clone, Copy)]
pub struct Out;

impl Out {
    pub fn put(self, bytes: &[u8]) {
        let _ = io::write_all(STDOUT, bytes);
    }
}

impl fmt::Write for Out {
    fn write_str(&mut self, s: &str) -> fmt::Result {
        self.put(s.as_bytes());
        Ok(())
    }
}

// A byte as two hex digits, which are one piece of what is printed.
#[derive(Clone, Copy)]
pub struct Hex(pub u8);

impl fmt::Display for Hex {
    fn fmt<W: fmt::Write>(&self, f: &mut fmt::Formatter<W>) -> fmt::Result {
        let byte = self.0;
        let digits = InlineText::<2>::of(format_args!("{byte:02x}"));
        f.write_str(digits.as_str())
    }
}

// The bytes in hex, a space before each.
#[derive(Clone, Copy)]
pub struct Bytes<'a>(pub &'a [u8]);

impl fmt::Display for Bytes<'_> {
    fn fmt<W: fmt::Write>(&self, f: &mut fmt::Formatter<W>) -> fmt::Result {
        for byte in self.0 {
            write!(f, " {}", Hex(*byte))?;
        }
        Ok(())
    }
}

// The words in decimal, a space before each.
#[derive(Clone, Copy)]
pub struct Words<'a>(pub &'a [u64]);

impl fmt::Display for Words<'_> {
    fn fmt<W: fmt::Write>(&self, f: &mut fmt::Formatter<W>) -> fmt::Result {
        for word in self.0 {
            write!(f, " {word}")?;
        }
        Ok(())
    }
}

// The four numbers of how a call ended, as `: 0 0 0 4`.
#[derive(Clone, Copy)]
pub struct Numbers(pub Outcome);

impl fmt::Display for Numbers {
    fn fmt<W: fmt::Write>(&self, f: &mut fmt::Formatter<W>) -> fmt::Result {
        let Answer {
            code,
            operand,
            place,
            count,
        } = Answer::from(self.0);
        write!(f, ": {code} {operand} {place} {count}")
    }
}

// A list as RULES 7 writes it, `{1,2,5,6}`.
#[derive(Clone, Copy)]
pub struct Listed<'a>(pub &'a [u64]);

impl fmt::Display for Listed<'_> {
    fn fmt<W: fmt::Write>(&self, f: &mut fmt::Formatter<W>) -> fmt::Result {
        write!(f, "{{")?;
        for (i, word) in self.0.iter().enumerate() {
            let comma = if i == 0 { "" } else { "," };
            write!(f, "{comma}{word}")?;
        }
        write!(f, "}}")
    }
}

// A whole buffer: its words, and the last one once for all that are equal to it up to the end, with their number: ` 1 2 0 4 9(64)`.
#[derive(Clone, Copy)]
pub struct Buffer<'a>(pub &'a [u64]);

impl fmt::Display for Buffer<'_> {
    fn fmt<W: fmt::Write>(&self, f: &mut fmt::Formatter<W>) -> fmt::Result {
        let (others, run) = self.0.split_at(last_run(self.0));
        match run {
            [word, _, ..] => write!(f, "{} {word}({})", Words(others), run.len()),
            _ => write!(f, "{}", Words(self.0)),
        }
    }
}

// Where the words begin that are equal to the last one up to the end.
fn last_run(words: &[u64]) -> usize
    ensures { result ≤ length words.now }
{
    words
        .iter()
        .rposition(|word| Some(word) != words.last())
        .map_or(0, |i| i + 1)
}

// A buffer that may begin with a long list: then the list's name, and what lies behind it.
#[derive(Clone, Copy)]
pub struct Long<'a> {
    pub buffer: &'a [u64],
    pub list: &'a [u64],
    pub name: &'a str,
}

impl fmt::Display for Long<'_> {
    fn fmt<W: fmt::Write>(&self, f: &mut fmt::Formatter<W>) -> fmt::Result {
        match self.buffer.strip_prefix(self.list) {
            Some(behind) => write!(f, "{}{}", self.name, Buffer(behind)),
            None => write!(f, "{}", Buffer(self.buffer)),
        }
    }
}

// Puts into each place its index, moved up by `shift` bits.
pub fn fill(terms: &mut [u64], shift: usize)
    requires { shift < 64 }
    ensures { Counted terms.new (length terms.old) shift }
{
    for (i, term) in terms.iter_mut().enumerate() {
        *term = (i as u64) << shift;
    }
}

// Whether the list stands at the start of the buffer: the library's method, in a function whose promise a wrong program is held against.
pub fn starts_with(buffer: &[u64], terms: &[u64]) -> bool
    ensures { result ≡ starts_with buffer.now terms.now }
{
    buffer.starts_with(terms)
}
