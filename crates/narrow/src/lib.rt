// A term in one word, and lists of terms in words: the smaller of the two sizes.
#![tactic(auto)]

ghost use Rattle.narrow.specs.Numbers.{value, numbers, room, lines};
ghost use Rattle.narrow.specs.Laws.{laws};

pub use term::Term;

// A term: the set of its variables. A set of variables is written the same way.
#[derive(Clone, Copy, PartialEq, Eq, PartialOrd, Ord)]
pub struct Narrow {
    pub bits: u64,
}

impl Term for Narrow {
    ghost value = { value };

    ghost numbers = { numbers };

    ghost room = { room };

    ghost LINES = { lines };

    ghost laws = { laws };

    const LINES: usize = 64;

    fn count(words: &[u64]) -> usize {
        words.len()
    }

    fn words(terms: usize) -> usize {
        terms
    }

    fn at(words: &[u64], i: usize) -> Self {
        Self { bits: words[i] }
    }

    fn put(words: &mut [u64], i: usize, t: Self) {
        words[i] = t.bits;
    }

    fn none() -> Self {
        Self { bits: 0 }
    }

    fn of(word: u64) -> Self {
        Self { bits: word }
    }

    fn or(self, b: Self) -> Self {
        Self {
            bits: self.bits | b.bits,
        }
    }

    fn and(self, b: Self) -> Self {
        Self {
            bits: self.bits & b.bits,
        }
    }

    fn xor(self, b: Self) -> Self {
        Self {
            bits: self.bits ^ b.bits,
        }
    }

    fn off(self, b: Self) -> Self {
        Self {
            bits: self.bits ^ (self.bits & b.bits),
        }
    }

    fn less(self, b: Self) -> bool {
        self < b
    }

    fn same(self, b: Self) -> bool {
        self == b
    }

    fn empty(self) -> bool {
        self.bits == 0
    }

    fn lowest(self) -> Self {
        if self.bits == 0 {
            return Self { bits: 0 };
        }
        Self {
            bits: self.bits ^ (self.bits & (self.bits - 1)),
        }
    }

    fn holds(self, k: u64) -> bool {
        (self.bits >> k) & 1 == 1
    }

    fn low(self, k: u64) -> Self {
        if k < 64 {
            return Self {
                bits: self.bits & ((1 << k) - 1),
            };
        }
        self
    }

    fn top(self) -> u64 {
        64 - (u64::leading_zeros(self.bits) as u64)
    }

    fn field(bytes: &[u8], at: usize, n: usize) -> Self {
        Self {
            bits: digits::field(bytes, at, n),
        }
    }

    fn put_field(self, out: &mut [u8], at: usize, carry: u64, n: usize) -> u64 {
        digits::put(out, at, carry, self.bits, n)
    }
}
