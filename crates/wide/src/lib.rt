// A term in two words, the low one first in a list, and lists of terms in words: the larger of the two sizes.
#![tactic(auto)]

ghost use Rattle.wide.specs.Numbers.{value, numbers, room, lines};
ghost use Rattle.wide.specs.Laws.{laws};

pub use term::Term;

// A term: the set of its variables. A set of variables is written the same way. The high word stands first here, so that the derived order
// is that of the numbers.
#[derive(Clone, Copy, PartialEq, Eq, PartialOrd, Ord)]
pub struct Wide {
    pub high: u64,
    pub low: u64,
}

impl Term for Wide {
    ghost value = { value };

    ghost numbers = { numbers };

    ghost room = { room };

    ghost LINES = { lines };

    ghost laws = { laws };

    const LINES: usize = 128;

    fn count(words: &[u64]) -> usize {
        words.len() / 2
    }

    fn words(terms: usize) -> usize {
        2 * terms
    }

    fn at(words: &[u64], i: usize) -> Self {
        Self {
            low: words[2 * i],
            high: words[2 * i + 1],
        }
    }

    fn put(words: &mut [u64], i: usize, t: Self) {
        words[2 * i] = t.low;
        words[2 * i + 1] = t.high;
    }

    fn none() -> Self {
        Self { low: 0, high: 0 }
    }

    fn of(word: u64) -> Self {
        Self { low: word, high: 0 }
    }

    fn or(self, b: Self) -> Self {
        Self {
            low: self.low | b.low,
            high: self.high | b.high,
        }
    }

    fn and(self, b: Self) -> Self {
        Self {
            low: self.low & b.low,
            high: self.high & b.high,
        }
    }

    fn xor(self, b: Self) -> Self {
        Self {
            low: self.low ^ b.low,
            high: self.high ^ b.high,
        }
    }

    fn off(self, b: Self) -> Self {
        Self {
            low: self.low ^ (self.low & b.low),
            high: self.high ^ (self.high & b.high),
        }
    }

    fn less(self, b: Self) -> bool {
        self < b
    }

    fn same(self, b: Self) -> bool {
        self == b
    }

    fn empty(self) -> bool {
        if self.high == 0 {
            return self.low == 0;
        }
        false
    }

    fn lowest(self) -> Self {
        if self.low > 0 {
            return Self {
                low: self.low ^ (self.low & (self.low - 1)),
                high: 0,
            };
        }
        if self.high > 0 {
            return Self {
                low: 0,
                high: self.high ^ (self.high & (self.high - 1)),
            };
        }
        Self { low: 0, high: 0 }
    }

    fn holds(self, k: u64) -> bool {
        if k < 64 {
            return (self.low >> k) & 1 == 1;
        }
        (self.high >> (k - 64)) & 1 == 1
    }

    fn low(self, k: u64) -> Self {
        if k < 64 {
            return Self {
                low: self.low & ((1 << k) - 1),
                high: 0,
            };
        }
        if k < 128 {
            return Self {
                low: self.low,
                high: self.high & ((1 << (k - 64)) - 1),
            };
        }
        self
    }

    fn top(self) -> u64 {
        if self.high == 0 {
            return 64 - (u64::leading_zeros(self.low) as u64);
        }
        64 + (64 - (u64::leading_zeros(self.high) as u64))
    }

    fn field(bytes: &[u8], at: usize, n: usize) -> Self {
        if n <= 64 {
            let low = digits::field(bytes, at, n);
            return Self { low, high: 0 };
        }
        let high = digits::field(bytes, at, n - 64);
        let low = digits::field(bytes, at + (n - 64), 64);
        Self { low, high }
    }

    fn put_field(self, out: &mut [u8], at: usize, carry: u64, n: usize) -> u64 {
        if n <= 64 {
            return digits::put(out, at, carry, self.low, n);
        }
        let left = digits::put(out, at, carry, self.high, n - 64);
        digits::put(out, at + (n - 64), left, self.low, 64)
    }
}
