// A term, the set of its variables, and lists of terms that stand in words. A type that implements `Term` says how many words a term takes;
// what is written against the trait serves each size.
#![tactic(auto)]

ghost use Rattle.std.specs.Prelude.{◌≡◌, ℕ, List, ◌+◌, ◌-◌, ◌*◌, ◌%◌, ◌^◌, ◌≤◌, ◌<◌, ltb, eqb, length, get_or, set};
ghost use Rattle.std.specs.Int.Bits.{bit_and, bit_or, bit_xor};
ghost use Rattle.digits.specs.Number.{bits};
ghost use Rattle.digits.specs.Carry.{Put};
ghost use Rattle.masks.specs.Bit.{bit, without};
ghost use Rattle.masks.specs.Width.{width};
ghost use Rattle.term.specs.Laws.{Laws};

// A term. A set of variables is written the same way.
pub trait Term: Copy + Drop {
    // the number of a term
    ghost value: { Self → ℕ };

    // the terms that stand in the words
    ghost numbers: { List ℕ → List ℕ };

    // how many words so many terms take
    ghost room: { ℕ → ℕ };

    // how many variables there are: the input lines of a board
    ghost LINES: { ℕ };

    // what is known of words and of the terms in them
    ghost laws: { Laws numbers room LINES };

    // A variable number is below this.
    const LINES: usize;

    // How many terms stand in the words.
    fn count(words: &[u64]) -> usize
        ensures { result ≡ length (numbers words.now) };

    // How many words so many terms take.
    fn words(terms: usize) -> usize
        requires { room terms < 2 ^ 64 }
        ensures { result ≡ room terms };

    // The term at a place.
    fn at(words: &[u64], i: usize) -> Self
        requires { i < length (numbers words.now) }
        ensures { value result ≡ get_or (numbers words.now) i 0 };

    // Writes a term at a place.
    fn put(words: &mut [u64], i: usize, t: Self)
        requires { i < length (numbers words.old) }
        ensures { numbers words.new ≡ set (numbers words.old) i (value t) };

    // No variable: the term 1, the empty set.
    fn none() -> Self
        ensures { value result ≡ 0 };

    // The set whose number is a word.
    fn of(word: u64) -> Self
        ensures { value result ≡ word };

    // The variables of either: the product of two terms that share none.
    fn or(self, b: Self) -> Self
        ensures { value result ≡ bit_or (value self) (value b) };

    // The variables of both.
    fn and(self, b: Self) -> Self
        ensures { value result ≡ bit_and (value self) (value b) };

    // The variables of just one.
    fn xor(self, b: Self) -> Self
        ensures { value result ≡ bit_xor (value self) (value b) };

    // The variables that are not in b.
    fn off(self, b: Self) -> Self
        ensures { value result ≡ without (value b) (value self) };

    // Whether the number is below that of b.
    fn less(self, b: Self) -> bool
        ensures { result ≡ ltb (value self) (value b) };

    // Whether it is b.
    fn same(self, b: Self) -> bool
        ensures { result ≡ eqb (value self) (value b) };

    // Whether there is no variable.
    fn empty(self) -> bool
        ensures { result ≡ eqb (value self) 0 };

    // The lowest variable; the empty set has none.
    fn lowest(self) -> Self
        ensures { value result ≡ without (value self - 1) (value self) };

    // Whether it holds variable k.
    fn holds(self, k: u64) -> bool
        requires { k < LINES }
        ensures { result ≡ bit (value self) k };

    // Its variables below k.
    fn low(self, k: u64) -> Self
        requires { k ≤ LINES }
        ensures { value result ≡ value self % 2 ^ k };

    // One more than the highest variable, 0 for the empty set.
    fn top(self) -> u64
        ensures { result ≡ width (value self) };

    // The field of n bits at bit `at` of a row of bytes, as a term.
    fn field(bytes: &[u8], at: usize, n: usize) -> Self
        requires { (n ≤ LINES) × (at + n < 2 ^ 64) × (at + n ≤ 8 * length bytes.now) }
        ensures { value result ≡ bits bytes.now at n };

    // Puts the n bits of the term behind the bits that stand before bit `at`. Those of them that fill no byte yet are lent as `carry`, and what
    // fills no byte afterwards comes back.
    fn put_field(self, out: &mut [u8], at: usize, carry: u64, n: usize) -> u64
        requires { (carry < 2 ^ (at % 8)) × (value self < 2 ^ n) × (n ≤ LINES) × (at + n < 2 ^ 64) × (at + n ≤ 8 * length out.old) }
        ensures { Put out.old at carry (value self) n out.new result };
}
