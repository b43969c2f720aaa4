// The term list (RULES 1): its limits, its record, the order check and its variables.
#![tactic(auto)]

ghost use Rattle.std.specs.Prelude.{◌≡◌, length};
ghost use Rattle.std.specs.Int.Bits.{bit_and};
ghost use Rattle.polys.specs.Poly.{vars};
ghost use Rattle.narrow.specs.Numbers.{value, numbers};
ghost use Rattle.terms.specs.Order.{unordered};

use narrow::Narrow;
use term::Term;

// What is known of a lent list of terms in one word each: how many there are, and which variables stand in them.
#[derive(Clone, Copy)]
pub struct TermList {
    pub count: usize,
    pub vars: Narrow,
}

impl TermList {
    // A list has at most this many terms, whatever their size.
    pub const MAX_TERMS: usize = 1024;
    // A variable number is below this.
    pub const MAX_VARS: usize = Narrow::LINES;

    // The record of a lent list.
    pub fn of(terms: &[u64]) -> Self
        ensures { (result.count ≡ length (numbers terms.now)) × (value result.vars ≡ vars (numbers terms.now)) }
    {
        Self {
            count: Narrow::count(terms),
            vars: variables(terms),
        }
    }
}

// The first index whose term is not above the one before it, or the length.
pub fn first_unordered<T: Term>(terms: &[u64]) -> usize
    ensures { result ≡ unordered (T.numbers terms.now) }
{
    let n = T::count(terms);
    if n == 0 {
        return 0;
    }
    let mut last = T::at(terms, 0);
    let mut i = 1;
    // RULES 10.2 asks for this form: a loop that breaks with the first offending index, or with the length.
    let at = loop {
        if n <= i {
            break n;
        }
        let next = T::at(terms, i);
        if !last.less(next) {
            break i;
        }
        last = next;
        i += 1;
    };
    at
}

// The variables of a list: those that some term holds.
pub fn variables<T: Term>(terms: &[u64]) -> T
    ensures { T.value result ≡ vars (T.numbers terms.now) }
{
    let mut all = T::none();
    for i in (0..T::count(terms)).rev() {
        all = T::at(terms, i).or(all);
    }
    all
}

// The variables that two lists share.
pub fn shared<T: Term>(a: &[u64], b: &[u64]) -> T
    ensures { T.value result ≡ bit_and (vars (T.numbers a.now)) (vars (T.numbers b.now)) }
{
    let first: T = variables(a);
    first.and(variables(b))
}
