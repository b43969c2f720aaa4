// What the four-list test reads off runs of terms without asking on: which variables are constant, where a run is cut, which lists
// agree. None of it is recursive. Only the bits below k are read.
#![tactic(auto)]

ghost use Rattle.std.specs.Prelude.{◌≡◌, ◌+◌, ◌^◌, ◌≤◌, ◌<◌, length};
ghost use Rattle.ring.specs.Run.{Decides, Cut, lacking, lows};
ghost use Rattle.ring.specs.Ends.{turning, varying, imbalance, uneven, Four};
ghost use Rattle.ring.specs.Lone.{Matched};
ghost use Rattle.runs.specs.Read.{Vanish, Within, Left, shape, Pairing};

use term::Term;

// Whether one of two lists is empty.
pub fn vanish<T: Term>(x: &[u64], y: &[u64]) -> bool
    ensures { Decides result (Vanish (T.numbers x.now) (T.numbers y.now)) }
{
    if T::count(x) == 0 {
        return true;
    }
    if T::count(y) == 0 {
        return true;
    }
    false
}

// How many terms two lists have together.
pub fn size<T: Term>(x: &[u64], y: &[u64]) -> usize
    ensures { (result ≡ length (T.numbers x.now) + length (T.numbers y.now)) × (result < 2 ^ 63) }
{
    T::count(x) + T::count(y)
}

// The variables on which the first and the last term of a list differ.
pub fn turn<T: Term>(l: &[u64]) -> T
    requires { 0 < length (T.numbers l.now) }
    ensures { T.value result ≡ turning (T.numbers l.now) }
{
    let end = T::count(l) - 1;
    T::at(l, 0).xor(T::at(l, end))
}

// The variables that are not constant in one of the four lists.
pub fn vary<T: Term>(a: &[u64], d: &[u64], b: &[u64], c: &[u64], k: u64) -> T
    requires { Four k (T.numbers a.now) (T.numbers d.now) (T.numbers b.now) (T.numbers c.now) }
    ensures { T.value result ≡ varying (T.numbers a.now) (T.numbers d.now) (T.numbers b.now) (T.numbers c.now) }
{
    let ad = turn::<T>(a).or(turn::<T>(d));
    let bc = turn::<T>(b).or(turn::<T>(c));
    ad.or(bc)
}

// The variables that do not stand equally often in p times q and in r times s.
pub fn balance<T: Term>(p: T, q: T, r: T, s: T) -> T
    ensures { T.value result ≡ imbalance (T.value p) (T.value q) (T.value r) (T.value s) }
{
    let one = p.xor(q).xor(r.xor(s));
    let two = p.and(q).xor(r.and(s));
    one.or(two)
}

// The variables that the first terms do not hold equally often on either side.
pub fn clash<T: Term>(a: &[u64], d: &[u64], b: &[u64], c: &[u64], k: u64) -> T
    requires { Four k (T.numbers a.now) (T.numbers d.now) (T.numbers b.now) (T.numbers c.now) }
    ensures { T.value result ≡ uneven (T.numbers a.now) (T.numbers d.now) (T.numbers b.now) (T.numbers c.now) }
{
    balance::<T>(T::at(a, 0), T::at(d, 0), T::at(b, 0), T::at(c, 0))
}

// How many variables are left if those on top are skipped that the mask does not hold.
pub fn left<T: Term>(m: T, k: u64) -> u64
    ensures { Left (T.value m) k result }
{
    let w = m.top();
    if w < k { w } else { k }
}

// Whether the mask holds a variable from w up to k.
pub fn within<T: Term>(m: T, w: u64, k: u64) -> bool
    requires { k ≤ T.LINES }
    ensures { Decides result (Within (T.value m) w k) }
{
    let n = m.low(k).top();
    if w < n {
        return true;
    }
    false
}

// Whether two lists agree, term by term, below bit k.
pub fn alike<T: Term>(a: &[u64], b: &[u64], k: u64) -> bool
    requires { k ≤ T.LINES }
    ensures { Decides result (lows k (T.numbers a.now) ≡ lows k (T.numbers b.now)) }
{
    let n = T::count(a);
    if n != T::count(b) {
        return false;
    }
    let mut i = 0;
    while i < n {
        let x = T::at(a, i).low(k);
        let y = T::at(b, i).low(k);
        if !x.same(y) {
            return false;
        }
        i += 1;
    }
    true
}

// Whether the terms of two lists match in order: u times the one is v times the other, below bit k.
pub fn matched<T: Term>(u: T, v: T, d: &[u64], c: &[u64], k: u64) -> bool
    requires { k ≤ T.LINES }
    ensures { Decides result (Matched k (T.value u) (T.value v) (T.numbers d.now) (T.numbers c.now)) }
{
    let n = T::count(d);
    if n != T::count(c) {
        return false;
    }
    let mut i = 0;
    while i < n {
        let left = balance(u, T::at(d, i), v, T::at(c, i)).low(k);
        if !left.empty() {
            return false;
        }
        i += 1;
    }
    true
}

// The index of the first term that holds variable k, or the length. The words of the terms before it are there.
pub fn cut<T: Term>(l: &[u64], k: u64) -> usize
    requires { (k < T.LINES) × Cut k (T.numbers l.now) }
    ensures { (result ≡ length (lacking k (T.numbers l.now))) × (T.room result ≤ length l.now) }
{
    let mut from = 0;
    let mut to = T::count(l);
    while from < to {
        let mid = from + (to - from) / 2;
        if T::at(l, mid).holds(k) {
            to = mid;
        } else {
            from = mid + 1;
        }
    }
    from
}

// How variable k stands in a list with these halves.
pub fn shape_of<T: Term>(l: &[u64], h: &[u64]) -> u64
    ensures { result ≡ shape (T.numbers l.now) (T.numbers h.now) }
{
    if T::count(l) == 0 {
        return 1;
    }
    if T::count(h) == 0 {
        return 0;
    }
    2
}

// Which operands of the two sides have one shape.
pub fn pairing<T: Term>(s: u64, t: u64, u: u64, v: u64) -> u64
    ensures { Pairing result s t u v }
{
    if s == u {
        if t == v {
            return 0;
        }
    }
    if s == v {
        if t == u {
            return 1;
        }
    }
    2
}
