// The product of two term lists that share no variable, written in ascending order at once (RULES 2.1), with no sorting and no
// work area: the list that varies by more is cut into runs that vary by less than the other list, and the runs' products stand
// one behind the other. A run varies less than the list it is cut from, so the recursion is no deeper than there are variables.
#![tactic(auto)]

ghost use Rattle.std.specs.Prelude.{◌*◌, ◌<◌, ◌≡◌, map, length};
ghost use Rattle.std.specs.Int.Bits.{bit_or};
ghost use Rattle.polys.specs.Poly.{times};
ghost use Rattle.unions.specs.Unions.{Ready, Wider, Run, span};

use term::Term;

// The unions of one term with each of b.
fn row<T: Term>(t: T, b: &[u64], out: &mut [u64])
    requires { length (T.numbers out.old) ≡ length (T.numbers b.now) }
    ensures { T.numbers out.new ≡ map (bit_or (T.value t)) (T.numbers b.now) }
{
    for i in 0..T::count(b) {
        T::put(out, i, t.or(T::at(b, i)));
    }
}

// By how much the terms of a list vary: what its first and its last differ by.
pub fn span<T: Term>(a: &[u64]) -> T
    requires { 0 < length (T.numbers a.now) }
    ensures { T.value result ≡ span (T.numbers a.now) }
{
    let n = T::count(a);
    T::at(a, 0).xor(T::at(a, n - 1))
}

// How many terms, from the first, differ from it by at most d.
pub fn run<T: Term>(a: &[u64], d: T) -> usize
    requires { 0 < length (T.numbers a.now) }
    ensures { Run (T.numbers a.now) (T.value d) result }
{
    let n = T::count(a);
    let first = T::at(a, 0);
    for i in 1..n {
        if d.less(first.xor(T::at(a, i))) {
            return i;
        }
    }
    n
}

// All unions, by the runs of a in which it varies less than b: d is by how much b varies, and a varies by more. For each run
// the lists change their parts. The list b is lent as a part of itself: handed on as it came it is copied in one piece, which stalls.
fn by_runs<T: Term>(a: &[u64], b: &[u64], d: T, out: &mut [u64])
    requires out_len { length (T.numbers out.old) ≡ length (T.numbers a.now) * length (T.numbers b.now) }
    requires wider { Wider (T.numbers a.now) (T.numbers b.now) (T.value d) }
    ensures { T.numbers out.new ≡ times (T.numbers a.now) (T.numbers b.now) }
{
    let m = T::count(a);
    let n = T::count(b);
    let all = b.len();
    let mut at = 0;
    while at < m {
        let from = T::words(at);
        let count = run(&a[from..], d);
        let to = at + count;
        let upto = T::words(to);
        let start = T::words(at * n);
        let end = T::words(to * n);
        if count == 1 {
            row(T::at(a, at), b, &mut out[start..end]);
            at = to;
            continue;
        }
        let less = T::at(a, at).xor(T::at(a, to - 1));
        by_runs(&b[0..all], &a[from..upto], less, &mut out[start..end]);
        at = to;
    }
}

// All unions of a term of a with a term of b, ascending.
pub fn unions<T: Term>(a: &[u64], b: &[u64], out: &mut [u64])
    requires { Ready (T.numbers a.now) (T.numbers b.now) (length (T.numbers out.old)) }
    ensures { T.numbers out.new ≡ times (T.numbers a.now) (T.numbers b.now) }
{
    if T::count(a) == 1 {
        row(T::at(a, 0), b, out);
        return;
    }
    if T::count(b) == 1 {
        row(T::at(b, 0), a, out);
        return;
    }
    let x: T = span(a);
    let y: T = span(b);
    if y.less(x) {
        by_runs(a, b, y, out);
    } else {
        by_runs(b, a, x, out);
    }
}
