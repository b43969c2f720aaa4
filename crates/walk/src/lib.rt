// The product of two term lists that share no variable (RULES 2.1) held against a third list, up to the first difference. The
// product is walked in the order in which `unions` writes it, and nothing is written: it may be far longer than the list.
#![tactic(auto)]

ghost use Rattle.std.specs.Prelude.{◌≤◌, ◌≡◌, map, length};
ghost use Rattle.std.specs.Int.Bits.{bit_or};
ghost use Rattle.polys.specs.Poly.{times};
ghost use Rattle.unions.specs.Unions.{Factors, Wider};
ghost use Rattle.walk.specs.Walk.{Comparable, Alike, walked};
ghost use Rattle.walk.specs.Told.{Compared, way};

use term::Term;

// The first term that stands in one of two lists only: it is missing from the second, or extra in it.
#[derive(Clone, Copy)]
pub enum Difference<T> {
    Missing { u: T },
    Extra { u: T },
}

// All differences of f from the unions of one term with each of b: none just if f is these unions.
fn differences<T: Term>(t: T, b: &[u64], f: &[u64]) -> T
    requires { length (T.numbers f.now) ≡ length (T.numbers b.now) }
    ensures { T.value result ≡ 0 → Alike (T.value t) (T.numbers b.now) (T.numbers f.now) (length (T.numbers b.now)) }
{
    let mut all = T::none();
    for i in 0..T::count(b) {
        let u = t.or(T::at(b, i));
        all = all.or(u.xor(T::at(f, i)));
    }
    all
}

// The unions of one term with each of b beside the list f from a place on, one after the other: the place behind them if they all stand there.
// The list and the place stay two parameters, the bound between them in three contracts: a struct of both would be no plainer, since only the
// size of terms, which no field of it holds, says how long the list is.
fn stepped<T: Term>(t: T, b: &[u64], f: &[u64], at: usize) -> Result<usize, Difference<T>>
    requires { at ≤ length (T.numbers f.now) }
    ensures { way T.value result ≡ walked (map (bit_or (T.value t)) (T.numbers b.now)) (T.numbers f.now) at }
{
    let n = T::count(b);
    let m = T::count(f);
    for i in 0..n {
        let place = at + i;
        let u = t.or(T::at(b, i));
        if m <= place || u.less(T::at(f, place)) {
            return Err(Difference::Missing { u });
        }
        let other = T::at(f, place);
        if other.less(u) {
            return Err(Difference::Extra { u: other });
        }
    }
    Ok(at + n)
}

// The same, all at once where they agree.
fn row<T: Term>(t: T, b: &[u64], f: &[u64], at: usize) -> Result<usize, Difference<T>>
    requires { at ≤ length (T.numbers f.now) }
    ensures { way T.value result ≡ walked (map (bit_or (T.value t)) (T.numbers b.now)) (T.numbers f.now) at }
{
    let n = T::count(b);
    if n <= T::count(f) - at {
        let to = at + n;
        let part = &f[T::words(at)..T::words(to)];
        if differences(t, b, part).empty() {
            return Ok(to);
        }
    }
    stepped(t, b, f, at)
}

// The product of a and b beside the list f from a place on, by the runs of a in which it varies less than b: d is by how much b
// varies, and a varies by more. For each run the lists change their parts.
fn along<T: Term>(
    a: &[u64],
    b: &[u64],
    d: T,
    f: &[u64],
    start: usize,
) -> Result<usize, Difference<T>>
    requires wider { Wider (T.numbers a.now) (T.numbers b.now) (T.value d) }
    requires start_in_bounds { start ≤ length (T.numbers f.now) }
    ensures { way T.value result ≡ walked (times (T.numbers a.now) (T.numbers b.now)) (T.numbers f.now) start }
{
    let mut place = start;
    let mut rest = a;
    while T::count(rest) > 0 {
        let count = unions::run(rest, d);
        let (run, behind) = rest.split_at(T::words(count));
        let went = if count == 1 {
            row(T::at(run, 0), b, f, place)
        } else {
            along(b, run, unions::span(run), f, place)
        };
        place = went?;
        rest = behind;
    }
    Ok(place)
}

// The whole product beside the list f: a list of one term is a row, and of two others the one that varies by more is cut.
fn whole<T: Term>(a: &[u64], b: &[u64], f: &[u64]) -> Result<usize, Difference<T>>
    requires { Factors (T.numbers a.now) (T.numbers b.now) }
    ensures { way T.value result ≡ walked (times (T.numbers a.now) (T.numbers b.now)) (T.numbers f.now) 0 }
{
    if T::count(a) == 1 {
        return row(T::at(a, 0), b, f, 0);
    }
    if T::count(b) == 1 {
        return row(T::at(b, 0), a, f, 0);
    }
    let x: T = unions::span(a);
    let y: T = unions::span(b);
    if y.less(x) {
        return along(a, b, y, f, 0);
    }
    along(b, a, x, f, 0)
}

// The product of a and b held against the list f, term by term: the first difference of the list from the product, if it has one.
pub fn compared<T: Term>(a: &[u64], b: &[u64], f: &[u64]) -> Option<Difference<T>>
    requires { Comparable (T.numbers a.now) (T.numbers b.now) (T.numbers f.now) }
    ensures { Compared T.value (times (T.numbers a.now) (T.numbers b.now)) (T.numbers f.now) result }
{
    match whole(a, b, f) {
        Ok(at) if at < T::count(f) => Some(Difference::Extra { u: T::at(f, at) }),
        Ok(_) => None,
        Err(difference) => Some(difference),
    }
}
