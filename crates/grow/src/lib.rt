// Growing a part: from one variable to the variables of its part. What the counts put with a variable is with it at once. Then
// what agrees with the first term, on y and outside, is picked, and the list is held against the product of the two picks: there is no
// difference, and y is the part; or the first difference says which variables belong to y as well.
#![tactic(auto)]

ghost use Rattle.std.specs.Prelude.{◌≡◌, ◌≤◌, ◌<◌, length};
ghost use Rattle.std.specs.Int.Bits.{bit_and};
ghost use Rattle.polys.specs.Poly.{vars};
ghost use Rattle.polys.specs.List.{Asc};
ghost use Rattle.masks.specs.Bit.{without};
ghost use Rattle.counts.specs.Planes.{Tallied};
ghost use Rattle.grow.specs.Steps.{Least, Agrees, Picks, Belongs, Brings, Growable, Laid, LaidWhole, Stands, PartOfLowest};
ghost use Rattle.grow.specs.Stepped.{Stepped};

use term::Term;
use walk::Difference;

// The least difference from t, on w, of a term that is on y what s is; there is such a term.
fn least<T: Term>(f: &[u64], y: T, w: T, s: T, t: T) -> T
    requires { Agrees (T.numbers f.now) (T.value y) (T.value s) }
    ensures { Least (T.numbers f.now) (T.value y) (T.value w) (T.value s) (T.value t) (T.value result) }
{
    let on = s.and(y);
    let mut d = w;
    for i in 0..T::count(f) {
        let u = T::at(f, i);
        if u.and(y).same(on) {
            let differs = u.xor(t).and(w);
            if differs.less(d) {
                d = differs;
            }
        }
    }
    d
}

// The variables that the first difference of the list and the product of its two picks puts with y; none if there is no difference.
fn brought<T: Term>(f: &[u64], inner: &[u64], outer: &[u64], y: T, w: T) -> T
    requires { Picks (T.numbers f.now) (T.value y) (T.value w) (T.numbers inner.now) (T.numbers outer.now) }
    ensures { Brings (T.numbers f.now) (T.value y) (T.value result) }
{
    let first = T::at(f, 0);
    match walk::compared(inner, outer, f) {
        None => T::none(),
        Some(Difference::Missing { u }) => least(f, y, w, u, u),
        Some(Difference::Extra { u }) => {
            let d = least(f, y, w, u, first);
            if !d.empty() {
                return d;
            }
            least(f, y, w, first, u)
        }
    }
}

// The variables of w, outside y, that the counts of the list put with x, which is in y; `alone` are the counts of all its terms.
fn counted<T: Term>(f: &[u64], alone: &[u64], x: T, y: T, w: T) -> T
    requires { Asc (T.numbers f.now) × Tallied (T.numbers f.now) (T.numbers alone.now)
        × (T.value w ≡ without (T.value y) (vars (T.numbers f.now))) × (bit_and (T.value x) (T.value y) ≡ T.value x) }
    ensures { Belongs (T.numbers f.now) (T.value y) (T.value result) }
{
    counts::uneven(f, alone, x, w)
}

// How many terms were picked for the part, and for the rest.
#[derive(Clone, Copy)]
pub struct Counts {
    pub part: usize,
    pub rest: usize,
}

// Into the one room, the terms that agree with the list's first term outside y, on y; and into the other those that agree with it on y,
// outside y. Each is written before it is known whether it stays.
// The list and the two rooms are lent one by one, here and below: of a struct that lends them each promise would also have to say that it
// still lends the same rooms.
fn lay_out<T: Term>(f: &[u64], inner: &mut [u64], outer: &mut [u64], y: T, w: T) -> Counts
    requires { (0 < length (T.numbers f.now)) × (length (T.numbers f.now) ≤ length (T.numbers inner.old))
        × (length (T.numbers f.now) ≤ length (T.numbers outer.old)) }
    ensures { Laid (T.numbers f.now) (T.value y) (T.value w) (T.numbers inner.new) (T.numbers outer.new) result.part result.rest }
{
    let first = T::at(f, 0);
    let on = first.and(y);
    let off = first.and(w);
    let mut part = 0;
    let mut rest = 0;
    for i in 0..T::count(f) {
        let t = T::at(f, i);
        let inside = t.and(y);
        let outside = t.and(w);
        T::put(inner, part, inside);
        T::put(outer, rest, outside);
        if outside.same(off) {
            part += 1;
        }
        if inside.same(on) {
            rest += 1;
        }
    }
    Counts { part, rest }
}

// The list itself, and the term 1: what is laid out where y is all variables.
fn lay_whole<T: Term>(f: &[u64], inner: &mut [u64], outer: &mut [u64]) -> Counts
    requires { (0 < length (T.numbers f.now)) × (length (T.numbers f.now) ≤ length (T.numbers inner.old))
        × (length (T.numbers f.now) ≤ length (T.numbers outer.old)) }
    ensures { LaidWhole (T.numbers f.now) (T.numbers inner.new) (T.numbers outer.new) result.part result.rest }
{
    let part = T::count(f);
    let end = T::words(part);
    copying::copy(&f[..end], &mut inner[..end]);
    T::put(outer, 0, T::none());
    Counts { part, rest: 1 }
}

// What one step finds: y is the whole part, with the part and the rest laid out; or it has to grow by more variables. Neither is an error or
// an absence, so it is an enum of its own.
#[derive(Clone, Copy)]
pub enum Step<T> {
    Whole(Counts),
    Grow(T),
}

// One step: y is all variables, or the list is held against the product of what is laid out. What a difference brings, brings with it
// what the counts put with it.
fn one_step<T: Term>(
    f: &[u64],
    inner: &mut [u64],
    outer: &mut [u64],
    alone: &[u64],
    y: T,
    all: T,
) -> Step<T>
    requires { Growable (T.numbers f.now) (T.value y) (T.value all) × Tallied (T.numbers f.now) (T.numbers alone.now)
        × (length (T.numbers f.now) ≤ length (T.numbers inner.old)) × (length (T.numbers f.now) ≤ length (T.numbers outer.old)) }
    ensures { Stepped T.value (T.numbers f.now) (T.value y) (T.numbers inner.new) (T.numbers outer.new) result }
{
    if y.same(all) {
        return Step::Whole(lay_whole::<T>(f, inner, outer));
    }
    let w = all.off(y);
    let counts = lay_out(f, inner, outer, y, w);
    let part = T::words(counts.part);
    let rest = T::words(counts.rest);
    let d = brought(f, &inner[..part], &outer[..rest], y, w);
    if d.empty() {
        return Step::Whole(counts);
    }
    let more = counted(f, alone, d.lowest(), y.or(d), w.off(d));
    Step::Grow(d.or(more))
}

// The variables of a part, and how many terms of the part and of the rest are laid out.
#[derive(Clone, Copy)]
pub struct Found<T> {
    pub y: T,
    pub counts: Counts,
}

// The part of the lowest variable of the list; `all` are its variables, and `alone` are the counts of its terms.
fn grown<T: Term>(
    f: &[u64],
    inner: &mut [u64],
    outer: &mut [u64],
    alone: &[u64],
    all: T,
) -> Found<T>
    requires { Growable (T.numbers f.now) 0 (T.value all) × (0 < T.value all) × Tallied (T.numbers f.now) (T.numbers alone.now)
        × (length (T.numbers f.now) ≤ length (T.numbers inner.old)) × (length (T.numbers f.now) ≤ length (T.numbers outer.old)) }
    ensures { PartOfLowest (T.numbers f.now) (T.value result.y)
        × Stands (T.numbers f.now) (T.value result.y) (T.numbers inner.new) (T.numbers outer.new) result.counts.part result.counts.rest }
{
    let x = all.lowest();
    let more = counted(f, alone, x, x, all.off(x));
    let mut y = x.or(more);
    loop {
        match one_step(f, inner, outer, alone, y, all) {
            Step::Whole(counts) => return Found { y, counts },
            Step::Grow(more) => y = y.or(more),
        }
    }
}

// The part of the lowest variable of the list, whose variables are `all`: the part is laid out in the one room, and the rest in the other.
pub fn part_of_lowest<T: Term>(f: &[u64], inner: &mut [u64], outer: &mut [u64], all: T) -> Found<T>
    requires { Growable (T.numbers f.now) 0 (T.value all) × (0 < T.value all)
        × (length (T.numbers f.now) ≤ length (T.numbers inner.old)) × (length (T.numbers f.now) ≤ length (T.numbers outer.old)) }
    ensures { PartOfLowest (T.numbers f.now) (T.value result.y)
        × Stands (T.numbers f.now) (T.value result.y) (T.numbers inner.new) (T.numbers outer.new) result.counts.part result.counts.rest }
{
    let mut alone = [0u64; 2 * 16];
    let alone = &mut alone[..T::words(16)];
    counts::tally::<T>(f, alone);
    grown(f, inner, outer, alone, all)
}
