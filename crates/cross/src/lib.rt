// Whether AD = BC (RULES 3.3), by two tests that lead to one another: where `same` sees no answer, `cross` cuts the four lists in
// halves and asks `same` about these, with fewer variables to go. What is passed on is a slice of a lent list, never a copy, and of
// its terms only the bits below k are looked at.
// Which questions are asked, and in which order, decides between milliseconds and minutes: the smaller equation comes first,
// equal ratios are asked along a tree from the smallest, and constant variables are skipped at once by a mask.
#![tactic(auto)]

ghost use Rattle.std.specs.Prelude.{◌≡◌, suc, ◌≤◌, ◌<◌, length};
ghost use Rattle.ring.specs.Same.{SameProducts};
ghost use Rattle.ring.specs.Run.{Decides};
ghost use Rattle.ring.specs.Ends.{Four};
ghost use Rattle.runs.specs.Read.{shape};
ghost use Rattle.cross.specs.Asked.{Runs, Halves, Joined, Ratios, OneRatio, Whole, Both, Eight, Agree, Stands};

use term::Term;

// The four-list test: whether AD = BC, on the variables below k.
#[cycle(tests)]
pub fn same<T: Term>(a: &[u64], d: &[u64], b: &[u64], c: &[u64], k: u64) -> bool
    requires { (k ≤ T.LINES) × Runs k (T.numbers a.now) (T.numbers d.now) (T.numbers b.now) (T.numbers c.now) }
    ensures { Decides result (SameProducts k (T.numbers a.now) (T.numbers d.now) (T.numbers b.now) (T.numbers c.now)) }
{
    if runs::vanish::<T>(a, d) {
        return runs::vanish::<T>(b, c);
    }
    if runs::vanish::<T>(b, c) {
        return false;
    }
    settle::<T>(a, d, b, c, k)
}

// The same, where no list is empty: with one term on each side the others match in order.
#[cycle(tests)]
fn settle<T: Term>(a: &[u64], d: &[u64], b: &[u64], c: &[u64], k: u64) -> bool
    requires { (k ≤ T.LINES) × Four k (T.numbers a.now) (T.numbers d.now) (T.numbers b.now) (T.numbers c.now) }
    ensures { Decides result (SameProducts k (T.numbers a.now) (T.numbers d.now) (T.numbers b.now) (T.numbers c.now)) }
{
    if T::count(a) == 1 {
        if T::count(b) == 1 {
            return runs::matched(T::at(a, 0), T::at(b, 0), d, c, k);
        }
        if T::count(c) == 1 {
            return runs::matched(T::at(a, 0), T::at(c, 0), d, b, k);
        }
    }
    if T::count(d) == 1 {
        if T::count(b) == 1 {
            return runs::matched(T::at(d, 0), T::at(b, 0), a, c, k);
        }
        if T::count(c) == 1 {
            return runs::matched(T::at(d, 0), T::at(c, 0), a, b, k);
        }
    }
    skip::<T>(a, d, b, c, k)
}

// The same without the constant variables on top, which stand equally often on either side or refuse.
#[cycle(tests)]
fn skip<T: Term>(a: &[u64], d: &[u64], b: &[u64], c: &[u64], k: u64) -> bool
    requires { (k ≤ T.LINES) × Four k (T.numbers a.now) (T.numbers d.now) (T.numbers b.now) (T.numbers c.now) }
    ensures { Decides result (SameProducts k (T.numbers a.now) (T.numbers d.now) (T.numbers b.now) (T.numbers c.now)) }
{
    let w = runs::left(runs::vary::<T>(a, d, b, c, k), k);
    if runs::within(runs::clash::<T>(a, d, b, c, k), w, k) {
        return false;
    }
    unlike::<T>(a, d, b, c, w)
}

// The same: a list that stands on both sides leaves a comparison, and else the lists are cut.
#[cycle(tests)]
fn unlike<T: Term>(a: &[u64], d: &[u64], b: &[u64], c: &[u64], k: u64) -> bool
    requires { (k ≤ T.LINES) × Four k (T.numbers a.now) (T.numbers d.now) (T.numbers b.now) (T.numbers c.now) }
    ensures { Decides result (SameProducts k (T.numbers a.now) (T.numbers d.now) (T.numbers b.now) (T.numbers c.now)) }
{
    if k == 0 {
        return true;
    }
    if runs::alike::<T>(a, b, k) {
        return runs::alike::<T>(d, c, k);
    }
    if runs::alike::<T>(a, c, k) {
        return runs::alike::<T>(d, b, k);
    }
    cross::<T>(a, d, b, c, k - 1)
}

// The cross test: the lists are cut at their highest variable k, and the halves are asked about.
#[cycle(tests)]
fn cross<T: Term>(a: &[u64], d: &[u64], b: &[u64], c: &[u64], k: u64) -> bool
    requires { (k < T.LINES) × Four (suc k) (T.numbers a.now) (T.numbers d.now) (T.numbers b.now) (T.numbers c.now) }
    ensures { Decides result (SameProducts (suc k) (T.numbers a.now) (T.numbers d.now) (T.numbers b.now) (T.numbers c.now)) }
{
    let i = T::words(runs::cut::<T>(a, k));
    let j = T::words(runs::cut::<T>(d, k));
    let m = T::words(runs::cut::<T>(b, k));
    let n = T::words(runs::cut::<T>(c, k));
    halves::<T>(
        &a[0..i],
        &a[i..],
        &d[0..j],
        &d[j..],
        &b[0..m],
        &b[m..],
        &c[0..n],
        &c[n..],
        k,
    )
}

// The two sides must have the same shapes: operands of one shape are set against each other.
#[cycle(tests)]
fn halves<T: Term>(
    a0: &[u64],
    a1: &[u64],
    d0: &[u64],
    d1: &[u64],
    b0: &[u64],
    b1: &[u64],
    c0: &[u64],
    c1: &[u64],
    k: u64,
) -> bool
    requires { (k < T.LINES) × Halves k (T.numbers a0.now) (T.numbers a1.now) (T.numbers d0.now) (T.numbers d1.now) (T.numbers b0.now) (T.numbers b1.now) (T.numbers c0.now) (T.numbers c1.now) }
    ensures { Decides result (Joined k (T.numbers a0.now) (T.numbers a1.now) (T.numbers d0.now) (T.numbers d1.now) (T.numbers b0.now) (T.numbers b1.now) (T.numbers c0.now) (T.numbers c1.now)) }
{
    let p = runs::pairing::<T>(
        runs::shape_of::<T>(a0, a1),
        runs::shape_of::<T>(d0, d1),
        runs::shape_of::<T>(b0, b1),
        runs::shape_of::<T>(c0, c1),
    );
    if p == 0 {
        return opposed::<T>(a0, a1, d0, d1, b0, b1, c0, c1, k);
    }
    if p == 1 {
        return opposed::<T>(a0, a1, d0, d1, c0, c1, b0, b1, k);
    }
    false
}

// A and B have one shape, D and C another or the same: three ratios, or four where all halves are there.
#[cycle(tests)]
fn opposed<T: Term>(
    a0: &[u64],
    a1: &[u64],
    d0: &[u64],
    d1: &[u64],
    b0: &[u64],
    b1: &[u64],
    c0: &[u64],
    c1: &[u64],
    k: u64,
) -> bool
    requires halved { (k < T.LINES) × Halves k (T.numbers a0.now) (T.numbers a1.now) (T.numbers d0.now) (T.numbers d1.now) (T.numbers b0.now) (T.numbers b1.now) (T.numbers c0.now) (T.numbers c1.now) }
    requires same_shapes { (shape (T.numbers a0.now) (T.numbers a1.now) ≡ shape (T.numbers b0.now) (T.numbers b1.now)) × (shape (T.numbers d0.now) (T.numbers d1.now) ≡ shape (T.numbers c0.now) (T.numbers c1.now)) }
    ensures { Decides result (Joined k (T.numbers a0.now) (T.numbers a1.now) (T.numbers d0.now) (T.numbers d1.now) (T.numbers b0.now) (T.numbers b1.now) (T.numbers c0.now) (T.numbers c1.now)) }
{
    if T::count(a1) == 0 {
        return ratios::<T>(a0, b0, c1, d1, c0, d0, k);
    }
    if T::count(a0) == 0 {
        return ratios::<T>(a1, b1, c1, d1, c0, d0, k);
    }
    if T::count(d1) == 0 {
        return ratios::<T>(d0, c0, b1, a1, b0, a0, k);
    }
    if T::count(d0) == 0 {
        return ratios::<T>(d1, c1, b1, a1, b0, a0, k);
    }
    whole::<T>(a0, a1, d0, d1, b0, b1, c0, c1, k)
}

// Whether three ratios are one: the smallest is asked against the other two. Of equally small ones the first comes last.
#[cycle(tests)]
fn ratios<T: Term>(
    p1: &[u64],
    q1: &[u64],
    p2: &[u64],
    q2: &[u64],
    p3: &[u64],
    q3: &[u64],
    k: u64,
) -> bool
    requires { (k < T.LINES) × Ratios k (T.numbers p1.now) (T.numbers q1.now) (T.numbers p2.now) (T.numbers q2.now) (T.numbers p3.now) (T.numbers q3.now) }
    ensures { Decides result (OneRatio k (T.numbers p1.now) (T.numbers q1.now) (T.numbers p2.now) (T.numbers q2.now) (T.numbers p3.now) (T.numbers q3.now)) }
{
    let s1 = runs::size::<T>(p1, q1);
    let s2 = runs::size::<T>(p2, q2);
    let s3 = runs::size::<T>(p3, q3);
    if 0 < T::count(q2) {
        if s2 <= s1 {
            if s2 <= s3 {
                return against::<T>(p2, q2, p1, q1, p3, q3, k);
            }
        }
    }
    if 0 < T::count(q3) {
        if s3 <= s1 {
            return against::<T>(p3, q3, p1, q1, p2, q2, k);
        }
    }
    against::<T>(p1, q1, p2, q2, p3, q3, k)
}

// A ratio against two others, the smaller of them first.
#[cycle(tests)]
fn against<T: Term>(
    p1: &[u64],
    q1: &[u64],
    p2: &[u64],
    q2: &[u64],
    p3: &[u64],
    q3: &[u64],
    k: u64,
) -> bool
    requires { (k < T.LINES) × Ratios k (T.numbers p1.now) (T.numbers q1.now) (T.numbers p2.now) (T.numbers q2.now) (T.numbers p3.now) (T.numbers q3.now) }
    ensures { Decides result (OneRatio k (T.numbers p1.now) (T.numbers q1.now) (T.numbers p2.now) (T.numbers q2.now) (T.numbers p3.now) (T.numbers q3.now)) }
{
    if runs::size::<T>(p3, q3) < runs::size::<T>(p2, q2) {
        return both::<T>(p1, q3, q1, p3, p1, q2, q1, p2, k);
    }
    both::<T>(p1, q2, q1, p2, p1, q3, q1, p3, k)
}

// Two questions, the first one first.
#[cycle(tests)]
fn both<T: Term>(
    a1: &[u64],
    d1: &[u64],
    b1: &[u64],
    c1: &[u64],
    a0: &[u64],
    d0: &[u64],
    b0: &[u64],
    c0: &[u64],
    k: u64,
) -> bool
    requires first_runs { (k < T.LINES) × Runs k (T.numbers a1.now) (T.numbers d1.now) (T.numbers b1.now) (T.numbers c1.now) }
    requires second_runs { Runs k (T.numbers a0.now) (T.numbers d0.now) (T.numbers b0.now) (T.numbers c0.now) }
    ensures { Decides result (Both k (T.numbers a0.now) (T.numbers a1.now) (T.numbers d0.now) (T.numbers d1.now) (T.numbers b0.now) (T.numbers b1.now) (T.numbers c0.now) (T.numbers c1.now)) }
{
    if same::<T>(a1, d1, b1, c1, k) {
        return same::<T>(a0, d0, b0, c0, k);
    }
    false
}

// All eight halves are there: the smaller of the two outer equations is to be asked first.
#[cycle(tests)]
fn whole<T: Term>(
    a0: &[u64],
    a1: &[u64],
    d0: &[u64],
    d1: &[u64],
    b0: &[u64],
    b1: &[u64],
    c0: &[u64],
    c1: &[u64],
    k: u64,
) -> bool
    requires { (k < T.LINES) × Whole k (T.numbers a0.now) (T.numbers a1.now) (T.numbers d0.now) (T.numbers d1.now) (T.numbers b0.now) (T.numbers b1.now) (T.numbers c0.now) (T.numbers c1.now) }
    ensures { Decides result (Joined k (T.numbers a0.now) (T.numbers a1.now) (T.numbers d0.now) (T.numbers d1.now) (T.numbers b0.now) (T.numbers b1.now) (T.numbers c0.now) (T.numbers c1.now)) }
{
    let low = runs::size::<T>(a0, d0) + runs::size::<T>(b0, c0);
    let high = runs::size::<T>(a1, d1) + runs::size::<T>(b1, c1);
    if low < high {
        return agree::<T>(a1, a0, d1, d0, b1, b0, c1, c0, k);
    }
    agree::<T>(a0, a1, d0, d1, b0, b1, c0, c1, k)
}

// Whether the four ratios A / B and C / D of the halves are one, or the four ratios A / C and B / D are. The first question belongs to
// both; where the ratios without the variable differ neither can be.
#[cycle(tests)]
fn agree<T: Term>(
    a0: &[u64],
    a1: &[u64],
    d0: &[u64],
    d1: &[u64],
    b0: &[u64],
    b1: &[u64],
    c0: &[u64],
    c1: &[u64],
    k: u64,
) -> bool
    requires { (k < T.LINES) × Eight k (T.numbers a0.now) (T.numbers a1.now) (T.numbers d0.now) (T.numbers d1.now) (T.numbers b0.now) (T.numbers b1.now) (T.numbers c0.now) (T.numbers c1.now) }
    ensures { Decides result (Agree k (T.numbers a0.now) (T.numbers a1.now) (T.numbers d0.now) (T.numbers d1.now) (T.numbers b0.now) (T.numbers b1.now) (T.numbers c0.now) (T.numbers c1.now)) }
{
    if same::<T>(a1, d1, b1, c1, k) {
        let one = stand::<T>(a0, a1, d0, d1, b0, b1, c0, c1, k);
        if one == 2 {
            return true;
        }
        if one == 1 {
            return false;
        }
        let other = stand::<T>(a0, a1, d0, d1, c0, c1, b0, b1, k);
        if other == 2 {
            return true;
        }
    }
    false
}

// How A1 / B1 stands to A0 / B0 and C0 / D0: the smaller of it and C1 / D1, which are one, is held against these.
#[cycle(tests)]
fn stand<T: Term>(
    a0: &[u64],
    a1: &[u64],
    d0: &[u64],
    d1: &[u64],
    b0: &[u64],
    b1: &[u64],
    c0: &[u64],
    c1: &[u64],
    k: u64,
) -> u64
    requires eight_runs { (k < T.LINES) × Eight k (T.numbers a0.now) (T.numbers a1.now) (T.numbers d0.now) (T.numbers d1.now) (T.numbers b0.now) (T.numbers b1.now) (T.numbers c0.now) (T.numbers c1.now) }
    requires same_products { SameProducts k (T.numbers a1.now) (T.numbers d1.now) (T.numbers b1.now) (T.numbers c1.now) }
    ensures { Stands result k (T.numbers a1.now) (T.numbers b1.now) (T.numbers a0.now) (T.numbers b0.now) (T.numbers c0.now) (T.numbers d0.now) }
{
    if runs::size::<T>(c1, d1) < runs::size::<T>(a1, b1) {
        return compared::<T>(c1, d1, a0, b0, c0, d0, k);
    }
    compared::<T>(a1, b1, a0, b0, c0, d0, k)
}

// How a ratio stands to two others: 2 if the three are one, 1 if it is the first of the two alone, 0 if it is not even that.
#[cycle(tests)]
fn compared<T: Term>(
    p1: &[u64],
    q1: &[u64],
    p2: &[u64],
    q2: &[u64],
    p3: &[u64],
    q3: &[u64],
    k: u64,
) -> u64
    requires three_ratios { (k < T.LINES) × Ratios k (T.numbers p1.now) (T.numbers q1.now) (T.numbers p2.now) (T.numbers q2.now) (T.numbers p3.now) (T.numbers q3.now) }
    requires q2_nonempty { 0 < length (T.numbers q2.now) }
    ensures { Stands result k (T.numbers p1.now) (T.numbers q1.now) (T.numbers p2.now) (T.numbers q2.now) (T.numbers p3.now) (T.numbers q3.now) }
{
    if same::<T>(p1, q2, q1, p2, k) {
        if same::<T>(p1, q3, q1, p3, k) {
            return 2;
        }
        return 1;
    }
    0
}
