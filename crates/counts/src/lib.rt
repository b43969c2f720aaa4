// Counting for all variables at once: plane j of a list of planes holds bit j of every variable's counter. A plane is a set of variables
// and written as a term is.
#![tactic(auto)]

ghost use Rattle.std.specs.Prelude.{◌≡◌, [], ◌∷◌, false, ℕ, ◌+◌, ◌*◌, ◌≤◌, ◌<◌, ◌^◌, replicate, length, drop};
ghost use Rattle.masks.specs.Bit.{bit};
ghost use Rattle.counts.specs.Planes.{digit, count_at, holding, halves, Room, Added, Tallied, Ties};

use term::Term;

// In each place, a sum of bits: low, and twice high.
#[derive(Clone, Copy)]
pub struct Sum<T> {
    pub low: T,
    pub high: T,
}

// A full adder in each place.
fn add<T: Term>(a: T, b: T, c: T) -> Sum<T>
    ensures { (v : ℕ) → digit (T.value a) v + digit (T.value b) v + digit (T.value c) v
        ≡ digit (T.value result.low) v + 2 * digit (T.value result.high) v }
{
    let half = a.xor(b);
    Sum {
        low: half.xor(c),
        high: a.and(b).or(half.and(c)),
    }
}

// The low planes after four terms, and what they carry on.
#[derive(Clone, Copy)]
pub struct Fours<T> {
    pub ones: T,
    pub twos: T,
    pub fours: T,
}

// The low planes after eight terms, and what they carry on.
#[derive(Clone, Copy)]
pub struct Eights<T> {
    pub ones: T,
    pub twos: T,
    pub fours: T,
    pub eights: T,
}

// The low planes after sixteen terms, and what they carry on.
#[derive(Clone, Copy)]
pub struct Sixteens<T> {
    pub ones: T,
    pub twos: T,
    pub fours: T,
    pub eights: T,
    pub sixteens: T,
}

// A list of terms, and the set that a term has to hold to be counted.
#[derive(Drop)]
struct Asked<'a, T> {
    f: &'a [u64],
    x: T,
}

// `two` to `sixteen` are written out, since the compiler lays them out in a row: one recursion on the number of terms takes six times as
// long.
impl<T: Term> Asked<'_, T> {
    // The term at i if it holds all of x, and else none of its variables.
    fn held(&self, i: usize) -> T
        requires { i < length (T.numbers self.now.f.now) }
        ensures { (v : ℕ) → digit (T.value result) v + holding (T.value self.now.x) (drop (i + 1) (T.numbers self.now.f.now)) v
            ≡ holding (T.value self.now.x) (drop i (T.numbers self.now.f.now)) v }
    {
        let t = T::at(self.f, i);
        if t.and(self.x).same(self.x) {
            t
        } else {
            T::none()
        }
    }

    // The two terms from i on, added to the ones.
    fn two(&self, i: usize, ones: T) -> Sum<T>
        requires { i + 2 ≤ length (T.numbers self.now.f.now) }
        ensures { (v : ℕ) → digit (T.value ones) v + holding (T.value self.now.x) (drop i (T.numbers self.now.f.now)) v
            ≡ digit (T.value result.low) v + 2 * digit (T.value result.high) v
            + holding (T.value self.now.x) (drop (i + 2) (T.numbers self.now.f.now)) v }
    {
        let s = self.held(i);
        let t = self.held(i + 1);
        add(ones, s, t)
    }

    // The four terms from i on, added to the ones and twos.
    fn four(&self, i: usize, ones: T, twos: T) -> Fours<T>
        requires { i + 4 ≤ length (T.numbers self.now.f.now) }
        ensures { (v : ℕ) → digit (T.value ones) v + 2 * digit (T.value twos) v
            + holding (T.value self.now.x) (drop i (T.numbers self.now.f.now)) v
            ≡ digit (T.value result.ones) v + 2 * digit (T.value result.twos) v + 4 * digit (T.value result.fours) v
            + holding (T.value self.now.x) (drop (i + 4) (T.numbers self.now.f.now)) v }
    {
        let a = self.two(i, ones);
        let b = self.two(i + 2, a.low);
        let s = add(twos, a.high, b.high);
        Fours {
            ones: b.low,
            twos: s.low,
            fours: s.high,
        }
    }

    // The eight terms from i on, added to the ones, twos and fours.
    fn eight(&self, i: usize, ones: T, twos: T, fours: T) -> Eights<T>
        requires { i + 8 ≤ length (T.numbers self.now.f.now) }
        ensures { (v : ℕ) → digit (T.value ones) v + 2 * digit (T.value twos) v + 4 * digit (T.value fours) v
            + holding (T.value self.now.x) (drop i (T.numbers self.now.f.now)) v
            ≡ digit (T.value result.ones) v + 2 * digit (T.value result.twos) v + 4 * digit (T.value result.fours) v
            + 8 * digit (T.value result.eights) v + holding (T.value self.now.x) (drop (i + 8) (T.numbers self.now.f.now)) v }
    {
        let a = self.four(i, ones, twos);
        let b = self.four(i + 4, a.ones, a.twos);
        let s = add(fours, a.fours, b.fours);
        Eights {
            ones: b.ones,
            twos: b.twos,
            fours: s.low,
            eights: s.high,
        }
    }

    // The sixteen terms from i on, added to the ones, twos, fours and eights.
    fn sixteen(&self, i: usize, ones: T, twos: T, fours: T, eights: T) -> Sixteens<T>
        requires { i + 16 ≤ length (T.numbers self.now.f.now) }
        ensures { (v : ℕ) → digit (T.value ones) v + 2 * digit (T.value twos) v + 4 * digit (T.value fours) v + 8 * digit (T.value eights) v
            + holding (T.value self.now.x) (drop i (T.numbers self.now.f.now)) v
            ≡ digit (T.value result.ones) v + 2 * digit (T.value result.twos) v + 4 * digit (T.value result.fours) v
            + 8 * digit (T.value result.eights) v + 16 * digit (T.value result.sixteens) v
            + holding (T.value self.now.x) (drop (i + 16) (T.numbers self.now.f.now)) v }
    {
        let a = self.eight(i, ones, twos, fours);
        let b = self.eight(i + 8, a.ones, a.twos, a.fours);
        let s = add(eights, a.eights, b.eights);
        Sixteens {
            ones: b.ones,
            twos: b.twos,
            fours: b.fours,
            eights: s.low,
            sixteens: s.high,
        }
    }
}

// Adds 2^at to the counter of every variable of `word`.
fn carry<T: Term>(planes: &mut [u64], at: usize, word: T)
    requires { Room (T.numbers planes.old) (λ (v : ℕ). 2 ^ at * digit (T.value word) v) }
    ensures { Added (T.numbers planes.old) (λ (v : ℕ). 2 ^ at * digit (T.value word) v) (T.numbers planes.new) }
{
    let mut c = word;
    let mut j = at;
    // A `for` up to the last plane asks twice, and takes a twentieth more time.
    while !c.empty() {
        let p = T::at(planes, j);
        T::put(planes, j, p.xor(c));
        c = p.and(c);
        j += 1;
    }
}

// Adds, to every counter of `sum`, 2^at times that of `planes`.
fn add_planes<T: Term>(sum: &mut [u64], at: usize, planes: &[u64])
    requires { Room (T.numbers sum.old) (λ (v : ℕ). 2 ^ at * count_at (T.numbers planes.now) v)
        × (at + length (T.numbers planes.now) ≤ length (T.numbers sum.old)) }
    ensures { Added (T.numbers sum.old) (λ (v : ℕ). 2 ^ at * count_at (T.numbers planes.now) v)
        (T.numbers sum.new) }
{
    let n = T::count(planes);
    let mut c: T = T::none();
    for j in 0..n {
        let k = at + j;
        let s = add(T::at(sum, k), T::at(planes, j), c);
        T::put(sum, k, s.low);
        c = s.high;
    }
    carry(sum, at + n, c);
}

// Lays the low planes out, in four that are all 0.
fn lay_four<T: Term>(low: &mut [u64], ones: T, twos: T, fours: T, eights: T)
    requires { T.numbers low.old ≡ replicate 4 0 }
    ensures { T.numbers low.new ≡ T.value ones ∷ T.value twos ∷ T.value fours ∷ T.value eights ∷ [] }
{
    T::put(low, 0, ones);
    T::put(low, 1, twos);
    T::put(low, 2, fours);
    T::put(low, 3, eights);
}

// Adds, to every variable's counter, how many terms of f hold x and that variable; x = 0 counts all terms. Sixteen at a time, with the
// low planes at hand, and the rest one at a time.
fn count<T: Term>(f: &[u64], x: T, planes: &mut [u64])
    requires { Room (T.numbers planes.old) (holding (T.value x) (T.numbers f.now)) × (4 ≤ length (T.numbers planes.old)) }
    ensures { Added (T.numbers planes.old) (holding (T.value x) (T.numbers f.now)) (T.numbers planes.new) }
{
    let asked = Asked { f, x };
    let n = T::count(f);
    let blocks = n / 16;
    let none = T::none();
    let mut ones = none;
    let mut twos = none;
    let mut fours = none;
    let mut eights = none;
    for b in 0..blocks {
        let s = asked.sixteen(16 * b, ones, twos, fours, eights);
        carry(planes, 4, s.sixteens);
        ones = s.ones;
        twos = s.twos;
        fours = s.fours;
        eights = s.eights;
    }
    for i in 16 * blocks..n {
        let t = asked.held(i);
        carry(planes, 0, t);
    }
    let mut low = [0u64; 2 * 4];
    let low = &mut low[..T::words(4)];
    lay_four(low, ones, twos, fours, eights);
    add_planes::<T>(planes, 0, low);
}

// Adds, to every counter of `sum`, that of `planes` as often as the counter of the variable b in `by` says.
fn add_times<T: Term>(sum: &mut [u64], by: &[u64], b: T, planes: &[u64])
    requires { ((w : ℕ) × (T.value b ≡ 2 ^ w)
        × Room (T.numbers sum.old) (λ (v : ℕ). count_at (T.numbers by.now) w * count_at (T.numbers planes.now) v))
        × (length (T.numbers by.now) + length (T.numbers planes.now) ≤ length (T.numbers sum.old)) }
    ensures { (w : ℕ) → T.value b ≡ 2 ^ w
        → Added (T.numbers sum.old) (λ (v : ℕ). count_at (T.numbers by.now) w * count_at (T.numbers planes.now) v)
        (T.numbers sum.new) }
{
    for j in 0..T::count(by) {
        if T::at(by, j).and(b).same(b) {
            add_planes::<T>(sum, j, planes);
        }
    }
}

// The variables whose counters differ.
fn differ<T: Term>(p: &[u64], q: &[u64]) -> T
    requires { length (T.numbers p.now) ≡ length (T.numbers q.now) }
    ensures { (v : ℕ) → count_at (T.numbers p.now) v ≡ count_at (T.numbers q.now) v → bit (T.value result) v ≡ false }
{
    let mut d = T::none();
    for j in 0..T::count(p) {
        d = d.or(T::at(p, j).xor(T::at(q, j)));
    }
    d
}

// A number, its half, the half of that, and so on: their lowest bits are its digits.
fn halve<T: Term>(n: u64, out: &mut [u64])
    ensures { T.numbers out.new ≡ halves (length (T.numbers out.old)) n }
{
    let mut m = n;
    for i in 0..T::count(out) {
        T::put(out, i, T::of(m));
        m /= 2;
    }
}

// The variables for which n times the counter in `both` differs from the counter of b in `both` times that in `alone`.
fn uneven_by<T: Term>(n: u64, both: &[u64], b: T, alone: &[u64]) -> T
    requires { (n ≤ 65535) × (length (T.numbers both.now) ≡ 16) × (length (T.numbers alone.now) ≡ 16) × ((w : ℕ) × (T.value b ≡ 2 ^ w)) }
    ensures { (w v : ℕ) → T.value b ≡ 2 ^ w
        → n * count_at (T.numbers both.now) v ≡ count_at (T.numbers both.now) w * count_at (T.numbers alone.now) v
        → bit (T.value result) v ≡ false }
{
    let mut digits = [0u64; 2 * 16];
    let digits = &mut digits[..T::words(16)];
    halve::<T>(n, digits);
    let mut p = [0u64; 2 * 32];
    let p = &mut p[..T::words(32)];
    let mut q = [0u64; 2 * 32];
    let q = &mut q[..T::words(32)];
    add_times(p, digits, T::of(1), both);
    add_times(q, both, b, alone);
    differ(p, q)
}

// Counts, in planes that are all 0, the terms that hold each variable.
pub fn tally<T: Term>(f: &[u64], planes: &mut [u64])
    requires { (length (T.numbers f.now) ≤ 65535) × (T.numbers planes.old ≡ replicate 16 0) }
    ensures { Tallied (T.numbers f.now) (T.numbers planes.new) }
{
    count(f, T::none(), planes);
}

// Of the variables `among`, those whose counts say that they are not apart from x; `alone` are the counts of all terms.
pub fn uneven<T: Term>(f: &[u64], alone: &[u64], x: T, among: T) -> T
    requires { Tallied (T.numbers f.now) (T.numbers alone.now) }
    ensures { Ties (T.numbers f.now) (T.value x) (T.value among) (T.value result) }
{
    if x.empty() {
        return T::none();
    }
    let mut both = [0u64; 2 * 16];
    let both = &mut both[..T::words(16)];
    count(f, x, both);
    let n = T::count(f) as u64;
    let ties = uneven_by(n, both, x.lowest(), alone);
    ties.and(among)
}
