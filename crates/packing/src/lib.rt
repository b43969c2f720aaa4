// The bits of a block (RULES 4): its terms read and written one behind the other, and what read's checks ask of them. Nothing here
// refuses; each function asks that the bits are there.
#![tactic(auto)]

ghost use Rattle.std.specs.Prelude.{◌≡◌, ◌+◌, ◌*◌, ◌^◌, ◌≤◌, ◌<◌, ◌++◌, length, drop};
ghost use Rattle.polys.specs.List.{Asc};
ghost use Rattle.terms.specs.Order.{unordered};
ghost use Rattle.terms.specs.Width.{width_of};
ghost use Rattle.narrow.specs.Numbers.{numbers, lines};
ghost use Rattle.packing.specs.Format.{size, terms_in, spare_in, block_of, size_of};

use narrow::Narrow;
use term::Term;

// The bytes of a block.
pub fn block_size(n: usize, t: usize) -> usize
    requires { n * t ≤ 524288 }
    ensures { result ≡ size n t }
{
    3 + (n * t + 7) / 8
}

// The terms of a block: bytes that hold t terms of n bits behind a header of 24 bits.
#[derive(Clone, Copy)]
pub struct Body<'a> {
    pub bytes: &'a [u8],
    pub n: usize,
    pub t: usize,
    pub ghost fits: { (n ≤ lines) × (24 + n * t < 2 ^ 60) × (24 + n * t ≤ 8 * length bytes.now) },
}

impl Body<'_> {
    // The first index whose term is not above the one before it, or t.
    pub fn first_unordered(self) -> usize
        ensures { result ≡ unordered (terms_in self.entry.bytes.now self.entry.n self.entry.t) }
    {
        let Body { bytes, n, t } = self;
        if t == 0 {
            return 0;
        }
        let mut last = Narrow::field(bytes, 24, n);
        let mut at = 24 + n;
        let mut i = 1;
        // RULES 10.2 asks for this form: a loop that breaks with the first offending index, or with the length.
        let place = loop {
            if t <= i {
                break t;
            }
            let next = Narrow::field(bytes, at, n);
            if !last.less(next) {
                break i;
            }
            last = next;
            at += n;
            i += 1;
        };
        place
    }

    // The polynomial's n, for terms that ascend: the last term holds the highest variable.
    pub fn polynomial_n(self) -> usize
        requires { Asc (terms_in self.bytes.now self.n self.t) }
        ensures { result ≡ width_of (terms_in self.entry.bytes.now self.entry.n self.entry.t) }
    {
        let Body { bytes, n, t } = self;
        if t == 0 {
            return 0;
        }
        let last = Narrow::field(bytes, 24 + n * (t - 1), n);
        last.top() as usize
    }

    // Writes the terms.
    pub fn unpack(self, out: &mut [u64])
        requires { self.t ≤ length (numbers out.old) }
        ensures { numbers out.new ≡ terms_in self.entry.bytes.now self.entry.n self.entry.t ++ drop self.entry.t (numbers out.old) }
    {
        let Body { bytes, n, t } = self;
        let mut at = 24;
        for i in 0..t {
            Narrow::put(out, i, Narrow::field(bytes, at, n));
            at += n;
        }
    }
}

// The bits behind the terms, to the end of the last byte. It takes any n, so it is no method of Body, which would ask for n ≤ lines.
pub fn padding(bytes: &[u8], n: usize, t: usize) -> u64
    requires { (n * t ≤ 524288) × (length bytes.now ≡ size n t) }
    ensures { result ≡ spare_in bytes.now n t }
{
    let end = 24 + n * t;
    digits::field(bytes, end, 8 * bytes.len() - end)
}

// n of a list that ascends: its last term holds the highest variable.
pub fn list_n(terms: &[u64]) -> usize
    requires { Asc (numbers terms.now) }
    ensures { (result ≡ width_of (numbers terms.now)) × (result ≤ lines) }
{
    let t = Narrow::count(terms);
    if t == 0 {
        return 0;
    }
    Narrow::at(terms, t - 1).top() as usize
}

// Writes the block of n and the terms: the header, the terms, zero bits to the end of the byte.
pub fn pack(terms: &[u64], n: usize, out: &mut [u8])
    requires { (n ≡ width_of (numbers terms.now)) × (n ≤ lines) × (length (numbers terms.now) < 2 ^ 13) × (size n (length (numbers terms.now)) ≤ length out.old) }
    ensures { out.new ≡ block_of (numbers terms.now) ++ drop (size_of (numbers terms.now)) out.old }
{
    let t = Narrow::count(terms);
    let header = (128 + n as u64) * 8192 + t as u64;
    let mut carry = digits::put(out, 0, 0, header, 24);
    let mut at = 24;
    for k in 0..t {
        carry = Narrow::at(terms, k).put_field(out, at, carry, n);
        at += n;
    }
    digits::put(out, at, carry, 0, 8 * (3 + (n * t + 7) / 8) - at);
}
