// Numbers written in digits: a field of bits read from a row of bytes, and bits put behind those already written
// (RULES 4.1). Both go byte by byte.
#![tactic(auto)]

ghost use Rattle.std.specs.Prelude.{◌≡◌, ℕ, ◌+◌, ◌-◌, ◌*◌, ◌/◌, ◌%◌, ◌^◌, ◌≤◌, ◌<◌, length};
ghost use Rattle.digits.specs.Number.{bits};
ghost use Rattle.digits.specs.Carry.{Put};

// The `width` bits of a byte behind its first `skip` bits.
fn piece(byte: u8, skip: usize, width: usize) -> u64
    requires { skip + width ≤ 8 }
    ensures { result ≡ (byte / 2 ^ (8 - (skip + width))) % 2 ^ width }
{
    (u64::from(byte) >> (8 - (skip + width))) & ((1 << width) - 1)
}

// The field from bit `at` to the end of the byte before byte `to`.
fn up_to(bytes: &[u8], at: usize, to: usize) -> u64
    requires { (at / 8 < to) × (to ≤ length bytes.now) × (8 * to ≤ at + 64) }
    ensures { result ≡ bits bytes.now at (8 * to - at) }
{
    let first = at / 8;
    let skip = at % 8;
    let mut value = piece(bytes[first], skip, 8 - skip);
    for &byte in &bytes[first + 1..to] {
        value = value * 256 + u64::from(byte);
    }
    value
}

// The field of `width` bits at bit `at`.
pub fn field(bytes: &[u8], at: usize, width: usize) -> u64
    requires { (width ≤ 64) × (at + width < 2 ^ 64) × (at + width ≤ 8 * length bytes.now) }
    ensures { result ≡ bits bytes.now at width }
{
    if width == 0 {
        return 0;
    }
    let end = at + width;
    let whole = end / 8;
    if whole == at / 8 {
        return piece(bytes[whole], at % 8, width);
    }
    let value = up_to(bytes, at, whole);
    let tail = end % 8;
    if tail == 0 {
        return value;
    }
    (value << tail) + piece(bytes[whole], 0, tail)
}

// Puts the `width` bits of `x` behind the bits that stand before bit `at`. Those of them that fill no byte yet are lent as
// `carry`, and what fills no byte afterwards comes back.
pub fn put(out: &mut [u8], at: usize, carry: u64, x: u64, width: usize) -> u64
    requires { (carry < 2 ^ (at % 8)) × (x < 2 ^ width) × (width ≤ 64) × (at + width < 2 ^ 64) × (at + width ≤ 8 * length out.old) }
    ensures { Put out.old at carry x width out.new result }
{
    let used = at % 8;
    if used + width < 8 {
        return (carry << width) + x;
    }
    let mut left = width - (8 - used);
    let first = at / 8;
    out[first] = ((carry << (8 - used)) + (x >> left)) as u8;
    let next = first + 1;
    for byte in &mut out[next..next + left / 8] {
        left -= 8;
        *byte = ((x >> left) & 255) as u8;
    }
    x & ((1 << left) - 1)
}
