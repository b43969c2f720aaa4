// Terms spelled as text (RULES 12.1), each with the byte that stands behind it, and how many bytes that takes.
#![tactic(auto)]

ghost use Rattle.std.specs.Prelude.{◌≡◌, ◌+◌, ◌≤◌, ◌<◌, length};
ghost use Rattle.std.proofs.lemmas.List.Edits.{sets};
ghost use Rattle.std.specs.Iterator.{YieldsFirst, item_count};
ghost use Rattle.typed.specs.Says.{held};
ghost use Rattle.spell.specs.Spelled.{named, spelled};

// The variables of a term, from the lowest on: those that are left.
#[derive(Drop)]
struct Variables(u64);

impl Iterator for Variables {
    type Item = u8;

    ghost next_gives = { YieldsFirst (λ s. held s.0) };

    ghost remaining = { item_count (λ s. held s.0) };

    fn next(&mut self) -> Option<u8> {
        if self.0 == 0 {
            return None;
        }
        let lowest = self.0.trailing_zeros() as u8;
        self.0 &= self.0 - 1;
        Some(lowest)
    }
}

// Writes the name of a variable and the byte behind it, from a place on; where it ends comes back.
fn put_name(out: &mut [u8], at: usize, variable: u8, behind: u8) -> usize
    requires { (variable < 100) × (at + length (named variable behind) ≤ length out.old) }
    ensures { (result ≡ at + length (named variable behind)) × (out.new ≡ sets out.old at (named variable behind)) }
{
    if variable < 10 {
        let end = at + 3;
        out[at..end].copy_from_slice(&[b'x', b'0' + variable, behind]);
        return end;
    }
    let end = at + 4;
    out[at..end].copy_from_slice(&[b'x', b'0' + variable / 10, b'0' + variable % 10, behind]);
    end
}

// Writes a term and the byte behind it, from a place on; where it ends comes back.
pub fn put_term(out: &mut [u8], from: usize, term: u64, behind: u8) -> usize
    requires { from + length (spelled term behind) ≤ length out.old }
    ensures { (result ≡ from + length (spelled term behind)) × (out.new ≡ sets out.old from (spelled term behind)) }
{
    if term == 0 {
        out[from] = b'1';
        out[from + 1] = behind;
        return from + 2;
    }
    let mut end = from;
    for variable in Variables(term) {
        end = put_name(out, end, variable, b'*');
    }
    out[end - 1] = behind;
    end
}

// How many bytes a term takes with the byte behind it, at most 30 for ten short names and 216 for 54 long ones.
pub fn term_size(term: u64) -> usize
    ensures { (result ≡ length (spelled term 0)) × (result ≤ 246) }
{
    if term == 0 {
        return 2;
    }
    let short = (term & 1023).count_ones() as usize;
    let long = (term >> 10).count_ones() as usize;
    3 * short + 4 * long
}
