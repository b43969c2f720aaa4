// The parts of a list taken out one by one (RULES 2.5): the part of the lowest variable is written, and the rest stands in the list's
// place. Variables that stand in every term are taken out at once; each is a part of its own when it is the lowest that is left.
#![tactic(auto)]

ghost use Rattle.std.specs.Prelude.{◌≡◌, ◌+◌, ◌^◌, ◌≤◌, ◌<◌, ◌∷◌, [], map, length, take, replicate};
ghost use Rattle.std.specs.Int.Bits.{bit_and, bit_or};
ghost use Rattle.polys.specs.List.{Asc};
ghost use Rattle.masks.specs.Bit.{without};
ghost use Rattle.polys.specs.Poly.{vars, times};
ghost use Rattle.answer.specs.Ends.{over};
ghost use Rattle.taking.specs.Steps.{InEach, Ready, Taken, TakenNext, Written};

use grow::{Counts, Found};
use term::Term;
use terms::TermList;

// The list without the variables `held`, written at the start of the room.
pub fn put_off<T: Term>(list: &[u64], held: T, room: &mut [u64])
    requires { length (T.numbers list.now) ≤ length (T.numbers room.old) }
    ensures { T.numbers room.new ≡ over (map (without (T.value held)) (T.numbers list.now)) (T.numbers room.old) }
{
    for i in 0..T::count(list) {
        T::put(room, i, T::at(list, i).off(held));
    }
}

// The variables that every term holds.
pub fn common<T: Term>(list: &[u64]) -> T
    requires { 0 < length (T.numbers list.now) }
    ensures { InEach (T.value result) (T.numbers list.now) }
{
    let mut held = T::at(list, 0);
    for i in 1..T::count(list) {
        held = held.and(T::at(list, i));
    }
    held
}

// Every term 0.
pub fn clear<T: Term>(work: &mut [u64])
    ensures { T.numbers work.new ≡ replicate (length (T.numbers work.old)) 0 }
{
    work.fill(0);
}

// Takes the part of the lowest variable out of the list of the first n terms: writes it into the room, and leaves the rest in the list's
// place. The part and the rest are laid out behind the list, each in as much room as the list takes.
// The list is no slice of its own: it gets shorter from part to part, at the start of the one work area that C lends.
fn take_part<T: Term>(work: &mut [u64], n: usize, all: T, room: &mut [u64]) -> Found<T>
    requires { Ready (take n (T.numbers work.old)) (T.numbers work.old) n (T.value all) × (0 < T.value all)
        × (n ≤ length (T.numbers room.old)) }
    ensures { Taken (take n (T.numbers work.old)) (T.numbers room.old) (T.numbers room.new) (T.numbers work.new)
        n (T.value result.y) result.counts.part result.counts.rest }
{
    let start = T::words(n);
    let next = T::words(n + n);
    let (list, behind) = work.split_at_mut(start);
    let (inner, outer) = behind.split_at_mut(next - start);
    let found = grow::part_of_lowest(list, inner, outer, all);
    let part = T::words(found.counts.part);
    let rest = T::words(found.counts.rest);
    copying::copy(&inner[..part], &mut room[..part]);
    copying::copy(&outer[..rest], &mut list[..rest]);
    found
}

// The same of the list with the variables `held` in every term besides: a lowest variable among these is a part of its own.
fn take_next<T: Term>(work: &mut [u64], n: usize, held: T, all: T, room: &mut [u64]) -> Found<T>
    requires { Ready (take n (T.numbers work.old)) (T.numbers work.old) n (T.value all) × (bit_and (T.value held) (T.value all) ≡ 0)
        × ¬ (bit_or (T.value held) (T.value all) ≡ 0) × (n ≤ length (T.numbers room.old)) }
    ensures { TakenNext (T.value held) (take n (T.numbers work.old)) (T.numbers room.old) (T.numbers room.new)
        (T.numbers work.new) n (T.value all) (T.value result.y) result.counts.part result.counts.rest }
{
    let x = held.or(all).lowest();
    if x.and(held).same(x) {
        T::put(room, 0, x);
        let counts = Counts { part: 1, rest: n };
        return Found { y: x, counts };
    }
    take_part(work, n, all, room)
}

// Writes all parts of the list of the first t terms with the variables `held` in every term besides, and their lengths; gives back
// how many there are. The parts are counted as they are found, since the loop ends with the variables and not at a number.
pub fn write_parts<T: Term>(
    part_terms: &mut [u64],
    part_lengths: &mut [u64],
    work: &mut [u64],
    t: usize,
    held: T,
) -> usize
    requires { Asc (take t (T.numbers work.old)) × (0 < t) × (t ≤ TermList.MAX_TERMS) × (t + (t + t) ≤ length (T.numbers work.old))
        × (bit_and (T.value held) (vars (take t (T.numbers work.old))) ≡ 0) × (T.value held < 2 ^ T.LINES)
        × (T.LINES ≤ length part_lengths.old) × (t + T.LINES ≤ length (T.numbers part_terms.old)) }
    ensures { Written (times (T.value held ∷ []) (take t (T.numbers work.old))) (T.numbers part_terms.old)
        part_lengths.old (T.numbers part_terms.new) part_lengths.new result }
{
    let mut n = t;
    let mut at = 0;
    let mut k = 0;
    let mut left = held;
    let end = T::words(t);
    let mut all: T = terms::variables(&work[..end]);
    while !left.or(all).empty() {
        let from = T::words(at);
        let next = take_next(work, n, left, all, &mut part_terms[from..]);
        let part = next.counts.part;
        part_lengths[k] = part as u64;
        at += part;
        k += 1;
        n = next.counts.rest;
        left = left.off(next.y);
        all = all.off(next.y);
    }
    k
}
