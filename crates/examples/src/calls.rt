// A call on given lists, with so many words lent, and what is printed of it.
ghost use Rattle.std.specs.Prelude.{◌≤◌, length};

use narrow::Narrow;
use parts::Outputs;
use show::{Buffer, Long, Numbers, Out, fill};
use std::fmt::Write;

// The words of a line, cut where its last four lists end: at a, at b, at c and at their end.
#[derive(Clone, Copy)]
struct Lists<'a> {
    words: &'a [u64],
    a: usize,
    b: usize,
    c: usize,
    ghost in_order: { (a ≤ b) × (b ≤ c) × (c ≤ length words.now) },
}

impl Lists<'_> {
    // The words up to the last place, cut at the others. Places out of order do not occur.
    fn cut(words: &[u64], ends: [usize; 4]) -> Option<Lists<'_>> {
        let [a, b, c, d] = ends;
        if a <= b && b <= c && c <= d && d <= words.len() {
            let words = &words[..d];
            Some(Lists { words, a, b, c })
        } else {
            None
        }
    }
}

// The calls that have examples here.
#[derive(Clone, Copy)]
enum Call {
    Split,
    Multiply,
    Same,
}

impl Call {
    // The call that a name's second letter says. A note, or what is too short for a name, is no call.
    fn named(name: &[u8]) -> Option<Call> {
        match name {
            [] | [_] | [b'#', ..] => None,
            [_, b'p', ..] => Some(Call::Split),
            [_, b'u', ..] => Some(Call::Multiply),
            _ => Some(Call::Same),
        }
    }

    // What the call says of the lists.
    fn run(self, lists: Lists<'_>) {
        match self {
            Call::Split => split(lists),
            Call::Multiply => multiply(lists),
            Call::Same => same(lists),
        }
    }
}

// What split left; part terms may begin with a list that is too long to print.
fn print_left(list: &[u64], outputs: &Outputs<'_>) {
    let buffer = &*outputs.terms;
    let name = " the list itself";
    let _ = if list.len() < 16 {
        write!(Out, "{}", Buffer(buffer))
    } else {
        write!(Out, "{}", Long { buffer, list, name })
    };
    let _ = write!(
        Out,
        " |{} |{}",
        Buffer(outputs.lengths),
        Buffer(outputs.work)
    );
}

// Split of the first list, lending as many words as the three words behind it say.
fn split(lists: Lists<'_>) {
    let mut part_terms = [9; 1100];
    let mut part_lengths = [9; 70];
    let mut work_area = [9; 4100];
    let (list, rooms) = lists.words.split_at(lists.a);
    if let [room_for_terms, room_for_lengths, room_for_work] = rooms
        && let Some(terms) = part_terms.get_mut(..*room_for_terms as usize)
        && let Some(lengths) = part_lengths.get_mut(..*room_for_lengths as usize)
        && let Some(work) = work_area.get_mut(..*room_for_work as usize)
    {
        let mut outputs = Outputs {
            terms,
            lengths,
            work,
        };
        let said = parts::split::<Narrow>(list, &mut outputs);
        let _ = write!(Out, "{} |", Numbers(said));
        print_left(list, &outputs);
    }
}

// Multiply of the words to b with those to c, lending as many words as the next one says. What came out is compared with the terms 0..1023.
fn multiply(lists: Lists<'_>) {
    let Lists { words, b, c, .. } = lists;
    let mut out = [9; 2050];
    let mut counted = [0; 1024];
    fill(&mut counted, 0);
    if let Some(room) = words.get(c)
        && let Some(buffer) = out.get_mut(..*room as usize)
    {
        let said = Numbers(product::multiply::<Narrow>(&words[..b], &words[b..c], buffer));
        let list = &counted;
        let name = " the terms 0..1023 in order";
        let _ = write!(Out, "{said} |{}", Long { buffer, list, name });
    }
}

fn same(lists: Lists<'_>) {
    let Lists { words, a, b, c } = lists;
    let said = same::same_products::<Narrow>(&words[..a], &words[a..b], &words[b..c], &words[c..]);
    let _ = write!(Out, "{}", Numbers(said));
}

// The name, and the call that it is of on the words, cut where the lists end.
pub fn run(name: &[u8], words: &[u64], ends: [usize; 4]) {
    if let Some(call) = Call::named(name)
        && let Some(lists) = Lists::cut(words, ends)
    {
        Out.put(name);
        call.run(lists);
        let _ = writeln!(Out);
    }
}
