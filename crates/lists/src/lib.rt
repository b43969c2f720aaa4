// Lists that are lent one behind the other (RULES 13.2, 15.2): whether there are too many of them, and whether their lengths add to the words
// that were lent.
#![tactic(auto)]

ghost use Rattle.answer.specs.Table.{verdict_of};
ghost use Rattle.answer.specs.Checked.{Checked};
ghost use Rattle.lists.specs.Lists.{lent_checks};

use answer::Refusal;

// Lists that are lent one behind the other: their words, and how many words each has.
#[derive(Clone, Copy)]
pub struct Lists<'a> {
    pub words: &'a [u64],
    pub lengths: &'a [u64],
}

// Refuses more than `most` lists, and lengths that add to more or to fewer words than were lent. What is left of the words is counted down, so
// that no sum grows too large.
pub fn check_lent(most: usize, words: usize, lengths: &[u64]) -> Result<(), Refusal>
    ensures { Checked (lent_checks most words lengths.now) (verdict_of result) }
{
    if most < lengths.len() {
        return Err(Refusal::TooMany { operand: 0 });
    }
    let mut left = words as u64;
    for &length in lengths {
        left = left
            .checked_sub(length)
            .ok_or(Refusal::Short { operand: 0 })?;
    }
    if 0 < left {
        return Err(Refusal::Extra { operand: 0 });
    }
    Ok(())
}
