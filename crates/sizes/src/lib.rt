// The calls at the larger size of terms, two words to a term: what is proved of every size is tried here at that one. The expected words are
// reckoned by hand. The smaller size is tried by the programs.
#![tactic(auto)]

ghost use Rattle.std.specs.Prelude.{◌≡◌, length};
ghost use Rattle.answer.specs.Table.{numbers_of};
ghost use Rattle.parts.specs.Split.{SplitEnds};
ghost use Rattle.parts.specs.Lent.{lent};
ghost use Rattle.wide.specs.Numbers.{numbers, lines};

use answer::Outcome;
use parts::Outputs;
use terms::TermList;
use wide::Wide;

// A caller that goes on with the buffers that it lent to split: it ends as split does, and they are as long as they were, refused or not. The
// terms in them do not tell this of an odd last word, which is no term.
pub fn split_and_go_on(list: &[u64], outputs: &mut Outputs<'_>) -> Outcome
    ensures terms { length outputs.new.terms.now ≡ length outputs.old.terms.now }
    ensures lengths { length outputs.new.lengths.now ≡ length outputs.old.lengths.now }
    ensures work { length outputs.new.work.now ≡ length outputs.old.work.now }
    ensures ends { SplitEnds TermList.MAX_TERMS lines (numbers list.now) (lent numbers outputs.old) (numbers_of result) (lent numbers outputs.new) }
{
    parts::split::<Wide>(list, outputs)
}

#[cfg(test)]
mod tests {
    use answer::Answer;
    use parts::Outputs;
    use wide::Wide;

    // 1 + x0, and 1 + x64
    const LOW: [u64; 4] = [0, 0, 1, 0];

    const HIGH: [u64; 4] = [0, 0, 0, 1];
    // their product, 1 + x0 + x64 + x0 * x64
    const PRODUCT: [u64; 8] = [0, 0, 1, 0, 0, 1, 1, 1];

    #[test]
    fn multiplies(rt: HostRuntime) {
        let mut out = [9u64; 10];
        let answer = Answer::from(product::multiply::<Wide>(&LOW, &HIGH, &mut out));
        assert_eq!(rt; (answer.code, answer.count), (0, 4));
        assert_eq!(rt; out, [0, 0, 1, 0, 0, 1, 1, 1, 9, 9]);
    }

    #[test]
    fn splits(rt: HostRuntime) {
        let mut terms = [9u64; 264];
        let mut lengths = [9u64; 128];
        let mut work = [9u64; 32];
        let mut outputs = Outputs {
            terms: &mut terms,
            lengths: &mut lengths,
            work: &mut work,
        };
        let answer = Answer::from(parts::split::<Wide>(&PRODUCT, &mut outputs));
        assert_eq!(rt; (answer.code, answer.count), (0, 2));
        assert!(rt; terms[..9] == [0, 0, 1, 0, 0, 0, 0, 1, 9]);
        assert!(rt; lengths[..3] == [2, 2, 9]);
    }

    #[test]
    fn tells_products_apart(rt: HostRuntime) {
        let one = [0u64; 2];
        let same = Answer::from(same::same_products::<Wide>(&PRODUCT, &one, &LOW, &HIGH));
        assert_eq!(rt; (same.code, same.count), (0, 1));
        let other = Answer::from(same::same_products::<Wide>(&PRODUCT, &one, &LOW, &LOW));
        assert_eq!(rt; (other.code, other.count), (0, 0));
    }

    #[test]
    fn refuses(rt: HostRuntime) {
        let mut out = [9u64; 6];
        let room = Answer::from(product::multiply::<Wide>(&LOW, &HIGH, &mut out));
        assert_eq!(rt; (room.code, room.operand), (6, 0));
        assert_eq!(rt; out, [9u64; 6]);
        // the high word counts for more: x64 stands above x0
        let order = Answer::from(product::multiply::<Wide>(&[0, 1, 1, 0], &LOW, &mut out));
        assert_eq!(rt; (order.code, order.operand, order.place), (3, 1, 1));
    }
}
