// What comes back (RULES 5.1): what was counted, or a case for each way a call can refuse, and the four numbers that stand for it.
// The table of codes is specs/Table.antt; every promise of a call goes through it.
#![tactic(auto)]

ghost use Rattle.std.specs.Prelude.{◌≡◌};
ghost use Rattle.answer.specs.Table.{numbers_of, refused};

// The four numbers of every answer.
#[repr(C)]
#[derive(Clone, Copy, PartialEq, Eq, Debug)]
pub struct Answer {
    pub code: u64,
    pub operand: u64,
    pub place: u64,
    pub count: u64,
}

// Why a call refuses. Operands count from 1; operand 0 is no single list.
#[derive(Clone, Copy, PartialEq, Eq, Debug)]
pub enum Refusal {
    // split of the empty list
    Zero,
    // a list or a text that is too long, or a block that says so
    TooMany { operand: u64 },
    // a term not above the one before it, at its first such index
    Order { operand: u64, place: u64 },
    // a variable in both operands of multiply
    Shared,
    // what is to be written would be too long
    TooLarge { operand: u64 },
    // a lent output is too short
    Room { operand: u64 },
    // split's work area is too short
    Work,
    // a block's form number is not 1
    Form,
    // a block's n is too large
    Wide,
    // the bytes end before the block does, or the words before the lists
    Short { operand: u64 },
    // n is larger than the polynomial's
    Misfit,
    // bytes after the block, or words after the lists
    Extra { operand: u64 },
    // a padding bit is set
    Pad,
    // a text goes on as no equation does, or ends too early
    Sign { place: u64 },
    // a variable stands in its term again
    Twice { place: u64 },
}

// How a call ends: what was counted, or why it refuses.
pub type Outcome = Result<u64, Refusal>;

// The numbers of a refusal.
fn refused(code: u64, operand: u64, place: u64) -> Answer
    ensures { result ≡ refused code operand place }
{
    Answer {
        code,
        operand,
        place,
        count: 0,
    }
}

impl From<Outcome> for Answer {
    ghost from_gives = { λ outcome answer. answer ≡ numbers_of outcome };

    // The four numbers of an outcome.
    fn from(outcome: Outcome) -> Answer {
        match outcome {
            Ok(count) => Answer {
                code: 0,
                operand: 0,
                place: 0,
                count,
            },
            Err(Refusal::Zero) => refused(1, 1, 0),
            Err(Refusal::TooMany { operand }) => refused(2, operand, 0),
            Err(Refusal::Order { operand, place }) => refused(3, operand, place),
            Err(Refusal::Shared) => refused(4, 0, 0),
            Err(Refusal::TooLarge { operand }) => refused(5, operand, 0),
            Err(Refusal::Room { operand }) => refused(6, operand, 0),
            Err(Refusal::Work) => refused(7, 1, 0),
            Err(Refusal::Form) => refused(8, 1, 0),
            Err(Refusal::Wide) => refused(9, 1, 0),
            Err(Refusal::Short { operand }) => refused(10, operand, 0),
            Err(Refusal::Misfit) => refused(11, 1, 0),
            Err(Refusal::Extra { operand }) => refused(12, operand, 0),
            Err(Refusal::Pad) => refused(13, 1, 0),
            Err(Refusal::Sign { place }) => refused(14, 1, place),
            Err(Refusal::Twice { place }) => refused(15, 1, place),
        }
    }
}
