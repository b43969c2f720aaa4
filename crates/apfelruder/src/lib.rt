// The calls for programs in C and Rust (RULES 5.6): thin over the proved library, each slice a pointer and a length, the four
// numbers of the answer by value. Each promises what the call of the library promises, word for word. No call asks anything of
// its caller; each refuses instead. The lent buffers of split, audit and deploy stay parameters of their own here, since C lends each by
// a pointer and a length.
#![tactic(auto)]

ghost use Rattle.audit.specs.Audit.{AuditEnds};
ghost use Rattle.block.specs.Calls.{ReadEnds, WriteEnds};
ghost use Rattle.deploy.specs.Deploy.{DeployEnds};
ghost use Rattle.parts.specs.Split.{SplitEnds};
ghost use Rattle.product.specs.Multiply.{MultiplyEnds};
ghost use Rattle.same.specs.Same.{SameEnds};
ghost use Rattle.text.specs.Calls.{ReadTextEnds, WriteTextEnds};

use answer::Answer;
use deploy::MAX_BOARDS;
use narrow::Narrow;
use parts::Outputs;
use terms::TermList;
use text::MAX_BYTES;

// The irreducible parts of a term list.
#[unsafe(no_mangle)]
pub extern "C" fn apfelruder_split(
    terms: &[u64],
    part_terms: &mut [u64],
    part_lengths: &mut [u64],
    work: &mut [u64],
) -> Answer
    ensures { SplitEnds TermList.MAX_TERMS TermList.MAX_VARS terms.now
        (record { terms = part_terms.old; lengths = part_lengths.old; work = work.old })
        result
        (record { terms = part_terms.new; lengths = part_lengths.new; work = work.new }) }
{
    let mut outputs = Outputs {
        terms: part_terms,
        lengths: part_lengths,
        work,
    };
    Answer::from(parts::split::<Narrow>(terms, &mut outputs))
}

// The product of two term lists that share no variable.
#[unsafe(no_mangle)]
pub extern "C" fn apfelruder_multiply(a: &[u64], b: &[u64], out: &mut [u64]) -> Answer
    ensures { MultiplyEnds TermList.MAX_TERMS a.now b.now out.old result out.new }
{
    Answer::from(product::multiply::<Narrow>(a, b, out))
}

// Whether AD = BC, for four term lists: count 1 for yes, 0 for no.
#[unsafe(no_mangle)]
pub extern "C" fn apfelruder_same_products(a: &[u64], d: &[u64], b: &[u64], c: &[u64]) -> Answer
    ensures { SameEnds TermList.MAX_TERMS TermList.MAX_VARS a.now d.now b.now c.now result }
{
    Answer::from(same::same_products::<Narrow>(a, d, b, c))
}

// A block read into a term list.
#[unsafe(no_mangle)]
pub extern "C" fn apfelruder_read(bytes: &[u8], out: &mut [u64]) -> Answer
    ensures { ReadEnds TermList.MAX_TERMS TermList.MAX_VARS bytes.now out.old result out.new }
{
    Answer::from(block::read(bytes, out))
}

// A term list written as a block.
#[unsafe(no_mangle)]
pub extern "C" fn apfelruder_write(terms: &[u64], out: &mut [u8]) -> Answer
    ensures { WriteEnds TermList.MAX_TERMS terms.now out.old result out.new }
{
    Answer::from(block::write(terms, out))
}

// A text read into a term list.
#[unsafe(no_mangle)]
pub extern "C" fn apfelruder_read_text(text: &[u8], out: &mut [u64]) -> Answer
    ensures { ReadTextEnds MAX_BYTES TermList.MAX_TERMS TermList.MAX_VARS text.now out.old result out.new }
{
    Answer::from(text::read_text(text, out))
}

// A term list written as text.
#[unsafe(no_mangle)]
pub extern "C" fn apfelruder_write_text(terms: &[u64], out: &mut [u8]) -> Answer
    ensures { WriteTextEnds MAX_BYTES TermList.MAX_TERMS terms.now out.old result out.new }
{
    Answer::from(text::write_text(terms, out))
}

// Whether given parts, one behind the other with their lengths, are the parts of an approved term list: count 1 for yes, 0 for no.
#[unsafe(no_mangle)]
pub extern "C" fn apfelruder_audit(
    terms: &[u64],
    given_terms: &[u64],
    given_lengths: &[u64],
    part_terms: &mut [u64],
    part_lengths: &mut [u64],
    work: &mut [u64],
) -> Answer
    ensures { AuditEnds TermList.MAX_TERMS TermList.MAX_VARS terms.now given_terms.now given_lengths.now
        (record { terms = part_terms.old; lengths = part_lengths.old; work = work.old })
        result
        (record { terms = part_terms.new; lengths = part_lengths.new; work = work.new }) }
{
    let mut outputs = Outputs {
        terms: part_terms,
        lengths: part_lengths,
        work,
    };
    Answer::from(audit::audit(terms, given_terms, given_lengths, &mut outputs))
}

// The parts of each of the term lists of a deployment, which are lent one behind the other with their lengths; four words of answer for each.
#[unsafe(no_mangle)]
pub extern "C" fn apfelruder_deploy(
    words: &[u64],
    lengths: &[u64],
    answers: &mut [u64],
    part_terms: &mut [u64],
    part_lengths: &mut [u64],
    work: &mut [u64],
) -> Answer
    ensures { DeployEnds MAX_BOARDS TermList.MAX_TERMS TermList.MAX_VARS words.now lengths.now
        (record { answers = answers.old; outputs = record { terms = part_terms.old; lengths = part_lengths.old; work = work.old } })
        result
        (record { answers = answers.new; outputs = record { terms = part_terms.new; lengths = part_lengths.new; work = work.new } }) }
{
    let mut outputs = Outputs {
        terms: part_terms,
        lengths: part_lengths,
        work,
    };
    Answer::from(deploy::deploy(words, lengths, answers, &mut outputs))
}
