// The examples of RULES 7, 13 and 15 that are marked P, as one table in specs/, proved once from the contracts of the calls.
#![tactic(auto)]

ghost use Rattle.table.specs.Examples.{examples, AllHold};

use deploy::MAX_BOARDS;
use terms::TermList;

// Every example of the table holds, at the limits of the term list and of a deployment. There is nothing to run: the promise is the theorem.
pub fn examples_hold()
    ensures { AllHold MAX_BOARDS TermList.MAX_TERMS TermList.MAX_VARS examples }
{}
