// Masks: natural numbers as sets of variables. This crate has no code; its specs/ define a bit of a number,
// its proofs/ hold the laws of sets that every other crate cites.
#![tactic(auto)]
