// The user's demands as theorems about what the calls promise, and wrong answers that the promises of split and deploy do not allow. No code:
// proofs/Demands.antt and proofs/Wrong.antt.
#![tactic(auto)]
