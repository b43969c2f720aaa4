// Splitting: a polynomial splits along a set of variables exactly if its terms are closed under mixing. The definitions are in
// specs/, the theory in proofs/. No code.
#![tactic(auto)]
