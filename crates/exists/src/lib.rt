// Parts exist: a function that gives the parts of a polynomial by trying every set of variables, and the theorem that there is exactly
// one list of parts. The function is in specs/, the theory in proofs/. No code: the fast split is another crate's.
#![tactic(auto)]
