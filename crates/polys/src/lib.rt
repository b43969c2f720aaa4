// Polynomials as lists of terms (RULES 1 and 2): the definitions, in specs/, and their laws, in proofs/. No code.
#![tactic(auto)]
