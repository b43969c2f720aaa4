// Irreducible parts are irreducible factors in the ordinary sense: of polynomials over GF(2) with any exponents. The definitions are in
// specs/, the theorems in proofs/. No code.
#![tactic(auto)]
