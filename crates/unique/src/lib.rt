// Parts are unique: a polynomial has one list of parts, the parts of a product are the parts of its factors, and every way of writing it as
// a product of two with no common variable is a choice among its parts. The definitions are in specs/, the theory in proofs/. No code.
#![tactic(auto)]
