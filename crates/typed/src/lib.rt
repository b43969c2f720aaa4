// Equations as they are typed: which texts are equations, what a byte of a text shows, and what an equation says (RULES 12). The
// definitions are in specs/, the theory in proofs/. No code.
#![tactic(auto)]
