// The papers' rule (RULES 8): y lies in another part than x exactly if AD = BC. The four lists are in specs/, the theorem that the
// rule finds the parts of RULES 2.5 in proofs/. No code.
#![tactic(auto)]
