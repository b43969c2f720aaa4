// Theory only: the ring in which products of term lists are compared. The laws stand under proofs/, the definitions under specs/.
#![tactic(auto)]
