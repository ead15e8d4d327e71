// A chip that nobody sells, so that a rule which secretly asks for another is found. Definitions and proofs, and no function.
#![tactic(auto)]
