// Theorems over the rules, and no function.
#![tactic(auto)]
