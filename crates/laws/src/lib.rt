// What the crates above use in place of the definitions' text: laws, and no function.
#![tactic(auto)]
