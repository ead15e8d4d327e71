// Demand 3 over the rules: a job's tape, played on a fit chip, does what the job means. Laws, and no function.
#![tactic(auto)]
