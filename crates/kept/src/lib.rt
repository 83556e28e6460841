// Theorems alone: document 01's rules for a trip, refusals 10 and 11, as quantified statements over its records, and what the definitions by lists
// say is the same.
#![tactic(auto)]
