// A trip's days and stops: document 01, "Days" and "A trip's stops". Here stand the definitions and their laws, with no code: a time code is read in
// the crate `codes`, the pass over a trip's stops is in `track`, by what `course` reads of each record, and the records are found elsewhere.
#![tactic(auto)]
