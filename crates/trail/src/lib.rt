// A trip's records one after another, by their numbers. Here stand the definitions and their laws, with no code: the steps go by the entries of an
// index in the crate `entries`, and in every way in `steps`.
#![tactic(auto)]
