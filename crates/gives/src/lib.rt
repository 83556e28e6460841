// What the exported check and questions on a batch give, for C; of the hint's maker, `hintresults`. Here stand the definitions, with no code: the
// calls are in the crate `slovdrim`.
#![tactic(auto)]
