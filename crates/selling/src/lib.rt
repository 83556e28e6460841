// What a sale and many sales of a batch come to. Here stand the definitions and their laws, with no code: the calls are in the crates `sale` and `sales`.
#![tactic(auto)]
