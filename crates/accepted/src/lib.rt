// Theorems alone: a batch is accepted exactly if it keeps document 01's rules, one by one. The rules stand in specs/.
#![tactic(auto)]
