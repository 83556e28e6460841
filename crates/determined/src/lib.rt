// Theorems alone: any two results that the promise of a public call allows are equal. The table, with a row for each call, stands in specs/.
#![tactic(auto)]
