// Theorems alone, over any list, number or answer: what the other crates cite. The statements stand in specs/.
#![tactic(auto)]
