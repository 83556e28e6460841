// Theorems alone: document 01's twelve small facts, P1 to P12, as one table and one statement. The table stands in specs/.
#![tactic(auto)]
