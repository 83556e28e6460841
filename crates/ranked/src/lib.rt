// Theorems alone: numbers in order of their ranks, and heaps of them.
#![tactic(auto)]
