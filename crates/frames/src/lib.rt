// The table of an allocation without loops is a frame table with the exact budgets on allowed cores. There is no code here.
#![tactic(auto)]
