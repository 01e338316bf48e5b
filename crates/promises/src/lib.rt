// What a customer signs for, over the contract of plan alone: demand 2 from the answer and from what then stands in the lent table, and that any two
// answers agree. There is no code here.
#![tactic(auto)]
