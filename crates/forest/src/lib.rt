// Graphs of units: which task has units on which core. What comes apart leaf by leaf has no loop, and every allocation has one without loops. There is no code here.
#![tactic(auto)]
