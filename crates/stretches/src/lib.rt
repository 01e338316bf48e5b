// Where stretches start and how they are cut into pieces: what the making of a table needs to know, for any units. There is no code here.
#![tactic(auto)]
