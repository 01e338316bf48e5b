// What a campaign rests on, demands 2 and 3 in one statement: planned, walked, bounded. There is no code here.
#![tactic(auto)]
