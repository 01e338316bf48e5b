// What raising an allocation to the one taken keeps (specs/Standing) and what its search hands over (specs/Way): definitions alone, as yet without code.
#![tactic(auto)]
