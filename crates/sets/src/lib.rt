// Sets of cores (16 bits, bit j for core j) and of tasks (64 bits, bit i for task i), by shifts and masks. A number past the width is no
// member and adds nothing.
#![tactic(auto)]

mod cores;
mod tasks;

ghost use Rattle.std.specs.Prelude.{◌≡◌, ℕ, cond};
ghost use Rattle.rules.specs.Sets.{has};
ghost use Rattle.sets.specs.Joined.{joined};

// A set of numbers below a width, which is one number. Two types hold one: no shift is generic over both, and an impl by a macro of our own is
// not accepted.
pub trait Set: Copy {
    ghost width: { ℕ };

    ghost bits: { Self → ℕ };

    // Whether i is a member.
    fn has(self, i: usize) -> bool
        ensures { cond result 1 0 ≡ has (bits self) i };

    // The set with i as a member.
    fn with(self, i: usize) -> Self
        ensures { bits result ≡ joined width (bits self) i };
}
