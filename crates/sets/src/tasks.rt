// A set of tasks, 64 bits.
use crate::Set;

impl Set for u64 {
    ghost width = { 64 };

    ghost bits = { λ s. s };

    fn has(self, i: usize) -> bool {
        if 64 <= i {
            return false;
        }
        (self >> i) & 1 == 1
    }

    fn with(self, i: usize) -> u64 {
        if 64 <= i {
            return self;
        }
        self | (1 << i)
    }
}
