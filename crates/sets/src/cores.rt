// A set of cores, 16 bits.
use crate::Set;

impl Set for u16 {
    ghost width = { 16 };

    ghost bits = { λ s. s };

    fn has(self, j: usize) -> bool {
        if 16 <= j {
            return false;
        }
        (self >> j) & 1 == 1
    }

    fn with(self, j: usize) -> u16 {
        if 16 <= j {
            return self;
        }
        self | (1 << j)
    }
}
