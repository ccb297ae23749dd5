// Sums of chains, and the numbers that all crates share. Sums, constants and addresses may be negative: each is kept as the natural number that is 2^33 more.
#![tactic(auto)]

ghost use Rattle.std.specs.Prelude.{◌≡◌};
ghost use Rattle.sums.specs.Sums.{concatenated, negated, room_above};

// The sum 0.
pub const BIAS: u64 = 8589934592;

// The number that stands for zero, after those of the 16 variables.
pub const ZERO: usize = 16;

// The greatest value of a variable, and as a sum.
pub const MAX_VALUE: u32 = 4294967295;

pub const MAX_SUM: u64 = 12884901887;

// No bound at all: what a sum that is out of range counts as.
pub const UNBOUNDED: u64 = 18446744073709551615;

// Sums of a fact set stay far below this; so none that is added wraps.
pub const LIMIT: u64 = 1099511627776;

// The sum of two chains, one after the other.
pub fn concat(a: u64, b: u64) -> u64
    ensures { result ≡ concatenated a b }
{
    if LIMIT <= a {
        return UNBOUNDED;
    }
    if LIMIT <= b {
        return UNBOUNDED;
    }
    let both = a + b;
    if both < BIAS {
        return 0;
    }
    both - BIAS
}

// The sum with the other sign.
pub fn negate(a: u64) -> u64
    ensures { result ≡ negated a }
{
    if 17179869184 < a {
        return 0;
    }
    17179869184 - a
}

// The greatest value less a: how far below the greatest value a variable stays that can be raised by a.
pub fn room_above(a: u64) -> u64
    ensures { result ≡ room_above a }
{
    if 21474836479 < a {
        return 0;
    }
    21474836479 - a
}
