// One field of a record: the number, index or literal that its word is, and what it may be.
ghost use Rattle.std.specs.Prelude.{◌≡◌};
ghost use Rattle.words.specs.Fields.{plain, index_of, literal_value, is_zero, is_below, is_constant};

use sums::BIAS;

// The words that are 0 or more: 0 to 2^31 - 1.
pub const COUNTS: usize = 2147483648;

// A word that is 0 or more as it is; a negative word as 0.
pub fn plain(w: u64) -> usize
    ensures { result ≡ plain w }
{
    if w < BIAS {
        return 0;
    }
    (w - BIAS) as usize
}

// The number of an index variable: 16 for -1.
pub fn index_of(w: u64) -> usize
    ensures { result ≡ index_of w }
{
    if w == BIAS - 1 {
        return 16;
    }
    plain(w)
}

// A negative word as a literal is that word plus 2^32.
pub fn literal_value(w: u64) -> u64
    ensures { result ≡ literal_value w }
{
    w % 4294967296
}

pub fn is_zero(w: u64) -> bool
    ensures { result ≡ is_zero w }
{
    w == BIAS
}

// 0 or more, and below n.
pub fn is_below(n: usize, w: u64) -> bool
    ensures { result ≡ is_below n w }
{
    (BIAS <= w) & (plain(w) < n)
}

pub fn is_constant(w: u64) -> bool
    ensures { result ≡ is_constant w }
{
    (BIAS - 65536 <= w) & (w <= BIAS + 65536)
}
