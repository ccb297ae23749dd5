// The plain machine, and that its runs are sound (specs/); in code, the values of a run as whole numbers.
#![tactic(auto)]

ghost use Rattle.std.specs.Prelude.{◌≡◌, ◌*◌, ◌^◌, ◌<◌, ◌≤◌, get_or};

// The value of a variable; 0 for the number that stands for zero.
pub fn value_at(values: &[u32], x: usize) -> u64
    ensures value { result ≡ get_or values.now x 0 }
    ensures small { result < 2 ^ 32 }
{
    if x < values.len() {
        return u64::from(values[x]);
    }
    0
}

// size times value, for a value of 32 bits: at most 8 times 4,294,967,295.
pub fn scaled(size: u64, value: u64) -> u64
    requires { (size ≤ 8) × (value < 2 ^ 32) }
    ensures value { result ≡ size * value }
    ensures small { result < 2 ^ 35 }
{
    size * value
}
