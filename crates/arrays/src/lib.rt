// What loops that fill an array make, and the loop that searches by number.
#![tactic(auto)]

ghost use Rattle.std.specs.Prelude.{ℕ, ◌<◌};
ghost use Rattle.arrays.specs.Lowest.{LowestAt};

// The lowest number below `count` at which the test holds, else `count`.
pub fn lowest<F: Fn(usize) -> bool>(count: usize, test: F) -> usize
    requires { (i : ℕ) → i < count → F.pre test i }
    ensures { LowestAt (F.post test) count result }
{
    for i in 0..count {
        if test(i) {
            return i;
        }
    }
    count
}
