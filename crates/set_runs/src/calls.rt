// What a call hands over to its callee, and what the caller gets.
ghost use Rattle.std.specs.Prelude.{◌+◌, ◌-◌, ◌*◌, ◌<◌, ◌≤◌, ◌≡◌, length, get_or, set};
ghost use Rattle.set_runs.specs.Lent.{called_values};

use declared::calls::argument;
use machine::value_at;
use statements::CallSite;
use std::array;

// The values of a callee: the arguments, then zeros.
pub(crate) fn called_values(values: &[u32], site: CallSite) -> [u32; 16]
    ensures { result ≡ called_values values.now site }
{
    array::from_fn(|j| value_at(values, argument(site, j)) as u32)
}

// The caller's variable `result` gets the value of the callee's last variable, of `count`; with no such variable nothing is set.
pub(crate) fn give_result(values: &mut [u32], res: usize, called: [u32; 16], count: usize)
    requires { (1 ≤ count) × (count ≤ 16) }
    ensures { values.new ≡ set values.old res (get_or called (count - 1) 0) }
{
    if res < values.len() {
        values[res] = called[count - 1];
    }
}

// What is due in routine n after the statement `at`.
pub(crate) fn due_after(successors: &[u32], n: usize, at: usize) -> usize
    requires { (n < 8) × (at < 1024) × (length successors.now ≡ 16384) }
    ensures { result ≡ get_or successors.now (2048 * n + 2 * at) 0 }
{
    successors[2048 * n + 2 * at] as usize
}
