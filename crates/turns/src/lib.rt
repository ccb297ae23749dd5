// Who is served when several routines run in turn, and for how many steps (specs/); in code, the allowance of a turn and whose turn is next.
#![tactic(auto)]

ghost use Rattle.std.specs.Prelude.{◌≡◌, min, ◌<◌};
ghost use Rattle.turns.specs.Turns.{following};

// The allowance of a turn: the quantum, or what is left of the total.
pub fn allowance(quantum: u32, left: u32) -> u32
    ensures { result ≡ min quantum left }
{
    quantum.min(left)
}

// Whose turn is next, after routine r.
pub fn following_turn(count: usize, r: usize) -> usize
    requires { r < count }
    ensures { result ≡ following count r }
{
    if r + 1 < count { r + 1 } else { 0 }
}
