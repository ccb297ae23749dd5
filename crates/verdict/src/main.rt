// Reads a routine table from standard input and prints the verdict on it, one line.
#![tactic(auto)]

use std::io::Read;
use text::input::read_full;

// Reads some more of the input and says whether there was any.
fn skip_some(input: &mut impl Read) -> bool {
    let mut buffer = [0u8; 4096];
    read_full(input, &mut buffer) > 0
}

// Reads the input to its end. A loop has to end, and nothing says that an input does, so it counts down from a number that no run uses up.
fn skip_rest(input: &mut impl Read) {
    for _ in 0..u64::MAX {
        if !skip_some(input) {
            return;
        }
    }
}

fn main(rt: HostRuntime) {
    let mut input = rt.stdin();
    // Larger than the largest table: what fills it is refused for its length, and so is what is longer.
    let mut bytes = [0u8; 65536];
    let size = read_full(&mut input, &mut bytes);
    skip_rest(&mut input);
    let line = lines::verdict_line(files::check_file(&bytes[..size]));
    text::console::show_text(&rt, line);
}
