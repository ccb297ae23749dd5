// Prints the lines on the paper's routines (a) to (l), which stand in data/ as files.
#![tactic(auto)]

use std::fs;
use std::rt::Files;
use text::input::read_full;

// The letter, and the verdict on the file that it names.
fn show(rt: &(impl Files + Print + Eprint), letter: u8) {
    let mut name = [0u8; 4];
    let name = char::from(letter).encode_utf8(&mut name);
    let mut file = match fs::open(rt, name) {
        Ok(file) => file,
        Err(error) => {
            let _ = eprintln!(rt; "{name}: {error}");
            return;
        }
    };
    let mut bytes = [0u8; 65536];
    let size = read_full(&mut file, &mut bytes);
    drop(file);
    let line = lines::verdict_line(files::check_file(&bytes[..size]));
    let head = [b'(', letter, b')', b' '];
    let _ = rt.write_all(&head);
    text::console::show_text(rt, line);
}

fn main(rt: HostRuntime) {
    for letter in b'a'..=b'l' {
        show(&rt, letter);
    }
}
