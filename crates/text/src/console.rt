// Text on standard output. What the system then writes no contract can say.
use crate::Text;

// Hands the text to standard output and answers whether all of it was taken.
pub fn write_text(rt: &impl Print, text: Text) -> bool {
    let bytes = text.bytes;
    let len = text.len;
    if 120 < len {
        return rt.write_all(&bytes).is_ok();
    }
    rt.write_all(&bytes[..len]).is_ok()
}

// Prints the text, and says so on standard error where standard output does not take it: a closed pipe is no success.
pub fn show_text(rt: &(impl Print + Eprint), text: Text) {
    if !write_text(rt, text) {
        let _ = eprintln!(rt; "standard output does not take the line");
    }
}
