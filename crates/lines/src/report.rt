// What a rehearsal tells a scorer, as lines of text.
ghost use Rattle.std.specs.Prelude.{◌++◌, ◌+◌, ◌≤◌, length};
ghost use Rattle.text.specs.Text.{text_of, decimal, Grown, Line};
ghost use Rattle.lines.specs.Report.{refused_text, stopped_text, entry_text, entry_line, left_line, row_line, first_row_line, corrected_line};

use answers::refusals::Refusal;
use answers::stops::{Check, Outcome};
use text::Text;

// A phrase and a number behind it. Callers widen by `as`: with `u64::from` their answers, which name the number itself, do not close.
fn put(text: Text, phrase: &[u8], n: u64) -> Text
    requires { text.len + length phrase.now + 20 ≤ 120 }
    ensures { Grown (text_of text) (phrase.now ++ decimal 20 n) text.len result × (result.len ≤ text.len + length phrase.now + 20) }
{
    text.push_all(phrase).push_number(n)
}

// A line has room for 120 bytes: 25 for the boat, 94 for what became of it, 1 for the line feed.
fn put_refusal(text: Text, r: Refusal) -> Text
    requires { text.len ≤ 25 }
    ensures { Grown (text_of text) (refused_text r) text.len result × (result.len ≤ text.len + 94) }
{
    let number = r.number();
    let place = r.place();
    let start = put(text, b": refused ", number as u64);
    if number == 8 {
        let pointer = r.pointer();
        let at = put(start, b" at statement ", place as u64);
        return put(at, b", pointer ", pointer as u64);
    }
    put(start, b" at place ", place as u64)
}

fn put_check(text: Text, check: Check) -> Text
    requires { text.len ≤ 25 }
    ensures { Grown (text_of text) (stopped_text check) text.len result × (result.len ≤ text.len + 94) }
{
    let number = check.number();
    let place = check.statement();
    let start = put(text, b": stopped at check ", number as u64);
    put(start, b" at statement ", place as u64)
}

fn put_entry(text: Text, row: u32, outcome: Outcome) -> Text
    requires { text.len ≤ 25 }
    ensures { Grown (text_of text) (entry_text row outcome) text.len result × (result.len ≤ text.len + 94) }
{
    match outcome {
        Outcome::Done { steps } => put(text, b": row ", row as u64),
        Outcome::Spent { steps, statement } => {
            let start = put(text, b": spent after ", steps as u64);
            put(start, b" steps at statement ", statement as u64)
        }
        Outcome::Stopped { steps, check } => put_check(text, check),
        Outcome::Refused(r) => put_refusal(text, r),
    }
}

// The row that a late boat got, or what became of the run instead.
pub fn entry_line(boat: u32, row: u32, outcome: Outcome) -> Text
    ensures { Line (entry_line boat row outcome) result }
{
    let head = put(Text::new(), b"boat ", boat as u64);
    put_entry(head, row, outcome).push(b'\n')
}

// How many rows of the block are left.
pub fn left_line(rows: u32) -> Text
    ensures { Line (left_line rows) result }
{
    if rows == 0 {
        return Text::new().push_all(b"the block is full\n");
    }
    put(Text::new(), b"rows left: ", rows as u64).push(b'\n')
}

// What a row of the entry table holds.
pub fn row_line(row: u32, boat: u32) -> Text
    ensures { Line (row_line row boat) result }
{
    let start = put(Text::new(), b"row ", row as u64);
    if boat == 0 {
        return start.push_all(b" is free\n");
    }
    put(start, b" holds boat ", boat as u64).push(b'\n')
}

// Whether the other laptop's first row holds what it held.
pub fn first_row_line(before: u32, after: u32) -> Text
    ensures { Line (first_row_line before after) result }
{
    let text = Text::new();
    if before == after {
        return put(
            text,
            b"the other laptop's first row still holds ",
            before as u64,
        )
        .push(b'\n');
    }
    let start = put(text, b"the other laptop's first row held ", before as u64);
    put(start, b" and now holds ", after as u64).push(b'\n')
}

// The corrected time of the boat with this number, in seconds.
pub fn corrected_line(number: u32, seconds: u32) -> Text
    ensures { Line (corrected_line number seconds) result }
{
    let head = put(Text::new(), b"boat ", number as u64);
    put(head, b": corrected time ", seconds as u64).push(b'\n')
}
