// A verdict as a line of text.
#![tactic(auto)]

pub mod report; // report.rt: what a rehearsal tells a scorer, as lines of text

ghost use Rattle.answers.specs.Refusals.{number, place, pointer};
ghost use Rattle.rules.specs.Verdict.{verdict_reads};
ghost use Rattle.text.specs.Text.{Line};
ghost use Rattle.lines.specs.Lines.{line_of, refused_line};

use answers::refusals::Refusal;
use text::Text;

// "refused", number and place; for refusal 8 number, statement and pointer.
fn refused_line(r: Refusal) -> Text
    ensures { Line (refused_line (number r) (place r) (pointer r)) result }
{
    let number = r.number();
    let start = Text::new()
        .push_all(b"refused ")
        .push_number(number as u64)
        .push(b' ')
        .push_number(r.place() as u64);
    if number == 8 {
        return start.push(b' ').push_number(r.pointer() as u64).push(b'\n');
    }
    start.push(b'\n')
}

// The line that the verdict program prints.
pub fn verdict_line(v: Result<(), Refusal>) -> Text
    ensures { Line (line_of (verdict_reads v)) result }
{
    match v {
        Ok(()) => Text::new().push_all(b"accepted\n"),
        Err(r) => refused_line(r),
    }
}
