// What C and Rust link for editing: the editor on lent slices, with the answer as words in a lent slice (include/mizzengrape.h).
ghost use Rattle.std.specs.Prelude.{◌≡◌, ◌≤◌, min, length};
ghost use Rattle.editor.specs.Editor.{NumbersSmall};
ghost use Rattle.exports.specs.EditWords.{flag, edit_of, length_word, edit_words, StartWords, EditCallWords};

use crate::put_verdict;
use editor::Answer;
use plans::Edit;

fn flag_of(b: bool) -> u32
    ensures { result ≡ flag b }
{
    if b { 1 } else { 0 }
}

// Operations: 0 insert, 1 replace, 2 remove.
fn edit_of(operation: u32) -> Edit
    ensures { result ≡ edit_of operation }
{
    if operation == 0 {
        return Edit::Insert;
    }
    if operation == 1 {
        return Edit::Replace;
    }
    if operation == 2 {
        return Edit::Remove;
    }
    Edit::Unknown
}

// A length beyond the buffer counts as the buffer's.
fn cut_at(length: usize, room: usize) -> usize
    ensures { result ≡ min length room }
{
    if length < room { length } else { room }
}

// The words of a table, at most 7,704 of one that is taken; of a longer one than a word can say the largest.
fn length_word(length: usize) -> u32
    ensures { result ≡ length_word length }
{
    if length < 4294967295 {
        return length as u32;
    }
    4294967295
}

fn put_edit(answer: &mut [u32], said: Answer)
    requires { (6 ≤ length answer.old) × NumbersSmall said }
    ensures { answer.new ≡ edit_words said answer.old }
{
    let verdict = said.verdict;
    put_verdict(answer, verdict);
    answer[3] = said.walked as u32;
    answer[4] = length_word(said.length);
    answer[5] = flag_of(said.taken);
}

// Takes a table for editing: the verdict on it, and the store anew. False, and nothing written, where the answer has fewer than six words.
#[unsafe(no_mangle)]
pub extern "C" fn mizzengrape_edit_start(
    table: &[i32],
    length: usize,
    store: &mut [u64],
    keep: &[u32],
    answer: &mut [u32],
) -> bool
    ensures { StartWords table.now length keep.now store.old answer.old result store.new
        answer.new }
{
    if answer.len() < 6 {
        return false;
    }
    let size = cut_at(length, table.len());
    let said = editor::start(&table[..size], keep, store);
    put_edit(answer, said);
    true
}

// Edits the table at the front of the buffer. False, and nothing written, where the answer has fewer than six words.
#[unsafe(no_mangle)]
pub extern "C" fn mizzengrape_edit(
    table: &mut [i32],
    operation: u32,
    position: u32,
    text: &[i32],
    store: &mut [u64],
    keep: &[u32],
    answer: &mut [u32],
) -> bool
    ensures { EditCallWords table.old operation position text.now keep.now store.old answer.old
        result table.new store.new answer.new }
{
    if answer.len() < 6 {
        return false;
    }
    let edit = edit_of(operation);
    let said = editor::edit_table(table, position as usize, edit, text, keep, store);
    put_edit(answer, said);
    true
}
