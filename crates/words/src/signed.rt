// Words as they stand in a table, signed: for those that make tables.
ghost use Rattle.std.specs.Prelude.{◌≡◌, ◌^◌, ◌<◌, pos, get_or};

// The word at an index; past the end the word 0.
pub fn signed_word(words: &[i32], i: usize) -> i32
    ensures { result ≡ get_or words.now i (pos 0) }
{
    if i < words.len() {
        return words[i];
    }
    0
}

// A small number as a word.
pub fn number_word(n: usize) -> i32
    requires { n < 2 ^ 31 }
    ensures { result ≡ pos n }
{
    n as i32
}
