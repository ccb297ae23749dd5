// Words of a file: 32 bits, two's complement, little-endian.
ghost use Rattle.std.specs.Prelude.{◌≡◌, ◌+◌, ◌≤◌, length};
ghost use Rattle.files.specs.Files.{word_at};
ghost use Rattle.files.specs.Reading.{WordsRead};

// The word whose four bytes begin at an index.
fn word_at(bytes: &[u8], at: usize) -> i32
    requires { at + 4 ≤ length bytes.now }
    ensures { result ≡ word_at bytes.now at }
{
    i32::from_le_bytes([bytes[at], bytes[at + 1], bytes[at + 2], bytes[at + 3]])
}

// Puts the words of a file at the front of a table, as many as it has room for, and answers how many. The words behind them stay.
pub fn read_words(bytes: &[u8], table: &mut [i32]) -> usize
    ensures { WordsRead bytes.now table.old result table.new }
{
    let count = (bytes.len() / 4).min(table.len());
    for i in 0..count {
        table[i] = word_at(bytes, 4 * i);
    }
    count
}
