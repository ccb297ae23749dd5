// Routine tables in files: the verdict on one.
#![tactic(auto)]

pub mod encoding; // encoding.rt: words of a file: 32 bits, two's complement, little-endian

ghost use Rattle.files.specs.Files.{FileJudged};

use answers::refusals::Refusal;

// The largest table, in words.
const MAX_WORDS: usize = 7704;

// The verdict on a file.
pub fn check_file(bytes: &[u8]) -> Result<(), Refusal>
    ensures { FileJudged bytes.now result }
{
    let size = bytes.len();
    if size % 4 != 0 {
        return Err(Refusal::Length);
    }
    if size / 4 > MAX_WORDS {
        return Err(Refusal::Length);
    }
    let mut table = [0i32; 7704];
    let count = encoding::read_words(bytes, &mut table);
    let listed = [0i32; 0];
    checker::check(&table[..count], &listed)?;
    Ok(())
}
