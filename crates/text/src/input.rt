// Bytes from a file or standard input. What they hold no contract can say.
ghost use Rattle.std.specs.Counts.{IsPrefixLen};

use std::io::Read;

// Reads until the buffer is full, the input ends or a read fails, and answers how many bytes it put at the buffer's start.
pub fn read_full<R: Read>(input: &mut R, buf: &mut [u8]) -> usize
    ensures { IsPrefixLen result buf.new }
{
    let mut done = 0;
    while done < buf.len() {
        let n = input.read(&mut buf[done..]).unwrap_or(0);
        if n == 0 {
            break;
        }
        done += n;
    }
    done
}
