// What the programs read before they work.
ghost use Rattle.std.specs.Prelude.{◌≡◌, ◌≤◌, IfOk, IfSome, length, take};

use std::io;
use std::io::Read;

// Reads until the buffer is full or the input ends. Answers how many bytes there are: of an input whose bytes are known, as a slice's, the first that
// there are, as many as find room.
// Stays: the library's read_exact fails where the input is shorter than the buffer, and its read_to_end allocates.
pub fn read_full<R: Read>(input: &mut R, buffer: &mut [u8]) -> io::Result<usize>
    ensures bound { IfOk result (λ n. n ≤ length buffer.new) }
    ensures bytes { IfOk result (λ n. IfSome (R.remaining input.old) (λ xs. take n buffer.new ≡ take (length buffer.new) xs)) }
{
    let mut done = 0;
    while done < buffer.len() {
        let n = input.read(&mut buffer[done..])?;
        if n == 0 {
            break;
        }
        done += n;
    }
    Ok(done)
}
