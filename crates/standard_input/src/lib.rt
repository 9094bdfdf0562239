// Standard input, for the programs: read into a buffer.
#![tactic(auto)]

ghost use Rattle.std.specs.Prelude.{◌≡◌, ◌≤◌, length, IfOk};

use std::io;
use std::io::Read;

// Reads until the buffer is full or the input ends, and gives the bytes read, which stand at the buffer's front.
pub fn read_full<'a>(rt: &impl Input, buffer: &'a mut [u8]) -> io::Result<&'a [u8]>
    ensures { IfOk result (λ read. (length read.now ≤ length buffer.old) × (read.ref_ptr ≡ buffer.entry.ref_ptr)) }
{
    let mut input = rt.reader();
    let mut done = 0;
    // A read gives as many bytes as it likes: the loop counts bytes, not turns, so no `for` fits.
    while done < buffer.len() {
        let n = input.read(&mut buffer[done..])?;
        if n == 0 {
            break;
        }
        done += n;
    }
    Ok(&buffer[..done])
}
