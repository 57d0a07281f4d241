// Standard input for the programs: read until a buffer is full or the input ends.
#![tactic(auto)]

ghost use Rattle.streams.specs.Input.{InputIn};

use std::io::{Read, Result};

// How much was read. One read gives what a pipe has, which may be less than is asked, and nothing at the end. A read that fails ends it.
// A loop, since of std's methods `read_to_end` takes a `Vec`, and `read_exact` tells nothing of an input that does not fill the buffer.
pub fn read_input<R: Read>(source: &mut R, buf: &mut [u8]) -> Result<usize>
    ensures { InputIn (R.remaining source.old) (R.remaining source.new) buf.new result }
{
    let mut n: usize = 0;
    while n < buf.len() {
        let k = source.read(&mut buf[n..])?;
        if k == 0 {
            break;
        }
        n += k;
    }
    Ok(n)
}
