// What a call that writes to a lent buffer answers, and bytes written to one.
#![tactic(auto)]

ghost use Rattle.std.specs.Prelude.{List, ◌<◌, length};
ghost use Rattle.std.specs.Fn.{FnOnceReturnsAtMut};
ghost use Rattle.wire.specs.Puts.{Puts, last_place};
ghost use Rattle.output.specs.Answer.{Answers, Writes};

use refusal::Refusal;

pub fn put_bytes(out: &mut [u8], at: usize, s: &[u8]) -> usize
    ensures { Puts out.old at s.now out.new result }
{
    wire::put_all(out, at, s)
}

// s from the buffer's start, if it fits whole, and how long it is.
pub fn write_bytes(s: &[u8], out: &mut [u8]) -> Result<usize, Refusal>
    ensures { Answers s.now out.old result out.new }
{
    if out.len() < s.len() {
        return Err(Refusal::NoRoom);
    }
    Ok(wire::put_all(out, 0, s))
}

// What a writer writes from a buffer's start, if it fits whole, and how long it is. The same writer measures it, on a buffer of none.
pub fn write_measured<T, F: Fn(&mut [T]) -> usize>(out: &mut [T], put: F) -> Result<usize, Refusal>
    requires callable { F.IsAlwaysCallable put }
    requires few { length out.old < last_place }
    ensures { (xs : List T) → Writes (FnOnceReturnsAtMut F.FnOnce put) xs out.old → Answers xs out.old result out.new }
{
    let m = put(&mut []);
    if out.len() < m {
        return Err(Refusal::NoRoom);
    }
    Ok(put(out))
}
