// Reads a job from standard input and writes its tree's text and figures, or its refusal. All work is one call of `planning`.
#![tactic(auto)]

ghost use Rattle.std.specs.Prelude.{◌≡◌, length};
ghost use Rattle.routeplan.specs.Input.{most_read};

// More than the longest job has (32 + 8 · 120 + 16 · 64 = 2016 bytes): a longer file, cut here, gives what it would give whole
// (`enough` in proofs/Enough.antt).
const MOST_READ: usize = 2048;

// Its length is that of which `enough` speaks.
fn input_buffer() -> [u8; MOST_READ]
    ensures { most_read ≡ length result }
{
    planning::buffer()
}

// The buffer has room for every output (`output_short` in planning/proofs/Room.antt), so that nothing is refused here.
fn write_plan(rt: &HostRuntime, job: &[u8]) -> std::io::Result<()> {
    let mut out = planning::buffer::<{ planning::MOST_OUTPUT }>();
    let answer = planning::plan(job, &mut out);
    if let Ok(n) = answer {
        return rt.write_all(&out[..n]);
    }
    Ok(())
}

// Where standard input cannot be read, it says so on standard error and writes nothing. It ends with 0 also after a refusal: the output tells.
fn main(rt: HostRuntime) -> std::io::Result<()> {
    let mut buf = input_buffer();
    match streams::read_input(&mut rt.reader(), &mut buf) {
        Ok(n) => write_plan(&rt, &buf[..n]),
        Err(_) => rt.stderr().write_all(b"standard input cannot be read\n"),
    }
}
