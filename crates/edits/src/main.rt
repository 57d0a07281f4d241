// Reads an edit script from standard input and writes its answers, record by record. The work is that of `script`.
#![tactic(auto)]

ghost use Rattle.std.specs.Prelude.{◌<◌, length, IfOk};

use global_router::GlobalRoutingTree;
use std::io::{Error, ErrorKind, Result};

// The bytes that a script may have.
const MOST_SCRIPT: usize = 65536;

// Runs the record that stands at a place, and returns where the next one does.
fn write_step(
    rt: &HostRuntime,
    tree: &mut GlobalRoutingTree,
    script: &[u8],
    at: usize,
) -> Result<usize>
    requires { at < length script.now }
    ensures { IfOk result (λ next. at < next) }
{
    let mut out = script::answer_buffer();
    let step = script::step(tree, script, at, &mut out);
    rt.write_all(&out[..step.written])?;
    Ok(step.next)
}

// Runs the records, after the start. (A `while`: a record tells where the next one stands.)
fn write_steps(rt: &HostRuntime, mut tree: GlobalRoutingTree, script: &[u8]) -> Result<()> {
    let mut at = script::first_record(script);
    while at < script.len() {
        at = write_step(rt, &mut tree, script, at)?;
    }
    Ok(())
}

fn run(rt: &HostRuntime, script: &[u8]) -> Result<()> {
    let mut out = script::answer_buffer();
    let start = script::start(script);
    let n = script::put_start(&mut out, &start);
    rt.write_all(&out[..n])?;
    match start {
        Ok(tree) => write_steps(rt, tree, script),
        Err(_) => Ok(()),
    }
}

// Where standard input cannot be read, it answers nothing, says so and ends with an error. So does a failed write.
fn main(rt: HostRuntime) -> Result<()> {
    let mut buf = [0u8; MOST_SCRIPT];
    let Ok(n) = streams::read_input(&mut rt.reader(), &mut buf) else {
        rt.stderr().write_all(b"standard input cannot be read\n")?;
        return Err(Error::from(ErrorKind::Other));
    };
    run(&rt, &buf[..n])
}
