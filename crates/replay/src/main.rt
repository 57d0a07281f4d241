// Replays jobs and edit scripts whose answers the published Rust gave, and says how many of ours differ, and which. compare/README.md has the
// layout of the input and says how it was made. A part that is missing is empty, and no answer is.
#![tactic(auto)]

ghost use Rattle.std.specs.Prelude.{◌≡◌, ◌+◌, ◌<◌, ◌≤◌, length, IfSome};
ghost use Rattle.replay.specs.Input.{most_case};

use global_router::GlobalRoutingTree;
use std::io::{Read, Result};

// Room for any case of the input.
const MOST_CASE: usize = 131072;

fn case_buffer() -> [u8; MOST_CASE]
    ensures { most_case ≡ length result }
{
    planning::buffer()
}

// ---- slices

// Whether the first n bytes of a buffer are what is expected.
fn wrote(buf: &[u8], n: usize, expected: &[u8]) -> bool {
    buf.get(..n) == Some(expected)
}

// The length of a part.
fn length_at(case: &[u8], at: usize) -> usize {
    // `as`: there is no From of u32 for usize.
    wire::u32_at(case, at) as usize
}

// ---- a job

fn plans(job: &[u8], text: &[u8]) -> bool {
    let mut out = planning::buffer::<{ planning::MOST_OUTPUT }>();
    planning::plan(job, &mut out).is_ok_and(|n| wrote(&out, n, text))
}

fn gives_bytes(t: &GlobalRoutingTree, bytes: &[u8]) -> bool {
    let mut out = script::bytes_buffer();
    t.to_bytes(&mut out).is_ok_and(|n| wrote(&out, n, bytes))
}

// A refused job has no bytes.
fn routes(job: &[u8], bytes: &[u8]) -> bool {
    match global_router::route(job) {
        Ok(t) => gives_bytes(&t, bytes),
        Err(_) => bytes.is_empty(),
    }
}

fn job_case_agrees(case: &[u8]) -> bool {
    let job = script::after(case, 0, 12);
    let text = script::after(case, job, length_at(case, 0));
    let bytes = script::after(case, text, length_at(case, 4));
    let end = script::after(case, bytes, length_at(case, 8));
    plans(&case[job..text], &case[text..bytes]) && routes(&case[job..text], &case[bytes..end])
}

// ---- a script

// The place after a line, if that stands in the answers at a place.
fn after_line(answers: &[u8], at: usize, line: &[u8]) -> Option<usize>
    requires { at ≤ length answers.now }
    ensures { IfSome result (λ end. end ≤ length answers.now) }
{
    if answers[at..].starts_with(line) {
        return Some(at + line.len());
    }
    None
}

// What a record left: where the next one stands, and the place in the answers.
#[derive(Clone, Copy)]
struct Place {
    next: usize,
    at: usize,
}

// Runs the record at a place, and follows it in the answers.
fn step(tree: &mut GlobalRoutingTree, script: &[u8], answers: &[u8], from: Place) -> Option<Place>
    requires { (from.next < length script.now) × (from.at ≤ length answers.now) }
    ensures { IfSome result (λ to. (from.next < to.next) × (to.at ≤ length answers.now)) }
{
    let mut out = script::answer_buffer();
    let r = script::step(tree, script, from.next, &mut out);
    let at = after_line(answers, from.at, &out[..r.written])?;
    Some(Place { next: r.next, at })
}

// Where the answers end that a script gives after its start, if they stand there from a place on. (A `while`: a record tells where the
// next one stands.)
fn follow(mut tree: GlobalRoutingTree, script: &[u8], answers: &[u8], at: usize) -> Option<usize>
    requires { at ≤ length answers.now }
{
    let mut place = Place {
        next: script::first_record(script),
        at,
    };
    while place.next < script.len() {
        place = step(&mut tree, script, answers, place)?;
    }
    Some(place.at)
}

// Where the answers end that a script gives, if they stand there.
fn answered(script: &[u8], answers: &[u8]) -> Option<usize> {
    let mut out = script::answer_buffer();
    let start = script::start(script);
    let n = script::put_start(&mut out, &start);
    let at = after_line(answers, 0, &out[..n])?;
    match start {
        Ok(tree) => follow(tree, script, answers, at),
        Err(_) => Some(at),
    }
}

fn script_case_agrees(case: &[u8]) -> bool {
    let script = script::after(case, 0, 8);
    let answers = script::after(case, script, length_at(case, 0));
    let end = script::after(case, answers, length_at(case, 4));
    answered(&case[script..answers], &case[answers..end]) == Some(end - answers)
}

// ---- the cases in turn

// Fills a buffer from the input; a part that is missing is as it was.
fn fill<R: Read>(source: &mut R, buf: &mut [u8]) -> usize
    ensures { result ≤ length buf.new }
{
    streams::read_input(source, buf).unwrap_or(0)
}

// Reads a case, which stands after its length.
fn read_case<R: Read>(source: &mut R, buf: &mut [u8]) -> usize
    ensures { result ≤ length buf.new }
{
    let mut size = [0u8; 4];
    fill(source, &mut size);
    let n = length_at(&size, 0).min(buf.len());
    fill(source, &mut buf[..n]);
    n
}

// How many of n cases, which the output calls by their kind, do not agree.
fn replay<R: Read, F: Fn(&[u8]) -> bool>(
    rt: &HostRuntime,
    source: &mut R,
    n: u32,
    kind: &str,
    agrees: F,
) -> Result<u32>
    requires { F.IsAlwaysCallable agrees }
{
    let mut differing: u32 = 0;
    for i in 0..n {
        let mut buf = case_buffer();
        let size = read_case(source, &mut buf);
        if !agrees(&buf[..size]) {
            println!(rt; "{kind} {i} differs")?;
            differing += 1;
        }
    }
    Ok(differing)
}

// The input begins with how many jobs and how many scripts it has.
fn main(rt: HostRuntime) -> Result<()> {
    let mut source = rt.reader();
    let mut counts = [0u8; 8];
    fill(&mut source, &mut counts);
    let jobs = wire::u32_at(&counts, 0);
    let scripts = wire::u32_at(&counts, 4);
    let of_jobs = replay(&rt, &mut source, jobs, "job", job_case_agrees)?;
    let of_scripts = replay(&rt, &mut source, scripts, "script", script_case_agrees)?;
    println!(rt; "jobs {jobs} differing {of_jobs} scripts {scripts} differing {of_scripts}")
}
