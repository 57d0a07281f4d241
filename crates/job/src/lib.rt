// A job: read from bytes, or refused by the tests of document 01 in their order.
#![tactic(auto)]

ghost use Rattle.std.specs.Prelude.{◌≡◌, false, ◌+◌, ◌*◌, ◌^◌, ◌<◌, ◌≤◌, IfOk};
ghost use Rattle.tree.specs.Search.{any_of};
ghost use Rattle.wire.specs.Fields.{int32};
ghost use Rattle.job.specs.Layout.{row, header_size, terminal_size, keepout_size, keepouts_at};
ghost use Rattle.job.specs.Job.{point_from, interval_from, rectangle_from, terminal_count, keepout_count, mode_byte, spare_bytes, multiplier_bits, source_of};
ghost use Rattle.job.specs.Job.{mode_of, nonzero, outside, invalid_keepout, short, too_many, wrong_length, wrong_offset, wrong_mode, far_out, bad_keepout, job_of, read_job};
ghost use Rattle.job.specs.Reading.{filled, packed, unpacked, answer_in, Tested};

use geometry::{Interval, Point, Rectangle};
use refusal::Refusal;
use tree::{KEEPOUT_BOUNDS, MOST_KEEPOUTS, MOST_TERMINALS, REACH};

// The lengths of the header, a terminal and a keepout.
const HEADER_SIZE: usize = 32;

const TERMINAL_SIZE: usize = 8;

const KEEPOUT_SIZE: usize = 16;

// The mode's numbers are 0, 1 and 2; the last has a multiplier.
#[derive(Clone, Copy)]
pub enum Mode {
    Simple,
    Steiners,
    Constraints(f64),
}

// Terminals stand in two columns, and keepouts four numbers each: lower x, upper x, lower y, upper y. What is past the counts is 0.
// Counts stand beside fixed arrays, since the project has no heap; columns, since the router's inner loops read and sort columns.
#[derive(Clone, Copy)]
pub struct RoutingJob {
    pub mode: Mode,
    pub source: Point,
    pub terminal_xs: [i32; MOST_TERMINALS],
    pub terminal_ys: [i32; MOST_TERMINALS],
    pub terminal_count: usize,
    pub keepouts: [i32; KEEPOUT_BOUNDS * MOST_KEEPOUTS],
    pub keepout_count: usize,
}

// ---- what stands at a place

// The two counts: the layout names both, and so does each test that asks for one.
fn terminal_count(s: &[u8]) -> u16
    ensures { result ≡ terminal_count s.now }
{
    wire::u16_at(s, 0)
}

fn keepout_count(s: &[u8]) -> u16
    ensures { result ≡ keepout_count s.now }
{
    wire::u16_at(s, 2)
}

// Where the keepouts begin.
fn keepouts_at(s: &[u8]) -> usize
    ensures is { result ≡ keepouts_at (terminal_count s.now) }
    ensures near { result < 2 ^ 20 }
{
    HEADER_SIZE + TERMINAL_SIZE * usize::from(terminal_count(s))
}

// A point and a rectangle stand so wherever bytes have them: in a job, and in an edit script.
pub fn point_from(s: &[u8], at: usize) -> Point
    requires { at + 4 < 2 ^ 64 }
    ensures { result ≡ point_from s.now at }
{
    Point {
        xcoord: wire::i32_at(s, at),
        ycoord: wire::i32_at(s, at + 4),
    }
}

fn interval_from(s: &[u8], at: usize) -> Interval
    requires { at + 4 < 2 ^ 64 }
    ensures { result ≡ interval_from s.now at }
{
    Interval {
        lb: wire::i32_at(s, at),
        ub: wire::i32_at(s, at + 4),
    }
}

pub fn rectangle_from(s: &[u8], at: usize) -> Rectangle
    requires { at + 12 < 2 ^ 64 }
    ensures { result ≡ rectangle_from s.now at }
{
    Rectangle {
        xcoord: interval_from(s, at),
        ycoord: interval_from(s, at + 8),
    }
}

fn terminal_at(s: &[u8], i: u16) -> Point
    ensures { result ≡ point_from s.now (header_size + terminal_size * i) }
{
    point_from(s, HEADER_SIZE + TERMINAL_SIZE * usize::from(i))
}

fn keepout_at(s: &[u8], i: u16) -> Rectangle
    ensures { result ≡ rectangle_from s.now (keepouts_at (terminal_count s.now) + keepout_size * i) }
{
    rectangle_from(s, keepouts_at(s) + KEEPOUT_SIZE * usize::from(i))
}

fn source_of(s: &[u8]) -> Point
    ensures { result ≡ source_of s.now }
{
    point_from(s, 24)
}

// ---- the tests: true refuses

// Test 1, of the header.
fn short(s: &[u8]) -> bool
    ensures { result ≡ short s.now }
{
    s.len() < HEADER_SIZE
}

// Test 2.
fn too_many(s: &[u8]) -> bool
    ensures { result ≡ too_many s.now }
{
    MOST_TERMINALS < usize::from(terminal_count(s)) || MOST_KEEPOUTS < usize::from(keepout_count(s))
}

// Test 1, of the whole.
fn wrong_length(s: &[u8]) -> bool
    ensures { result ≡ wrong_length s.now }
{
    s.len() != keepouts_at(s) + KEEPOUT_SIZE * usize::from(keepout_count(s))
}

// Test 3.
fn wrong_offset(s: &[u8]) -> bool
    ensures { result ≡ wrong_offset s.now }
{
    // `as`: there is no From of u32 for usize.
    let terminals = wire::u32_at(s, 4) as usize;
    let keepouts = wire::u32_at(s, 8) as usize;
    terminals != HEADER_SIZE || keepouts != keepouts_at(s)
}

// A nonzero spare byte.
fn spare_used(s: &[u8]) -> bool
    ensures { result ≡ any_of nonzero (spare_bytes s.now) }
{
    (13..16).any(|at| wire::byte_at(s, at) != 0)
}

// Test 4.
fn wrong_mode(s: &[u8]) -> bool
    ensures { result ≡ wrong_mode s.now }
{
    let mode = wire::byte_at(s, 12);
    2 < mode || spare_used(s) || mode < 2 && wire::u64_at(s, 16) != 0
}

// Test 5 of one point: "−1,000,000..1,000,000".
#[tactic(auto, unfolding(crate::specs::Job::outside))]
pub fn outside(p: Point) -> bool
    ensures { result ≡ outside p }
{
    let coordinates = Interval {
        lb: -REACH,
        ub: REACH,
    };
    let field = Rectangle {
        xcoord: coordinates,
        ycoord: coordinates,
    };
    !field.contains(p)
}

// Test 5.
fn far_out(s: &[u8]) -> bool
    ensures { result ≡ far_out s.now }
{
    outside(source_of(s)) || (0..terminal_count(s)).any(|i| outside(terminal_at(s, i)))
}

// Test 6 of one keepout.
#[tactic(auto, unfolding(crate::specs::Job::invalid_keepout))]
pub fn invalid_keepout(k: Rectangle) -> bool
    ensures { result ≡ invalid_keepout k }
{
    k.xcoord.is_invalid() || k.ycoord.is_invalid()
}

// Test 6.
fn bad_keepout(s: &[u8]) -> bool
    ensures { result ≡ bad_keepout s.now }
{
    (0..keepout_count(s)).any(|i| invalid_keepout(keepout_at(s, i)))
}

// The first test that refuses. Test 1 has a part before test 2 and one after it.
#[tactic(auto, unfolding(crate::specs::Job::read_job))]
fn tests(s: &[u8]) -> Result<(), Refusal>
    ensures { Tested s.now result }
{
    if short(s) {
        return Err(Refusal::WrongLength);
    }
    if too_many(s) {
        return Err(Refusal::TooMany);
    }
    if wrong_length(s) {
        return Err(Refusal::WrongLength);
    }
    if wrong_offset(s) {
        return Err(Refusal::WrongOffset);
    }
    if wrong_mode(s) {
        return Err(Refusal::WrongMode);
    }
    if far_out(s) {
        return Err(Refusal::Outside);
    }
    if bad_keepout(s) {
        return Err(Refusal::BadKeepout);
    }
    Ok(())
}

// ---- the job

#[tactic(auto, unfolding(crate::specs::Job::mode_of))]
fn mode_of(s: &[u8]) -> Mode
    ensures { result ≡ mode_of (mode_byte s.now) (multiplier_bits s.now) }
{
    match wire::byte_at(s, 12) {
        0 => Mode::Simple,
        1 => Mode::Steiners,
        _ => Mode::Constraints(allowance::f64_of_bits(wire::u64_at(s, 16))),
    }
}

// A column of N: n numbers, each a stride after the one before, and then zeros.
fn read_column<const N: usize>(s: &[u8], from: usize, stride: usize, n: usize) -> [i32; N]
    requires { (n ≤ N) × (from + stride * n < 2 ^ 64) }
    ensures { result ≡ filled N (row (int32 s.now) stride from n) }
{
    let mut column = [0; N];
    for i in 0..n {
        column[i] = wire::i32_at(s, from + stride * i);
    }
    column
}

// The job of a file whose counts pass test 2.
fn job_of(s: &[u8]) -> RoutingJob
    requires { too_many s.now ≡ false }
    ensures { result ≡ packed (job_of s.now) }
{
    let mode = mode_of(s);
    let source = source_of(s);
    let t = usize::from(terminal_count(s));
    let k = usize::from(keepout_count(s));
    RoutingJob {
        mode,
        source,
        terminal_xs: read_column(s, HEADER_SIZE, TERMINAL_SIZE, t),
        terminal_ys: read_column(s, HEADER_SIZE + 4, TERMINAL_SIZE, t),
        terminal_count: t,
        keepouts: read_column(s, keepouts_at(s), 4, KEEPOUT_BOUNDS * k),
        keepout_count: k,
    }
}

// Reads a job, by the tests of document 01 in their order.
pub fn read_job(s: &[u8]) -> Result<RoutingJob, Refusal>
    ensures is { answer_in result ≡ read_job s.now }
    ensures filled { IfOk result (λ r. r ≡ packed (unpacked r)) }
{
    tests(s)?;
    Ok(job_of(s))
}
