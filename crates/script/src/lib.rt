// Edit scripts: a tree begun or routed, then edits and questions, each with a line that answers it. compare/README.md has the layout and
// the lines. A script is run record by record, so that one buffer serves a script of any length.
// A field past a script's end reads as 0: no bytes are refused here.
#![tactic(auto)]

ghost use Rattle.std.specs.Prelude.{◌≡◌, ◌<◌, ◌≤◌, length};
ghost use Rattle.rectangles.specs.Rectangles.{room};
ghost use Rattle.planning.specs.Output.{most_text};
ghost use Rattle.script.specs.Buffers.{most_bytes, most_listed, most_answer};

use geometry::{Point, Rectangle};
use global_router::GlobalRoutingTree;
use measures::Figures;
use rectangles::Rectangles;
use refusal::Refusal;
use tree::{NodeName, NodeType};

const HEADER_SIZE: usize = 16;

const RECORD_SIZE: usize = 32;

const KEEPOUT_SIZE: usize = 16;

// ---- buffers, whose lengths are the definitions'

// The largest that a call is lent.
pub const MOST_BYTES: usize = 4024;

const MOST_LISTED: usize = 250;

// Room for the longest answer: a text with its line.
pub const MOST_ANSWER: usize = 65552;

pub fn bytes_buffer() -> [u8; MOST_BYTES]
    ensures { most_bytes ≡ length result }
{
    planning::buffer()
}

fn list_buffer() -> [u16; MOST_LISTED]
    ensures { most_listed ≡ length result }
{
    [0; MOST_LISTED]
}

pub fn answer_buffer() -> [u8; MOST_ANSWER]
    ensures { most_answer ≡ length result }
{
    planning::buffer()
}

// ---- what a record holds

fn point_in(record: &[u8]) -> Point {
    job::point_from(record, 12)
}

fn type_at(record: &[u8], at: usize) -> NodeType {
    NodeType::from(u16::from(wire::byte_at(record, at)))
}

// A name, whose kind and number stand apart.
fn name_at(record: &[u8], kind: usize, number: usize) -> NodeName {
    NodeName::new(type_at(record, kind), wire::u16_at(record, number))
}

fn name_a(record: &[u8]) -> NodeName {
    name_at(record, 4, 6)
}

fn parent_in(record: &[u8]) -> Option<NodeName> {
    if wire::byte_at(record, 2) == 0 {
        return None;
    }
    Some(name_a(record))
}

// How much of a buffer of n is lent.
fn room_in(record: &[u8], n: usize) -> usize
    ensures { result ≤ n }
{
    // `as`, here and below: there is no From of u32 for usize.
    let room = wire::u32_at(record, 24) as usize;
    room.min(n)
}

fn keepout_count(record: &[u8]) -> usize
    ensures { result ≤ 255 }
{
    usize::from(wire::byte_at(record, 3))
}

fn keepout_at(record: &[u8], i: usize) -> Rectangle
    requires { i < room }
{
    job::rectangle_from(record, RECORD_SIZE + KEEPOUT_SIZE * i)
}

// As many as there is room for: of more, the call refuses these as too many.
fn keepouts_in(record: &[u8]) -> Rectangles {
    let mut list = [keepout_at(record, 0); rectangles::ROOM];
    for i in 1..rectangles::ROOM {
        list[i] = keepout_at(record, i);
    }
    Rectangles {
        list,
        count: keepout_count(record),
    }
}

// ---- edits

// Calls 1 to 5, each one call of the tree with what the record holds.
fn insert_steiner_node(t: &mut GlobalRoutingTree, record: &[u8]) -> Result<NodeName, Refusal> {
    t.insert_steiner_node(point_in(record), parent_in(record))
}

fn insert_terminal_node(t: &mut GlobalRoutingTree, record: &[u8]) -> Result<NodeName, Refusal> {
    t.insert_terminal_node(point_in(record), parent_in(record))
}

fn insert_node_on_branch(t: &mut GlobalRoutingTree, record: &[u8]) -> Result<NodeName, Refusal> {
    let kind = type_at(record, 1);
    let end = name_at(record, 5, 8);
    t.insert_node_on_branch(kind, point_in(record), name_a(record), end)
}

fn insert_with_steiner(t: &mut GlobalRoutingTree, record: &[u8]) -> Result<NodeName, Refusal> {
    listed::insert_terminal_with_steiner(t, point_in(record), &keepouts_in(record))
}

fn insert_with_constraints(t: &mut GlobalRoutingTree, record: &[u8]) -> Result<NodeName, Refusal> {
    let point = point_in(record);
    let allowance = wire::i32_at(record, 20);
    listed::insert_terminal_with_constraints(t, point, allowance, &keepouts_in(record))
}

// ---- lines

fn put_word(out: &mut [u8], word: &[u8], n: u32) -> usize {
    let p = wire::put_all(out, 0, word);
    let q = decimal::put_u32(out, p, n);
    wire::put(out, q, b'\n')
}

// How many nodes a tree has: its bytes begin with that.
fn count_of(t: &GlobalRoutingTree) -> u8 {
    let mut bytes = bytes_buffer();
    let _ = t.to_bytes(&mut bytes);
    wire::byte_at(&bytes, 0)
}

fn put_count(out: &mut [u8], t: &GlobalRoutingTree) -> usize {
    put_word(out, b"ok ", u32::from(count_of(t)))
}

// An edit's line, where it was not refused.
fn put_edited(
    edit: Result<NodeName, Refusal>,
    t: &GlobalRoutingTree,
    out: &mut [u8],
) -> Result<usize, Refusal> {
    edit?;
    Ok(put_count(out, t))
}

fn put_list(out: &mut [u8], word: &[u8], list: &[u16]) -> usize {
    let mut p = wire::put_all(out, 0, word);
    for i in list {
        p = wire::put(out, p, b' ');
        p = decimal::put_u32(out, p, u32::from(*i));
    }
    wire::put(out, p, b'\n')
}

fn put_hexadecimal(out: &mut [u8], at: usize, b: u8) -> usize {
    let digits = b"0123456789abcdef";
    let p = wire::put(out, at, digits[usize::from(b / 16)]);
    wire::put(out, p, digits[usize::from(b % 16)])
}

fn put_tree_bytes(out: &mut [u8], bytes: &[u8]) -> usize {
    let mut p = wire::put_all(out, 0, b"bytes ");
    for b in bytes {
        p = put_hexadecimal(out, p, *b);
    }
    wire::put(out, p, b'\n')
}

fn put_text(out: &mut [u8], text: &[u8]) -> usize
    requires { length text.now ≤ most_text }
{
    // `as`: the text has at most MOST_TEXT bytes, and `try_from` would test that again.
    let p = put_word(out, b"text ", text.len() as u32);
    wire::put_all(out, p, text)
}

// ---- questions: each has a buffer that is long enough, of which the call is lent what the record says. A tree, a record and an output are what every
// question takes, and one `match` hands them on: a struct of them would hold a `&mut`.

fn ask_list<F: FnOnce(&mut [u16]) -> Result<usize, Refusal>>(
    record: &[u8],
    out: &mut [u8],
    word: &[u8],
    fill: F,
) -> Result<usize, Refusal>
    requires { F.IsAlwaysCallable fill }
{
    let mut list = list_buffer();
    let n = fill(&mut list[..room_in(record, MOST_LISTED)])?;
    Ok(put_list(out, word, &list[..n.min(MOST_LISTED)]))
}

fn ask_index(t: &GlobalRoutingTree, record: &[u8], out: &mut [u8]) -> Result<usize, Refusal> {
    let Some(i) = t.find_node(name_a(record)) else {
        return Err(Refusal::NoSuchNode);
    };
    Ok(put_word(out, b"index ", u32::from(i.0)))
}

fn ask_text(t: &GlobalRoutingTree, record: &[u8], out: &mut [u8]) -> Result<usize, Refusal> {
    let mut text = planning::buffer::<{ planning::MOST_TEXT }>();
    let room = room_in(record, planning::MOST_TEXT);
    let n = t.get_tree_structure(&mut text[..room])?;
    Ok(put_text(out, &text[..n.min(planning::MOST_TEXT)]))
}

fn ask_bytes(t: &GlobalRoutingTree, record: &[u8], out: &mut [u8]) -> Result<usize, Refusal> {
    let mut bytes = bytes_buffer();
    let room = room_in(record, MOST_BYTES);
    let n = t.to_bytes(&mut bytes[..room])?;
    Ok(put_tree_bytes(out, &bytes[..n.min(MOST_BYTES)]))
}

fn ask_figures(t: &GlobalRoutingTree, out: &mut [u8]) -> usize {
    let f = Figures {
        allowed: t.allowed(),
        farthest: t.farthest(),
        total: t.calculate_total_wirelength(),
        worst: t.calculate_worst_wirelength(),
    };
    planning::put_figures(out, 0, f)
}

// ---- a record

// Runs a record, and puts its line. (Calls by their numbers: an enum of them would list the same numbers once more.)
fn run(t: &mut GlobalRoutingTree, record: &[u8], out: &mut [u8]) -> Result<usize, Refusal> {
    match wire::byte_at(record, 0) {
        1 => put_edited(insert_steiner_node(t, record), t, out),
        2 => put_edited(insert_terminal_node(t, record), t, out),
        3 => put_edited(insert_node_on_branch(t, record), t, out),
        4 => put_edited(insert_with_steiner(t, record), t, out),
        5 => put_edited(insert_with_constraints(t, record), t, out),
        6 => {
            t.optimize_steiner_points();
            Ok(put_count(out, t))
        }
        7 => ask_list(
            record,
            out,
            b"path",
            |lent| t.find_path_to_source(name_a(record), lent),
        ),
        8 => ask_list(record, out, b"terminals", |lent| t.get_all_terminals(lent)),
        9 => ask_list(
            record,
            out,
            b"steiners",
            |lent| t.get_all_steiner_nodes(lent),
        ),
        10 => ask_index(t, record, out),
        11 => ask_text(t, record, out),
        12 => ask_bytes(t, record, out),
        13 => Ok(ask_figures(t, out)),
        _ => Ok(wire::put_all(out, 0, b"no such call\n")),
    }
}

// How much of an answer stands in the buffer: a refusal's line is put here.
fn written(answer: Result<usize, Refusal>, out: &mut [u8]) -> usize
    ensures { result ≤ length out.new }
{
    let n = match answer {
        Ok(n) => n,
        Err(r) => planning::put_refusal(out, 0, r),
    };
    n.min(out.len())
}

// The place n bytes on, or the script's end where that is nearer. (No sum that could pass the largest usize: `at + n` might.)
pub fn after(script: &[u8], at: usize, n: usize) -> usize
    requires { at ≤ length script.now }
    ensures bounded { (at ≤ result) × (result ≤ length script.now) }
    ensures on { at < length script.now → 0 < n → at < result }
{
    at + n.min(script.len() - at)
}

// What a record left: how much the answer has, and where the next record stands.
#[derive(Clone, Copy)]
pub struct Progress {
    pub written: usize,
    pub next: usize,
}

// Runs the record that stands at a place.
pub fn step(t: &mut GlobalRoutingTree, script: &[u8], at: usize, out: &mut [u8]) -> Progress
    requires { at < length script.now }
    ensures fits { result.written ≤ length out.new }
    ensures on { at < result.next }
{
    let record = &script[at..];
    let size = RECORD_SIZE + KEEPOUT_SIZE * keepout_count(record);
    let answer = run(t, record, out);
    Progress {
        written: written(answer, out),
        next: after(script, at, size),
    }
}

// ---- the start

// Where the records begin: after the header and the job.
pub fn first_record(script: &[u8]) -> usize
    ensures { result ≤ length script.now }
{
    let job = wire::u32_at(script, 4) as usize;
    after(script, 0, HEADER_SIZE + job)
}

fn begun(script: &[u8]) -> Result<GlobalRoutingTree, Refusal> {
    GlobalRoutingTree::new(job::point_from(script, 8))
}

fn routed(script: &[u8]) -> Result<GlobalRoutingTree, Refusal> {
    let end = first_record(script);
    global_router::route(&script[HEADER_SIZE.min(end)..end])
}

// The tree that a script starts with; where it is refused, the script has no further answers.
pub fn start(script: &[u8]) -> Result<GlobalRoutingTree, Refusal> {
    if wire::byte_at(script, 0) == 0 {
        return begun(script);
    }
    routed(script)
}

// Answers the start, and returns how much the answer has.
pub fn put_start(out: &mut [u8], start: &Result<GlobalRoutingTree, Refusal>) -> usize
    ensures { result ≤ length out.new }
{
    let answer = match start {
        Ok(t) => Ok(put_count(out, t)),
        Err(r) => Err(*r),
    };
    written(answer, out)
}
