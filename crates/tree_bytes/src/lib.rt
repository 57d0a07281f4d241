// The bytes of a tree in an arena.
#![tactic(auto)]

ghost use Rattle.std.specs.Prelude.{◌≡◌, [], ◌∷◌, ◌<◌, length, IfSome};
ghost use Rattle.wire.specs.Puts.{Puts};
ghost use Rattle.tree.specs.Limits.{most_nodes};
ghost use Rattle.tree.specs.Tree.{node_at};
ghost use Rattle.tree.specs.Measures.{of_kind, place_under};
ghost use Rattle.tree.specs.Memory.{type_number, parent_in};
ghost use Rattle.measures.specs.Standing.{nodes_in};
ghost use Rattle.output.specs.Answer.{Answers};
ghost use Rattle.tree_bytes.specs.TreeBytes.{parent_byte, record_of, in_turn, header_of, bytes_of};
ghost use Rattle.tree_bytes.specs.Show.{show_record};

use geometry::Point;
use measures::{Chain, Figures, Lent};
use refusal::Refusal;
use tree::{NodeIndex, NodeType};

// The source has no parent: the format's number for that.
const NO_PARENT: u8 = 255;

// ---- a node's fields

// The format's number, as a byte: the enum stands in its order. (`as`, here and below: indices, numbers and counts of a tree are within MOST_NODES;
// `try_from` would test that again.)
fn kind_byte(kind: NodeType) -> u8
    ensures { result ≡ type_number kind }
{
    kind as u8
}

// How many siblings stand before a node that has a parent: steps along prev.
fn place(tree: Lent, i: usize) -> u8
    requires { i < tree.arena.now.counts.nodes }
    ensures { result ≡ place_under (nodes_in tree.entry.arena.now) i (node_at (nodes_in tree.entry.arena.now) i).parent }
{
    let Some(_parent) = tree.arena.nodes.parent_at(i) else {
        return 0;
    };
    let next = joining::child_before(&tree.arena.links, i);
    Chain { tree, next }.count() as u8
}

fn parent_byte(p: Option<NodeIndex>) -> u8
    requires { IfSome p (λ q. q.0 < most_nodes) }
    ensures { result ≡ parent_byte (parent_in p) }
{
    match p {
        None => NO_PARENT,
        Some(q) => q.0 as u8,
    }
}

// What a node's record shows, as the format has it.
#[derive(Clone, Copy)]
struct Record {
    kind: u8,
    parent: u8,
    number: u8,
    place: u8,
    pt: Point,
    path: u32,
}

fn record_at(tree: Lent, i: usize) -> Record
    requires { i < tree.arena.now.counts.nodes }
    ensures { show_record result ≡ record_of (nodes_in tree.entry.arena.now) i }
{
    let row = tree.arena.nodes.row_at(i);
    let kind = kind_byte(row.name.node_type());
    let parent = parent_byte(tree.arena.nodes.parent_at(i));
    let number = row.name.number() as u8;
    let place = place(tree, i);
    Record {
        kind,
        parent,
        number,
        place,
        pt: row.point,
        path: row.path,
    }
}

// ---- writing (an output and its place: see wire, "writing")

fn put_record(out: &mut [u8], at: usize, r: Record) -> usize
    ensures { Puts out.old at (show_record r) out.new result }
{
    let p1 = wire::put_all(out, at, &[r.kind, r.parent, r.number, r.place]);
    let p2 = wire::put_i32(out, p1, r.pt.xcoord);
    let p3 = wire::put_i32(out, p2, r.pt.ycoord);
    wire::put_u32(out, p3, r.path)
}

// The records, in index order.
fn put_records(tree: Lent, out: &mut [u8], at: usize) -> usize
    ensures { Puts out.old at (in_turn (record_of (nodes_in tree.entry.arena.now)) tree.entry.arena.now.counts.nodes) out.new result }
{
    let mut p = at;
    for i in 0..usize::from(tree.arena.counts.nodes) {
        let r = record_at(tree, i);
        p = put_record(out, p, r);
    }
    p
}

// How many nodes are of a kind.
fn count_of(tree: Lent, which: NodeType) -> u8
    ensures { result ≡ length (of_kind (type_number which) (nodes_in tree.entry.arena.now)) }
{
    let mut m: u8 = 0;
    for i in 0..usize::from(tree.arena.counts.nodes) {
        if tree.arena.nodes.kind_at(i) == which {
            m += 1;
        }
    }
    m
}

fn put_header(
    out: &mut [u8],
    at: usize,
    nodes: u8,
    terminals: u8,
    steiners: u8,
    f: Figures,
) -> usize
    ensures { Puts out.old at (header_of nodes terminals steiners f.allowed f.farthest f.total f.worst) out.new result }
{
    let p1 = wire::put_all(out, at, &[nodes, terminals, steiners, 0]);
    let p2 = wire::put_u32(out, p1, 24);
    let p3 = wire::put_i32(out, p2, f.allowed);
    let p4 = wire::put_u32(out, p3, f.farthest);
    let p5 = wire::put_u32(out, p4, f.total);
    wire::put_u32(out, p5, f.worst)
}

fn put_tree(tree: Lent, allowed: i32, farthest: u32, out: &mut [u8], at: usize) -> usize
    ensures { Puts out.old at (bytes_of (nodes_in tree.entry.arena.now) allowed farthest) out.new result }
{
    let terminals = count_of(tree, NodeType::Terminal);
    let steiners = count_of(tree, NodeType::Steiner);
    let f = measures::figures_of(tree, allowed, farthest);
    let p = put_header(
        out,
        at,
        tree.arena.counts.nodes as u8,
        terminals,
        steiners,
        f,
    );
    put_records(tree, out, p)
}

// The bytes of a tree with these figures, if they fit whole.
pub fn write_tree_bytes(
    tree: Lent,
    allowed: i32,
    farthest: u32,
    out: &mut [u8],
) -> Result<usize, Refusal>
    ensures { Answers (bytes_of (nodes_in tree.entry.arena.now) allowed farthest) out.old result out.new }
{
    output::write_measured(out, |out| put_tree(tree, allowed, farthest, out, 0))
}
