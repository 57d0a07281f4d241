// The text of a tree in an arena.
#![tactic(auto)]

ghost use Rattle.std.specs.Prelude.{reverse, ◌+◌, ◌<◌, ◌≤◌};
ghost use Rattle.tree.specs.Limits.{most_nodes};
ghost use Rattle.tree.specs.Memory.{name_in};
ghost use Rattle.wire.specs.Puts.{Puts};
ghost use Rattle.joining.specs.Buffers.{column};
ghost use Rattle.measures.specs.Children.{chain_at, Siblings};
ghost use Rattle.measures.specs.Standing.{nodes_in};
ghost use Rattle.output.specs.Answer.{Answers};
ghost use Rattle.text.specs.Text.{indent, head_of, line_of, each, text_from, text_of};

use geometry::Point;
use measures::Lent;
use refusal::Refusal;
use tree::{NodeIndex, NodeName};

// ---- a line (an output and its place: see wire, "writing")

fn put_indent(out: &mut [u8], at: usize, level: usize) -> usize
    ensures { Puts out.old at (indent level) out.new result }
{
    let mut p = at;
    for _k in 0..level {
        p = wire::put_all(out, p, b"  ");
    }
    p
}

fn put_name(out: &mut [u8], at: usize, name: NodeName) -> usize
    ensures { Puts out.old at (head_of (name_in name)) out.new result }
{
    match name {
        NodeName::Source => wire::put_all(out, at, b"Source(source"),
        NodeName::Steiner(number) => {
            let p = wire::put_all(out, at, b"Steiner(steiner_");
            decimal::put_u32(out, p, u32::from(number.0))
        }
        NodeName::Terminal(number) => {
            let p = wire::put_all(out, at, b"Terminal(terminal_");
            decimal::put_u32(out, p, u32::from(number.0))
        }
    }
}

fn put_line(out: &mut [u8], at: usize, level: usize, name: NodeName, pt: Point) -> usize
    ensures { Puts out.old at (line_of level (name_in name) pt) out.new result }
{
    let p1 = put_indent(out, at, level);
    let p2 = put_name(out, p1, name);
    let p3 = wire::put_all(out, p2, b", (");
    let p4 = decimal::put_i32(out, p3, pt.xcoord);
    let p5 = wire::put_all(out, p4, b", ");
    let p6 = decimal::put_i32(out, p5, pt.ycoord);
    wire::put_all(out, p6, b"))\n")
}

// ---- a node's line is followed by its list of children, each of which is again a node with its list

#[cycle(put_children_put_node)]
fn put_node(
    tree: Lent,
    out: &mut [u8],
    at: usize,
    level: usize,
    node: NodeIndex,
    left: usize,
) -> usize
    requires { (node.0 < tree.arena.now.counts.nodes) × (level + left ≤ most_nodes) }
    ensures { Puts out.old at (text_from (nodes_in tree.entry.arena.now) left level node.0) out.new result }
{
    let row = tree.arena.nodes.row_at(usize::from(node));
    let p = put_line(out, at, level, row.name, row.point);
    if left == 0 {
        return p;
    }
    let child = joining::last_child(&tree.arena.links, usize::from(node));
    put_children(tree, out, p, level + 1, child, left - 1)
}

// A child and the siblings before it: first those, then the child.
#[cycle(put_children_put_node)]
fn put_children(
    tree: Lent,
    out: &mut [u8],
    at: usize,
    level: usize,
    child: Option<NodeIndex>,
    left: usize,
) -> usize
    requires { Siblings (column 1 tree.arena.now.links) tree.arena.now.counts.nodes child × (level + left ≤ most_nodes) }
    ensures { Puts out.old at (each (text_from (nodes_in tree.entry.arena.now) left level) (reverse (chain_at (column 1 tree.entry.arena.now.links) child))) out.new result }
{
    let Some(c) = child else {
        return at;
    };
    let before = joining::child_before(&tree.arena.links, usize::from(c));
    let p = put_children(tree, out, at, level, before, left);
    put_node(tree, out, p, level, c, left)
}

// The text at a place: what would stand past the end is left out, and still counts.
pub fn put_text(tree: Lent, out: &mut [u8], at: usize) -> usize
    ensures { Puts out.old at (text_of (nodes_in tree.entry.arena.now)) out.new result }
{
    put_node(
        tree,
        out,
        at,
        0,
        NodeIndex(0),
        usize::from(tree.arena.counts.nodes),
    )
}

// The text, if it fits whole.
pub fn write_text(tree: Lent, out: &mut [u8]) -> Result<usize, Refusal>
    ensures { Answers (text_of (nodes_in tree.entry.arena.now)) out.old result out.new }
{
    output::write_measured(out, |out| put_text(tree, out, 0))
}
