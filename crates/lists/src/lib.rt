// Lists of node indices of a tree in an arena, written as u16 to a lent buffer. An index past its end is left out and still counts.
#![tactic(auto)]

ghost use Rattle.std.specs.Prelude.{◌<◌};
ghost use Rattle.wire.specs.Puts.{Puts};
ghost use Rattle.tree.specs.Measures.{path_down, path_to, of_kind};
ghost use Rattle.tree.specs.Memory.{type_number};
ghost use Rattle.measures.specs.Standing.{nodes_in};
ghost use Rattle.output.specs.Answer.{Answers};

use measures::Lent;
use refusal::Refusal;
use tree::{NodeIndex, NodeType};

// ---- the path from the source (an output and its place: see wire, "writing")

// The parent's path, then the node, over at most `left` steps, which falls.
fn put_path(tree: Lent, out: &mut [u16], at: usize, node: NodeIndex, left: usize) -> usize
    requires { node.0 < tree.arena.now.counts.nodes }
    ensures { Puts out.old at (path_down (nodes_in tree.entry.arena.now) left node.0) out.new result }
{
    if left == 0 {
        return wire::put(out, at, node.0);
    }
    let Some(p) = tree.arena.nodes.parent_at(usize::from(node)) else {
        return wire::put(out, at, node.0);
    };
    let q = put_path(tree, out, at, p, left - 1);
    wire::put(out, q, node.0)
}

// The path from the source to a node, if it fits whole.
pub fn write_path(tree: Lent, node: NodeIndex, out: &mut [u16]) -> Result<usize, Refusal>
    requires { node.0 < tree.arena.now.counts.nodes }
    ensures { Answers (path_to (nodes_in tree.entry.arena.now) node.0) out.old result out.new }
{
    let left = usize::from(tree.arena.counts.nodes);
    output::write_measured(out, |out| put_path(tree, out, 0, node, left))
}

// ---- the nodes of a kind

// In index order.
fn put_kind(tree: Lent, which: NodeType, out: &mut [u16], at: usize) -> usize
    ensures { Puts out.old at (of_kind (type_number which) (nodes_in tree.entry.arena.now)) out.new result }
{
    let mut p = at;
    for i in 0..tree.arena.counts.nodes {
        if tree.arena.nodes.kind_at(usize::from(i)) == which {
            p = wire::put(out, p, i);
        }
    }
    p
}

// The nodes of a kind, if they fit whole.
pub fn write_kind(tree: Lent, which: NodeType, out: &mut [u16]) -> Result<usize, Refusal>
    ensures { Answers (of_kind (type_number which) (nodes_in tree.entry.arena.now)) out.old result out.new }
{
    output::write_measured(out, |out| put_kind(tree, which, out, 0))
}
