// A table is read in one call each: its measures, lists, text and bytes; its nodes by value, and their rows again.
#![tactic(auto)]

ghost use Rattle.std.specs.Prelude.{◌≡◌, ◌<◌};
ghost use Rattle.tree.specs.Limits.{most_nodes};
ghost use Rattle.tree.specs.Tree.{total};
ghost use Rattle.tree.specs.Measures.{worst, of_kind, path_to};
ghost use Rattle.tree.specs.Memory.{name_in, type_number};
ghost use Rattle.wire.specs.Puts.{Puts};
ghost use Rattle.output.specs.Answer.{Answers};
ghost use Rattle.text.specs.Text.{text_of};
ghost use Rattle.tree_bytes.specs.TreeBytes.{tree_bytes};
ghost use Rattle.joining.specs.Store.{SizedRows};
ghost use Rattle.joining.specs.Buffers.{rows_held};
ghost use Rattle.tables.specs.Nodes.{Packs, Unpackable};
ghost use Rattle.tables.specs.Table.{table_columns, table_tree};
ghost use Rattle.reading.specs.Paths.{PathNamed};

use joining::NodeRows;
use measures::{Figures, Lent};
use refusal::Refusal;
use tables::Table;
use tree::{NodeIndex, NodeName, NodeType, RoutingNode};

// The tree of a table, to those who read one in an arena.
fn lend(t: &Table) -> Lent<'_>
    ensures { result.arena.now ≡ t.now.arena }
{
    Lent { arena: &t.arena }
}

// ---- what is asked of a table, one line each: a caller names it, and lends the table

// The total: d to the parent, summed over nodes.
pub fn total_wirelength(t: &Table) -> u32
    ensures { result ≡ total (table_tree t.now).nodes }
{
    measures::total_wirelength(lend(t))
}

// The worst: the longest sum from source to any leaf.
pub fn worst_wirelength(t: &Table) -> u32
    ensures { result ≡ worst (table_tree t.now).nodes }
{
    measures::worst_wirelength(lend(t))
}

// What the line of figures shows.
pub fn read_figures(t: &Table) -> Figures
    ensures allowed { result.allowed ≡ (table_tree t.now).allowed }
    ensures farthest { result.farthest ≡ (table_tree t.now).farthest }
    ensures total { result.total ≡ total (table_tree t.now).nodes }
    ensures worst { result.worst ≡ worst (table_tree t.now).nodes }
{
    measures::figures_of(lend(t), t.allowed, t.farthest)
}

// The nodes of a kind, in index order.
pub fn write_kind(t: &Table, which: NodeType, out: &mut [u16]) -> Result<usize, Refusal>
    ensures { Answers (of_kind (type_number which) (table_tree t.now).nodes) out.old result out.new }
{
    lists::write_kind(lend(t), which, out)
}

// The path from the source to a node.
pub fn write_path(t: &Table, i: NodeIndex, out: &mut [u16]) -> Result<usize, Refusal>
    requires { i.0 < t.now.arena.counts.nodes }
    ensures { Answers (path_to (table_tree t.now).nodes i.0) out.old result out.new }
{
    lists::write_path(lend(t), i, out)
}

// The path to the node that has a name: 7 where no node has it.
pub fn find_path(t: &Table, name: NodeName, out: &mut [u16]) -> Result<usize, Refusal>
    ensures { PathNamed (table_tree t.now).nodes (name_in name) out.old result out.new }
{
    let Some(i) = t.find_node(name) else {
        return Err(Refusal::NoSuchNode);
    };
    write_path(t, i, out)
}

// The text.
pub fn write_text(t: &Table, out: &mut [u8]) -> Result<usize, Refusal>
    ensures { Answers (text_of (table_tree t.now).nodes) out.old result out.new }
{
    text::write_text(lend(t), out)
}

// The text at a place: what would stand past the end is left out, and still counts.
pub fn put_text(t: &Table, out: &mut [u8], at: usize) -> usize
    ensures { Puts out.old at (text_of (table_tree t.now).nodes) out.new result }
{
    text::put_text(lend(t), out, at)
}

// The tree bytes, with the figures that come with the table.
pub fn write_tree_bytes(t: &Table, out: &mut [u8]) -> Result<usize, Refusal>
    ensures { Answers (tree_bytes (table_tree t.now)) out.old result out.new }
{
    tree_bytes::write_tree_bytes(lend(t), t.allowed, t.farthest, out)
}

// ---- nodes by value

// The nodes of the table.
pub fn nodes_of(t: &Table) -> [RoutingNode; tree::MOST_NODES]
    ensures { Packs (table_columns t.now).rows t.now.arena.counts.nodes result }
{
    tables::pack(&t.arena.nodes, usize::from(t.arena.counts.nodes))
}

// The rows of the first n nodes of an array: there is no heap.
pub fn rows_of(nodes: &[RoutingNode; tree::MOST_NODES], n: u16) -> NodeRows
    requires { Unpackable nodes.now n }
    ensures packs { Packs (rows_held result) n nodes.now }
    ensures sized { SizedRows most_nodes (rows_held result) }
{
    let mut rows = NodeRows {
        points: [0; joining::POINTS],
        path: [0; tree::MOST_NODES],
        marks: [0; joining::MARKS],
    };
    tables::unpack(&mut rows, nodes, n);
    rows
}
