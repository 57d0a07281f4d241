// A tree in memory with its figures; its nodes by value, and back; the node that has a name.
#![tactic(auto)]

ghost use Rattle.std.specs.Prelude.{◌≡◌, List, ℕ, ◌<◌, ◌≤◌, replicate};
ghost use Rattle.tree.specs.Limits.{most_nodes};
ghost use Rattle.tree.specs.Measures.{lookup};
ghost use Rattle.tree.specs.Memory.{name_in, node_in};
ghost use Rattle.joining.specs.Store.{Columns, row_at, SizedRows, node_from, nodes_of};
ghost use Rattle.joining.specs.Buffers.{column, rows_held};
ghost use Rattle.tables.specs.Nodes.{blank_node, Packs, Plain, Unpackable, lookup_of};
ghost use Rattle.tables.specs.Held.{TreeIn};

use geometry::Point;
use joining::{Arena, NodeRows, Row};
use tree::{NodeIndex, NodeName, RoutingNode};

// A well-formed tree in memory, with the figures that come with it.
#[derive(Clone, Copy)]
pub struct Table {
    pub arena: Arena,
    pub limit: u32,
    pub allowed: i32,
    pub farthest: u32,
    pub ghost stands: { ∥ TreeIn arena limit allowed farthest ∥₁ },
}

// ---- nodes from their rows

fn node_at(rows: &NodeRows, i: usize) -> RoutingNode
    requires { i < most_nodes }
    ensures { (cs : List ℕ) → node_in result cs ≡ node_from (row_at (rows_held rows.now) i) cs }
{
    RoutingNode {
        name: rows.name_at(i),
        parent: rows.parent_at(i),
        pt: rows.point_at(i),
        path_length: rows.path[i],
        capacitance: 0.0,
        delay: 0.0,
    }
}

fn blank_nodes() -> [RoutingNode; tree::MOST_NODES]
    ensures { result ≡ replicate most_nodes blank_node }
{
    let blank = RoutingNode {
        name: NodeName::Source,
        parent: None,
        pt: Point {
            xcoord: 0,
            ycoord: 0,
        },
        path_length: 0,
        capacitance: 0.0,
        delay: 0.0,
    };
    [blank; tree::MOST_NODES]
}

// The first n nodes; there is no heap, so blank ones fill the array.
pub fn pack(rows: &NodeRows, n: usize) -> [RoutingNode; tree::MOST_NODES]
    requires { n ≤ most_nodes }
    ensures { Packs (rows_held rows.now) n result }
{
    let mut nodes = blank_nodes();
    for i in 0..n {
        nodes[i] = node_at(rows, i);
    }
    nodes
}

// ---- rows from nodes: an array, of which the first n count, since there is no heap

fn row_of(node: &RoutingNode) -> Row
    requires { Plain node.now }
    ensures { (cs : List ℕ) → node_in node.now cs ≡ node_from result cs }
{
    Row {
        point: node.pt,
        path: node.path_length,
        parent: NodeIndex(joining::link_to(node.parent)),
        name: node.name,
    }
}

// The rows of the first n nodes.
pub fn unpack(rows: &mut NodeRows, nodes: &[RoutingNode; tree::MOST_NODES], n: u16)
    requires sized_rows { SizedRows most_nodes (rows_held rows.old) }
    requires unpackable { Unpackable nodes.now n }
    ensures packs { Packs (rows_held rows.new) n nodes.now }
    ensures sized { SizedRows most_nodes (rows_held rows.new) }
{
    for i in 0..n {
        let row = row_of(&nodes[usize::from(i)]);
        rows.store_row(NodeIndex(i), row);
    }
}

// ---- the node that has a name

impl Table {
    ghost use Rattle.tables.specs.Table.{table_tree};

    pub fn find_node(&self, name: NodeName) -> Option<NodeIndex>
        ensures { lookup_of result ≡ lookup (table_tree self.now).nodes (name_in name) self.now.arena.counts.nodes }
    {
        for i in 0..self.arena.counts.nodes {
            if self.arena.nodes.name_at(usize::from(i)) == name {
                return Some(NodeIndex(i));
            }
        }
        None
    }
}
