// Inserting a node by hand into a tree that is kept in an arena: last among the children of a node, or on a branch.
#![tactic(auto)]

ghost use Rattle.std.specs.Prelude.{◌≡◌, ◌<◌};
ghost use Rattle.tree.specs.Limits.{most_nodes, no_node};
ghost use Rattle.tree.specs.Memory.{name_in};
ghost use Rattle.joining.specs.Links.{Spliceable};
ghost use Rattle.joining.specs.Store.{set_row, set_parent};
ghost use Rattle.joining.specs.Buffers.{links_in, rows_held};
ghost use Rattle.joining.specs.Standing.{Standing, Holding, Became};
ghost use Rattle.hand_inserts.specs.Insert.{new_row, counts_after, Below, Between, LeafInserted, LinkedBetween, BetweenInserted};

use geometry::Point;
use joining::{Arena, Counts, NodeRows, Row};
use tree::{NodeIndex, NodeName, SteinerNumber};

// The row of a new node at q below p. (Name, point and parent are three words, here and in the steps over this: a struct of them would be made at each
// call, and taken apart in the next.)
fn new_row(name: NodeName, q: Point, p: NodeIndex) -> Row
    ensures { result ≡ new_row name q p.0 }
{
    Row {
        point: q,
        path: tree::UNMEASURED,
        parent: p,
        name,
    }
}

// The counts with one more node, for which the name is given out.
fn counts_after(k: Counts, name: NodeName) -> Counts
    requires { (k.nodes < no_node) × ((k.steiner.0 < no_node) × (k.terminal.0 < no_node)) }
    ensures { result ≡ counts_after (name_in name) k }
{
    match name {
        NodeName::Source => Counts {
            nodes: k.nodes + 1,
            ..k
        },
        NodeName::Steiner(_) => Counts {
            nodes: k.nodes + 1,
            steiner: SteinerNumber(k.steiner.0 + 1),
            ..k
        },
        NodeName::Terminal(_) => k.one_more(),
    }
}

// ---- last among the children of a node

// A node at q goes below p.
pub fn insert_leaf(arena: &mut Arena, name: NodeName, q: Point, p: NodeIndex)
    requires { Holding (Standing (Below (name_in name) p.0) 1 q) arena.old }
    ensures { Became (LeafInserted (name_in name) q p.0) arena.old arena.new }
{
    let k = arena.counts;
    let row = new_row(name, q, p);
    arena.attach(NodeIndex(k.nodes), row);
    arena.counts = counts_after(k, name);
}

// ---- on a branch

// The row of n, and n as the parent of c.
fn store_between(nodes: &mut NodeRows, c: NodeIndex, n: NodeIndex, row: Row)
    requires { (c.0 < most_nodes) × (n.0 < most_nodes) }
    ensures { rows_held nodes.new ≡ set_parent (set_row (rows_held nodes.old) n.0 row) c.0 n.0 }
{
    nodes.store_row(n, row);
    nodes.store_parent(c, n);
}

// n goes between p and its child c.
fn link_between(links: &mut [u16; joining::LINKS], p: NodeIndex, c: NodeIndex, n: NodeIndex)
    requires { Spliceable (links_in links.old) p.0 c.0 n.0 n.0 }
    ensures { LinkedBetween (links_in links.old) p.0 c.0 n.0 (links_in links.new) }
{
    joining::detach(links, p, c);
    joining::append_child(links, p, n);
    joining::attach_last(links, n, c);
}

// A node at q goes on the branch from p to c, which becomes its one child.
pub fn insert_between(arena: &mut Arena, name: NodeName, q: Point, p: NodeIndex, c: NodeIndex)
    requires { Holding (Standing (Between (name_in name) p.0 c.0) 1 q) arena.old }
    ensures { Became (BetweenInserted (name_in name) q p.0 c.0) arena.old arena.new }
{
    let k = arena.counts;
    let n = NodeIndex(k.nodes);
    let row = new_row(name, q, p);
    store_between(&mut arena.nodes, c, n, row);
    link_between(&mut arena.links, p, c, n);
    arena.counts = counts_after(k, name);
}
