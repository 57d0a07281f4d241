// The measures of a tree in an arena: the total and the worst wirelength.
#![tactic(auto)]

ghost use Rattle.std.specs.Prelude.{◌≡◌, ℕ, ◌*◌, ◌<◌, ◌≤◌};
ghost use Rattle.std.specs.Iterator.{YieldsFirstBy, item_count};
ghost use Rattle.tree.specs.Limits.{across, most_nodes};
ghost use Rattle.tree.specs.Tree.{total, edge};
ghost use Rattle.tree.specs.Measures.{worst, worst_below};
ghost use Rattle.joining.specs.Buffers.{column};
ghost use Rattle.measures.specs.Standing.{Lends, nodes_in};
ghost use Rattle.measures.specs.Children.{Siblings};

use joining::Arena;
use tree::NodeIndex;

// A tree in an arena, lent to be read.
#[derive(Clone, Copy)]
pub struct Lent<'a> {
    pub arena: &'a Arena,
    pub ghost held: { ∥ Lends arena.now ∥₁ },
}

// A child and the siblings before it, from the last to the first: in a tree that is lent they end.
#[derive(Drop)]
pub struct Chain<'a> {
    pub tree: Lent<'a>,
    pub next: Option<NodeIndex>,
    pub ghost stand: { ∥ Siblings (column 1 tree.arena.now.links) tree.arena.now.counts.nodes next ∥₁ },
}

impl<'a> Iterator for Chain<'a> {
    type Item = NodeIndex;

    ghost use Rattle.measures.specs.Chains.{rest_of};

    ghost next_gives = { YieldsFirstBy (λ c. c.0) rest_of };

    ghost remaining = { item_count rest_of };

    fn next(&mut self) -> Option<NodeIndex> {
        let c = self.next?;
        self.next = joining::child_before(&self.tree.arena.links, usize::from(c));
        Some(c)
    }
}

// ---- the total. That an index is a node's is asked, here and by other readers: it is of an index and a tree together.

// From node i to its parent; 0 for the source.
fn edge(tree: Lent, i: usize) -> u32
    requires { i < tree.arena.now.counts.nodes }
    ensures { (result ≡ edge (nodes_in tree.entry.arena.now) i) × (result ≤ across) }
{
    let Some(p) = tree.arena.nodes.parent_at(i) else {
        return 0;
    };
    let a = tree.arena.nodes.point_at(usize::from(p));
    let b = tree.arena.nodes.point_at(i);
    search::distance(a, b)
}

// d to the parent, summed over nodes.
pub fn total_wirelength(tree: Lent) -> u32
    ensures { (result ≡ total (nodes_in tree.entry.arena.now)) × (result ≤ across * tree.entry.arena.now.counts.nodes) }
{
    let mut sum = 0;
    for i in 0..usize::from(tree.arena.counts.nodes) {
        sum += edge(tree, i);
    }
    sum
}

// ---- the worst

// The longest sum from a node down to any leaf, over at most `left` levels, which falls.
fn worst_below(tree: Lent, node: NodeIndex, left: usize) -> u32
    requires { (node.0 < tree.arena.now.counts.nodes) × (left ≤ most_nodes) }
    ensures { (result ≡ worst_below (nodes_in tree.entry.arena.now) left node.0) × (result ≤ across * left) }
{
    if left == 0 {
        return 0;
    }
    let i = usize::from(node);
    let p = tree.arena.nodes.point_at(i);
    let next = joining::last_child(&tree.arena.links, i);
    let mut longest = 0;
    for c in (Chain { tree, next }) {
        let q = tree.arena.nodes.point_at(usize::from(c));
        let below = worst_below(tree, c, left - 1);
        let run = search::distance(p, q) + below;
        longest = longest.max(run);
    }
    longest
}

// The longest sum from source to any leaf.
pub fn worst_wirelength(tree: Lent) -> u32
    ensures { (result ≡ worst (nodes_in tree.entry.arena.now)) × (result ≤ across * tree.entry.arena.now.counts.nodes) }
{
    worst_below(tree, NodeIndex(0), usize::from(tree.arena.counts.nodes))
}

// ---- what comes with a tree, and its measures

// A, W, L and V; the first two come with a table, and are handed on.
#[derive(Clone, Copy)]
pub struct Figures {
    pub allowed: i32,
    pub farthest: u32,
    pub total: u32,
    pub worst: u32,
}

pub fn figures_of(tree: Lent, allowed: i32, farthest: u32) -> Figures
    ensures allowed { result.allowed ≡ allowed }
    ensures farthest { result.farthest ≡ farthest }
    ensures total { result.total ≡ total (nodes_in tree.entry.arena.now) }
    ensures worst { result.worst ≡ worst (nodes_in tree.entry.arena.now) }
{
    Figures {
        allowed,
        farthest,
        total: total_wirelength(tree),
        worst: worst_wirelength(tree),
    }
}
