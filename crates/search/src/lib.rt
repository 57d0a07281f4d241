// The search for an insertion point (`_find_insertion_point`), on lent columns: a column for each coordinate, one for path lengths,
// and two of links, from a node to its last child and from a child to the one before it.
#![tactic(auto)]

ghost use Rattle.std.specs.Prelude.{◌≡◌, ◌+◌, ◌<◌, ◌≤◌, pos, length, get_or};
ghost use Rattle.std.specs.Int.Signed.{le_z};
ghost use Rattle.tree.specs.Limits.{reach};
ghost use Rattle.geometry.specs.Laws.{Within};
ghost use Rattle.geometry.specs.Geometry.{dist};
ghost use Rattle.tree.specs.Search.{nearest_on, stops, blocked};
ghost use Rattle.tree.specs.Memory.{keepouts_of};
ghost use Rattle.search.specs.Branch.{take_it, join_at, keepout_at, stops_by, beside_of, Near};
ghost use Rattle.search.specs.Walk.{view_in, index_from};
ghost use Rattle.search.specs.Columns.{ReachIn, Chained, children_in, TreeIn, SafeIn, FoundIn};
ghost use Rattle.search.specs.Thin.{is_past, judged_at, judged, settled, is_wanted, thin_branch, ChildIn, NearIn, Pushes};
ghost use Rattle.search.specs.Find.{ReadyIn, JoinsIn};

use geometry::{Interval, Point, Rectangle};
use tree::NodeIndex;

// Where a point joins: at a node, or on the branch from a node to its child.
#[derive(Clone, Copy)]
pub enum Join {
    Onto(NodeIndex),
    Split(NodeIndex, NodeIndex),
}

// What the search has found so far: the place, its distance, and whether a branch has had L ≤ allowed.
// Place and distance are there either way, so an enum of two cases would have both twice; `pushed` below likewise.
#[derive(Clone, Copy)]
pub struct Best {
    pub join: Join,
    pub best: u32,
    pub within: bool,
}

// What is searched for: the point that is to join, the tree limit and the allowance.
#[derive(Clone, Copy)]
pub struct Query {
    pub point: Point,
    pub limit: u32,
    pub allowed: i32,
}

// What the search reads of nodes: a column for each coordinate, and one for path lengths.
#[derive(Clone, Copy)]
pub struct NodeColumns<'a> {
    pub xs: &'a [i32],
    pub ys: &'a [i32],
    pub path: &'a [u32],
}

// What it reads of their links: a column from a node to its last child, and one from a child to the one before it.
#[derive(Clone, Copy)]
pub struct LinkColumns<'a> {
    pub last: &'a [u16],
    pub prev: &'a [u16],
}

// A node with what the search reads of it.
#[derive(Clone, Copy)]
pub struct NodeView {
    pub node: NodeIndex,
    pub point: Point,
    pub path: u32,
}

// What is found, the height of the stack, and how many branches were examined.
#[derive(Clone, Copy)]
pub struct Pushed {
    pub found: Best,
    pub top: usize,
    pub looks: u32,
}

// Where the point joins, and how many branches the search examined.
#[derive(Clone, Copy)]
pub struct Found {
    pub join: Join,
    pub looks: u32,
}

// A branch that no keepout is tested against yet: its nearest point and, where it is taken, what is found if it is not blocked.
#[derive(Clone, Copy)]
pub struct Judged {
    pub near: Point,
    pub found: Option<Best>,
}

// A branch examined: what is found with it, and whether its child is pushed.
#[derive(Clone, Copy)]
pub struct Examined {
    pub found: Best,
    // A flag, since `found` is there either way.
    pub pushed: bool,
}

// ---- points within the limit: contracts ask that, and no type says it, since points come from columns of i32

// Within the coordinate limit a distance fits 32 bits. (`as`: `try_from` would test again what the contract says.)
pub fn distance(p: Point, q: Point) -> u32
    requires { Within reach p × Within reach q }
    ensures { result ≡ dist p q }
{
    p.min_dist_with(q) as u32
}

// The point of the box of p and c that is nearest to q.
pub fn nearest_on(p: Point, c: Point, q: Point) -> Point
    ensures { result ≡ nearest_on p c q }
{
    p.hull_with(c).nearest_to(q)
}

// ---- one branch: its ends, what is found so far and the query are used one by one, so a struct of them would be taken apart at once; what the walk
// lends on is one, `Search`

impl Query {
    // L ≤ allowed
    fn allows(self, l: u32) -> bool
        ensures { result ≡ le_z (pos l) self.allowed }
    {
        i64::from(l) <= i64::from(self.allowed)
    }
}

impl Best {
    // The take rule; w says L ≤ allowed.
    fn takes(self, w: bool, d: u32, l: u32, limit: u32) -> bool
        ensures { result ≡ take_it w d l limit self }
    {
        if w {
            !self.within || d < self.best
        } else {
            !self.within && l <= limit && d < self.best
        }
    }

    // Whether no branch at d or farther is taken: one within the allowance was found, no farther than d. `&`, as here, takes no branch where both are at hand.
    fn is_past(self, d: u32) -> bool
        ensures { result ≡ is_past self d }
    {
        self.within & (self.best <= d)
    }
}

// Where the point joins on the branch whose nearest point is n.
#[tactic(auto, using(geometry::specs::Signed::same_is))]
pub fn join_at(n: Point, at: NodeView, to: NodeView) -> Join
    ensures { result ≡ join_at n at to }
{
    if n == at.point {
        Join::Onto(at.node)
    } else if n == to.point {
        Join::Onto(to.node)
    } else {
        Join::Split(at.node, to.node)
    }
}

// What is found with the branch from `at` to its child `to`, were it not blocked, if it is taken: n is its nearest point, d its distance.
fn judge_at(query: Query, at: NodeView, to: NodeView, n: Point, d: u32, b: Best) -> Option<Best>
    requires near { Near query at to }
    requires within { Within reach n }
    requires d_value { d ≡ dist n query.point }
    ensures { result ≡ judged_at query at to b n }
{
    let e = distance(at.point, n);
    let l = at.path + e + d;
    let w = query.allows(l);
    if !b.takes(w, d, l, query.limit) {
        return None;
    }
    Some(Best {
        join: join_at(n, at, to),
        best: d,
        within: w | b.within,
    })
}

// The branch, judged. Most branches are past what was found, and need no more than D.
fn judge(query: Query, at: NodeView, to: NodeView, b: Best) -> Judged
    requires { Near query at to }
    ensures { result ≡ judged query at to b }
{
    let n = nearest_on(at.point, to.point, query.point);
    let d = distance(n, query.point);
    if b.is_past(d) {
        return Judged {
            near: n,
            found: None,
        };
    }
    Judged {
        near: n,
        found: judge_at(query, at, to, n, d, b),
    }
}

// ---- keepouts

// One keepout against the nearest point n and the boxes of n with the point, P and C.
#[tactic(auto, unfolding(crate::specs::Branch::stops_by))]
fn stops(k: Rectangle, n: Point, a: Rectangle, b: Rectangle, c: Rectangle) -> bool
    ensures { result ≡ stops_by k n a b c }
{
    k.contains(n) || k.blocks(a) || k.blocks(b) || k.blocks(c)
}

// Whether an interval of k has n's coordinate. Where neither has, k stops no branch: each box has n. Most keepouts are told by this.
fn is_beside(k: Rectangle, n: Point) -> bool
    ensures { result ≡ beside_of k n }
{
    k.xcoord.contains_value(n.xcoord) | k.ycoord.contains_value(n.ycoord)
}

// One keepout against the branch from p to c, whose nearest point to q is n.
#[tactic(auto, using(crate::proofs::Keepouts::beside_not, crate::proofs::Keepouts::stops_is))]
fn stops_branch(k: Rectangle, n: Point, q: Point, p: Point, c: Point) -> bool
    ensures { result ≡ stops q p c n k }
{
    is_beside(k, n) && stops(k, n, n.hull_with(q), n.hull_with(p), n.hull_with(c))
}

// The keepout whose four numbers start at i.
pub fn keepout_at(ks: &[i32], i: usize) -> Rectangle
    requires { i + 4 ≤ length ks.now }
    ensures { result ≡ keepout_at ks.now i }
{
    Rectangle {
        xcoord: Interval {
            lb: ks[i],
            ub: ks[i + 1],
        },
        ycoord: Interval {
            lb: ks[i + 2],
            ub: ks[i + 3],
        },
    }
}

// Whether any keepout stops the branch.
fn blocked(ks: &[i32], n: Point, q: Point, p: Point, c: Point) -> bool
    ensures { result ≡ blocked (keepouts_of ks.now) q p c n }
{
    for k in ks.chunks_exact(tree::KEEPOUT_BOUNDS) {
        if stops_branch(keepout_at(k, 0), n, q, p, c) {
            return true;
        }
    }
    false
}

// ---- columns: `ReachIn` is of an index and the columns together, so no struct has it

// What the search reads of a node.
pub fn view_at(nodes: NodeColumns, c: NodeIndex) -> NodeView
    requires { ReachIn nodes c.0 }
    ensures { result ≡ view_in nodes.entry c.0 }
{
    let i = usize::from(c);
    NodeView {
        node: c,
        point: tree::point_at(nodes.xs, nodes.ys, i),
        path: nodes.path[i],
    }
}

// The node that a column's number names. A column of u16 holds NO_NODE for none: memory is fixed, and an Option of an index takes twice its room.
pub fn index_of(n: u16) -> Option<NodeIndex>
    ensures { result ≡ index_from n }
{
    if n == tree::NO_NODE {
        return None;
    }
    Some(NodeIndex(n))
}

impl LinkColumns<'_> {
    fn last_child(self, p: NodeIndex) -> Option<NodeIndex>
        requires { p.0 < length self.last.now }
        ensures { result ≡ index_from (get_or self.entry.last.now p.0 0) }
    {
        index_of(self.last[usize::from(p)])
    }

    // The child before c of the same node.
    fn child_before(self, c: NodeIndex) -> Option<NodeIndex>
        requires { c.0 < length self.prev.now }
        ensures { result ≡ index_from (get_or self.entry.prev.now c.0 0) }
    {
        index_of(self.prev[usize::from(c)])
    }

    // Whether c is to be walked: it has children.
    fn is_wanted(self, c: NodeIndex) -> bool
        requires { c.0 < length self.last.now }
        ensures { result ≡ is_wanted self.entry.last.now c.0 }
    {
        self.last_child(c).is_some()
    }
}

// ---- the walk

// A search: what is asked, the columns of the tree, and the keepouts' numbers.
#[derive(Clone, Copy)]
struct Search<'a> {
    query: Query,
    nodes: NodeColumns<'a>,
    links: LinkColumns<'a>,
    ks: &'a [i32],
}

impl Search<'_> {
    // The branch from `at` to its child `to`, judged. Keepouts are tested only where it is taken or its child's subtree is wanted.
    fn settle(&self, at: NodeView, to: NodeView, b: Best, j: Judged, wanted: bool) -> Examined
        ensures { result ≡ settled (keepouts_of self.now.ks.now) self.now.query at to b j wanted }
    {
        if (j.found.is_some() | wanted)
            && !blocked(self.ks, j.near, self.query.point, at.point, to.point)
        {
            return Examined {
                found: j.found.unwrap_or(b),
                pushed: wanted,
            };
        }
        Examined {
            found: b,
            pushed: false,
        }
    }

    // The branch to the child c.
    fn examine(&self, c: NodeIndex, b: Best, at: NodeView) -> Examined
        requires { ChildIn self.now.query at self.now.nodes self.now.links c.0 }
        ensures { result ≡ thin_branch (keepouts_of self.now.ks.now) self.now.query (view_in self.now.nodes) (λ b. is_wanted self.now.links.last.now) at c.0 b }
    {
        let to = view_at(self.nodes, c);
        let j = judge(self.query, at, to, b);
        let wanted = self.links.is_wanted(c);
        self.settle(at, to, b, j, wanted)
    }

    // The branches to a node's children, from the last child to the first; each child whose branch is not blocked and whose subtree is wanted is pushed.
    // The stack's height goes in and comes out by value, so that it can stay in a register.
    fn examine_children(&self, stack: &mut [u16], from: usize, b: Best, at: NodeView) -> Pushed
        requires in_links { (at.node.0 < length self.now.links.last.now) × (at.node.0 < length self.now.links.prev.now) }
        requires near_children { NearIn self.now.query at self.now.nodes self.now.links }
        requires chained { Chained self.now.links.prev.now (get_or self.now.links.last.now at.node.0 0) }
        requires in_stack { from + length (children_in self.now.links at.node.0) ≤ length stack.old }
        ensures { Pushes (keepouts_of self.now.ks.now) self.now.query (view_in self.now.nodes) (λ b. is_wanted self.now.links.last.now) at (children_in self.now.links at.node.0) b stack.old from result.found stack.new result.top result.looks }
    {
        let mut found = b;
        let mut top = from;
        let mut looks = 0u32;
        let mut child = self.links.last_child(at.node);
        while let Some(c) = child {
            let step = self.examine(c, found, at);
            found = step.found;
            if step.pushed {
                stack[top] = c.0;
                top += 1;
            }
            child = self.links.child_before(c);
            looks += 1;
        }
        Pushed { found, top, looks }
    }

    // The walk from the source, with a stack that is lent. It takes at most as many turns as there are nodes.
    fn walk(&self, stack: &mut [u16], n: usize) -> Found
        requires tree_columns { TreeIn n self.now.query self.now.nodes self.now.links }
        requires stack_nonzero { 0 < length stack.old }
        requires safe_on { SafeIn (length stack.old) n self.now.query self.now.nodes self.now.links self.now.ks.now }
        ensures { FoundIn n self.now.query self.now.nodes self.now.links self.now.ks.now result }
    {
        let mut found = Best {
            join: Join::Onto(NodeIndex(0)),
            best: self.query.limit.max(1),
            within: false,
        };
        stack[0] = 0;
        let mut top = 1usize;
        let mut looks = 0u32;
        for _turn in 0..n {
            if top == 0 {
                break;
            }
            top -= 1;
            let at = view_at(self.nodes, NodeIndex(stack[top]));
            let r = self.examine_children(stack, top, found, at);
            found = r.found;
            top = r.top;
            looks += r.looks;
        }
        Found {
            join: found.join,
            looks,
        }
    }
}

// Where the search over a tree of n nodes, of columns that are longer, has the point join.
pub fn find_insertion_point(
    n: usize,
    query: Query,
    nodes: NodeColumns,
    links: LinkColumns,
    ks: &[i32],
) -> Found
    requires { ReadyIn n query nodes links }
    ensures { JoinsIn n query nodes.entry links.entry ks.now result }
{
    let mut stack = [0u16; tree::MOST_NODES];
    let search = Search {
        query,
        nodes,
        links,
        ks,
    };
    search.walk(&mut stack, n)
}
