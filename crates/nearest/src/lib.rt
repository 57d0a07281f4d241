// The nearest node, and the nearest branch, each by one loop over the nodes.
// The branch is found without a walk in a tree whose path lengths are sums, where there is no keepout. With e the distance to the point, the branch from P to C has L = path P + e P and 2·D = e P + e C - d(P, C) = L + e C - path C.
#![tactic(auto)]

ghost use Rattle.std.specs.Prelude.{◌≡◌, ◌+◌, ◌≤◌, ◌<◌, length, get_or};
ghost use Rattle.geometry.specs.Geometry.{dist};
ghost use Rattle.tree.specs.Limits.{most_nodes};
ghost use Rattle.tree.specs.Memory.{point_at};
ghost use Rattle.search.specs.Columns.{ReachIn};
ghost use Rattle.joining.specs.Buffers.{column};
ghost use Rattle.search.specs.Find.{JoinsIn};
ghost use Rattle.nearest.specs.Summed.{SummedIn};
ghost use Rattle.nearest.specs.Closest.{node_indices, node_rank, ClosestOf};
ghost use Rattle.nearest.specs.Ranks.{excess, branch_rank, entry, Rankable, AllRankable};
ghost use Rattle.nearest.specs.Columns.{NearAt, NearPoints, Distances, SummedColumns};
ghost use Rattle.nearest.specs.Sole.{TwoLeast, Told, Right, join_on};

use geometry::Point;
use joining::Arena;
use search::{Found, Join, LinkColumns, NodeColumns, Query};
use tree::NodeIndex;

// More than any index of a node, and few enough for a rank of 32 bits.
const NODE_INDICES: u32 = 256;

// More than any u16: a branch's rank of 64 bits has room for them all.
const BRANCH_INDICES: u64 = 65536;

// More than the rank of any branch within the allowance: added to a rank, it is a test that takes no branch of the code.
const BEYOND: u64 = 1 << 60;

// The rank where there is no branch: above every other, so that the least of ranks is a `min`, for which an Option would take a branch of the code.
const NO_RANK: u64 = u64::MAX;

// Points in two columns.
#[derive(Clone, Copy)]
pub struct PointColumns<'a> {
    pub xs: &'a [i32],
    pub ys: &'a [i32],
}

// The branches of a tree, each named by its child: the allowance, and the nodes' distances to the point, path lengths and parents.
#[derive(Clone, Copy)]
struct BranchColumns<'a> {
    allowed: u32,
    e: &'a [u32],
    path: &'a [u32],
    parent: &'a [u16],
}

// The least rank, and the next.
#[derive(Clone, Copy)]
struct Least {
    first: u64,
    second: u64,
}

// ---- the nearest node. Columns are longer than the tree, which has n nodes: there is no heap. So `NearPoints` is of the columns, n and q together, and
// no struct has it.

impl PointColumns<'_> {
    // The distance from the i-th point to q. In 32 bits, so that the compiler makes a loop over it wide.
    fn distance_at(self, i: usize, q: Point) -> u32
        requires { NearAt q self.xs.now self.ys.now i }
        ensures { result ≡ dist (point_at self.entry.xs.now self.entry.ys.now i) q }
    {
        let x = geometry::min_dist(self.xs[i], q.xcoord);
        let y = geometry::min_dist(self.ys[i], q.ycoord);
        x + y
    }

    // Node i in the order of distance to q, then of index: one number, which loses neither. (`as`, here and below: each number fits by the
    // contract or by the remainder; `try_from` would test that again, in the loops that are to be wide.)
    fn rank(self, i: usize, q: Point) -> u32
        requires { NearAt q self.xs.now self.ys.now i × (i < node_indices) }
        ensures { result ≡ node_rank self.entry.xs.now self.entry.ys.now q i }
    {
        self.distance_at(i, q) * NODE_INDICES + i as u32
    }
}

// The node of least distance to q among the first n, the lowest index on ties.
pub fn find_nearest_node(points: PointColumns, n: u16, q: Point) -> NodeIndex
    requires { NearPoints n q points.xs.now points.ys.now }
    ensures { ClosestOf n n points.entry.xs.now points.entry.ys.now q result.0 }
{
    let mut best = points.rank(0, q);
    for i in 1..usize::from(n) {
        best = best.min(points.rank(i, q));
    }
    NodeIndex((best % NODE_INDICES) as u16)
}

// The same of a tree in an arena.
pub fn closest_node(arena: &Arena, q: Point) -> NodeIndex
    requires { NearPoints arena.now.counts.nodes q (column 0 arena.now.nodes.points) (column 1 arena.now.nodes.points) }
    ensures { ClosestOf arena.now.counts.nodes arena.now.counts.nodes (column 0 arena.now.nodes.points) (column 1 arena.now.nodes.points) q result.0 }
{
    let columns = arena.nodes.columns();
    let points = PointColumns {
        xs: columns.xs,
        ys: columns.ys,
    };
    find_nearest_node(points, arena.counts.nodes, q)
}

// ---- ranks of branches

// The distances from the first n points to q. The compiler makes this loop wide.
fn put_distances(e: &mut [u32], n: usize, q: Point, points: PointColumns)
    requires { NearPoints n q points.xs.now points.ys.now × (n ≤ length e.old) }
    ensures { Distances n q points.entry.xs.now points.entry.ys.now e.new }
{
    for i in 0..n {
        e[i] = points.distance_at(i, q);
    }
}

// What the rank of a branch beyond the allowance has more.
#[tactic(auto, unfolding(crate::specs::Ranks::excess))]
fn excess(l: u32, allowed: u32) -> u64
    ensures { result ≡ excess l allowed }
{
    if allowed < l { BEYOND } else { 0 }
}

impl BranchColumns<'_> {
    // The branch to c, in the order of D, then of c's index; those beyond the allowance come last.
    fn rank(self, c: usize) -> u64
        requires { Rankable self.e.now self.path.now self.parent.now c }
        ensures { result ≡ branch_rank (entry self.entry.e.now) (entry self.entry.path.now) (entry self.entry.parent.now) self.entry.allowed c }
    {
        let p = usize::from(self.parent[c]);
        let l = self.path[p] + self.e[p];
        let d = l + self.e[c] - self.path[c];
        u64::from(d) * BRANCH_INDICES + c as u64 + excess(l, self.allowed)
    }

    // The least rank of a branch, and the next: of every node but the source.
    fn two_least(self, n: usize) -> Least
        requires { AllRankable n self.e.now self.path.now self.parent.now }
        ensures { TwoLeast (branch_rank (entry self.entry.e.now) (entry self.entry.path.now) (entry self.entry.parent.now) self.entry.allowed) n result }
    {
        let mut first = NO_RANK;
        let mut second = NO_RANK;
        for c in 1..n {
            let r = self.rank(c);
            second = second.min(first.max(r));
            first = first.min(r);
        }
        Least { first, second }
    }
}

// ---- the nearest branch

impl Least {
    // The child of the branch that is alone the nearest: the next has a greater D.
    fn alone(self) -> Option<NodeIndex>
        ensures { Told self result }
    {
        if self.first < BEYOND && self.first / BRANCH_INDICES < self.second / BRANCH_INDICES {
            return Some(NodeIndex((self.first % BRANCH_INDICES) as u16));
        }
        None
    }
}

// The child of the branch within the allowance that is nearer than every other one, where it is certain that there is one. (n nodes, here and below:
// columns are longer.)
fn find_nearest(n: usize, query: Query, nodes: NodeColumns, parent: &[u16]) -> Option<NodeIndex>
    requires { SummedColumns n query.point nodes.xs.now nodes.ys.now nodes.path.now parent.now }
    ensures { Right n query nodes.entry.xs.now nodes.entry.ys.now nodes.entry.path.now parent.now result }
{
    // No branch is within a negative allowance.
    if query.allowed < 0 {
        return None;
    }
    let mut e = [0u32; tree::MOST_NODES];
    let points = PointColumns {
        xs: nodes.xs,
        ys: nodes.ys,
    };
    put_distances(&mut e, n, query.point, points);
    let branches = BranchColumns {
        allowed: query.allowed.unsigned_abs(),
        e: &e,
        path: nodes.path,
        parent,
    };
    branches.two_least(n).alone()
}

// Where q joins on the branch to c.
fn join_on(c: NodeIndex, q: Point, nodes: NodeColumns, parent: &[u16]) -> Join
    requires { (c.0 < length parent.now) × ReachIn nodes c.0 × ReachIn nodes (get_or parent.now c.0 0) }
    ensures { result ≡ join_on q nodes.entry.xs.now nodes.entry.ys.now nodes.entry.path.now (get_or parent.now c.0 0) c.0 }
{
    let p = NodeIndex(parent[usize::from(c)]);
    let at = search::view_at(nodes, p);
    let to = search::view_at(nodes, c);
    let near = search::nearest_on(at.point, to.point, q);
    search::join_at(near, at, to)
}

// The answer at a place that was found without a walk: nothing is in the way, so every branch counts as examined, one for each node but the source.
// (`as`: n is at most MOST_NODES.)
fn found_at(join: Join, n: usize) -> Found
    requires { (0 < n) × (n ≤ most_nodes) }
    ensures { (result.join ≡ join) × (result.looks + 1 ≡ n) }
{
    Found {
        join,
        looks: (n - 1) as u32,
    }
}

// Where the search over a tree of n nodes has the point join, and how many branches it examines.
pub fn find_join(
    n: usize,
    query: Query,
    nodes: NodeColumns,
    parent: &[u16],
    links: LinkColumns,
    ks: &[i32],
) -> Found
    requires { SummedIn n query nodes parent.now links }
    ensures { JoinsIn n query nodes.entry links.entry ks.now result }
{
    if ks.len() < tree::KEEPOUT_BOUNDS {
        if let Some(c) = find_nearest(n, query, nodes, parent) {
            return found_at(join_on(c, query.point, nodes, parent), n);
        }
    }
    search::find_insertion_point(n, query, nodes, links, ks)
}
