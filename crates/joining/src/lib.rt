// Joining a terminal to a tree that is kept in an arena: rows are stored, and links changed. A buffer of the arena holds columns of MOST_NODES
// numbers one after the other: what column k has of node i stands at k * MOST_NODES + i.
#![tactic(auto)]

ghost use Rattle.std.specs.Prelude.{◌≡◌, ◌+◌, ◌≤◌, ◌<◌, get_or};
ghost use Rattle.tree.specs.Memory.{point_at, named, type_of};
ghost use Rattle.tree.specs.Limits.{longest_path, most_nodes, no_node, reach};
ghost use Rattle.tree.specs.WellFormed.{new_nodes};
ghost use Rattle.geometry.specs.Laws.{Within};
ghost use Rattle.search.specs.Find.{join_of};
ghost use Rattle.joining.specs.Store.{index_from, link_in, row_at, numbered_row_at, numbered, set_numbered_row, set_row, set_parent};
ghost use Rattle.joining.specs.Links.{Attached, Detached, Appended, Adopted, Spliced, Spliceable, Detachable};
ghost use Rattle.joining.specs.Join.{terminal_row, path_below, split_rows, one_more, two_more, Attachable, RowAttached, NumberedAttached, with_split, SplitReads, Splittable, BranchSplit};
ghost use Rattle.joining.specs.Buffers.{column, Put, read_in, ReadsAt, links_in, rows_held, stored};
ghost use Rattle.joining.specs.Standing.{Standing, At, Joined, Holding, Became};

use geometry::Point;
use search::{Join, LinkColumns, NodeColumns, NodeView};
use tree::{NodeIndex, NodeName, NodeType, SteinerNumber, TerminalNumber};

// Columns of one type stand in one array, so that one function and one law serve them (`entry_at::<K>`, `put::<K>`, proofs/Blocks.antt): as fields each
// would need its own. The coordinates: x, then y.
pub const POINTS: usize = 2 * tree::MOST_NODES;

pub const YS: usize = tree::MOST_NODES;

// The parents, then the kinds, then the numbers.
pub const MARKS: usize = 3 * tree::MOST_NODES;

pub const KINDS: usize = tree::MOST_NODES;

pub const NUMBERS: usize = 2 * tree::MOST_NODES;

// The last children, then the children before, then those after.
pub const LINKS: usize = 3 * tree::MOST_NODES;

pub const PREVS: usize = tree::MOST_NODES;

pub const NEXTS: usize = 2 * tree::MOST_NODES;

// What an arena holds of each node, but for the links to its children. NO_NODE stands for the source's parent. (Arrays of fixed size, of which counts
// say how much is in use: there is no heap.)
#[derive(Clone, Copy)]
pub struct NodeRows {
    pub points: [i32; POINTS],
    pub path: [u32; tree::MOST_NODES],
    pub marks: [u16; MARKS],
}

// How many nodes there are, and the next Steiner and terminal numbers.
#[derive(Clone, Copy)]
pub struct Counts {
    pub nodes: u16,
    pub steiner: SteinerNumber,
    pub terminal: TerminalNumber,
}

// A tree in memory.
#[derive(Clone, Copy)]
pub struct Arena {
    pub nodes: NodeRows,
    pub links: [u16; LINKS],
    pub counts: Counts,
}

// What is held of one node. Its parent is an index and no Option: attach links the node below it, and only the source has none, NO_NODE.
#[derive(Clone, Copy)]
pub struct Row {
    pub point: Point,
    pub path: u32,
    pub parent: NodeIndex,
    pub name: NodeName,
}

// A row as the columns hold it: its kind and its number are numbers, whatever they are, where a Row has a name.
#[derive(Clone, Copy)]
pub struct NumberedRow {
    pub point: Point,
    pub path: u32,
    pub parent: NodeIndex,
    pub kind: u16,
    pub number: u16,
}

// The rows of a terminal and of the Steiner node above it.
#[derive(Clone, Copy)]
pub struct SplitRows {
    pub terminal: Row,
    pub steiner: Row,
}

impl Counts {
    // With one more terminal. (Plain sums, here and below: the contract leaves room, and a checked one would test it.)
    pub fn one_more(self) -> Counts
        requires { (self.nodes < no_node) × (self.terminal.0 < no_node) }
        ensures { result ≡ one_more self }
    {
        Counts {
            nodes: self.nodes + 1,
            steiner: self.steiner,
            terminal: TerminalNumber(self.terminal.0 + 1),
        }
    }

    // With a terminal and a Steiner node more.
    fn two_more(self) -> Counts
        requires { (self.nodes + 1 < no_node) × ((self.steiner.0 < no_node) × (self.terminal.0 < no_node)) }
        ensures { result ≡ two_more self }
    {
        Counts {
            nodes: self.nodes + 2,
            steiner: SteinerNumber(self.steiner.0 + 1),
            terminal: TerminalNumber(self.terminal.0 + 1),
        }
    }
}

// ---- three columns of numbers: the marks, or the links. That an index is in them is asked, here and below, and no type says it: a NodeIndex is of any
// tree, and a usize is a loop's.

// What column K has of node i.
fn entry_at<const K: usize>(columns: &[u16; MARKS], i: usize) -> u16
    requires { (K < 3) × (i < most_nodes) }
    ensures { result ≡ get_or (column K columns.now) i 0 }
{
    columns[K * tree::MOST_NODES + i]
}

// The number for a node's index in a column: NO_NODE for none, as `search::index_of` reads it.
pub fn link_to(i: Option<NodeIndex>) -> u16
    ensures { result ≡ link_in i }
{
    match i {
        None => tree::NO_NODE,
        Some(i) => i.0,
    }
}

// A node's last child, and the sibling before it: columns 0 and 1, by names that tell them apart where they are read. (`LinkColumns` has the same two
// of a column of any length: there each reader would have to show the length and have a NodeIndex at hand; an array's length is its type's, and an index
// here may be a loop's.)
pub fn last_child(links: &[u16; LINKS], i: usize) -> Option<NodeIndex>
    requires { i < most_nodes }
    ensures { result ≡ index_from (get_or (column 0 links.now) i 0) }
{
    search::index_of(entry_at::<0>(links, i))
}

// The sibling before node i.
pub fn child_before(links: &[u16; LINKS], i: usize) -> Option<NodeIndex>
    requires { i < most_nodes }
    ensures { result ≡ index_from (get_or (column 1 links.now) i 0) }
{
    search::index_of(entry_at::<1>(links, i))
}

// ---- rows

impl Row {
    // With the numbers of its name.
    pub fn numbered(self) -> NumberedRow
        ensures { result ≡ numbered self }
    {
        NumberedRow {
            point: self.point,
            path: self.path,
            parent: self.parent,
            kind: u16::from(self.name.node_type()),
            number: self.name.number(),
        }
    }
}

impl NodeRows {
    // What the search reads of the nodes.
    pub fn columns(&self) -> NodeColumns<'_>
        ensures xs { result.xs.now ≡ column 0 self.now.points }
        ensures ys { result.ys.now ≡ column 1 self.now.points }
        ensures path { result.path.now ≡ self.now.path }
    {
        let all = &self.points[..];
        NodeColumns {
            xs: &all[0..YS],
            ys: &all[YS..POINTS],
            path: &self.path,
        }
    }

    pub fn point_at(&self, i: usize) -> Point
        requires { i < most_nodes }
        ensures { result ≡ point_at (column 0 self.now.points) (column 1 self.now.points) i }
    {
        let all = &self.points[..];
        tree::point_at(&all[0..YS], &all[YS..POINTS], i)
    }

    pub fn parent_at(&self, i: usize) -> Option<NodeIndex>
        requires { i < most_nodes }
        ensures { result ≡ index_from (get_or (column 0 self.now.marks) i 0) }
    {
        search::index_of(entry_at::<0>(&self.marks, i))
    }

    // A node's kind as its column holds it, whatever it is.
    pub fn kind_number_at(&self, i: usize) -> u16
        requires { i < most_nodes }
        ensures { result ≡ get_or (column 1 self.now.marks) i 0 }
    {
        entry_at::<1>(&self.marks, i)
    }

    // The kind that it stands for.
    pub fn kind_at(&self, i: usize) -> NodeType
        requires { i < most_nodes }
        ensures { result ≡ type_of (get_or (column 1 self.now.marks) i 0) }
    {
        NodeType::from(self.kind_number_at(i))
    }

    pub fn name_at(&self, i: usize) -> NodeName
        requires { i < most_nodes }
        ensures { result ≡ named (type_of (get_or (column 1 self.now.marks) i 0)) (get_or (column 2 self.now.marks) i 0) }
    {
        NodeName::new(self.kind_at(i), entry_at::<2>(&self.marks, i))
    }

    // The row as the columns hold it.
    pub fn numbered_row_at(&self, i: usize) -> NumberedRow
        requires { i < most_nodes }
        ensures { result ≡ numbered_row_at (rows_held self.now) i }
    {
        NumberedRow {
            point: self.point_at(i),
            path: self.path[i],
            parent: NodeIndex(entry_at::<0>(&self.marks, i)),
            kind: entry_at::<1>(&self.marks, i),
            number: entry_at::<2>(&self.marks, i),
        }
    }

    // The row with its name.
    pub fn row_at(&self, i: usize) -> Row
        requires { i < most_nodes }
        ensures { result ≡ row_at (rows_held self.now) i }
    {
        Row {
            point: self.point_at(i),
            path: self.path[i],
            parent: NodeIndex(entry_at::<0>(&self.marks, i)),
            name: self.name_at(i),
        }
    }

    // What the search reads of a node. (`ReadsAt`, here and below, is of an index and the columns together: no struct has both.)
    fn view_at(&self, p: NodeIndex) -> NodeView
        requires { ReadsAt self.now.points self.now.path p.0 }
        ensures is { result ≡ read_in self.now.points self.now.path p.0 }
        ensures near { Within reach result.point }
        ensures short { result.path ≤ longest_path }
    {
        search::view_at(self.columns(), p)
    }

    // The row of a terminal at q below p.
    fn terminal_row(&self, p: NodeIndex, q: Point, number: TerminalNumber) -> Row
        requires reads_at { ReadsAt self.now.points self.now.path p.0 }
        requires within { Within reach q }
        ensures { result ≡ terminal_row p.0 q (path_below (read_in self.now.points self.now.path p.0) q) number }
    {
        let at = self.view_at(p);
        let d = search::distance(at.point, q);
        Row {
            point: q,
            path: at.path + d,
            parent: p,
            name: NodeName::Terminal(number),
        }
    }

    // The rows of a terminal at q and of a Steiner node on the branch from p to c. (A place is a `Join` where it is handed on; here and below it is
    // taken apart.)
    #[tactic(auto, using(crate::proofs::Rowing::nearest_near))]
    fn split_rows(&self, k: Counts, p: NodeIndex, c: NodeIndex, q: Point) -> SplitRows
        requires reads_at { ReadsAt self.now.points self.now.path p.0 }
        requires reads_at_2 { ReadsAt self.now.points self.now.path c.0 }
        requires within { Within reach q }
        requires nodes_lt_no_node { k.nodes < no_node }
        ensures { result ≡ split_rows k (read_in self.now.points self.now.path p.0) (read_in self.now.points self.now.path c.0) q }
    {
        let at = self.view_at(p);
        let to = self.view_at(c);
        let n = search::nearest_on(at.point, to.point, q);
        let d = search::distance(at.point, n);
        let e = search::distance(n, q);
        let terminal = Row {
            point: q,
            path: at.path + d + e,
            parent: NodeIndex(k.nodes + 1),
            name: NodeName::Terminal(k.terminal),
        };
        let steiner = Row {
            point: n,
            path: at.path + d,
            parent: p,
            name: NodeName::Steiner(k.steiner),
        };
        SplitRows { terminal, steiner }
    }

    pub fn store_numbered_row(&mut self, at: NodeIndex, row: NumberedRow)
        requires { at.0 < most_nodes }
        ensures { rows_held self.new ≡ set_numbered_row (rows_held self.old) at.0 row }
    {
        let i = usize::from(at);
        self.points[i] = row.point.xcoord;
        self.points[YS + i] = row.point.ycoord;
        self.path[i] = row.path;
        self.marks[i] = row.parent.0;
        self.marks[KINDS + i] = row.kind;
        self.marks[NUMBERS + i] = row.number;
    }

    pub fn store_row(&mut self, at: NodeIndex, row: Row)
        requires { at.0 < most_nodes }
        ensures { rows_held self.new ≡ set_row (rows_held self.old) at.0 row }
    {
        self.store_numbered_row(at, row.numbered());
    }

    pub fn store_parent(&mut self, at: NodeIndex, parent: NodeIndex)
        requires { at.0 < most_nodes }
        ensures { rows_held self.new ≡ set_parent (rows_held self.old) at.0 parent.0 }
    {
        self.marks[usize::from(at)] = parent.0;
    }

    // The rows of the two new nodes, and the child below the Steiner node.
    fn store_split(&mut self, k: Counts, p: NodeIndex, c: NodeIndex, q: Point)
        requires { SplitReads (rows_held self.old) k p.0 c.0 q }
        ensures { rows_held self.new ≡ with_split (rows_held self.old) k p.0 c.0 q }
    {
        let new = self.split_rows(k, p, c, q);
        let s = NodeIndex(k.nodes + 1);
        self.store_row(NodeIndex(k.nodes), new.terminal);
        self.store_row(s, new.steiner);
        self.store_parent(c, s);
    }
}

// ---- links: lent without the arena, so that no contract has to say that the rest of it stays

// Stores v in column K at a node; at NO_NODE it does nothing. Links go from column to column as numbers: an Option would be taken apart at one
// and put together again at the next, and still need the test that it is within the column.
fn put<const K: usize>(links: &mut [u16; LINKS], at: u16, v: u16)
    requires { K < 3 }
    ensures { Put K at v links.old links.new }
{
    let i = usize::from(at);
    if i < tree::MOST_NODES {
        links[K * tree::MOST_NODES + i] = v;
    }
}

// c goes last among p's children.
pub fn attach_last(links: &mut [u16; LINKS], p: NodeIndex, c: NodeIndex)
    requires { (p.0 < most_nodes) × (c.0 < most_nodes) }
    ensures { Attached (links_in links.old) p.0 c.0 (links_in links.new) }
{
    let i = usize::from(p);
    let j = usize::from(c);
    // The links before and after are numbers, as held; no child is after the last.
    let before = links[i];
    links[i] = c.0;
    links[PREVS + j] = before;
    links[NEXTS + j] = tree::NO_NODE;
    put::<2>(links, before, c.0);
}

// c leaves p's children.
pub fn detach(links: &mut [u16; LINKS], p: NodeIndex, c: NodeIndex)
    requires p_lt_most_nodes { (p.0 < most_nodes) × (c.0 < most_nodes) }
    requires detachable { Detachable (links_in links.old) p.0 c.0 }
    ensures { Detached (links_in links.old) p.0 c.0 (links_in links.new) }
{
    let j = usize::from(c);
    let before = links[PREVS + j];
    let after = links[NEXTS + j];
    put::<2>(links, before, after);
    // As held, too: the last child has NO_NODE after it.
    if after == tree::NO_NODE {
        links[usize::from(p)] = before;
        return;
    }
    put::<1>(links, after, before);
}

// c, which has no children yet, goes last among p's.
pub fn append_child(links: &mut [u16; LINKS], p: NodeIndex, c: NodeIndex)
    requires { (p.0 < most_nodes) × (c.0 < most_nodes) }
    ensures { Appended (links_in links.old) p.0 c.0 (links_in links.new) }
{
    // No child, as a column holds it.
    links[usize::from(c)] = tree::NO_NODE;
    attach_last(links, p, c);
}

// s takes c and then i, which has no children yet.
fn adopt(links: &mut [u16; LINKS], s: NodeIndex, c: NodeIndex, i: NodeIndex)
    requires { (s.0 < most_nodes) × ((c.0 < most_nodes) × (i.0 < most_nodes)) }
    ensures { Adopted (links_in links.old) s.0 c.0 i.0 (links_in links.new) }
{
    attach_last(links, s, c);
    append_child(links, s, i);
}

// s goes between p and its child c, and i below s.
fn splice(links: &mut [u16; LINKS], p: NodeIndex, c: NodeIndex, i: NodeIndex, s: NodeIndex)
    requires { Spliceable (links_in links.old) p.0 c.0 i.0 s.0 }
    ensures { Spliced (links_in links.old) p.0 c.0 i.0 s.0 (links_in links.new) }
{
    detach(links, p, c);
    append_child(links, p, s);
    adopt(links, s, c, i);
}

// ---- joining: what holds in an arena before a step differs from step to step, so contracts say it, and not the type

impl Arena {
    // What the search reads of the links.
    pub fn link_columns(&self) -> LinkColumns<'_>
        ensures last { result.last.now ≡ column 0 self.now.links }
        ensures prev { result.prev.now ≡ column 1 self.now.links }
    {
        let all = &self.links[..];
        LinkColumns {
            last: &all[0..PREVS],
            prev: &all[PREVS..NEXTS],
        }
    }

    // The node n, with no children, goes last among those of its row's parent.
    pub fn attach_numbered(&mut self, n: NodeIndex, row: NumberedRow)
        requires { Attachable (stored self.old) n.0 row.parent.0 }
        ensures attached { NumberedAttached (stored self.old) n.0 row (stored self.new) }
        ensures counts { self.new.counts ≡ self.old.counts }
    {
        self.nodes.store_numbered_row(n, row);
        append_child(&mut self.links, row.parent, n);
    }

    // The same of a row with a name.
    pub fn attach(&mut self, n: NodeIndex, row: Row)
        requires { Attachable (stored self.old) n.0 row.parent.0 }
        ensures attached { RowAttached (stored self.old) n.0 row (stored self.new) }
        ensures counts { self.new.counts ≡ self.old.counts }
    {
        self.attach_numbered(n, row.numbered());
    }

    // The rows and links of a terminal at q on the branch from p to c.
    fn split_branch(&mut self, p: NodeIndex, c: NodeIndex, q: Point)
        requires { Splittable (stored self.old) self.old.counts p.0 c.0 q }
        ensures split { BranchSplit (stored self.old) self.old.counts p.0 c.0 q (stored self.new) }
        ensures counts { self.new.counts ≡ self.old.counts }
    {
        let k = self.counts;
        self.nodes.store_split(k, p, c, q);
        splice(
            &mut self.links,
            p,
            c,
            NodeIndex(k.nodes),
            NodeIndex(k.nodes + 1),
        );
    }

    // A terminal at q joins below the node p.
    fn join_onto(&mut self, p: NodeIndex, q: Point)
        requires { Holding (Standing (At (Join.Onto p)) 1 q) self.old }
        ensures { Became (Joined (Join.Onto p) q) self.old self.new }
    {
        let k = self.counts;
        let row = self.nodes.terminal_row(p, q, k.terminal);
        self.attach(NodeIndex(k.nodes), row);
        self.counts = k.one_more();
    }

    // A terminal at q joins on the branch from p to c.
    fn join_on_branch(&mut self, p: NodeIndex, c: NodeIndex, q: Point)
        requires { Holding (Standing (At (Join.Split p c)) 2 q) self.old }
        ensures { Became (Joined (Join.Split p c) q) self.old self.new }
    {
        let k = self.counts;
        self.split_branch(p, c, q);
        self.counts = k.two_more();
    }

    // A terminal at q joins at a place in the tree.
    pub fn join(&mut self, q: Point, j: Join)
        requires { Holding (Standing (At j) (new_nodes (join_of j)) q) self.old }
        ensures { Became (Joined j q) self.old self.new }
    {
        match j {
            Join::Onto(p) => self.join_onto(p, q),
            Join::Split(p, c) => self.join_on_branch(p, c, q),
        }
    }
}
