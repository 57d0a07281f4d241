// The public crate: a routing tree with private fields, and the calls that make one, edit one and read one.
#![tactic(auto)]

ghost use Rattle.std.specs.Prelude.{◌≡◌};
ghost use Rattle.tree.specs.Tree.{total};
ghost use Rattle.tree.specs.Measures.{worst, steiner_nodes, terminal_nodes};
ghost use Rattle.tree.specs.Memory.{name_in, keepouts_of};
ghost use Rattle.tree.specs.Optimize.{optimize};
ghost use Rattle.output.specs.Answer.{Answers};
ghost use Rattle.text.specs.Text.{text_of};
ghost use Rattle.tree_bytes.specs.TreeBytes.{tree_bytes};
ghost use Rattle.tables.specs.Nodes.{lookup_of};
ghost use Rattle.tables.specs.Table.{table_tree};
ghost use Rattle.reading.specs.Paths.{PathNamed};
ghost use Rattle.editing.specs.Edits.{node_named, insert_steiner_node, insert_terminal_node, insert_node_on_branch, insert_terminal_with_steiner, insert_terminal_with_constraints};
ghost use Rattle.editing.specs.Editing.{parent_name_of, kind_in, edit_of};
ghost use Rattle.global_router.specs.Held.{counts_held, StoredIn};
ghost use Rattle.global_router.specs.Reading.{looked_up};

mod from_job;

use editing::Insertion;
pub use from_job::route;
use geometry::{Point, Rectangle};
use joining::{Arena, Counts};
use refusal::Refusal;
use tables::Table;
use tree::{NodeIndex, NodeName, NodeType, RoutingNode, SteinerNumber, TerminalNumber};

// Children are links: a node's last child, and the siblings before and after a node, each in a column of their own. (Arrays and a count: there is no
// heap.)
#[derive(Clone, Copy)]
pub struct GlobalRoutingTree {
    nodes: [RoutingNode; tree::MOST_NODES],
    links: [u16; joining::LINKS],
    count: u16,
    next_steiner_id: SteinerNumber,
    next_terminal_id: TerminalNumber,
    worst_wirelength: u32,
    allowed: i32,
    farthest: u32,
    pub ghost stored: { ∥ StoredIn nodes links (counts_held count next_steiner_id next_terminal_id) worst_wirelength allowed farthest ∥₁ },
}

impl GlobalRoutingTree {
    ghost use Rattle.global_router.specs.Stored.{tree_of};
    ghost use Rattle.global_router.specs.Calls.{routing_from, new_of};
    ghost use Rattle.global_router.specs.Editing.{EditedTo};

    // A tree that stands in a table.
    fn from_table(t: &Table) -> GlobalRoutingTree
        ensures { tree_of result ≡ table_tree t.now }
    {
        let nodes = reading::nodes_of(t);
        let k = t.arena.counts;
        GlobalRoutingTree {
            nodes,
            links: t.arena.links,
            count: k.nodes,
            next_steiner_id: k.steiner,
            next_terminal_id: k.terminal,
            worst_wirelength: t.limit,
            allowed: t.allowed,
            farthest: t.farthest,
        }
    }

    // The tree as a table.
    fn to_table(&self) -> Table
        ensures { table_tree result ≡ tree_of self.now }
    {
        let rows = reading::rows_of(&self.nodes, self.count);
        let counts = Counts {
            nodes: self.count,
            steiner: self.next_steiner_id,
            terminal: self.next_terminal_id,
        };
        let arena = Arena {
            nodes: rows,
            links: self.links,
            counts,
        };
        Table {
            arena,
            limit: self.worst_wirelength,
            allowed: self.allowed,
            farthest: self.farthest,
        }
    }

    // A tree that begins by hand. Refusal: 5, the point is outside the limit.
    pub fn new(source_position: Point) -> Result<GlobalRoutingTree, Refusal>
        ensures { routing_from result ≡ new_of source_position }
    {
        let outside = job::outside(source_position);
        if outside {
            return Err(Refusal::Outside);
        }
        let t = route::source_alone(source_position);
        let tree = GlobalRoutingTree::from_table(&t);
        Ok(tree)
    }

    // ---- what is read of a tree: the Rust's names, here and below, each one call over a table

    // The total: d to the parent, summed over nodes.
    pub fn calculate_total_wirelength(&self) -> u32
        ensures { result ≡ total (tree_of self.now).nodes }
    {
        let t = self.to_table();
        reading::total_wirelength(&t)
    }

    // The worst: the longest sum from source to any leaf.
    pub fn calculate_worst_wirelength(&self) -> u32
        ensures { result ≡ worst (tree_of self.now).nodes }
    {
        let t = self.to_table();
        reading::worst_wirelength(&t)
    }

    // The node that has a name; document 01 numbers none 7.
    pub fn find_node(&self, name: NodeName) -> Option<NodeIndex>
        ensures { looked_up (lookup_of result) ≡ looked_up (node_named (tree_of self.now) (name_in name)) }
    {
        let t = self.to_table();
        t.find_node(name)
    }

    // The path from the source to the node that has a name. Refusals: 7, no node has it; then 11.
    pub fn find_path_to_source(&self, name: NodeName, out: &mut [u16]) -> Result<usize, Refusal>
        ensures { PathNamed (tree_of self.now).nodes (name_in name) out.old result out.new }
    {
        let t = self.to_table();
        reading::find_path(&t, name, out)
    }

    // The terminals, in index order. Refusal: 11.
    pub fn get_all_terminals(&self, out: &mut [u16]) -> Result<usize, Refusal>
        ensures { Answers (terminal_nodes (tree_of self.now).nodes) out.old result out.new }
    {
        let t = self.to_table();
        reading::write_kind(&t, NodeType::Terminal, out)
    }

    // The Steiner nodes, in index order. Refusal: 11.
    pub fn get_all_steiner_nodes(&self, out: &mut [u16]) -> Result<usize, Refusal>
        ensures { Answers (steiner_nodes (tree_of self.now).nodes) out.old result out.new }
    {
        let t = self.to_table();
        reading::write_kind(&t, NodeType::Steiner, out)
    }

    // The text. Refusal: 11.
    pub fn get_tree_structure(&self, out: &mut [u8]) -> Result<usize, Refusal>
        ensures { Answers (text_of (tree_of self.now).nodes) out.old result out.new }
    {
        let t = self.to_table();
        reading::write_text(&t, out)
    }

    // The tree bytes. Refusal: 11.
    pub fn to_bytes(&self, out: &mut [u8]) -> Result<usize, Refusal>
        ensures { Answers (tree_bytes (tree_of self.now)) out.old result out.new }
    {
        let t = self.to_table();
        reading::write_tree_bytes(&t, out)
    }

    // The allowance. (This and W are fields that nobody is to write: the Rust's names, one line each.)
    pub fn allowed(&self) -> i32
        ensures { result ≡ (tree_of self.now).allowed }
    {
        self.allowed
    }

    // W, the largest distance of a terminal from the source when the tree was routed.
    pub fn farthest(&self) -> u32
        ensures { result ≡ (tree_of self.now).farthest }
    {
        self.farthest
    }

    // ---- edits: after a refusal the tree is as before. Each is the Rust's, a call of editing between a table and the tree that it becomes.

    // Keeps what an edit of the tree's table gives.
    fn finish(&mut self, edit: Result<Insertion, Refusal>) -> Result<NodeName, Refusal>
        ensures { EditedTo (edit_of edit) self.old result self.new }
    {
        let inserted = edit?;
        *self = GlobalRoutingTree::from_table(&inserted.table);
        Ok(inserted.name)
    }

    // The Rust's two names, here and next; the edits differ in the parent that stands for none.
    // A Steiner node below the parent, the source unless one is named. Refusals: 5, 7, 10.
    pub fn insert_steiner_node(
        &mut self,
        point: Point,
        parent: Option<NodeName>,
    ) -> Result<NodeName, Refusal>
        ensures { EditedTo (insert_steiner_node (tree_of self.old) «point» (parent_name_of «parent»)) self.old result self.new }
    {
        let t = self.to_table();
        let edit = editing::insert_steiner_node(&t, point, parent);
        self.finish(edit)
    }

    // A terminal below the parent, the closest node unless one is named. Refusals: 5, 7, 10.
    pub fn insert_terminal_node(
        &mut self,
        point: Point,
        parent: Option<NodeName>,
    ) -> Result<NodeName, Refusal>
        ensures { EditedTo (insert_terminal_node (tree_of self.old) «point» (parent_name_of «parent»)) self.old result self.new }
    {
        let t = self.to_table();
        let edit = editing::insert_terminal_node(&t, point, parent);
        self.finish(edit)
    }

    // A node on the branch between two nodes. Refusals: 5, 7, 9, 8, 10.
    pub fn insert_node_on_branch(
        &mut self,
        node_type: NodeType,
        point: Point,
        branch_start: NodeName,
        branch_end: NodeName,
    ) -> Result<NodeName, Refusal>
        ensures { EditedTo (insert_node_on_branch (tree_of self.old) (kind_in node_type) «point» (name_in branch_start) (name_in branch_end)) self.old result self.new }
    {
        let t = self.to_table();
        let edit = editing::insert_node_on_branch(&t, node_type, point, branch_start, branch_end);
        self.finish(edit)
    }

    // A terminal where the search finds. The keepouts are flat: lower x, upper x, lower y, upper y of each. Refusals: 5, 2, 6, 10.
    pub fn insert_terminal_with_constraints_flat(
        &mut self,
        point: Point,
        allowed_wirelength: i32,
        keepouts: &[i32],
    ) -> Result<NodeName, Refusal>
        ensures { EditedTo (insert_terminal_with_constraints (tree_of self.old) «point» allowed_wirelength (keepouts_of «keepouts».now)) self.old result self.new }
    {
        let t = self.to_table();
        let edit = editing::insert_by_search(&t, point, allowed_wirelength, keepouts);
        self.finish(edit)
    }

    // The same with the tree's own limit as its allowance. Refusals: 5, 2, 6, 10.
    pub fn insert_terminal_with_steiner_flat(
        &mut self,
        point: Point,
        keepouts: &[i32],
    ) -> Result<NodeName, Refusal>
        ensures { EditedTo (insert_terminal_with_steiner (tree_of self.old) «point» (keepouts_of «keepouts».now)) self.old result self.new }
    {
        // `as`: a limit is below 2^31.
        let allowed = self.worst_wirelength as i32;
        self.insert_terminal_with_constraints_flat(point, allowed, keepouts)
    }

    // A terminal where the search finds. The keepouts are a lent list of rectangle records. Refusals: 5, 2, 6, 10.
    pub fn insert_terminal_with_constraints(
        &mut self,
        point: Point,
        allowed_wirelength: i32,
        keepouts: &[Rectangle],
    ) -> Result<NodeName, Refusal>
        ensures { EditedTo (insert_terminal_with_constraints (tree_of self.old) «point» allowed_wirelength «keepouts».now) self.old result self.new }
    {
        let gathered = rectangles::gather(keepouts);
        let bounds = gathered.bounds();
        self.insert_terminal_with_constraints_flat(point, allowed_wirelength, bounds)
    }

    // The same with the tree's own limit as its allowance. Refusals: 5, 2, 6, 10.
    pub fn insert_terminal_with_steiner(
        &mut self,
        point: Point,
        keepouts: &[Rectangle],
    ) -> Result<NodeName, Refusal>
        ensures { EditedTo (insert_terminal_with_steiner (tree_of self.old) «point» «keepouts».now) self.old result self.new }
    {
        // `as`: a limit is below 2^31.
        let allowed = self.worst_wirelength as i32;
        self.insert_terminal_with_constraints(point, allowed, keepouts)
    }

    // Its one-child Steiner nodes go.
    pub fn optimize_steiner_points(&mut self)
        ensures { tree_of self.new ≡ optimize (tree_of self.old) }
    {
        let mut t = self.to_table();
        table_steps::without_lone_nodes(&mut t);
        *self = GlobalRoutingTree::from_table(&t);
    }
}
