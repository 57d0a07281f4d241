// The steps of an edit, on a table: its arena is lent to the crates that change a tree. Room, a name and a point are a step's own and not the table's,
// so contracts ask them.
#![tactic(auto)]

ghost use Rattle.std.specs.Prelude.{◌≡◌, ◌<◌};
ghost use Rattle.geometry.specs.Laws.{Within};
ghost use Rattle.tree.specs.Limits.{reach};
ghost use Rattle.tree.specs.Tree.{at, node_at};
ghost use Rattle.tree.specs.Route.{join, attached};
ghost use Rattle.tree.specs.Edits.{spliced};
ghost use Rattle.tree.specs.Optimize.{optimize};
ghost use Rattle.tree.specs.Memory.{name_in};
ghost use Rattle.tree.specs.WellFormed.{Fits, new_nodes};
ghost use Rattle.search.specs.Find.{join_of};
ghost use Rattle.tables.specs.Table.{table_tree};
ghost use Rattle.table_steps.specs.Steps.{Stepped, Addable, Room, steiner_in, new_number};

use geometry::Point;
use search::Join;
use tables::Table;
use tree::{NodeIndex, NodeName};

// A new node without children, last among those of p.
pub fn with_leaf(t: &mut Table, name: NodeName, q: Point, p: NodeIndex)
    requires addable { Addable t.old (name_in name) q }
    requires p_lt_nodes { (p.0 < t.old.arena.counts.nodes) × Room t.old 1 (steiner_in (name_in name)) }
    ensures { Stepped (λ x. attached x (name_in name) q p.0) t.old t.new }
{
    hand_inserts::insert_leaf(&mut t.arena, name, q, p);
}

// A new node between p and its child c.
pub fn with_node_between(t: &mut Table, name: NodeName, q: Point, p: NodeIndex, c: NodeIndex)
    requires addable { Addable t.old (name_in name) q }
    requires c_value { ((node_at (table_tree t.old).nodes c.0).parent ≡ at p.0) × Room t.old 1 (steiner_in (name_in name)) }
    ensures { Stepped (λ x. spliced x (name_in name) q p.0 c.0) t.old t.new }
{
    hand_inserts::insert_between(&mut t.arena, name, q, p, c);
}

// A new terminal where it joins.
pub fn with_terminal(t: &mut Table, q: Point, j: Join)
    requires within { Within reach q }
    requires fits { Fits (table_tree t.old).nodes (join_of j) }
    requires room { Room t.old (new_nodes (join_of j)) (new_number t.old.arena.counts (join_of j)) }
    ensures { Stepped (λ x. join x q (join_of j)) t.old t.new }
{
    t.arena.join(q, j);
}

// The one-child Steiner nodes go.
pub fn without_lone_nodes(t: &mut Table)
    ensures { Stepped optimize t.old t.new }
{
    optimizing::optimize(&mut t.arena);
}
