// Edits whose keepouts are a list by value, of which the first are lent here.
#![tactic(auto)]

ghost use Rattle.std.specs.Prelude.{take};
ghost use Rattle.editing.specs.Edits.{insert_terminal_with_steiner, insert_terminal_with_constraints};
ghost use Rattle.global_router.specs.Stored.{tree_of};
ghost use Rattle.global_router.specs.Editing.{EditedTo};

use geometry::Point;
use global_router::GlobalRoutingTree;
use rectangles::Rectangles;
use refusal::Refusal;
use tree::NodeName;

// A terminal where the search finds, with the tree's own limit as its allowance. Refusals: 5, 2, 6, 10.
pub fn insert_terminal_with_steiner(
    tree: &mut GlobalRoutingTree,
    point: Point,
    keepouts: &Rectangles,
) -> Result<NodeName, Refusal>
    ensures { EditedTo (insert_terminal_with_steiner (tree_of tree.old) point (take keepouts.now.count keepouts.now.list)) tree.old result tree.new }
{
    let list = keepouts.lent();
    tree.insert_terminal_with_steiner(point, list)
}

// The same with an allowance of one's own.
pub fn insert_terminal_with_constraints(
    tree: &mut GlobalRoutingTree,
    point: Point,
    allowed: i32,
    keepouts: &Rectangles,
) -> Result<NodeName, Refusal>
    ensures { EditedTo (insert_terminal_with_constraints (tree_of tree.old) point allowed (take keepouts.now.count keepouts.now.list)) tree.old result tree.new }
{
    tree.insert_terminal_with_constraints(point, allowed, keepouts.lent())
}
