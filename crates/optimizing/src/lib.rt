// Taking one-child Steiner nodes out of a tree that is kept in an arena.
#![tactic(auto)]

ghost use Rattle.joining.specs.Standing.{Stands, Anything, Holding, Became};
ghost use Rattle.optimizing.specs.Removal.{LoneIn, Removed, NodeIn, Tidied, Optimized};

use joining::Arena;
use tree::NodeIndex;

// ---- one node goes

// Node i, which is lone, goes from between its parent and its child.
fn remove_node(arena: &mut Arena, i: NodeIndex)
    requires { Holding (Stands (LoneIn i.0)) arena.old }
    ensures { Became (Removed i.0) arena.old arena.new }
{
    let at = usize::from(i);
    let p = arena.nodes.parent_at(at).unwrap();
    let c = joining::last_child(&arena.links, at).unwrap();
    removing::bypass(arena, i, p, c);
    removing::close_up(arena, i);
}

// Node i goes if it is lone.
fn tidy(arena: &mut Arena, i: NodeIndex)
    requires { Holding (Stands (NodeIn i.0)) arena.old }
    ensures { Became (Tidied i.0) arena.old arena.new }
{
    if removing::is_lone(arena, i) {
        remove_node(arena, i);
    }
}

// ---- all of them go

// Every one-child Steiner node goes, from the highest index down.
pub fn optimize(arena: &mut Arena)
    requires { Holding (Stands Anything) arena.old }
    ensures { Became Optimized arena.old arena.new }
{
    for i in (0..arena.counts.nodes).rev() {
        tidy(arena, NodeIndex(i));
    }
}
