// Inserting terminals into a tree that is kept in an arena: at the closest node or where the search finds, and the loop over sorted terminals.
#![tactic(auto)]

ghost use Rattle.std.specs.Prelude.{◌≡◌, ◌<◌, length};
ghost use Rattle.joining.specs.Buffers.{stored};
ghost use Rattle.joining.specs.Standing.{Standing, Anything, Holding, Became};
ghost use Rattle.inserting.specs.Insert.{InsertedSimple, Searchable, FoundIn, Insertable, Inserted};
ghost use Rattle.inserting.specs.Route.{first_counts, query_at, Begun, SourceAlone, Routable, RoutedColumns};

use geometry::Point;
use joining::{Arena, Counts, Row};
use search::{Found, Query};
use tree::{NodeIndex, NodeName, SteinerNumber, TerminalNumber};

// How a terminal finds its place: at the closest node, or by the search. Two ways that take the same, so no Option.
#[derive(Clone, Copy)]
pub enum Way {
    Simple,
    Search,
}

// ---- one terminal: `Query` has the point and the limits; keepouts are lent beside it, since they are the job's for the whole route

// A terminal at q joins the closest node; its path length stays 0.
fn insert_simple(arena: &mut Arena, q: Point)
    requires { Holding (Standing Anything 1 q) arena.old }
    ensures { Became (InsertedSimple q) arena.old arena.new }
{
    let k = arena.counts;
    let p = nearest::closest_node(arena, q);
    let row = Row {
        point: q,
        path: tree::UNMEASURED,
        parent: p,
        name: NodeName::Terminal(k.terminal),
    };
    arena.attach(NodeIndex(k.nodes), row);
    arena.counts = k.one_more();
}

// Where the search has the query's point join.
fn find(arena: &Arena, a: Query, ks: &[i32]) -> Found
    requires { Searchable arena.now.counts.nodes a (stored arena.now) }
    ensures { FoundIn arena.now.counts.nodes a (stored arena.now) ks.now result }
{
    let n = usize::from(arena.counts.nodes);
    let nodes = arena.nodes.columns();
    let marks = &arena.nodes.marks[..];
    let parents = &marks[0..joining::KINDS];
    nearest::find_join(n, a, nodes, parents, arena.link_columns(), ks)
}

// A terminal at the query's point joins where the search finds.
fn insert_by_search(arena: &mut Arena, a: Query, ks: &[i32])
    requires { Holding (Insertable Way.Search a) arena.old }
    ensures { Became (Inserted Way.Search ks.now a) arena.old arena.new }
{
    let f = find(arena, a, ks);
    arena.join(a.point, f.join);
}

// The next terminal joins, by one way or the other. (An enum and no closure: each way asks for something else of the arena, and the contract names the
// way.)
fn insert_terminal(arena: &mut Arena, way: Way, a: Query, ks: &[i32])
    requires { Holding (Insertable way a) arena.old }
    ensures { Became (Inserted way ks.now a) arena.old arena.new }
{
    match way {
        Way::Simple => insert_simple(arena, a.point),
        Way::Search => insert_by_search(arena, a, ks),
    }
}

// ---- the route

// The counts of a source alone.
fn first_counts() -> Counts
    ensures { result ≡ first_counts }
{
    Counts {
        nodes: 1,
        steiner: SteinerNumber(1),
        terminal: TerminalNumber(1),
    }
}

// The source alone, at s: NO_NODE is what the columns hold of its parent and its children.
fn store_source(arena: &mut Arena, s: Point)
    ensures begun { Begun (stored arena.old) s (stored arena.new) }
    ensures counts { arena.new.counts ≡ first_counts }
{
    let row = Row {
        point: s,
        path: 0,
        parent: NodeIndex(tree::NO_NODE),
        name: NodeName::Source,
    };
    arena.nodes.store_row(NodeIndex(0), row);
    arena.links[0] = tree::NO_NODE;
    arena.counts = first_counts();
}

// The search's question for the i-th terminal.
fn query_at(px: &[i32], py: &[i32], i: usize, a: Query) -> Query
    requires { (i < length px.now) × (i < length py.now) }
    ensures { result ≡ query_at px.now py.now i a }
{
    Query {
        point: tree::point_at(px, py, i),
        ..a
    }
}

// The terminals join a source alone, in the order given.
fn insert_all(arena: &mut Arena, px: &[i32], py: &[i32], ks: &[i32], way: Way, a: Query)
    requires { Routable px.now py.now a (stored arena.old) × Holding (SourceAlone a) arena.old }
    ensures { Holding (RoutedColumns way ks.now px.now py.now a) arena.new }
{
    for i in 0..px.len() {
        let b = query_at(px, py, i, a);
        insert_terminal(arena, way, b, ks);
    }
}

// The tree of the source at a's point and the terminals, joined in the order given.
pub fn route_sorted(arena: &mut Arena, px: &[i32], py: &[i32], ks: &[i32], way: Way, a: Query)
    requires { Routable px.now py.now a (stored arena.old) }
    ensures { Holding (RoutedColumns way ks.now px.now py.now a) arena.new }
{
    store_source(arena, a.point);
    insert_all(arena, px, py, ks, way, a);
}
