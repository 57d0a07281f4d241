// Edits by hand of a table, each with its refusals.
#![tactic(auto)]

ghost use Rattle.std.specs.Prelude.{◌≡◌, ◌+◌, ◌<◌, ◌≤◌, length};
ghost use Rattle.geometry.specs.Laws.{Within};
ghost use Rattle.tree.specs.Limits.{most_nodes, reach};
ghost use Rattle.tree.specs.Tree.{node_at};
ghost use Rattle.tree.specs.Search.{find, blocked, any_of};
ghost use Rattle.tree.specs.Route.{closest};
ghost use Rattle.tree.specs.Memory.{name_in, keepouts_of};
ghost use Rattle.tree.specs.WellFormed.{Fits, new_nodes};
ghost use Rattle.search.specs.Find.{join_of};
ghost use Rattle.tables.specs.Nodes.{lookup_of};
ghost use Rattle.tables.specs.Table.{table_tree};
ghost use Rattle.editing.specs.Edits.{attach_at, splice_at, join_found, parent_node, is_child_of, insert_steiner_node, insert_terminal_node, insert_node_on_branch, insert_terminal_with_constraints};
ghost use Rattle.table_steps.specs.Steps.{steiner_in, Addable, new_number};
ghost use Rattle.editing.specs.Editing.{parent_name_of, kind_in, new_name, Edits, overfull};
ghost use Rattle.job.specs.Job.{too_many_keepouts, invalid_keepout};

use geometry::Point;
use joining::Counts;
use refusal::Refusal;
use search::{Join, Query};
use tables::Table;
use tree::{NodeIndex, NodeName, NodeType, SteinerNumber};

// The name of the new node, or of two new nodes the terminal's, and the tree that has it.
#[derive(Clone, Copy)]
pub struct Insertion {
    pub name: NodeName,
    pub table: Table,
}

// Refusal 10: n nodes and more would be too many, or the new Steiner number too high.
fn overfull(n: u16, more: u16, number: Option<SteinerNumber>) -> bool
    requires { (n ≤ most_nodes) × (more ≤ 2) }
    ensures { result ≡ overfull n more number }
{
    usize::from(n + more) > tree::MOST_NODES
        || number.is_some_and(|k| usize::from(k.0) > tree::MOST_NODES)
}

// ---- what the tree answers

// Whether c's parent is p.
fn is_child(t: &Table, p: NodeIndex, c: NodeIndex) -> bool
    requires { (p.0 < t.now.arena.counts.nodes) × (c.0 < t.now.arena.counts.nodes) }
    ensures { result ≡ is_child_of p.0 (node_at (table_tree t.now).nodes c.0).parent }
{
    t.arena.nodes.parent_at(usize::from(c)) == Some(p)
}

// The node that a new Steiner node goes below: the source unless one is named.
fn steiner_parent(t: &Table, parent: Option<NodeName>) -> Option<NodeIndex>
    ensures { lookup_of result ≡ parent_node (table_tree t.now) 0 (parent_name_of parent) }
{
    match parent {
        None => Some(NodeIndex(0)),
        Some(name) => t.find_node(name),
    }
}

// The node that a new terminal goes below: the closest unless one is named.
fn terminal_parent(t: &Table, q: Point, parent: Option<NodeName>) -> Option<NodeIndex>
    requires { Within reach q }
    ensures { lookup_of result ≡ parent_node (table_tree t.now) (closest (table_tree t.now).nodes q (length (table_tree t.now).nodes)) (parent_name_of parent) }
{
    match parent {
        None => Some(nearest::closest_node(&t.arena, q)),
        Some(name) => t.find_node(name),
    }
}

// Where the search has a point join, with the tree's own limit.
fn find_place(t: &Table, q: Point, allowed: i32, ks: &[i32]) -> Join
    requires { Within reach q }
    ensures { join_of result ≡ find (blocked (keepouts_of ks.now)) (table_tree t.now).nodes t.now.limit allowed q }
{
    let query = Query {
        point: q,
        limit: t.limit,
        allowed,
    };
    let nodes = t.arena.nodes.columns();
    let links = t.arena.link_columns();
    let n = usize::from(t.arena.counts.nodes);
    let found = search::find_insertion_point(n, query, nodes, links, ks);
    found.join
}

// ---- refusals 8, 9 and 10

// The number that refusal 10 looks at.
fn steiner_number(name: NodeName) -> Option<SteinerNumber>
    ensures { result ≡ steiner_in (name_in name) }
{
    match name {
        NodeName::Steiner(k) => Some(k),
        _ => None,
    }
}

// A new node below p. (`attach_at`, `splice_at` and `join_found` end alike: each is its own step on a copy, and a closure for it is no shorter.)
fn attach_at(t: &Table, name: NodeName, q: Point, p: NodeIndex) -> Result<Insertion, Refusal>
    requires addable { Addable t.now (name_in name) q }
    requires p_lt_nodes { p.0 < t.now.arena.counts.nodes }
    ensures { Edits (attach_at (table_tree t.now) (name_in name) q p.0) result }
{
    if overfull(t.arena.counts.nodes, 1, steiner_number(name)) {
        return Err(Refusal::Full);
    }
    let mut table = *t;
    table_steps::with_leaf(&mut table, name, q, p);
    Ok(Insertion { name, table })
}

// A new node between p and c.
fn splice_at(
    t: &Table,
    name: NodeName,
    q: Point,
    p: NodeIndex,
    c: NodeIndex,
) -> Result<Insertion, Refusal>
    requires addable { Addable t.now (name_in name) q }
    requires p_lt_nodes { (p.0 < t.now.arena.counts.nodes) × (c.0 < t.now.arena.counts.nodes) }
    ensures { Edits (splice_at (table_tree t.now) (name_in name) q p.0 c.0) result }
{
    if !is_child(t, p, c) {
        return Err(Refusal::NotAChild);
    }
    if overfull(t.arena.counts.nodes, 1, steiner_number(name)) {
        return Err(Refusal::Full);
    }
    let mut table = *t;
    table_steps::with_node_between(&mut table, name, q, p, c);
    Ok(Insertion { name, table })
}

// The name of a new node of a kind.
fn new_name(k: Counts, kind: NodeType) -> Result<NodeName, Refusal>
    ensures { result ≡ new_name k kind }
{
    match kind {
        NodeType::Source => Err(Refusal::NewSource),
        NodeType::Steiner => Ok(NodeName::Steiner(k.steiner)),
        NodeType::Terminal => Ok(NodeName::Terminal(k.terminal)),
    }
}

// Refusal 10 of a joining: one node or two.
fn is_full(k: Counts, j: Join) -> bool
    requires { k.nodes ≤ most_nodes }
    ensures { result ≡ overfull k.nodes (new_nodes (join_of j)) (new_number k (join_of j)) }
{
    match j {
        Join::Onto(_) => overfull(k.nodes, 1, None),
        Join::Split(_, _) => overfull(k.nodes, 2, Some(k.steiner)),
    }
}

// A terminal where the search has found.
fn join_found(t: &Table, q: Point, j: Join) -> Result<Insertion, Refusal>
    requires within { Within reach q }
    requires fits { Fits (table_tree t.now).nodes (join_of j) }
    ensures { Edits (join_found (table_tree t.now) q (join_of j)) result }
{
    if is_full(t.arena.counts, j) {
        return Err(Refusal::Full);
    }
    let name = NodeName::Terminal(t.arena.counts.terminal);
    let mut table = *t;
    table_steps::with_terminal(&mut table, q, j);
    Ok(Insertion { name, table })
}

// ---- the edits, with the Rust's parameters. Each takes its lookups apart itself, so that 7 is seen to end it there, also where two heads are alike.

// Refusals, in this order: 5, 7, 10.
pub fn insert_steiner_node(
    t: &Table,
    q: Point,
    parent: Option<NodeName>,
) -> Result<Insertion, Refusal>
    ensures { Edits (insert_steiner_node (table_tree t.now) q (parent_name_of parent)) result }
{
    if job::outside(q) {
        return Err(Refusal::Outside);
    }
    let Some(p) = steiner_parent(t, parent) else {
        return Err(Refusal::NoSuchNode);
    };
    attach_at(t, NodeName::Steiner(t.arena.counts.steiner), q, p)
}

// Refusals, in this order: 5, 7, 10.
pub fn insert_terminal_node(
    t: &Table,
    q: Point,
    parent: Option<NodeName>,
) -> Result<Insertion, Refusal>
    ensures { Edits (insert_terminal_node (table_tree t.now) q (parent_name_of parent)) result }
{
    if job::outside(q) {
        return Err(Refusal::Outside);
    }
    let Some(p) = terminal_parent(t, q, parent) else {
        return Err(Refusal::NoSuchNode);
    };
    attach_at(t, NodeName::Terminal(t.arena.counts.terminal), q, p)
}

// Refusals, in this order: 5, 7, 9, 8, 10.
pub fn insert_node_on_branch(
    t: &Table,
    kind: NodeType,
    q: Point,
    start: NodeName,
    end: NodeName,
) -> Result<Insertion, Refusal>
    ensures { Edits (insert_node_on_branch (table_tree t.now) (kind_in kind) q (name_in start) (name_in end)) result }
{
    if job::outside(q) {
        return Err(Refusal::Outside);
    }
    let Some(p) = t.find_node(start) else {
        return Err(Refusal::NoSuchNode);
    };
    let Some(c) = t.find_node(end) else {
        return Err(Refusal::NoSuchNode);
    };
    let name = new_name(t.arena.counts, kind)?;
    splice_at(t, name, q, p, c)
}

// A terminal where the search finds. Refusals, in this order: 5, 2, 6, 10.
pub fn insert_by_search(t: &Table, q: Point, allowed: i32, ks: &[i32]) -> Result<Insertion, Refusal>
    ensures { Edits (insert_terminal_with_constraints (table_tree t.now) q allowed (keepouts_of ks.now)) result }
{
    if job::outside(q) {
        return Err(Refusal::Outside);
    }
    if too_many(ks) {
        return Err(Refusal::TooMany);
    }
    if any_invalid(ks) {
        return Err(Refusal::BadKeepout);
    }
    let j = find_place(t, q, allowed, ks);
    join_found(t, q, j)
}

// ---- the tests of the keepouts that an edit is given: lower x, upper x, lower y, upper y of each

pub fn too_many(ks: &[i32]) -> bool
    ensures { result ≡ too_many_keepouts (keepouts_of ks.now) }
{
    ks.len() / tree::KEEPOUT_BOUNDS > tree::MOST_KEEPOUTS
}

// Test 6: a keepout with an interval whose lower bound is above the upper.
pub fn any_invalid(ks: &[i32]) -> bool
    ensures { result ≡ any_of invalid_keepout (keepouts_of ks.now) }
{
    ks.chunks_exact(tree::KEEPOUT_BOUNDS)
        .any(|k| job::invalid_keepout(search::keepout_at(k, 0)))
}
