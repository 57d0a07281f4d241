// What the removal of a lone node from a tree in an arena is made of: is it lone, links past it, and columns that close up.
#![tactic(auto)]

ghost use Rattle.std.specs.Prelude.{◌≡◌, ◌*◌, ◌<◌, ◌≤◌, length};
ghost use Rattle.tree.specs.Limits.{most_nodes};
ghost use Rattle.joining.specs.Store.{set_parent};
ghost use Rattle.joining.specs.Buffers.{column, links_in, rows_held, stored};
ghost use Rattle.removing.specs.Close.{closed_link, GapClosed, LinksClosed, Lowered};
ghost use Rattle.removing.specs.Store.{PointsClosed, MarksClosed, AllLinksClosed, StoreClosed, Bypassable, Relinked, lone_at, LoneReads, one_fewer};

use joining::{Arena, Counts};
use tree::{NodeIndex, NodeType};

// ---- one column closes up. It is lent whole, with how many nodes it has: columns are longer, since there is no heap, and what lies past them is spoken
// of too.

// Of the first n elements those after the i-th move one place down.
fn close_gap<T: Copy>(column: &mut [T], n: usize, i: usize)
    requires { (i < n) × (n ≤ length column.old) }
    ensures { (blank : T) → GapClosed blank n i column.old column.new }
{
    column.copy_within(i + 1..n, i);
}

// ---- links

// The index that a link to v has once node i is gone. Links are lowered as their column holds them: NO_NODE stays.
fn lowered(v: u16, i: u16) -> u16
    ensures { result ≡ closed_link i v }
{
    if v == tree::NO_NODE {
        return v;
    }
    if i < v {
        return v - 1;
    }
    v
}

// Each of the first n links is lowered.
fn lower_links(col: &mut [u16], n: usize, i: u16)
    requires { n ≤ length col.old }
    ensures { Lowered n i col.old col.new }
{
    for v in &mut col[..n] {
        *v = lowered(*v, i);
    }
}

// A column of links closes up, and the links in it are lowered.
fn close_links(col: &mut [u16], n: usize, i: NodeIndex)
    requires { (i.0 < n) × (n ≤ length col.old) }
    ensures { LinksClosed n i.0 col.old col.new }
{
    close_gap(col, n, usize::from(i));
    lower_links(col, n - 1, i.0);
}

// ---- all columns close up; a buffer lends its columns one by one

fn close_points(points: &mut [i32; joining::POINTS], n: usize, i: usize)
    requires { (i < n) × (n ≤ most_nodes) }
    ensures { PointsClosed n i points.old points.new }
{
    close_gap(&mut points[0..joining::YS], n, i);
    close_gap(&mut points[joining::YS..joining::POINTS], n, i);
}

fn close_marks(marks: &mut [u16; joining::MARKS], n: usize, i: NodeIndex)
    requires { (i.0 < n) × (n ≤ most_nodes) }
    ensures { MarksClosed n i.0 marks.old marks.new }
{
    let at = usize::from(i);
    close_links(&mut marks[0..joining::KINDS], n, i);
    close_gap(&mut marks[joining::KINDS..joining::NUMBERS], n, at);
    close_gap(&mut marks[joining::NUMBERS..joining::MARKS], n, at);
}

fn close_all_links(links: &mut [u16; joining::LINKS], n: usize, i: NodeIndex)
    requires { (i.0 < n) × (n ≤ most_nodes) }
    ensures { AllLinksClosed n i.0 links.old links.new }
{
    close_links(&mut links[0..joining::PREVS], n, i);
    close_links(&mut links[joining::PREVS..joining::NEXTS], n, i);
    close_links(&mut links[joining::NEXTS..joining::LINKS], n, i);
}

// The counts with one node less; its number is not given out again. (A plain difference: the contract says that there is a node.)
fn one_fewer(k: Counts) -> Counts
    requires { 0 < k.nodes }
    ensures { result ≡ one_fewer k }
{
    Counts {
        nodes: k.nodes - 1,
        steiner: k.steiner,
        terminal: k.terminal,
    }
}

// Node i, to which no link leads, goes; the nodes after it move one place down.
pub fn close_up(arena: &mut Arena, i: NodeIndex)
    requires { (i.0 < arena.old.counts.nodes) × (arena.old.counts.nodes ≤ most_nodes) }
    ensures closed { StoreClosed arena.old.counts.nodes i.0 (stored arena.old) (stored arena.new) }
    ensures counts { arena.new.counts ≡ one_fewer arena.old.counts }
{
    let n = usize::from(arena.counts.nodes);
    let at = usize::from(i);
    close_points(&mut arena.nodes.points, n, at);
    close_gap(&mut arena.nodes.path, n, at);
    close_marks(&mut arena.nodes.marks, n, i);
    close_all_links(&mut arena.links, n, i);
    arena.counts = one_fewer(arena.counts);
}

// ---- a lone node, and its links

// A Steiner node with one child.
pub fn is_lone(arena: &Arena, i: NodeIndex) -> bool
    requires { LoneReads (column 1 arena.now.nodes.marks) (column 0 arena.now.links) (column 1 arena.now.links) i.0 }
    ensures { result ≡ lone_at (column 1 arena.now.nodes.marks) (column 0 arena.now.links) (column 1 arena.now.links) i.0 }
{
    let at = usize::from(i);
    let NodeType::Steiner = arena.nodes.kind_at(at) else {
        return false;
    };
    let Some(c) = joining::last_child(&arena.links, at) else {
        return false;
    };
    joining::child_before(&arena.links, usize::from(c)).is_none()
}

// i leaves p's children, and its child c goes last among them.
pub fn bypass(arena: &mut Arena, i: NodeIndex, p: NodeIndex, c: NodeIndex)
    requires { Bypassable i.0 p.0 c.0 (column 0 arena.old.nodes.marks) (links_in arena.old.links) }
    ensures rows { rows_held arena.new.nodes ≡ set_parent (rows_held arena.old.nodes) c.0 p.0 }
    ensures links { Relinked i.0 p.0 c.0 (links_in arena.old.links) (links_in arena.new.links) }
    ensures counts { arena.new.counts ≡ arena.old.counts }
{
    joining::detach(&mut arena.links, p, i);
    joining::attach_last(&mut arena.links, p, c);
    arena.nodes.store_parent(c, p);
}
