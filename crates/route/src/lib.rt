// A source and terminals become a tree in memory: sorting, W, the allowance, and the three ways to route.
#![tactic(auto)]

ghost use Rattle.std.specs.Prelude.{◌≡◌, ◌≤◌};
ghost use Rattle.geometry.specs.Laws.{Within};
ghost use Rattle.tree.specs.Limits.{across, reach, most_nodes, no_limit};
ghost use Rattle.tree.specs.Memory.{points_of};
ghost use Rattle.tree.specs.Route.{farthest};
ghost use Rattle.sorting.specs.Points.{Even};
ghost use Rattle.joining.specs.Store.{SizedStore};
ghost use Rattle.joining.specs.Buffers.{stored};
ghost use Rattle.route.specs.Plan.{choice_of, Plannable, TableRouted, Planned};
ghost use Rattle.job.specs.Reading.{unpacked};
ghost use Rattle.tables.specs.Table.{table_tree};
ghost use Rattle.route.specs.Routing.{tree_for, route_of};
ghost use Rattle.route.specs.Jobs.{Sound};
ghost use Rattle.route.specs.Tables.{begun, routing_in};

use geometry::Point;
use inserting::Way;
use job::{Mode, RoutingJob};
use joining::{Arena, Counts, NodeRows};
use refusal::Refusal;
use search::Query;
use tables::Table;
use tree::{SteinerNumber, TerminalNumber};

// How a mode routes: the way to join, the tree limit and the allowance.
#[derive(Clone, Copy)]
pub struct Choice {
    pub way: Way,
    pub query: Query,
}

// W: the largest distance from the source, 0 with no terminals.
fn farthest(px: &[i32], py: &[i32], s: Point) -> u32
    requires { Even px.now py.now × Within reach s }
    ensures { result ≡ farthest s (points_of px.now py.now) }
{
    let mut w = 0;
    for i in 0..px.len() {
        let d = search::distance(s, tree::point_at(px, py, i));
        w = d.max(w);
    }
    w
}

// The allowance where there is none to keep.
const ALL_ALLOWED: i32 = i32::MAX;

fn choose(mode: Mode, s: Point, w: u32) -> Choice
    ensures { result ≡ choice_of mode s w }
{
    let free = Query {
        point: s,
        limit: tree::NO_LIMIT,
        allowed: ALL_ALLOWED,
    };
    match mode {
        Mode::Simple => Choice {
            way: Way::Simple,
            query: free,
        },
        Mode::Steiners => Choice {
            way: Way::Search,
            query: free,
        },
        Mode::Constraints(m) => Choice {
            way: Way::Search,
            query: Query {
                point: s,
                limit: w,
                allowed: allowance::allowed(w, m),
            },
        },
    }
}

// An arena in which no tree stands yet. (Zeros, as the rows of `reading::rows_of` before nodes are stored: a line for each array.)
fn empty_arena() -> Arena
    ensures { SizedStore most_nodes (stored result) }
{
    Arena {
        nodes: NodeRows {
            points: [0; joining::POINTS],
            path: [0; tree::MOST_NODES],
            marks: [0; joining::MARKS],
        },
        links: [0; joining::LINKS],
        counts: Counts {
            nodes: 0,
            steiner: SteinerNumber(1),
            terminal: TerminalNumber(1),
        },
    }
}

// The tree of terminals in the order given, by a choice; the table carries w. (The columns are parts of a job's arrays, and `plan` has sorted them.)
fn route_columns(px: &[i32], py: &[i32], ks: &[i32], c: Choice, w: u32) -> Table
    requires plannable { Plannable px.now py.now c.query.point }
    requires small { (c.query.limit ≤ no_limit) × (w ≤ across) }
    ensures { TableRouted ks.now px.now py.now c w result }
{
    let query = c.query;
    let mut arena = empty_arena();
    inserting::route_sorted(&mut arena, px, py, ks, c.way, query);
    Table {
        arena,
        limit: query.limit,
        allowed: query.allowed,
        farthest: w,
    }
}

// The tree of a source and terminals, which are sorted in place.
pub fn plan(px: &mut [i32], py: &mut [i32], ks: &[i32], s: Point, mode: Mode) -> Table
    requires { Plannable px.old py.old s }
    ensures { Planned ks.now px.old py.old s mode result }
{
    let w = farthest(px, py, s);
    sorting::sort(px, py, s);
    let c = choose(mode, s, w);
    route_columns(px, py, ks, c, w)
}

// ---- the tables that a call begins with: of a source alone, of a job, or of its bytes

pub fn source_alone(s: Point) -> Table
    requires { Within reach s }
    ensures { table_tree result ≡ begun s }
{
    plan(&mut [], &mut [], &[], s, Mode::Simple)
}

// The tree of a job that was accepted.
fn planned(mut j: RoutingJob) -> Table
    requires { Sound j }
    ensures { table_tree result ≡ tree_for (unpacked j) }
{
    let t = j.terminal_count;
    let k = tree::KEEPOUT_BOUNDS * j.keepout_count;
    plan(
        &mut j.terminal_xs[..t],
        &mut j.terminal_ys[..t],
        &j.keepouts[..k],
        j.source,
        j.mode,
    )
}

// What a job's bytes get: the refusal, or the job's tree.
pub fn route_table(bytes: &[u8]) -> Result<Table, Refusal>
    ensures { routing_in result ≡ route_of bytes.now }
{
    let job = job::read_job(bytes)?;
    Ok(planned(job))
}
