// The C calls of the router: those of exports, under their names and clauses, as a static library. bindings/ has the C header and a Rust crate over these.
// A slice is a pointer and a length to C. The calls of C go out under fixed names, one line each, so that their bodies are alike.
#![tactic(auto)]

ghost use Rattle.std.specs.Prelude.{◌≡◌};
ghost use Rattle.route.specs.Routing.{route_of};
ghost use Rattle.planning.specs.Output.{output_of};
ghost use Rattle.exports.specs.Numbers.{Writes, BytesOf, figures, status_of, figures_after};

// What `routeplan` writes for a job. Refusal: 11; those of the job are lines of the text.
#[unsafe(no_mangle)]
pub extern "C" fn ferruleslate_plan(job: &[u8], out: &mut [u8]) -> i64
    ensures { Writes (output_of job.now) out.old result out.new }
{
    exports::ferruleslate_plan(job, out)
}

// The tree bytes of a job. Refusals: 1 to 6, of the job; then 11.
#[unsafe(no_mangle)]
pub extern "C" fn ferruleslate_tree_bytes(job: &[u8], out: &mut [u8]) -> i64
    ensures { BytesOf (route_of job.now) out.old result out.new }
{
    exports::ferruleslate_tree_bytes(job, out)
}

// The figures of a job's tree; the answer is 0, or a refusal of the job, 1 to 6, and the figures as they were.
#[unsafe(no_mangle)]
pub extern "C" fn ferruleslate_figures(
    job: &[u8],
    allowed: &mut i32,
    farthest: &mut u32,
    total: &mut u32,
    worst: &mut u32,
) -> i64
    ensures status { result ≡ status_of (route_of job.now) }
    ensures figures { figures allowed.new farthest.new total.new worst.new ≡ figures_after (route_of job.now) (figures allowed.old farthest.old total.old worst.old) }
{
    exports::ferruleslate_figures(job, allowed, farthest, total, worst)
}

// ---- called as C does, by place: a contract names parameters, so nothing above holds their order

pub fn plan_by_place(job: &[u8], out: &mut [u8]) -> i64
    ensures { Writes (output_of job.now) out.old result out.new }
{
    ferruleslate_plan(job, out)
}

pub fn tree_bytes_by_place(job: &[u8], out: &mut [u8]) -> i64
    ensures { BytesOf (route_of job.now) out.old result out.new }
{
    ferruleslate_tree_bytes(job, out)
}

pub fn figures_by_place(job: &[u8], a: &mut i32, w: &mut u32, l: &mut u32, v: &mut u32) -> i64
    ensures status { result ≡ status_of (route_of job.now) }
    ensures figures { figures a.new w.new l.new v.new ≡ figures_after (route_of job.now) (figures a.old w.old l.old v.old) }
{
    ferruleslate_figures(job, a, w, l, v)
}
