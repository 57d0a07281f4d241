// The calls of the router that exports_c exports to C: a job's bytes to its text, its tree bytes or its figures.
// An answer is a number: what was written, or minus the number of a refusal.
#![tactic(auto)]

ghost use Rattle.std.specs.Prelude.{◌≡◌, ◌<◌, ◌^◌, IfOk};
ghost use Rattle.refusal.specs.Refusals.{number_of};
ghost use Rattle.route.specs.Routing.{route_of};
ghost use Rattle.planning.specs.Output.{output_of};
ghost use Rattle.exports.specs.Numbers.{minus, returned_of, Writes, BytesOf, figures, status_of, figures_after};

use refusal::Refusal;

// ---- answers as numbers

fn refused(r: Refusal) -> i64
    ensures { result ≡ minus (number_of r) }
{
    -i64::from(r.number())
}

fn returned(answer: Result<usize, Refusal>) -> i64
    requires { IfOk «answer» (λ n. n < 2 ^ 63) }
    ensures { result ≡ returned_of «answer» }
{
    match answer {
        // (`as`: it fits by the contract, and there is no From of usize for i64.)
        Ok(n) => n as i64,
        Err(why) => refused(why),
    }
}

// ---- the calls

// What `routeplan` writes for a job. Refusal: 11; those of the job are lines of the text.
pub fn ferruleslate_plan(job: &[u8], out: &mut [u8]) -> i64
    ensures { Writes (output_of job.now) out.old result out.new }
{
    let written = planning::plan(job, out);
    returned(written)
}

// The tree bytes of a job. Refusals: 1 to 6, of the job; then 11.
pub fn ferruleslate_tree_bytes(job: &[u8], out: &mut [u8]) -> i64
    ensures { BytesOf (route_of job.now) out.old result out.new }
{
    match route::route_table(job) {
        Err(r) => refused(r),
        Ok(t) => {
            let written = reading::write_tree_bytes(&t, out);
            returned(written)
        }
    }
}

// The figures of a job's tree; the answer is 0, or a refusal of the job, 1 to 6, and the figures as they were.
pub fn ferruleslate_figures(
    job: &[u8],
    allowed: &mut i32,
    farthest: &mut u32,
    total: &mut u32,
    worst: &mut u32,
) -> i64
    ensures status { result ≡ status_of (route_of job.now) }
    ensures figures { figures allowed.new farthest.new total.new worst.new ≡ figures_after (route_of job.now) (figures allowed.old farthest.old total.old worst.old) }
{
    match route::route_table(job) {
        Err(r) => refused(r),
        Ok(t) => {
            let f = reading::read_figures(&t);
            *allowed = f.allowed;
            *farthest = f.farthest;
            *total = f.total;
            *worst = f.worst;
            0
        }
    }
}
