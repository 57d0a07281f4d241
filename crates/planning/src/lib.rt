// What the program writes for a job: the tree's text and its figures, or a refusal.
#![tactic(auto)]

ghost use Rattle.std.specs.Prelude.{◌≡◌, length};
ghost use Rattle.wire.specs.Puts.{Puts};
ghost use Rattle.refusal.specs.Refusals.{number_of};
ghost use Rattle.output.specs.Answer.{Answers};
ghost use Rattle.tables.specs.Table.{table_tree};
ghost use Rattle.planning.specs.Output.{refusal_line, figures_line, tree_output, output_of};

use measures::Figures;
use refusal::Refusal;
use tables::Table;

// "the text (buffer 65,536 bytes)"
pub const MOST_TEXT: usize = 65536;

// Room for every output: the text, and the longest line of figures.
pub const MOST_OUTPUT: usize = 65610;

// A buffer, of which no more is known than its length.
pub fn buffer<const N: usize>() -> [u8; N]
    ensures { length result ≡ N }
{
    [0; N]
}

// ---- the lines

// The line of any number.
pub fn put_refusal_number(out: &mut [u8], at: usize, n: u8) -> usize
    ensures { Puts out.old at (refusal_line n) out.new result }
{
    let p1 = output::put_bytes(out, at, b"refused ");
    let p2 = decimal::put_u32(out, p1, u32::from(n));
    output::put_bytes(out, p2, b"\n")
}

pub fn put_refusal(out: &mut [u8], at: usize, r: Refusal) -> usize
    ensures { Puts out.old at (refusal_line (number_of r)) out.new result }
{
    put_refusal_number(out, at, r.number())
}

// One write for each part of the line, and no `write!`: digits are made without division (docs/DECISIONS.md 36), and a place past the end still counts.
pub fn put_figures(out: &mut [u8], at: usize, f: Figures) -> usize
    ensures { Puts out.old at (figures_line f.allowed f.farthest f.total f.worst) out.new result }
{
    let p1 = output::put_bytes(out, at, b"allowed ");
    let p2 = decimal::put_i32(out, p1, f.allowed);
    let p3 = output::put_bytes(out, p2, b" farthest ");
    let p4 = decimal::put_u32(out, p3, f.farthest);
    let p5 = output::put_bytes(out, p4, b" total ");
    let p6 = decimal::put_u32(out, p5, f.total);
    let p7 = output::put_bytes(out, p6, b" worst ");
    let p8 = decimal::put_u32(out, p7, f.worst);
    output::put_bytes(out, p8, b"\n")
}

// ---- written whole or not at all

fn write_refusal(r: Refusal, out: &mut [u8]) -> Result<usize, Refusal>
    ensures { Answers (refusal_line (number_of r)) out.old result out.new }
{
    output::write_measured(out, |buffer: &mut [u8]| put_refusal(buffer, 0, r))
}

// ---- a tree in memory, and a job

fn write_tree(t: &Table, out: &mut [u8]) -> Result<usize, Refusal>
    ensures { Answers (tree_output (table_tree t.now)) out.old result out.new }
{
    let f = reading::read_figures(t);
    let mut text = buffer::<MOST_OUTPUT>();
    let m = reading::put_text(t, &mut text, 0);
    if MOST_TEXT < m {
        return write_refusal(Refusal::NoRoom, out);
    }
    let n = put_figures(&mut text, m, f);
    output::write_bytes(&text[..n], out)
}

// What the program writes for a job, whole or not at all. Refusal: 11. The tree stays in columns: nobody is handed it.
pub fn plan(job: &[u8], out: &mut [u8]) -> Result<usize, Refusal>
    ensures { Answers (output_of job.now) out.old result out.new }
{
    match route::route_table(job) {
        Err(r) => write_refusal(r, out),
        Ok(t) => write_tree(&t, out),
    }
}
