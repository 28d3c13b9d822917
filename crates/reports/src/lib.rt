// The report of a text: what the program `certify` prints for it.
#![tactic(auto)]

ghost use Rattle.std.specs.Prelude.{[], ◌∷◌, ◌≤◌};
ghost use Rattle.numbers.specs.Limits.{IsOrder};
ghost use Rattle.sheets.specs.Sheet.{line};
ghost use Rattle.sheets.specs.Answer.{place_of};
ghost use Rattle.sheets.specs.Writing.{Put};
ghost use Rattle.reports.specs.Report.{figures, IsCertificate, IsReport, ReportGives};
ghost use Rattle.reports.specs.Parts.{Puts};

use sheets::Refusal;

// So many bytes have room for every report.
pub const ROOM: usize = 14352;

// Puts the report of the text at the start of out and gives the count of its bytes; in less room than every report needs, puts nothing and gives 0.
#[tactic(auto, using(crate::specs::Report::no_room, crate::proofs::Lengths::report_put))]
pub fn report(text: &[u8], out: &mut [u8]) -> usize
    ensures { ReportGives text.now out.old result out.new }
{
    if out.len() < ROOM {
        // no report is empty, so 0 says that there is none (`ReportGives`)
        return 0;
    }
    put_report(text, out)
}

// The report of the text at the start of out, as far as it has room.
fn put_report(text: &[u8], out: &mut [u8]) -> usize
    ensures { Puts (IsReport text.now) out.old result out.new }
{
    let mut table = [0i64; numbers::MOST_CELLS];
    match sheets::read(text, &mut table) {
        Ok(n) => certify(n, &table[..n * n], out),
        Err(Refusal::Text(p)) => put_refusal(p, out),
        // does not come: the table has the right length
        Err(Refusal::Length) => 0,
    }
}

// The line of a text that is no sheet: its 9 is a number of the report (`IsReport`).
fn put_refusal(p: sheets::Place, out: &mut [u8]) -> usize
    requires { (p.line ≤ 9220) × (p.column ≤ 9220) }
    ensures { Put out.old 0 (line (figures (9 ∷ place_of p))) result out.new }
{
    // `u32` has no `From` of a `usize`: these casts, and that of n in `certify`, are proved to lose nothing
    let row = p.line as u32;
    let column = p.column as u32;
    put_four(9, row, column, p.reason.number(), out)
}

// The lines of a sheet of these entries.
#[tactic(auto, using(tables::proofs::Buffers::Places::square_small))]
fn certify(n: usize, entries: &[i64], out: &mut [u8]) -> usize
    requires { IsOrder n }
    ensures { Puts (IsCertificate n entries.now) out.old result out.new }
{
    let mut room = [0i64; numbers::MOST_CELLS];
    let inverse = &mut room[..n * n];
    let answer = verdict::inverse(n, entries, inverse);
    let number = answer.number;
    let next = put_four(number, n as u32, answer.exponent, answer.lifts, out);
    if number != 0 {
        return next;
    }
    sheets::writing::put_rows(out, next, n, inverse)
}

// A line of four figures at the start of out.
fn put_four(a: u32, b: u32, c: u32, d: u32, out: &mut [u8]) -> usize
    ensures { Put out.old 0 (line (figures (a ∷ b ∷ c ∷ d ∷ []))) result out.new }
{
    let figures = [i64::from(a), i64::from(b), i64::from(c), i64::from(d)];
    sheets::writing::put_line(out, 0, &figures)
}
