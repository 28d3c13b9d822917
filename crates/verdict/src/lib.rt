// Verdict and inverse.
#![tactic(auto)]

ghost use Rattle.std.specs.Prelude.{◌≡◌, ◌*◌, ◌^◌, take};
ghost use Rattle.tables.specs.Tables.{entries, block};
ghost use Rattle.numbers.specs.Limits.{IsOrder, Lawful};
ghost use Rattle.numbers.specs.Reasons.{refusal_number};
ghost use Rattle.numbers.specs.Says.{Says, Tells};
ghost use Rattle.numbers.specs.Numbers.{IsLifts};
ghost use Rattle.lifting.specs.Lifting.{IsStart};
ghost use Rattle.lifting.specs.Steps.{Stage};
ghost use Rattle.verdict.specs.Verdict.{Narrow, IsNarrowInverse, answer, outcome_of, VerdictGives, InverseGives};
ghost use Rattle.verdict.specs.Parts.{FindingTells, Fails, Leaves, NoneNarrow, Covers, Summed, Standing};

use lifting::steps::Lifter;
use numbers::refusals::Refusal;

// A second digit beyond it passes the width, whatever the first is: 2^23.
const MOST_DIGIT: u64 = 8388608;

// The buffer for the work: four blocks of the largest order.
pub const BUFFER: usize = 4096;

// The verdict: yes or no, each with exponent and lifts, or refused by a number. (Not by its reason: document 01 asks for the number, and
// outcome_of answers for every one.)
#[derive(Clone, Copy)]
pub enum Ruling {
    Yes { exponent: u32, lifts: u32 },
    No { exponent: u32, lifts: u32 },
    Refused(u32),
}

// What the work finds: no inverse modulo 2; one modulo 2, but none whole; or a whole one.
#[derive(Clone, Copy)]
enum Finding {
    NoneModulo2,
    NoneWhole,
    Whole,
}

// An answer as document 01 gives it: the number, and the exponent and the lifts beside it. (An enum would not do: the inverse call gives its number, with two
// values after 0, 7 and 8 and two zeros after the others.)
#[derive(Clone, Copy)]
pub struct Outcome {
    pub number: u32,
    pub exponent: u32,
    pub lifts: u32,
}

impl From<Refusal> for Outcome {
    ghost from_gives = { λ r o. o ≡ answer (refusal_number r) 0 0 };

    fn from(refusal: Refusal) -> Outcome {
        refused(refusal.number())
    }
}

// Number, exponent and lifts of a ruling. (A function and no From: docs/CALLS.md promises it under this name.)
pub fn outcome_of(v: Ruling) -> Outcome
    ensures { result ≡ outcome_of v }
{
    match v {
        Ruling::Yes { exponent, lifts } => Outcome {
            number: 0,
            exponent,
            lifts,
        },
        Ruling::No { exponent, lifts } => Outcome {
            number: 7,
            exponent,
            lifts,
        },
        Ruling::Refused(number) => refused(number),
    }
}

// The answer of a refusal by this number.
fn refused(number: u32) -> Outcome
    ensures { result ≡ answer number 0 0 }
{
    Outcome {
        number,
        exponent: 0,
        lifts: 0,
    }
}

// What A has, by at most k lifts: a residue that vanishes says at once that there is a whole inverse.
// B_0 is in block 0 of the buffer, and stays there; the residues are in blocks 1 and 2 by turns, the digits in block 3.
fn find(lifter: Lifter, k: u32, buf: &mut [i64; BUFFER]) -> Finding
    requires { IsLifts lifter.n k }
    ensures { let l = lifter.entry in FindingTells l.n (2 ^ l.exponent) l.table.now buf.new result }
{
    let n = lifter.n;
    if !eliminations::parity::has_inverse(n, lifter.table) {
        return Finding::NoneModulo2;
    }
    lifter.start(buf);
    if fails(lifter, buf) {
        return Finding::NoneWhole;
    }
    let mut r: usize = 1;
    let mut s: usize = 2;
    for _ in 0..k {
        if kernels::blocks::vanishes(n, buf, r) {
            return Finding::Whole;
        }
        lifter.step(buf, r, 3, s);
        std::mem::swap(&mut r, &mut s);
    }
    let gone = kernels::blocks::vanishes(n, buf, r);
    if gone {
        return Finding::Whole;
    }
    Finding::NoneWhole
}

// Whether the first column alone tells that A has no whole inverse, from B_0 and R_0 in blocks 0 and 1: after n digits, each the work of two rows of
// products, its residue is not zero. Blocks 2 and 3 are for work.
fn fails(lifter: Lifter, buf: &mut [i64; BUFFER]) -> bool
    requires { let l = lifter in IsStart l.n (2 ^ l.exponent) (entries l.n l.table.now) (block l.n buf.old 0) (block l.n buf.old 1) }
    ensures { Fails lifter.entry.n lifter.entry.table.now buf.old result buf.new }
{
    let n = lifter.n;
    kernels::columns::copy(n, buf, 1, 2);
    for _ in 1..n {
        if kernels::columns::vanishes(n, buf, 2) {
            return false;
        }
        lifter.column_digit(buf, 2, 3);
    }
    !kernels::columns::vanishes(n, buf, 2)
}

// The ruling, with a buffer for the work; after a yes B_0 at the exponent 32 is in block 0.
fn decide(n: usize, a: &[i64], buf: &mut [i64; BUFFER]) -> Ruling
    ensures { VerdictGives n a.now (outcome_of result) × Leaves n (2 ^ 32) a.now buf.new (outcome_of result) }
{
    match tables::checks::lawful(n, a) {
        Ok(()) => ruled(n, a, buf),
        Err(refusal) => Ruling::Refused(refusal.number()),
    }
}

// The same for a table that is not refused. (`n as u64`: std has no From of a usize, and the cast loses nothing.)
fn ruled(n: usize, a: &[i64], buf: &mut [i64; BUFFER]) -> Ruling
    requires { Lawful n a.now }
    ensures { VerdictGives n a.now (outcome_of result) × Leaves n (2 ^ 32) a.now buf.new (outcome_of result) }
{
    let exponent = numbers::need(n as u64, tables::checks::top(a));
    let lifts = numbers::lifts(n as u64);
    let lifter = Lifter {
        n,
        exponent: 32,
        table: a,
    };
    match find(lifter, lifts, buf) {
        Finding::Whole => Ruling::Yes { exponent, lifts },
        Finding::NoneModulo2 | Finding::NoneWhole => Ruling::No { exponent, lifts },
    }
}

// Is there a whole table B with A·B = I?
pub fn verdict(n: usize, table: &[i64]) -> Ruling
    ensures { VerdictGives n table.now (outcome_of result) }
{
    let mut buf = [0i64; BUFFER];
    decide(n, table, &mut buf)
}

// From B_0 in block 0: the whole inverse there, by its two digits B_0 + 2^e·D; or false, where no whole inverse is narrow.
fn digits(lifter: Lifter, buf: &mut [i64; BUFFER]) -> bool
    requires stage { Stage lifter.n (2 ^ lifter.exponent) lifter.table.now buf.old }
    requires covers { Covers (2 ^ lifter.exponent) 2 }
    ensures { let l = lifter.entry in Says (Summed l.n l.table.now buf.new) (NoneNarrow l.n l.table.now) result }
{
    let n = lifter.n;
    lifter.base(buf);
    if kernels::blocks::vanishes(n, buf, 1) {
        return true;
    }
    lifter.digit(buf, 1, 2);
    if !kernels::blocks::vanishes(n, buf, 1) {
        return false;
    }
    if !kernels::blocks::within(n, buf, 2, MOST_DIGIT) {
        return false;
    }
    kernels::blocks::extend(n, lifter.exponent, buf, 0, 2);
    true
}

// Whether block 0 is narrow.
fn narrow(n: usize, buf: &[i64; BUFFER]) -> bool
    requires { IsOrder n }
    ensures { Tells (Narrow n (block n buf.now 0)) result }
{
    kernels::blocks::within(n, buf, 0, numbers::WIDTH)
}

// From B_0 in block 0: the whole inverse there, where it is narrow.
fn invert(lifter: Lifter, buf: &mut [i64; BUFFER]) -> bool
    requires stage { Stage lifter.n (2 ^ lifter.exponent) lifter.table.now buf.old }
    requires covers { Covers (2 ^ lifter.exponent) 2 }
    ensures { let l = lifter.entry in Says (IsNarrowInverse l.n (entries l.n l.table.now) (take (l.n * l.n) buf.new)) (NoneNarrow l.n l.table.now) result }
{
    digits(lifter, buf) && narrow(lifter.n, buf)
}

// The inverse call in a lent buffer: after 0 the table B with A·B = I stands in block 0.
pub fn inverse_in(n: usize, table: &[i64], buf: &mut [i64; BUFFER]) -> Outcome
    requires { IsOrder n }
    ensures { Standing n table.now result buf.new }
{
    let ruling = decide(n, table, buf);
    match ruling {
        Ruling::Yes { exponent, lifts } => {
            let lifter = Lifter {
                n,
                exponent: 32,
                table,
            };
            if invert(lifter, buf) {
                outcome_of(ruling)
            } else {
                Outcome {
                    number: 8,
                    exponent,
                    lifts,
                }
            }
        }
        _ => outcome_of(ruling),
    }
}

// The table B with A·B = I, into out. (Two checks before the work, for its own buffer: those of the table come with the work.)
#[tactic(auto, using(crate::proofs::Standing::left_as_it_was))]
pub fn inverse(n: usize, table: &[i64], out: &mut [i64]) -> Outcome
    ensures { InverseGives n table.now out.old result out.new }
{
    if !tables::checks::is_order(n) {
        return Outcome::from(Refusal::Order);
    }
    if out.len() != n * n {
        return Outcome::from(Refusal::Length);
    }
    let mut buf = [0i64; BUFFER];
    let answer = inverse_in(n, table, &mut buf);
    if answer.number != 0 {
        return answer;
    }
    out.copy_from_slice(&buf[..n * n]);
    answer
}
