// Lifting: the sparse inverse expansion of a table of whole numbers.
#![tactic(auto)]

ghost use Rattle.numbers.specs.Reasons.{number_of};
ghost use Rattle.numbers.specs.Says.{Tells};
ghost use Rattle.lifting.specs.Lifting.{LiftGives};
ghost use Rattle.lifting.specs.Views.{HasBlock, BlockGives};
ghost use Rattle.lifting.specs.Steps.{Early};

pub mod steps;

use self::steps::Lifter;
use numbers::refusals::{self, Refusal};

// The greatest number of lifts.
const MOST_LIFTS: usize = 4;

// The greatest exponent.
const MOST_EXPONENT: u32 = 32;

// Writes the expansion of a table by 2^exponent, with a number of lifts.
pub fn lift(
    n: usize,
    lifts: usize,
    exponent: u32,
    table: &[i64],
    expansion: &mut [i64],
) -> Result<(), Refusal>
    ensures { LiftGives n lifts exponent table.now expansion.old (number_of result) expansion.new }
{
    early(n, lifts, exponent, table, expansion.len())?;
    if !eliminations::parity::has_inverse(n, table) {
        return Err(Refusal::NoInverseModulo2);
    }
    let lifter = Lifter { n, exponent, table };
    lifter.start(expansion);
    for t in 0..lifts {
        lifter.step(expansion, 2 * t + 1, 2 * t + 2, 2 * t + 3);
    }
    Ok(())
}

// Block j of an expansion, as a part of the caller's own buffer; or the empty stretch at its start, which document 01 asks for: no Option.
pub fn block(n: usize, lifts: usize, expansion: &[i64], j: usize) -> &[i64]
    ensures { BlockGives n lifts expansion.entry j result }
{
    if has_block(n, lifts, expansion.len(), j) {
        let m = n * n;
        &expansion[j * m..j * m + m]
    } else {
        &expansion[..0]
    }
}

// The first refusal of what lift is given; size is the length of the lent expansion. (`n as u64`: std has no From of a usize, and the cast loses nothing.)
fn early(n: usize, s: usize, e: u32, a: &[i64], size: usize) -> Result<(), Refusal>
    ensures { Early n s e a.now size (number_of result) }
{
    let m = refusals::cells(n)?;
    if MOST_LIFTS < s {
        return Err(Refusal::Lifts);
    }
    if size != (2 * s + 2) * m {
        return Err(Refusal::Length);
    }
    tables::checks::lawful(n, a)?;
    if MOST_EXPONENT < e || e < numbers::need(n as u64, tables::checks::top(a)) {
        return Err(Refusal::Exponent);
    }
    Ok(())
}

// Whether a buffer of `size` numbers is an expansion with a block j. (Not one function with tables' `has_row`: the lengths
// differ.)
fn has_block(n: usize, lifts: usize, size: usize, j: usize) -> bool
    ensures { Tells (HasBlock n lifts size j) result }
{
    tables::checks::is_order(n)
        && lifts <= MOST_LIFTS
        && size == (2 * lifts + 2) * (n * n)
        && j <= 2 * lifts + 1
}
