// The checks of a lent table. (Order and list are asked and not a type: some of these answer for n = 0, and the calls for every n.)
ghost use Rattle.std.specs.Prelude.{◌≡◌, ◌*◌, ◌≤◌, length};
ghost use Rattle.numbers.specs.Limits.{IsOrder, IsEntry, Legal};
ghost use Rattle.numbers.specs.Reasons.{number_of};
ghost use Rattle.numbers.specs.Says.{Tells};
ghost use Rattle.tables.specs.Tables.{height};
ghost use Rattle.tables.specs.Checks.{Checked, Finds};

use numbers::refusals::{self, Refusal};

// The place of an entry; row and column from 0.
#[derive(Clone, Copy, Debug, PartialEq, Eq)]
pub struct Place {
    pub row: usize,
    pub column: usize,
}

// Whether n is the order of a table.
pub fn is_order(n: usize) -> bool
    ensures { Tells (IsOrder n) result }
{
    (1..=numbers::MOST_ORDER).contains(&n)
}

// Whether a list may be a table of order n; else the first refusal, of its order, its length and its entries.
pub fn lawful(n: usize, table: &[i64]) -> Result<(), Refusal>
    ensures { Checked n table.now (number_of result) }
{
    if table.len() != refusals::cells(n)? {
        return Err(Refusal::Length);
    }
    if !is_legal(n, table) {
        return Err(Refusal::Entry);
    }
    Ok(())
}

// Whether every entry is inside the range.
pub fn is_legal(n: usize, table: &[i64]) -> bool
    requires { (n ≤ 32) × (length table.now ≡ n * n) }
    ensures { Tells (Legal table.now) result }
{
    first_outside(n, table).is_none()
}

// The place of the first entry outside the range, row by row: nested loops left by a label, as document 01 asks.
pub fn first_outside(n: usize, table: &[i64]) -> Option<Place>
    requires { (n ≤ 32) × (length table.now ≡ n * n) }
    ensures { Finds n table.now result }
{
    let mut found = None;
    'rows: for row in 0..n {
        for column in 0..n {
            if !is_entry(table[row * n + column]) {
                found = Some(Place { row, column });
                break 'rows;
            }
        }
    }
    found
}

// Whether a number is inside the range.
pub fn is_entry(v: i64) -> bool
    ensures { Tells (IsEntry v) result }
{
    v.unsigned_abs() <= numbers::MOST_ENTRY
}

// The larger of 1 and the greatest magnitude of an entry.
pub fn top(table: &[i64]) -> u64
    ensures { result ≡ height table.now }
{
    table
        .iter()
        .map(|v| v.unsigned_abs())
        .fold(1, |h, m| h.max(m))
}
