// Square tables of whole numbers: the view of a row, the checks of a lent table, and rows of residues (residues.rt).
#![tactic(auto)]

ghost use Rattle.numbers.specs.Says.{Tells};
ghost use Rattle.tables.specs.Views.{HasRow, RowGives};

pub mod checks;
pub mod residues;

// Row i (from 0) of a table of order n, as a part of the caller's own buffer; or the empty stretch at its start, which document
// 01 asks for: no Option.
pub fn row(n: usize, table: &[i64], i: usize) -> &[i64]
    ensures { RowGives n table.entry i result }
{
    if has_row(n, table.len(), i) {
        &table[i * n..i * n + n]
    } else {
        &table[..0]
    }
}

// Whether a table of `size` numbers has a row i at order n. (Not one function with lifting's `has_block`: the lengths differ.)
fn has_row(n: usize, size: usize, i: usize) -> bool
    ensures { Tells (HasRow n size i) result }
{
    checks::is_order(n) && size == n * n && i < n
}
