// Work on the first column of blocks alone: that of a residue is known without the others. (`shrink` and `vanishes` are those of blocks for
// one column: they ask and promise for that column alone.)
ghost use Rattle.std.specs.Prelude.{ℕ, ◌^◌};
ghost use Rattle.numbers.specs.Limits.{IsOrder};
ghost use Rattle.numbers.specs.Remainder.{rem};
ghost use Rattle.numbers.specs.Says.{Tells};
ghost use Rattle.tables.specs.Tables.{◌·⟨◌⟩◌, block};
ghost use Rattle.tables.specs.Buffer.{Has};
ghost use Rattle.kernels.specs.Kernels.{shrunk};
ghost use Rattle.kernels.specs.Columns.{ToCopy, ToRemain, ToShrink, ColumnPut, ColumnZero};

use super::{blocks, entries};

// The first column of block p, into that of block o.
pub fn copy(n: usize, buf: &mut [i64], p: usize, o: usize)
    requires { ToCopy n buf.old p o }
    ensures { ColumnPut n (λ (i : ℕ). block n buf.old p i 0) o buf.old buf.new }
{
    let pa = p * (n * n);
    entries::fill(n, 1, buf, o, |b, i, j| blocks::cell(n, b, pa, i, j));
}

// The first column of block o becomes the balanced remainder by 2^e of block p times the first column of block q.
pub fn remain(n: usize, e: u32, buf: &mut [i64], p: usize, q: usize, o: usize)
    requires { ToRemain n (2 ^ e) buf.old p q o }
    ensures { ColumnPut n (λ (i : ℕ). rem (2 ^ e) ((block n buf.old p ·⟨ n ⟩ block n buf.old q) i 0)) o buf.old buf.new }
{
    let m = n * n;
    let pa = p * m;
    let qa = q * m;
    let entry = |b: &[i64], i, j| numbers::rem_pow(blocks::dot(n, b, pa, b, qa, i, j), e);
    entries::fill(n, 1, buf, o, entry);
}

// The first column of block s becomes itself less a times that of block m, divided by 2^e and rounded down.
pub fn shrink(n: usize, e: u32, a: &[i64], buf: &mut [i64], m: usize, s: usize)
    requires { ToShrink n (2 ^ e) a.now buf.old m s }
    ensures { ColumnPut n (λ (i : ℕ). shrunk n (2 ^ e) a.now buf.old m s i 0) s buf.old buf.new }
{
    let entry = |b: &[i64], i, j| entries::shrunk(n, e, a, b, m, s, i, j);
    entries::fill(n, 1, buf, s, entry);
}

// Whether the first column of block o is all zero.
pub fn vanishes(n: usize, buf: &[i64], o: usize) -> bool
    requires { (IsOrder n) × (Has n buf.now o) }
    ensures { Tells (ColumnZero n (block n buf.now o)) result }
{
    entries::all(n, 1, buf, o, |v| v == 0)
}
