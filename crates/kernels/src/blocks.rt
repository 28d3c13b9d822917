// The kernels: work on tables of order n in one buffer, each named by its block number, as in the rules (docs/DECISIONS.md, 22).
ghost use Rattle.std.specs.Prelude.{◌≡◌, ℕ, ◌+◌, ◌*◌, ◌^◌, ◌≤◌, ◌<◌, pos, ◌+ℤ◌, ◌*ℤ◌, length, get_or};
ghost use Rattle.numbers.specs.Numbers.{δ};
ghost use Rattle.numbers.specs.Limits.{IsOrder};
ghost use Rattle.numbers.specs.Remainder.{rem};
ghost use Rattle.numbers.specs.Says.{Tells};
ghost use Rattle.tables.specs.Tables.{◌·⟨◌⟩◌, Zero, block, table_at};
ghost use Rattle.tables.specs.Buffer.{Low, Has, BlockPut};
ghost use Rattle.kernels.specs.Kernels.{Dot, Product, Remain, shrunk, Shrink, Balance, Extend};

use super::{block_residues, entries};

// Block o becomes the product of blocks p and q.
pub fn product(n: usize, buf: &mut [i64], p: usize, q: usize, o: usize)
    requires { Product n buf.old p q o }
    ensures { BlockPut n (block n buf.old p ·⟨ n ⟩ block n buf.old q) o buf.old buf.new }
{
    let m = n * n;
    let pa = p * m;
    let qa = q * m;
    entries::fill(n, n, buf, o, |b, i, j| dot(n, b, pa, b, qa, i, j));
}

// Block o becomes the balanced remainder by 2^e of the product of blocks p and q.
pub fn remain(n: usize, e: u32, buf: &mut [i64], p: usize, q: usize, o: usize)
    requires { Remain n (2 ^ e) buf.old p q o }
    ensures { BlockPut n (λ (i j : ℕ). rem (2 ^ e) ((block n buf.old p ·⟨ n ⟩ block n buf.old q) i j)) o buf.old buf.new }
{
    let mut y = [0u32; 1024];
    let m = n * n;
    tables::residues::take(&buf[q * m..q * m + m], &mut y);
    block_residues::product(n, &y, buf, p, o);
    balance(n, e, buf, o);
}

// Block s becomes itself less a times block m, divided by 2^e and rounded down.
pub fn shrink(n: usize, e: u32, a: &[i64], buf: &mut [i64], m: usize, s: usize)
    requires { Shrink n (2 ^ e) a.now buf.old m s × Low n (2 ^ 62) (block n buf.old s) }
    ensures { BlockPut n (shrunk n (2 ^ e) a.now buf.old m s) s buf.old buf.new }
{
    let entry = |b: &[i64], i, j| entries::shrunk(n, e, a, b, m, s, i, j);
    entries::fill(n, n, buf, s, entry);
}

// Block o becomes its balanced remainder by 2^e.
pub fn balance(n: usize, e: u32, buf: &mut [i64], o: usize)
    requires { Balance n (2 ^ e) buf.old o }
    ensures { BlockPut n (λ (i j : ℕ). rem (2 ^ e) (block n buf.old o i j)) o buf.old buf.new }
{
    let oa = o * (n * n);
    let entry = |b: &[i64], i, j| numbers::rem_pow(cell(n, b, oa, i, j), e);
    entries::fill(n, n, buf, o, entry);
}

// 2^e times block d is added to block c.
pub fn extend(n: usize, e: u32, buf: &mut [i64], c: usize, d: usize)
    requires { Extend n (2 ^ e) buf.old c d }
    ensures { BlockPut n (λ (i j : ℕ). block n buf.old c i j +ℤ pos (2 ^ e) *ℤ block n buf.old d i j) c buf.old buf.new }
{
    let m = n * n;
    let ca = c * m;
    let da = d * m;
    let x = numbers::pow2(e);
    let entry = |b: &[i64], i, j| cell(n, b, ca, i, j) + x * cell(n, b, da, i, j);
    entries::fill(n, n, buf, c, entry);
}

// Block o becomes the identity.
pub fn identity(n: usize, buf: &mut [i64], o: usize)
    requires { (IsOrder n) × (Has n buf.old o) }
    ensures { BlockPut n δ o buf.old buf.new }
{
    entries::fill(n, n, buf, o, |_, i, j| unit(i, j));
}

// Whether block o is all zero.
pub fn vanishes(n: usize, buf: &[i64], o: usize) -> bool
    requires { (IsOrder n) × (Has n buf.now o) }
    ensures { Tells (Zero n (block n buf.now o)) result }
{
    entries::all(n, n, buf, o, |v| v == 0)
}

// Whether every entry of block o has magnitude at most c.
pub fn within(n: usize, buf: &[i64], o: usize, c: u64) -> bool
    requires { (IsOrder n) × (Has n buf.now o) }
    ensures { Tells (Low n c (block n buf.now o)) result }
{
    entries::all(n, n, buf, o, |v| v.unsigned_abs() <= c)
}

// Entry (i, j) of the product of the tables at places p and q. (A for and not `sum`: each sum on the way has to fit. Places and not slices: as a slice, a block would
// be cut out anew for each entry.)
pub fn dot(n: usize, a: &[i64], p: usize, b: &[i64], q: usize, i: usize, j: usize) -> i64
    requires { Dot n a.now p b.now q i j }
    ensures { result ≡ (table_at n a.now p ·⟨ n ⟩ table_at n b.now q) i j }
{
    let mut s: i64 = 0;
    for k in 0..n {
        s += cell(n, a, p, i, k) * cell(n, b, q, k, j);
    }
    s
}

// Entry (i, k) of the table at place p.
pub fn cell(n: usize, a: &[i64], p: usize, i: usize, k: usize) -> i64
    requires { (n ≤ 32) × ((i < n) × ((k < n) × (p + n * n ≤ length a.now))) }
    ensures { result ≡ get_or a.now (p + (i * n + k)) (pos 0) }
{
    a[p + (i * n + k)]
}

// 1 on the diagonal, 0 elsewhere.
pub fn unit(i: usize, j: usize) -> i64
    ensures { result ≡ δ i j }
{
    i64::from(i == j)
}
