// Lists of residues modulo 2^32, in 32 bits each, so that the inner loops of products run on several entries at a time. (Four
// loops and not one with a closure: each body is a line, over another pair of types.)
ghost use Rattle.std.specs.Prelude.{ℕ, ◌+◌, ◌*◌, ◌%◌, ◌^◌, ◌≤◌, ◌<◌, length, get_or, pos};
ghost use Rattle.numbers.specs.Remainder.{residue};
ghost use Rattle.tables.specs.Buffer.{Wrote};
ghost use Rattle.tables.specs.Residues.{row_times, Folds};

// The residues of the numbers of a, to the front of t.
pub fn take(a: &[i64], t: &mut [u32])
    requires { length a.now ≤ length t.old }
    ensures { Wrote 0 (λ (q : ℕ). residue (2 ^ 32) (get_or a.now q (pos 0))) 0 (length a.now) t.old t.new }
{
    for (q, a) in a.iter().enumerate() {
        t[q] = numbers::residue(*a);
    }
}

// The product of the row x and the table y, in z, which is zero before; the order is the length of z.
pub fn fold_rows(x: &[u32], y: &[u32], z: &mut [u32])
    requires { Folds (length z.old) x.now y.now z.old }
    ensures { Wrote 0 (row_times (2 ^ 32) (length z.old) x.now y.now (length z.old)) 0 (length z.old) z.old z.new }
{
    let n = z.len();
    for k in 0..n {
        fold_row(x[k], &y[k * n..k * n + n], z);
    }
}

// The residues of z, which are below 2^32, to the front of out.
pub fn widen(z: &[u32], out: &mut [i64])
    requires { length z.now ≤ length out.old }
    ensures wrote { Wrote (pos 0) (λ (j : ℕ). pos (get_or z.now j 0)) 0 (length z.now) out.old out.new }
    ensures low { (j : ℕ) → j < length z.now → get_or z.now j 0 < 2 ^ 32 }
{
    for (j, z) in z.iter().enumerate() {
        out[j] = i64::from(*z);
    }
}

// A row: the residues of z gain x times those of y.
pub fn fold_row(x: u32, y: &[u32], z: &mut [u32])
    requires { length z.old ≤ length y.now }
    ensures { Wrote 0 (λ (j : ℕ). (get_or z.old j 0 + x * get_or y.now j 0) % 2 ^ 32) 0 (length z.old) z.old z.new }
{
    for (j, z) in z.iter_mut().enumerate() {
        *z = numbers::fold(*z, x, y[j]);
    }
}

// A row: the residues of t, times u.
pub fn scale_row(u: u32, t: &mut [u32])
    ensures { Wrote 0 (λ (j : ℕ). (0 + u * get_or t.old j 0) % 2 ^ 32) 0 (length t.old) t.old t.new }
{
    for t in t {
        *t = numbers::fold(0, u, *t);
    }
}
