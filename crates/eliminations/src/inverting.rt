// The inverse modulo 2^32, by one elimination with odd pivots. The rows of the table, each with that of the identity behind it, undergo the same operations,
// in residues, until the table is the identity.
ghost use Rattle.std.specs.Prelude.{◌≡◌, ◌+◌, ◌*◌, ◌/◌, ◌%◌, ◌^◌, ◌≤◌, ◌<◌, ℕ, pos, neg_ℤ, ◌-ℤ◌, ◌*ℤ◌, length, get_or, []};
ghost use Rattle.numbers.specs.Limits.{Lawful};
ghost use Rattle.numbers.specs.Numbers.{Cong, δ};
ghost use Rattle.tables.specs.Tables.{◌·⟨◌⟩◌, ◌ᵀ, CongM, entries, HasInverseMod};
ghost use Rattle.tables.specs.Buffer.{Has, Wrote};
ghost use Rattle.eliminations.specs.Elimination.{None, Some, One, Pivot};
ghost use Rattle.eliminations.specs.Inverting.{front, back, Inverted, Zeros, Begun, RowStep, Prepared, Settled};

use tables::residues::{fold_row, scale_row, take, widen};

// Block o becomes some inverse of the table a modulo 2^32, with entries within 2^32; every other block is as it was. (By its number: `Inverted` speaks of the others.)
pub fn inverse(n: usize, a: &[i64], buf: &mut [i64], o: usize)
    requires { (Lawful n a.now) × ((HasInverseMod n 2 (entries n a.now)) × (Has n buf.old o)) }
    ensures { Inverted n (2 ^ 32) (entries n a.now) o buf.old buf.new }
{
    let mut rows = [[0u32; 64]; 32];
    let t = &mut rows[..n];
    solve(a, t);
    let m = n * n;
    unload(t, &mut buf[o * m..o * m + m]);
}

// From zeros: an inverse of a modulo 2^32, behind the table in each row. The order is the number of rows.
fn solve(a: &[i64], t: &mut [[u32; 64]])
    requires lawful { (Lawful (length t.old) a.now) × (HasInverseMod (length t.old) 2 (entries (length t.old) a.now)) }
    requires zeros { Zeros t.old }
    ensures { CongM (length t.old) (pos (2 ^ 32)) (entries (length t.old) a.now ·⟨ length t.old ⟩ back (length t.old) t.new) δ }
{
    load(a, t);
    for r in 0..t.len() {
        settle(r, t);
    }
}

// Each row of a, and that of the identity behind it.
fn load(a: &[i64], t: &mut [[u32; 64]])
    requires lawful { Lawful (length t.old) a.now }
    requires zeros { Zeros t.old }
    ensures { Begun (2 ^ 32) (length t.old) (entries (length t.old) a.now) t.new }
{
    let n = t.len();
    for i in 0..n {
        take(&a[i * n..i * n + n], &mut t[i]);
        t[i][n + i] = 1;
    }
}

// What stands behind the table, which is below 2^32.
fn unload(t: &[[u32; 64]], out: &mut [i64])
    requires { (length t.now ≤ 32) × (length t.now * length t.now ≤ length out.old) }
    ensures low { (i j : ℕ) → i < length t.now → j < length t.now → get_or (get_or t.now i []) (length t.now + j) 0 < 2 ^ 32 }
    ensures wrote { Wrote (pos 0) (λ (q : ℕ). back (length t.now) t.now (q / length t.now) (q % length t.now)) 0 (length t.now * length t.now) out.old out.new }
{
    let n = t.len();
    for i in 0..n {
        widen(&t[i][n..n + n], &mut out[i * n..i * n + n]);
    }
}

// Column r of the table becomes that of the identity. (Parity has a settle too: see there. That r is a row, and an odd entry there is, are facts of this moment.)
fn settle(r: usize, t: &mut [[u32; 64]])
    requires inside { (r < length t.old) × (length t.old ≤ 32) }
    requires odd_below { ¬ None 2 (length t.old) r (front t.old ᵀ) }
    ensures { Settled (2 ^ 32) (length t.old) r t.old t.new }
{
    lead(r, t);
    scale(r, t);
    clear(r, t);
}

// Where the entry at row r and column r is even, row r gains the first row below it whose entry in that column is odd.
fn lead(r: usize, t: &mut [[u32; 64]])
    requires inside { (r < length t.old) × (length t.old ≤ 32) }
    requires odd_below { ¬ None 2 (length t.old) r (front t.old ᵀ) }
    ensures { Prepared (Some 2) (2 ^ 32) (length t.old) r t.old t.new }
{
    let s = pivot(r, t);
    if s != r {
        gain(r, s, t);
    }
}

// The first row from r on whose entry in column r is odd. There is one, so the search ends: a `for` would have to give something where there is none.
fn pivot(r: usize, t: &[[u32; 64]]) -> usize
    requires inside { (r < length t.now) × (length t.now ≤ 32) }
    requires odd_below { ¬ None 2 (length t.now) r (front t.now ᵀ) }
    ensures { (result < length t.now) × Pivot 2 (length t.now) r (front t.now ᵀ) result }
{
    let mut s = r;
    while t[s][r] % 2 == 0 {
        s += 1;
    }
    s
}

// Row d gains row s.
fn gain(d: usize, s: usize, t: &mut [[u32; 64]])
    requires { (length t.old ≤ 32) × ((d < length t.old) × (s < length t.old)) }
    ensures { RowStep (2 ^ 32) (length t.old) d s (pos 1) (pos 1) t.old t.new }
{
    let row = t[s];
    let w = 2 * t.len();
    fold_front(w, 1, &row, &mut t[d]);
}

// Row r, whose entry in column r is odd, is multiplied so that this entry is 1.
fn scale(r: usize, t: &mut [[u32; 64]])
    requires inside { (r < length t.old) × (length t.old ≤ 32) }
    requires odd { Some 2 (front t.old r r) }
    ensures { Prepared (One (2 ^ 32)) (2 ^ 32) (length t.old) r t.old t.new }
{
    let u = unit(t[r][r]);
    let w = 2 * t.len();
    scale_front(w, u, &mut t[r]);
}

// Row r, whose entry in column r is 1, clears that column in every other row.
fn clear(r: usize, t: &mut [[u32; 64]])
    requires inside { (r < length t.old) × (length t.old ≤ 32) }
    requires one { One (2 ^ 32) (front t.old r r) }
    ensures { Settled (2 ^ 32) (length t.old) r t.old t.new }
{
    let row = t[r];
    let w = 2 * t.len();
    for d in 0..t.len() {
        if d != r {
            let f = negative(t[d][r]);
            fold_front(w, f, &row, &mut t[d]);
        }
    }
}

// The first w residues of z gain x times those of y. (A function of its own: of `&mut t[d][..w]` the proof would not know what became of row d.)
fn fold_front(w: usize, x: u32, y: &[u32], z: &mut [u32])
    requires { (w ≤ length y.now) × (w ≤ length z.old) }
    ensures { Wrote 0 (λ (j : ℕ). (get_or z.old j 0 + x * get_or y.now j 0) % 2 ^ 32) 0 w z.old z.new }
{
    fold_row(x, y, &mut z[..w]);
}

// The first w residues of t, times u. (A function of its own for the same reason.)
fn scale_front(w: usize, u: u32, t: &mut [u32])
    requires { w ≤ length t.old }
    ensures { Wrote 0 (λ (j : ℕ). (0 + u * get_or t.old j 0) % 2 ^ 32) 0 w t.old t.new }
{
    scale_row(u, &mut t[..w]);
}

// An inverse of an odd number modulo 2^32: each step doubles the number of bits that are right.
fn unit(g: u32) -> u32
    requires { Some 2 (pos g) }
    ensures { One (2 ^ 32) (pos result *ℤ pos g) }
{
    let mut h = 1;
    for _ in 0..5u32 {
        h = better(g, h);
    }
    h
}

// h (2 - g h)
#[tactic(auto, using(crate::proofs::Reduction::Units::better_is))]
fn better(g: u32, h: u32) -> u32
    ensures { Cong (pos (2 ^ 32)) (pos result) (pos h *ℤ (pos 2 -ℤ pos g *ℤ pos h)) }
{
    h.wrapping_mul(2u32.wrapping_sub(g.wrapping_mul(h)))
}

// -v
#[tactic(auto, using(crate::proofs::Reduction::Units::negative_is))]
fn negative(v: u32) -> u32
    ensures { Cong (pos (2 ^ 32)) (pos result) (neg_ℤ (pos v)) }
{
    v.wrapping_neg()
}
