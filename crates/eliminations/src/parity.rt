// Whether a table has an inverse modulo 2: an elimination on words, each a column of the table.
ghost use Rattle.std.specs.Prelude.{◌≡◌, ◌*◌, ◌/◌, ◌%◌, ◌^◌, ◌<◌, ◌≤◌, pos, length, MatchOption};
ghost use Rattle.numbers.specs.Numbers.{Cong};
ghost use Rattle.numbers.specs.Limits.{IsOrder};
ghost use Rattle.numbers.specs.Says.{Says, Tells};
ghost use Rattle.tables.specs.Tables.{CongM, entries, HasInverseMod};
ghost use Rattle.eliminations.specs.Elimination.{None, Pivot};
ghost use Rattle.eliminations.specs.Parity.{bits, Settles, Loaded};

// Whether a has an inverse modulo 2.
pub fn has_inverse(n: usize, a: &[i64]) -> bool
    requires { (IsOrder n) × (length a.now ≡ n * n) }
    ensures { Tells (HasInverseMod n 2 (entries n a.now)) result }
{
    let mut words = [0u32; 32];
    let p = &mut words[..n];
    load(a, p);
    for r in 0..n {
        if !settle(r, p) {
            return false;
        }
    }
    true
}

// Row r of p becomes that of the identity; false where no word from r on has bit r. (Inverting has a settle too: one trait for both would have five methods with
// laws for two instances.)
fn settle(r: usize, p: &mut [u32]) -> bool
    requires { (r < length p.old) × (length p.old ≤ 32) }
    ensures { Says (Settles (length p.old) r (bits p.old) (bits p.new)) (None 2 (length p.old) r (bits p.old)) result }
{
    let Some(s) = pivot(r, p) else {
        return false;
    };
    if s != r {
        p[r] ^= p[s];
    }
    clear(r, p);
    true
}

// The first word from r on that has bit r. (Not `find`: of a closure that holds p and r its promise says too little.)
fn pivot(r: usize, p: &[u32]) -> Option<usize>
    requires { (r < length p.now) × (length p.now ≤ 32) }
    ensures { MatchOption result (None 2 (length p.now) r (bits p.now)) (λ s. (s < length p.now) × Pivot 2 (length p.now) r (bits p.now) s) }
{
    for s in r..p.len() {
        if has_bit(p[s], r) {
            return Some(s);
        }
    }
    None
}

// Word r, which has bit r, joins every other word that has bit r.
fn clear(r: usize, p: &mut [u32])
    requires inside { (r < length p.old) × (length p.old ≤ 32) }
    requires one { Cong (pos 2) (bits p.old r r) (pos 1) }
    ensures { Settles (length p.old) r (bits p.old) (bits p.new) }
{
    for m in 0..p.len() {
        if m != r && has_bit(p[m], r) {
            p[m] ^= p[r];
        }
    }
}

// The parities of a in p.
fn load(a: &[i64], p: &mut [u32])
    requires { (length p.old ≤ 32) × (length a.now ≡ length p.old * length p.old) }
    ensures { CongM (length p.old) (pos 2) (bits p.new) (entries (length p.old) a.now) }
{
    let n = p.len();
    for (j, w) in p.iter_mut().enumerate() {
        *w = column(n, a, j);
    }
}

// The parities of column j, as a word.
fn column(n: usize, a: &[i64], j: usize) -> u32
    requires { (n ≤ 32) × ((j < n) × (length a.now ≡ n * n)) }
    ensures { Loaded n (entries n a.now) j result }
{
    let mut w = 0;
    for i in 0..n {
        if odd(a[i * n + j]) {
            w ^= 1 << i;
        }
    }
    w
}

// Whether an entry is odd.
#[tactic(auto, using(crate::proofs::Reduction::Bits::odd_test))]
fn odd(x: i64) -> bool
    ensures { Says (Cong (pos 2) x (pos 1)) (Cong (pos 2) x (pos 0)) result }
{
    x % 2 != 0
}

// Whether a word has bit i.
fn has_bit(w: u32, i: usize) -> bool
    requires { i < 32 }
    ensures { Says (w / 2 ^ i % 2 ≡ 1) (w / 2 ^ i % 2 ≡ 0) result }
{
    (w >> i) % 2 != 0
}
