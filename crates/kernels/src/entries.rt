// The loops of the kernels, over the entries of the first columns of a block, row by row: each is filled, or tested.
ghost use Rattle.std.specs.Prelude.{◌≡◌, ◌^◌};
ghost use Rattle.numbers.specs.Says.{Says};
ghost use Rattle.kernels.specs.Kernels.{shrunk, ShrinkAt};
ghost use Rattle.kernels.specs.Entries.{ToFill, Gave, Filled, ToTest, Passed, Failed};

use super::blocks;

// The first w columns of block o become what f gives for each entry, of the buffer as it stands then. (Written by place: f reads other blocks of the same buffer
// between two writes, so none of it can be lent as a slice.)
pub(super) fn fill<F: Fn(&[i64], usize, usize) -> i64>(
    n: usize,
    w: usize,
    buf: &mut [i64],
    o: usize,
    f: F,
)
    requires { ToFill F.Fn f n w o buf.old }
    ensures { Filled n w (Gave F.Fn f n o buf.old) o buf.old buf.new }
{
    let oa = o * (n * n);
    for i in 0..n {
        for j in 0..w {
            let v = f(buf, i, j);
            buf[oa + i * n + j] = v;
        }
    }
}

// Whether each entry of the first w columns of block o passes the test f. (Two for, as in fill: less than n columns are no slice to call `all` on.)
pub(super) fn all<F: Fn(i64) -> bool>(n: usize, w: usize, buf: &[i64], o: usize, f: F) -> bool
    requires { ToTest n w o buf.now × F.IsAlwaysCallable f }
    ensures { Says (Passed F.Fn f n w o buf.now) (Failed F.Fn f n w o buf.now) result }
{
    let oa = o * (n * n);
    for i in 0..n {
        for j in 0..w {
            if !f(blocks::cell(n, buf, oa, i, j)) {
                return false;
            }
        }
    }
    true
}

// Entry (i, j) of block s less a times block m, divided by 2^e and rounded down. (Blocks by number, as everywhere here: docs/DECISIONS.md, 22.)
pub(super) fn shrunk(
    n: usize,
    e: u32,
    a: &[i64],
    buf: &[i64],
    m: usize,
    s: usize,
    i: usize,
    j: usize,
) -> i64
    requires { ShrinkAt n (2 ^ e) a.now buf.now m s i j }
    ensures { result ≡ shrunk n (2 ^ e) a.now buf.now m s i j }
{
    let size = n * n;
    (blocks::cell(n, buf, s * size, i, j) - blocks::dot(n, a, 0, buf, m * size, i, j)) >> e
}
