// The product of a block and a table of residues modulo 2^32, row by row; that of blocks is exact, in whole numbers. Blocks by number: docs/
// DECISIONS.md, 22.
ghost use Rattle.std.specs.Prelude.{◌^◌, ◌<◌};
ghost use Rattle.tables.specs.Tables.{block};
ghost use Rattle.tables.specs.Buffer.{BlockPut, RowPut};
ghost use Rattle.kernels.specs.Kernels.{residue_product, Products};

// Block o becomes the product of block p and the table of residues y, in residues. (By rows, not by entries as `fill` does: a row of 32-bit residues is worked on
// several entries at a time.)
pub fn product(n: usize, y: &[u32], buf: &mut [i64], p: usize, o: usize)
    requires { Products n y.now buf.old p o }
    ensures { BlockPut n (residue_product (2 ^ 32) n (block n buf.old p) y.now) o buf.old buf.new }
{
    for i in 0..n {
        product_row(n, y, buf, p, o, i);
    }
}

// Row i of it.
fn product_row(n: usize, y: &[u32], buf: &mut [i64], p: usize, o: usize, i: usize)
    requires { Products n y.now buf.old p o × (i < n) }
    ensures { RowPut n (residue_product (2 ^ 32) n (block n buf.old p) y.now) o i buf.old buf.new }
{
    let m = n * n;
    let from = p * m + i * n;
    let mut x = [0u32; 32];
    tables::residues::take(&buf[from..from + n], &mut x);
    let mut z = [0u32; 32];
    tables::residues::fold_rows(&x, y, &mut z[..n]);
    let to = o * m + i * n;
    tables::residues::widen(&z[..n], &mut buf[to..to + n]);
}
