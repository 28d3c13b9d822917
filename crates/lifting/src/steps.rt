// The steps of lifting, over a buffer of tables.
ghost use Rattle.std.specs.Prelude.{◌^◌};
ghost use Rattle.std.proofs.Props.{props};
ghost use Rattle.tables.specs.Tables.{entries};
ghost use Rattle.lifting.specs.Steps.{Setting, legal_prop, ToStart, ToBase, Started, ToStep, Stepped, ToDigit, Digited, ToColumnDigit, ColumnDigited};

// A lawful table of order n, and an exponent whose power of 2, the modulus of all steps, suits it.
#[derive(Clone, Copy)]
pub struct Lifter<'a> {
    pub n: usize,
    pub exponent: u32,
    pub table: &'a [i64],
    pub ghost setting: { Setting n (2 ^ exponent) table.now } by { Prim.hlevel (props, legal_prop) },
}

// (Blocks are named by their numbers, for a step reads one and writes others of one buffer: docs/DECISIONS.md, 22.)
impl Lifter<'_> {
    // Writes B_0 into block 0 and R_0 into block 1, for a table that has an inverse modulo 2.
    pub fn start(self, buf: &mut [i64])
        requires { ToStart self.n 2 self.table.now buf.old }
        ensures { let l = self.entry in Started l.n (2 ^ l.exponent) (entries l.n l.table.now) buf.old buf.new }
    {
        eliminations::inverting::inverse(self.n, self.table, buf, 0);
        self.base(buf);
    }

    // From an inverse modulo 2^exponent in block 0: the balanced one, B_0, and its residue R_0 in block 1.
    pub fn base(self, buf: &mut [i64])
        requires { ToBase self.n (2 ^ self.exponent) self.table.now buf.old }
        ensures { let l = self.entry in Started l.n (2 ^ l.exponent) (entries l.n l.table.now) buf.old buf.new }
    {
        kernels::blocks::identity(self.n, buf, 1);
        kernels::blocks::balance(self.n, self.exponent, buf, 0);
        kernels::blocks::shrink(self.n, self.exponent, self.table, buf, 0, 1);
    }

    // From B_0 in block 0 and R_i in block r: M_i in block m and R_{i+1} in block s.
    pub fn step(self, buf: &mut [i64], r: usize, m: usize, s: usize)
        requires { ToStep self.n (2 ^ self.exponent) self.table.now buf.old r m s }
        ensures { let l = self.entry in Stepped l.n (2 ^ l.exponent) (entries l.n l.table.now) buf.old buf.new r m s }
    {
        kernels::blocks::product(self.n, buf, r, r, s);
        self.digit(buf, s, m);
    }

    // From B_0 in block 0 and a residue in block r: its digit in block d and the next residue in block r.
    pub fn digit(self, buf: &mut [i64], r: usize, d: usize)
        requires { ToDigit self.n (2 ^ self.exponent) self.table.now buf.old r d }
        ensures { let l = self.entry in Digited l.n (2 ^ l.exponent) (entries l.n l.table.now) buf.old buf.new r d }
    {
        kernels::blocks::remain(self.n, self.exponent, buf, 0, r, d);
        kernels::blocks::shrink(self.n, self.exponent, self.table, buf, d, r);
    }

    // The same for the first column of that residue alone; nothing is said of the other columns of blocks d and r.
    pub fn column_digit(self, buf: &mut [i64], r: usize, d: usize)
        requires { ToColumnDigit self.n (2 ^ self.exponent) self.table.now buf.old r d }
        ensures { let l = self.entry in ColumnDigited l.n (2 ^ l.exponent) l.table.now buf.old buf.new r d }
    {
        kernels::columns::remain(self.n, self.exponent, buf, 0, r, d);
        kernels::columns::shrink(self.n, self.exponent, self.table, buf, d, r);
    }
}
