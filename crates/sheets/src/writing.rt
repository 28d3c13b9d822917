// Figures written into a buffer, from a place on; what finds no room there is left out. Each function gives the place after what it wrote: the contracts name
// buffer and place by one word, `Put`, and a struct that held them would stand behind a second borrow.
ghost use Rattle.std.specs.Prelude.{◌≡◌, cond, [], ◌∷◌, ◌+◌, ◌<◌, eqb};
ghost use Rattle.sheets.specs.Sheet.{decimal, figure, line, rows};
ghost use Rattle.sheets.specs.Writing.{Put};

// The figures in one line.
pub fn put_line(out: &mut [u8], at: usize, figures: &[i64]) -> usize
    ensures { Put out.old at (line figures.now) result out.new }
{
    let mut next = at;
    for (i, z) in figures.iter().enumerate() {
        next = put_figure(out, next, *z);
        next = put_byte(out, next, after_figure(figures.len() - (i + 1)));
    }
    next
}

// The figures in n lines of n.
pub fn put_rows(out: &mut [u8], at: usize, n: usize, figures: &[i64]) -> usize
    ensures { Put out.old at (rows n n figures.now) result out.new }
{
    let mut next = at;
    // chunks of no figures cannot be asked for, and of no lines none is taken
    for row in figures.chunks(n.max(1)).take(n) {
        next = put_line(out, next, row);
    }
    next
}

// The byte after a figure that so many follow in its line.
fn after_figure(left: usize) -> u8
    ensures { result ≡ cond (eqb left 0) 10 32 }
{
    if left == 0 { b'\n' } else { b' ' }
}

// The figure z.
fn put_figure(out: &mut [u8], at: usize, z: i64) -> usize
    ensures { Put out.old at (figure z) result out.new }
{
    let next = put_sign(out, at, z < 0);
    put_digits(out, next, z.unsigned_abs())
}

// The minus sign of a negative figure.
fn put_sign(out: &mut [u8], at: usize, negative: bool) -> usize
    ensures { Put out.old at (cond negative (45 ∷ []) []) result out.new }
{
    if negative {
        return put_byte(out, at, b'-');
    }
    at
}

// The digits of m. The last digit comes first, so a loop would want a buffer of its own; and `write!` answers Err where there is too little room, of which its
// contract says nothing.
fn put_digits(out: &mut [u8], at: usize, m: u64) -> usize
    ensures { Put out.old at (decimal m) result out.new }
{
    if m < 10 {
        return put_byte(out, at, digit(m));
    }
    let next = put_digits(out, at, m / 10);
    put_byte(out, next, digit(m % 10))
}

// The digit d. The cast is proved: `u8` has no `From` of a `u64`.
fn digit(d: u64) -> u8
    requires { d < 10 }
    ensures { result ≡ 48 + d }
{
    b'0' + d as u8
}

// The byte b.
fn put_byte(out: &mut [u8], at: usize, b: u8) -> usize
    ensures { Put out.old at (b ∷ []) result out.new }
{
    if at < out.len() {
        out[at] = b;
        return at + 1;
    }
    at
}
