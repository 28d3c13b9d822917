// One number of a sheet, byte by byte.
ghost use Rattle.std.specs.Prelude.{◌≡◌, cond, ◌≤◌, pos, neg_ℤ};
ghost use Rattle.sheets.specs.Digits.{grown, after_byte, after_nothing, first_digit, after_digits, Allowed};

// What a number may be: with sign and zero or without both, its greatest magnitude, and the byte that closes it.
#[derive(Clone, Copy)]
pub(crate) struct Form {
    pub(crate) signed: bool,
    pub(crate) limit: u64,
    pub(crate) closing: u8,
}

// What has been seen of a number: nothing, a minus sign, or digits, after such a sign or without.
#[derive(Clone, Copy)]
pub(crate) enum Seen {
    Nothing,
    Minus,
    Digits { negative: bool, magnitude: u64 },
}

// What one more byte makes of it: more of a number, or a whole one. Neither is an error, so these are names of their own; where the byte makes no number,
// there is none of these.
#[derive(Clone, Copy)]
pub(crate) enum Next {
    Go(Seen),
    Value(i64),
}

impl Seen {
    // What the byte b makes of what has been seen.
    pub(crate) fn after(self, b: u8, form: Form) -> Option<Next>
        requires { (Allowed form self) × (form.limit ≤ 1048576) }
        ensures { result ≡ after_byte form self b }
    {
        match self {
            Seen::Nothing => after_nothing(form.signed, b == b'-', grow(0, b, form.limit)),
            Seen::Minus => first_digit(false, true, grow(0, b, form.limit)),
            Seen::Digits {
                negative,
                magnitude,
            } => after_digits(
                negative,
                magnitude,
                b == form.closing,
                grow(magnitude, b, form.limit),
            ),
        }
    }
}

// A number's first byte: a minus sign, where a number has a sign, or a digit, zero only there.
fn after_nothing(signed: bool, minus: bool, digit: Option<u64>) -> Option<Next>
    ensures { result ≡ after_nothing signed minus digit }
{
    if minus {
        return signed.then_some(Next::Go(Seen::Minus));
    }
    first_digit(signed, false, digit)
}

// The first digit, if the byte is one; 0 only where it may stand alone.
fn first_digit(alone: bool, negative: bool, digit: Option<u64>) -> Option<Next>
    ensures { result ≡ first_digit alone negative digit }
{
    let magnitude = digit?;
    (alone || magnitude != 0).then_some(Next::Go(Seen::Digits {
        negative,
        magnitude,
    }))
}

// The byte after the digits of m: the closing one or a digit more, but none after a 0.
fn after_digits(negative: bool, m: u64, closed: bool, longer: Option<u64>) -> Option<Next>
    requires { m ≤ 1048576 }
    ensures { result ≡ after_digits negative m closed longer }
{
    if closed {
        return Some(Next::Value(signed(m, negative)));
    }
    if m == 0 {
        return None;
    }
    let magnitude = longer?;
    Some(Next::Go(Seen::Digits {
        negative,
        magnitude,
    }))
}

// The magnitude m with one digit more, if b is a digit and the limit is kept.
fn grow(m: u64, b: u8, limit: u64) -> Option<u64>
    ensures { result ≡ grown limit m b }
{
    let digit = char::from(b).to_digit(10)?;
    let v = m.checked_mul(10)?.checked_add(u64::from(digit))?;
    (v <= limit).then_some(v)
}

// The magnitude m with its sign. The cast is proved: `i64` has no `From` of a `u64`.
fn signed(m: u64, negative: bool) -> i64
    requires { m ≤ 1048576 }
    ensures { result ≡ cond negative (neg_ℤ (pos m)) (pos m) }
{
    let v = m as i64;
    if negative { -v } else { v }
}
