// Why a call refuses what it is given.
ghost use Rattle.std.specs.Prelude.{◌≡◌};
ghost use Rattle.numbers.specs.Reasons.{refusal_number};
ghost use Rattle.numbers.specs.Orders.{Sized};

// The reasons, with their numbers: the order, the number of lifts, the length of a buffer, an entry, the exponent, and no inverse modulo 2.
#[derive(Clone, Copy, Debug, PartialEq, Eq)]
pub enum Refusal {
    Order = 1,
    Lifts = 2,
    Length = 3,
    Entry = 4,
    Exponent = 5,
    NoInverseModulo2 = 6,
}

impl Refusal {
    // The reason's number, which is that of its case. (No From: `Refusal::Order.number()` says it as plainly.)
    pub fn number(self) -> u32
        ensures { result ≡ refusal_number self }
    {
        self as u32
    }
}

// How many numbers a table of order n has; or the refusal, where n is no order.
pub fn cells(n: usize) -> Result<usize, Refusal>
    ensures { Sized n result }
{
    if !(1..=super::MOST_ORDER).contains(&n) {
        return Err(Refusal::Order);
    }
    Ok(n * n)
}
