// Calls of the library, each beside what a case says of it. A case is
//     LETTER n TABLE LENT s e j [numbers]: NUMBER need k numbers |words
// with the letter of the call (v verdict, i inverse, r a row of it, l lift, b a block of it); the order, how many numbers the table and the lent buffer
// have, and what a row, lift and a block ask besides (a row stands at s); the table; the figures that must be given, and what must then be seen of the
// lent buffer. What is unsaid of that is as it was before.
use super::reading::{ALL, LIFTS, NEED, NUMBER, REST, TABLE, UNSAID, at, numbers};

// A call that is done and has no figures beside its number.
const DONE: verdict::Outcome = verdict::Outcome {
    number: 0,
    exponent: 0,
    lifts: 0,
};

// What a case calls, and whether all of the lent buffer is seen after it or a view.
#[derive(Clone, Copy)]
pub(crate) enum Call {
    Verdict,
    Inverse,
    Row,
    Lift,
    Block,
}

// Any other letter is a verdict's.
impl From<u8> for Call {
    fn from(letter: u8) -> Call {
        match letter {
            b'i' => Call::Inverse,
            b'r' => Call::Row,
            b'l' => Call::Lift,
            b'b' => Call::Block,
            _ => Call::Verdict,
        }
    }
}

pub(crate) fn are(call: Call, text: &[u8]) -> bool {
    let case = Case(numbers(text));
    let mut out = [UNSAID; ALL];
    let size = case.argument(3).min(ALL);
    let lent = &mut out[..size];
    let o = call.outcome(&case, lent);
    case.says(o) && case.shows(call.seen(&case, lent))
}

impl Call {
    // The three figures: number, need and k; lift has its number alone.
    fn outcome(self, case: &Case, lent: &mut [i64]) -> verdict::Outcome {
        let n = case.argument(1);
        let table = case.table(case.argument(2));
        match self {
            Call::Inverse | Call::Row => verdict::inverse(n, table, lent),
            Call::Lift | Call::Block => {
                let (lifts, exponent) = (case.argument(4), small(case.argument(5)));
                match lifting::lift(n, lifts, exponent, table, lent) {
                    Ok(()) => DONE,
                    Err(refusal) => verdict::Outcome::from(refusal),
                }
            }
            Call::Verdict => verdict::outcome_of(verdict::verdict(n, table)),
        }
    }

    // The lent buffer, or a row of the inverse, or a block of the expansion.
    fn seen<'a>(self, case: &Case, left: &'a [i64]) -> &'a [i64] {
        match self {
            Call::Row => tables::row(case.argument(1), left, case.argument(4)),
            Call::Block => lifting::block(
                case.argument(1),
                case.argument(4),
                left,
                case.argument(6),
            ),
            Call::Verdict | Call::Inverse | Call::Lift => left,
        }
    }
}

// The numbers of a case, each at its place (reading.rt).
#[derive(Drop)]
struct Case([i64; ALL]);

impl Case {
    // Argument i, by its size. (A cast: std has no From of a u64 for usize, and no case has one that long.)
    fn argument(&self, i: usize) -> usize {
        at(&self.0, i).unsigned_abs() as usize
    }

    // The table, of so many numbers; of more than there are, the whole case.
    fn table(&self, count: usize) -> &[i64] {
        self.0[TABLE..].get(..count).unwrap_or(&self.0)
    }

    // Whether these three figures are given.
    fn says(&self, o: verdict::Outcome) -> bool {
        self.gives(NUMBER, o.number) && self.gives(NEED, o.exponent) && self.gives(LIFTS, o.lifts)
    }

    fn gives(&self, i: usize, v: u32) -> bool {
        at(&self.0, i) == i64::from(v)
    }

    // Whether what is given after the three figures is a list, and no more.
    fn shows(&self, left: &[i64]) -> bool {
        let given = &self.0[REST..];
        left.iter().enumerate().all(|(k, v)| *v == at(given, k)) && at(given, left.len()) == UNSAID
    }
}

fn small(v: usize) -> u32 {
    u32::try_from(v).unwrap_or(u32::MAX)
}
