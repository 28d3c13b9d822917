// The numbers of a case, in a list: its letter's arguments, then the table, then what must be given.

// What a case leaves unsaid, and what stands in a lent buffer before the call.
pub(crate) const UNSAID: i64 = 13;

// So many places a list has, and where the table begins, what must be given, its three figures, and the rest.
pub(crate) const ALL: usize = 2304;

pub(crate) const TABLE: usize = 8;

pub(crate) const GIVEN: usize = 1100;

pub(crate) const NUMBER: usize = 1101;

pub(crate) const NEED: usize = 1102;

pub(crate) const LIFTS: usize = 1103;

pub(crate) const REST: usize = 1104;

// A list as far as it is read, the place that is written now, if there is one, and its number so far.
#[derive(Drop)]
struct Reading {
    list: [i64; ALL],
    at: Option<usize>,
    minus: bool,
    size: u64,
}

pub(crate) fn numbers(text: &[u8]) -> [i64; ALL] {
    let mut r = Reading {
        list: [UNSAID; ALL],
        at: Some(0),
        minus: false,
        size: 0,
    };
    for b in text {
        r.read(*b);
    }
    r.list
}

impl Reading {
    fn read(&mut self, b: u8) {
        match char::from(b).to_digit(10) {
            Some(digit) => self.digit(digit),
            None => {
                self.at = turn(b, self.at);
                self.minus = b == b'-';
                self.size = 0;
            }
        }
    }

    // By hand, and not by `parse`: the number is written at each of its digits, and one of 18 grows no more.
    fn digit(&mut self, digit: u32) {
        self.size = grow(self.size, digit);
        let number = value(self.minus, self.size);
        if let Some(at) = self.at {
            if at < ALL {
                self.list[at] = number;
            }
        }
    }
}

// The place of the next number: one on after a space; after a bar, or past the list, there is none.
fn turn(b: u8, at: Option<usize>) -> Option<usize> {
    let at = at?;
    match b {
        b' ' => at.checked_add(1).filter(|next| *next < ALL),
        b'[' => Some(TABLE),
        b':' => Some(GIVEN),
        b'|' => None,
        _ => Some(at),
    }
}

// The size with one digit more; one of 18 digits grows no more.
fn grow(size: u64, digit: u32) -> u64 {
    if size < 100000000000000000 {
        size * 10 + u64::from(digit)
    } else {
        size
    }
}

fn value(minus: bool, size: u64) -> i64 {
    let v = i64::try_from(size).unwrap_or(0);
    if minus { -v } else { v }
}

// Number i of a list.
pub(crate) fn at(list: &[i64], i: usize) -> i64 {
    list.get(i).copied().unwrap_or(UNSAID)
}
