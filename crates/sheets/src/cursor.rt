// The cursor: a place in a text, and the numbers read from it.
ghost use Rattle.std.specs.Prelude.{◌≡◌, [], ◌≤◌, ◌<◌, ◌*◌, length, drop};
ghost use Rattle.sheets.specs.Model.{refusal, moved, scan, Sane, Arrived, Body, Entered, closing, entry_form};

use super::number::{Form, Next, Seen};
use super::{Place, Reason};

// A place in a text, which goes by value beside it, as document 01 asks.
#[derive(Clone, Copy)]
pub(crate) struct Cursor {
    pub(crate) line: usize,
    pub(crate) column: usize,
    pub(crate) offset: usize,
}

impl Cursor {
    // Reads the entries of a sheet of order n, row by row, into its cells: gives where they end, or where the text is no sheet.
    pub(crate) fn entries(self, text: &[u8], n: usize, cells: &mut [i64]) -> Result<Cursor, Place>
        requires { (Arrived text.now self (Body n [] Seen.Nothing)) × (length cells.old ≡ n * n) }
        ensures { Entered text.now n result cells.new }
    {
        let mut c = self;
        for (i, cell) in cells.iter_mut().enumerate() {
            let (value, next) = c.number(text, entry_form(n, i))?;
            *cell = value;
            c = next;
        }
        Ok(c)
    }

    // Reads one number and hands on where the next begins.
    pub(crate) fn number(self, text: &[u8], form: Form) -> Result<(i64, Cursor), Place>
        requires { (Sane self) × (self.offset ≤ length text.now) × (form.limit ≤ 1048576) }
        ensures { result ≡ scan form Seen.Nothing self (drop self.offset text.now) }
    {
        let mut c = self;
        let mut seen = Seen::Nothing;
        for b in &text[self.offset..] {
            let next = c.past(*b);
            let Some(step) = seen.after(*b, form) else {
                return Err(c.place(Reason::Byte));
            };
            match step {
                Next::Go(s) => {
                    seen = s;
                    c = next;
                }
                Next::Value(v) => return Ok((v, next)),
            }
        }
        Err(c.place(Reason::End))
    }

    // The place after the byte b: behind a line feed a new line begins.
    pub(crate) fn past(self, b: u8) -> Cursor
        requires { (Sane self) × (self.offset < 9223372036854775808) }
        ensures { result ≡ moved self b }
    {
        if b == b'\n' {
            Cursor {
                line: self.line + 1,
                column: 1,
                offset: self.offset + 1,
            }
        } else {
            Cursor {
                line: self.line,
                column: self.column + 1,
                offset: self.offset + 1,
            }
        }
    }

    // This place, with the reason why the text is no sheet from here on.
    pub(crate) fn place(self, reason: Reason) -> Place
        ensures { result ≡ refusal self reason }
    {
        Place {
            line: self.line,
            column: self.column,
            reason,
        }
    }
}

// The form of entry i (from 0) of a sheet of order n.
fn entry_form(n: usize, i: usize) -> Form
    requires { (1 ≤ n) × (i < 1024) }
    ensures { result ≡ entry_form n i }
{
    Form {
        signed: true,
        limit: numbers::MOST_ENTRY,
        closing: closing_byte(n, i),
    }
}

// The byte after entry i (from 0): a line feed after the last of its line, else a space.
fn closing_byte(n: usize, i: usize) -> u8
    requires { (1 ≤ n) × (i < 9223372036854775808) }
    ensures { result ≡ closing n i }
{
    if (i + 1) % n == 0 { b'\n' } else { b' ' }
}
