// A program's input, as far as a buffer has room for it.
#![tactic(auto)]

ghost use Rattle.std.specs.Prelude.{take};
ghost use Rattle.std.specs.Io.KnownBytes.{Consumes};
ghost use Rattle.inputs.specs.Inputs.{IsPrefixLen};

use std::io::Read;

// Reads until the text is full, the input ends or a read fails; gives the count of the bytes read.
pub fn read_full<R: Read>(input: &mut R, text: &mut [u8]) -> usize
    ensures within { IsPrefixLen result text.new }
    ensures bytes { Consumes (R.remaining input.old) (R.remaining input.new) (take result text.new) }
{
    let mut read = 0;

    // Not by `read_exact`, which says little of what was read before a failure, nor by `read_to_end`, which has no bound and wants a heap.
    while read < text.len() {
        match input.read(&mut text[read..]) {
            Ok(0) | Err(_) => break,
            Ok(more) => read += more,
        }
    }
    read
}
