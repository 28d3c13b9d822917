// Runs the cases of its input, which '#' parts; prints those that the library answers otherwise, and how many it answers so. Its input has the cases of
// document 01, 'Tried by hand'.
#![tactic(auto)]

mod answers;
mod reading;

use answers::Call;

fn main(rt: HostRuntime) {
    let mut text = [0u8; 16384];
    let read = inputs::read_full(&mut rt.stdin(), &mut text);
    run(&rt, &text[..read]);
}

fn run(rt: &impl Print, text: &[u8]) {
    let mut right: u64 = 0;
    for line in text.split(|b| *b == b'#') {
        // an empty piece, as behind a last '#', is no case
        if !line.is_empty() && case(rt, line) {
            right = right.wrapping_add(1);
        }
    }
    total(rt, right);
}

// Whether a case comes out right; one that does not is printed. Its first letter names the call.
fn case(rt: &impl Print, line: &[u8]) -> bool {
    let letter = line.first().copied().unwrap_or(b'v');
    let right = answers::are(Call::from(letter), line);
    if !right {
        let _ = rt.write_all(line);
    }
    right
}

fn total(rt: &impl Print, right: u64) {
    let _ = println!(rt; "{right} right");
}
