// Reads a sheet on standard input and prints its report.
#![tactic(auto)]

ghost use Rattle.certify.specs.Program.{Asked, Prints};

// So many bytes of a text decide.
const TEXT_MOST: usize = 9220;

fn main(rt: HostRuntime) {
    let mut text = [0u8; TEXT_MOST];
    let mut out = [0u8; reports::ROOM];
    let read = inputs::read_full(&mut rt.stdin(), &mut text);
    let count = answer(&text, read, &mut out);
    let _ = rt.write_all(&out[..count]);
}

// Puts the report of an input into out, of which so many bytes are read into the text; gives the count of the report's bytes.
fn answer(text: &[u8; TEXT_MOST], read: usize, out: &mut [u8; reports::ROOM]) -> usize
    requires { Asked text.now read out.old }
    ensures { Prints text.now read out.new result }
{
    reports::report(&text[..read], out)
}
