// Text and hex pairs, written at the start of an area. Assumes nothing but what a `requires` says.
ghost use Rattle.std.specs.Prelude.{◌≡◌, ◌++◌, ◌+◌, ◌≤◌, ◌<◌, length};
ghost use Rattle.answers.specs.Answer.{hex_of, hex_pairs};
ghost use Rattle.answers.specs.Written.{laid, Written};

/// Writes src at the start of out and gives the length written. Where out is too short it writes nothing and gives 0, which `Written` promises
/// as a number: only of no bytes it is the length too, and then nothing is to be written.
pub fn put(out: &mut [u8], src: &[u8]) -> usize
    ensures { Written src.now out.old out.new result }
{
    if out.len() < src.len() {
        return 0;
    }
    out[..src.len()].copy_from_slice(src);
    src.len()
}

fn hex_of(d: u8) -> u8
    requires { d < 16 }
    ensures { result ≡ hex_of d }
{
    if d < 10 { b'0' + d } else { b'a' + (d - 10) }
}

// The digits are reckoned, several at once: `encode_to_slice` of the crate hex looks up each by itself, and took three times as many instructions.
fn put_pairs(out: &mut [u8], message: &[u8])
    requires { length message.now + length message.now ≤ length out.old }
    ensures { out.new ≡ laid (hex_pairs message.now) out.old }
{
    for i in 0..message.len() {
        out[2 * i] = hex_of(message[i] / 16);
        out[2 * i + 1] = hex_of(message[i] % 16);
    }
}

pub(crate) fn put_with_pairs(out: &mut [u8], head: &[u8], message: &[u8]) -> usize
    ensures { Written (head.now ++ hex_pairs message.now) out.old out.new result }
{
    let n = head.len();
    if out.len() < n {
        return 0;
    }
    if (out.len() - n) / 2 < message.len() {
        return 0;
    }
    put(out, head);
    put_pairs(&mut out[n..], message);
    n + 2 * message.len()
}
