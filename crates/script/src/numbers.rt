// Decimal numbers as they are read, at the desk and in the word of a command. Assumes nothing but what a `requires` says.
ghost use Rattle.std.specs.Prelude.{◌≡◌, ◌≤◌};
ghost use Rattle.script.specs.Grammar.{highest_number, leading_zero, number};
ghost use Rattle.script.specs.Promises.{number_of, next_digit};

const HIGHEST_NUMBER: u32 = 65535;

// The number v with one more digit behind it.
fn next_digit(v: u32, x: u8) -> Option<u32>
    requires { v ≤ highest_number }
    ensures { result ≡ number_of (next_digit v x) }
{
    if !x.is_ascii_digit() {
        return None;
    }
    let n = v * 10 + u32::from(x - b'0');
    (n <= HIGHEST_NUMBER).then_some(n)
}

fn leading_zero(w: &[u8]) -> bool
    ensures { result ≡ leading_zero w.now }
{
    matches!(w, [b'0', _, ..])
}

pub fn read_number(w: &[u8]) -> Option<u32>
    ensures { result ≡ number_of (number w.now) }
{
    if w.is_empty() || leading_zero(w) {
        return None;
    }
    let mut v = 0;
    for x in w {
        v = next_digit(v, *x)?;
    }
    Some(v)
}
