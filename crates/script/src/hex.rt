// Bytes in lowercase hex pairs: how many a word spells, and which. Assumes nothing but what a `requires` says.
ghost use Rattle.std.specs.Prelude.{◌≡◌, ◌≤◌, ◌+◌, length};
ghost use Rattle.answers.specs.Written.{Written};
ghost use Rattle.script.specs.Grammar.{hex_digit, bytes, pairs, most_bytes};
ghost use Rattle.script.specs.Spelled.{spelled};
ghost use Rattle.script.specs.Promises.{number_of, pair_at, counted};

pub const MOST_BYTES: usize = 4200;

// `to_digit` of the library takes capitals too. Numbers tell the two kinds of digits apart and no branch does, since a processor cannot foretell which comes next.
fn hex_digit(x: u8) -> Option<u8>
    ensures { result ≡ number_of (hex_digit x) }
{
    let (zero, end) = if x < b'a' {
        (b'0', 10)
    } else {
        (b'a' - 10, 16)
    };
    let digit = x.wrapping_sub(zero);
    (digit < end).then_some(digit)
}

// The byte that the first two digits spell.
fn pair(digits: &[u8]) -> Option<u8>
    ensures { result ≡ number_of (pair_at digits.now) }
{
    let [h, l, ..] = digits else {
        return None;
    };
    let h = hex_digit(*h)?;
    let l = hex_digit(*l)?;
    Some(h * 16 + l)
}

// How many bytes pairs spell.
fn count_pairs(w: &[u8]) -> Option<u32>
    requires { length w.now ≤ most_bytes + most_bytes }
    ensures { result ≡ counted (pairs w.now) }
{
    for i in 0..w.len().div_ceil(2) {
        pair(&w[2 * i..])?;
    }
    Some((w.len() / 2) as u32)
}

// How many bytes a word spells: a `-` none, and any other word as many as its pairs.
#[tactic(auto, using(crate::proofs::WordLaws::same_cases, crate::proofs::HexLaws::bytes_long, crate::proofs::HexLaws::bytes_pairs))]
pub(crate) fn count_bytes(w: &[u8]) -> Option<u32>
    ensures { result ≡ counted (bytes w.now) }
{
    if MOST_BYTES + MOST_BYTES < w.len() {
        return None;
    }
    match w {
        b"-" => Some(0),
        [] => None,
        _ => count_pairs(w),
    }
}

/// Writes the bytes that pairs spell at the start of out and gives how many there are. Where out is too short it writes nothing and gives 0: a number and no Option, since the promise, Written, speaks of that length.
pub fn put_bytes(out: &mut [u8], w: &[u8]) -> usize
    ensures { Written (spelled w.now) out.old out.new result }
{
    let n = w.len() / 2;
    if out.len() < n {
        return 0;
    }
    for i in 0..n {
        out[i] = pair(&w[2 * i..]).unwrap_or(0);
    }
    n
}
