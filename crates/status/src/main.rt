// The rows of a stored state as a page for people: a state area on standard input, the page written.
// The page goes to standard output, a word on what is wrong with the input to standard error. Where a read or a write fails, the program ends with that error. Assumes what std's read and write do.
#![tactic(auto)]

mod showing;

ghost use Rattle.std.specs.Prelude.{◌≤◌, ◌∷◌, ◌++◌, [], length, IfOk, OnOk};
ghost use Rattle.std.specs.Io.KnownBytes.{Appends};

use std::io;
use telling::INPUT;
use wording::LONGEST_PAGE;

// Each program has these two of its own, and so has why. `telling::streams` has them for other crates.

// Reads until the area is full or the input ends; gives how many bytes were read.
fn read_full(reader: &mut impl io::Read, area: &mut [u8]) -> io::Result<usize>
    ensures { IfOk result (λ got. got ≤ length area.new) }
{
    let mut at = 0;
    // The loop steps by what a read gave, and no iterator is plainer.
    while at < area.len() {
        let got = reader.read(&mut area[at..])?;
        if got == 0 {
            return Ok(at);
        }
        at += got;
    }
    Ok(at)
}

// The text and a newline behind it.
fn write_line<W: io::Write>(to: &mut W, text: &[u8]) -> io::Result<()>
    ensures { OnOk result (Appends (W.contents to.old) (W.contents to.new) (text.now ++ (10 ∷ []))) }
{
    to.write_all(text)?;
    to.write_all(b"\n")
}

#[tactic(auto, using(answers::proofs::AreaLaws::written_within))]
fn main(rt: HostRuntime) -> io::Result<()> {
    let mut area = [0u8; INPUT];
    let got = read_full(&mut rt.stdin(), &mut area)?;
    let state = &area[..got];
    let mut out = [0u8; LONGEST_PAGE];
    match showing::tell(state, &mut out) {
        Ok(end) => rt.write_all(&out[..end]),
        Err(end) => write_line(&mut io::writer(&rt.stderr()), &out[..end]),
    }
}
