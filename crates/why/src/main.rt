// Why a process waits, for a stagehand: its name as the one argument, a state area on standard input, one line written.
// A reason goes to standard output, a word on what is wrong with the question to standard error. Where a read or a write fails, the program ends with that error. Assumes what std's read and write do.
#![tactic(auto)]

mod explaining;

ghost use Rattle.std.specs.Prelude.{◌≤◌, ◌∷◌, ◌++◌, [], length, IfOk, OnOk};
ghost use Rattle.std.specs.Io.KnownBytes.{Appends};

use std::env::Env;
use std::io;
use telling::INPUT;
use wording::LONGEST;

// Linux hands a program no longer word.
const LONGEST_WORD: usize = 131072;

// The first word after the program's name, in the lent area; empty where there is no such word.
fn first_word<'a>(rt: &impl Env, area: &'a mut [u8]) -> &'a [u8]
    ensures { length result.now ≤ length area.old }
{
    match rt.arg(1, area) {
        Ok(letters) => &area[..letters],
        Err(_) => &[],
    }
}

// Each program has these two of its own, and so has status. `telling::streams` has them for other crates.

// Reads until the area is full or the input ends; gives how many bytes were read.
fn read_full(reader: &mut impl io::Read, area: &mut [u8]) -> io::Result<usize>
    ensures { IfOk result (λ got. got ≤ length area.new) }
{
    let mut at = 0;
    // The loop steps by what a read gave, and no iterator is plainer.
    while at < area.len() {
        let got = reader.read(&mut area[at..])?;
        if got == 0 {
            return Ok(at);
        }
        at += got;
    }
    Ok(at)
}

// The text and a newline behind it.
fn write_line<W: io::Write>(to: &mut W, text: &[u8]) -> io::Result<()>
    ensures { OnOk result (Appends (W.contents to.old) (W.contents to.new) (text.now ++ (10 ∷ []))) }
{
    to.write_all(text)?;
    to.write_all(b"\n")
}

#[tactic(auto, using(answers::proofs::AreaLaws::written_within))]
fn main(rt: HostRuntime) -> io::Result<()> {
    let mut letters = [0u8; LONGEST_WORD];
    let word = first_word(&rt, &mut letters);
    let mut area = [0u8; INPUT];
    let got = read_full(&mut rt.stdin(), &mut area)?;
    let state = &area[..got];
    let mut out = [0u8; LONGEST];
    match explaining::tell(state, word, &mut out) {
        Ok(end) => write_line(&mut io::writer(&rt.stdout()), &out[..end]),
        Err(end) => write_line(&mut io::writer(&rt.stderr()), &out[..end]),
    }
}
