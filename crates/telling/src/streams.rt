// A stream read, and a line written, as a whole, for other crates: why and status have the two for themselves. Assumes what std's read and write do.
ghost use Rattle.std.specs.Prelude.{◌≤◌, ◌∷◌, ◌++◌, [], length, IfOk, OnOk, OnErr};
ghost use Rattle.std.specs.Io.KnownBytes.{Appends};
ghost use Rattle.telling.specs.Streams.{Fills, LosesNone};

pub use crate::INPUT;
use std::io;

/// Reads until the area is full or the input ends; gives how many bytes were read.
#[tactic(auto, using(crate::proofs::Filling::filled, crate::proofs::Filling::one_more))]
pub fn read_full<R: io::Read>(reader: &mut R, area: &mut [u8]) -> io::Result<usize>
    ensures within { IfOk result (λ got. got ≤ length area.new) }
    ensures known { IfOk result (Fills (R.remaining reader.old) (R.remaining reader.new) area.new) }
    ensures none_lost { OnErr result (LosesNone (R.remaining reader.old) (R.remaining reader.new) area.new) }
{
    let mut at = 0;
    // The loop steps by what a read gave, and no iterator is plainer.
    while at < area.len() {
        let got = reader.read(&mut area[at..])?;
        if got == 0 {
            return Ok(at);
        }
        at += got;
    }
    Ok(at)
}

/// The text and a newline behind it.
pub fn write_line<W: io::Write>(to: &mut W, text: &[u8]) -> io::Result<()>
    ensures { OnOk result (Appends (W.contents to.old) (W.contents to.new) (text.now ++ (10 ∷ []))) }
{
    to.write_all(text)?;
    to.write_all(b"\n")
}

#[cfg(test)]
mod tests;
