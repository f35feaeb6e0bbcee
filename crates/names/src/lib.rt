// Names: how often each number was born, and whether a name means the process that has its number now.
// Every function answers for every table and every number: past the last process nobody was born.
#![tactic(auto, unfolding(plain::specs::Names::bare, plain::specs::Names::name, plain::specs::Names::names, plain::specs::Names::raised, crate::specs::Counts::born))]

ghost use Rattle.std.specs.Prelude.{◌≡◌};
ghost use Rattle.plain.specs.Names.{name, bare, names, Births};
ghost use Rattle.rings.specs.Decides.{Decides};
ghost use Rattle.names.specs.Counts.{count_in, born};

use sizes::Pid;
use tables::{entry, set_entry};

const PROCESSES: u32 = sizes::PROCESSES as u32;

const BIRTHS: u32 = sizes::BIRTHS as u32;

/// The number in a name.
pub fn bare(name: u32) -> u32
    ensures { result ≡ bare name }
{
    name % BIRTHS
}

/// The name of p.
pub fn name_of(births: [u8; sizes::PROCESSES], p: Pid) -> u32
    ensures { result ≡ name (count_in births) p.0 }
{
    p.0 as u32 + BIRTHS * entry(&births, p.0 as usize, 0) as u32
}

/// Whether a name is that of the number in it: what every call asks that takes a process.
pub fn is_name(births: [u8; sizes::PROCESSES], name: u32) -> bool
    ensures { result ≡ names (count_in births) name }
{
    let p = bare(name);
    p < PROCESSES && name == name_of(births, Pid(p as u8))
}

/// The counts after a birth of p.
pub fn born(mut births: [u8; sizes::PROCESSES], p: Pid) -> [u8; sizes::PROCESSES]
    ensures { result ≡ born births p.0 }
{
    let b = entry(&births, p.0 as usize, 0);
    set_entry(&mut births, p.0 as usize, b.wrapping_add(1));
    births
}

/// Whether these counts are sound: process 0 was never born. A byte is never over the highest count.
pub fn may_be_kept(births: [u8; sizes::PROCESSES]) -> bool
    ensures { Decides result (Births (count_in births)) }
{
    births[0] == 0
}
