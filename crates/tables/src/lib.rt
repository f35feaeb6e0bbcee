// A table of so many entries: what it has at an index, another value put there, and whether so many of them lie within it.
// Every function answers for every index: past the last entry there is nothing, and nothing changes.
#![tactic(auto)]

ghost use Rattle.std.specs.Prelude.{◌≡◌, ◌+◌, leb, get_or, set};

/// What the table has at i, or `past` past its last entry.
pub fn entry<T: Copy, const N: usize>(table: &[T; N], i: usize, past: T) -> T
    ensures { result ≡ get_or table.now i past }
{
    table.get(i).copied().unwrap_or(past)
}

/// The table gets v at i; past its last entry nothing changes.
pub fn set_entry<T: Copy, const N: usize>(table: &mut [T; N], i: usize, v: T)
    ensures { table.new ≡ set table.old i v }
{
    if i < N {
        table[i] = v;
    }
}

/// Whether w entries from at on lie within n entries.
pub fn has_room(n: usize, at: usize, w: usize) -> bool
    ensures { result ≡ leb (at + w) n }
{
    w <= n && at <= n - w
}
