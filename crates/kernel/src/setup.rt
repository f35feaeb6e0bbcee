// The settings: those that hold where none are named, whether what stands in them may be set, and one mailbox set anew.
ghost use Rattle.std.specs.Prelude.{◌≡◌, set};
ghost use Rattle.rings.specs.Decides.{Decides};
ghost use Rattle.plain.specs.Start.{Set, slice_of};
ghost use Rattle.plain.specs.State.{usual};
ghost use Rattle.kernel.specs.Holds.{named};

use crate::Settings;
use sizes::REFUSING;
use tables::set_entry;

const USUAL_SLICE: u8 = sizes::USUAL_SLICE as u8;

const USUAL_CAPACITY: u8 = sizes::USUAL_CAPACITY as u8;

impl Settings {
    /// A slice is named, and nothing else.
    pub fn of_slice(slice: u8) -> Settings
        ensures { named result ≡ slice_of slice }
    {
        Settings {
            slice,
            capacity: [USUAL_CAPACITY; sizes::MAILBOXES],
            mode: [REFUSING; sizes::MAILBOXES],
        }
    }

    pub fn usual() -> Settings
        ensures { named result ≡ usual }
    {
        Settings::of_slice(USUAL_SLICE)
    }

    // A byte is never over the longest slice.
    pub(crate) fn may_be_set(self) -> bool
        ensures { Decides result (Set (named self)) }
    {
        if self.slice == 0 {
            return false;
        }
        habits::may_be_set(self.capacity, self.mode)
    }

    // Mailbox m takes so many messages from now on, and is of this mode.
    pub(crate) fn allotted(mut self, m: u32, capacity: u8, mode: u8) -> Settings
        ensures { result ≡ record { slice = self.slice; capacity = set self.capacity m capacity; mode = set self.mode m mode } }
    {
        set_entry(&mut self.capacity, m as usize, capacity);
        set_entry(&mut self.mode, m as usize, mode);
        self
    }
}
