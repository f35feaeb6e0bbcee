// Whether a state is sound, whatever stands in its fields: its settings, its birth counts, its processes, its mail, and what each asks of the other.
ghost use Rattle.rings.specs.Decides.{Decides};
ghost use Rattle.kernel.specs.Holds.{IsSound};

use crate::Kernel;

impl Kernel {
    pub fn is_sound(self) -> bool
        ensures { Decides result (IsSound self) }
    {
        let settings = self.settings;
        if !settings.may_be_set() {
            return false;
        }
        if !names::may_be_kept(self.births) {
            return false;
        }
        let Some(at) = seats::seated(self.procs, settings.slice) else {
            return false;
        };
        let mail = self.mail;
        if !stock::stocked(mail, settings.capacity) {
            return false;
        }
        waits::all_fit(
            at,
            self.procs.running,
            mail.full,
            mail.boxes.next,
            self.count,
        )
    }
}
