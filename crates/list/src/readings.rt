// The two readings of the bytes as they come: the strict one, and the one for the layout.
ghost use Rattle.std.specs.Prelude.{◌≡◌, true, ◌+◌, ◌≤◌, length, IsTrue};
ghost use Rattle.answers.specs.Numbers.{file_max};
ghost use Rattle.feeder.specs.Record.{sound};

use chan_reading::{Seeker, seek};
use feeder::Feeder;
use feeding::feed::{feed, fresh};
use feeding::pass::{pass, passable};

#[derive(Clone, Copy)]
pub(crate) struct Readings {
    pub(crate) feeder: Feeder,
    pub(crate) seeker: Seeker,
    ghost made_by_calls: { sound feeder ≡ true },
}

impl Readings {
    pub(crate) fn new() -> Readings {
        Readings {
            feeder: fresh(),
            seeker: seek::fresh(),
        }
    }

    // Whether more is to come: after a refusal no byte changes the answer.
    pub(crate) fn feed(&mut self, block: &[u8]) -> bool
        ensures counted { IsTrue result → self.new.feeder.total ≡ self.old.feeder.total + length block.now }
        ensures within { IsTrue result → self.new.feeder.total ≤ file_max }
    {
        let fed = feed(self.feeder, block);
        self.feeder = fed.feeder;
        self.seeker = seek::seek(self.seeker, block);
        fed.outcome.is_ok()
    }

    // How many of the next bytes neither reading looks at.
    pub(crate) fn unread(&self) -> usize {
        seek::leap(self.seeker.phase, passable(self.feeder))
    }

    pub(crate) fn pass(&mut self, n: usize)
        ensures { self.old.feeder.total ≤ self.new.feeder.total }
    {
        self.feeder = pass(self.feeder, n).feeder;
        self.seeker = seek::leapt(self.seeker, n);
    }
}
