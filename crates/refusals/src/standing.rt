// What every call asks of its record first, and why the calls are refused.
ghost use Rattle.std.specs.Prelude.{◌≡◌};
ghost use Rattle.answers.specs.Refused.{outcome_number};
ghost use Rattle.refusals.specs.Numbers.{data_number_as, samples_number_as, finish_number_as};

use crate::room::is_too_long_with;
use answers::Refusal;

#[derive(Clone, Copy)]
pub struct Standing {
    pub sound: bool,
    pub finished: bool,
    pub has_header: bool,
}

impl Standing {
    // A data call of n bytes.
    pub fn check_data(self, file_len: usize, room: usize, n: usize) -> Result<(), Refusal>
        ensures { outcome_number result ≡ data_number_as self.sound self.finished self.has_header file_len room n }
    {
        if !self.sound {
            return Err(Refusal::BadWriter);
        }
        if self.finished {
            return Err(Refusal::Finished);
        }
        if !self.has_header {
            return Err(Refusal::NoHeader);
        }
        if is_too_long_with(file_len, n, room) {
            return Err(Refusal::NoRoom);
        }
        Ok(())
    }

    // A call of samples that pack into n bytes: as a data call of them, but for NoFormat, which comes before NoRoom and after the others.
    pub fn check_samples(
        self,
        absent: bool,
        file_len: usize,
        room: usize,
        n: usize,
    ) -> Result<(), Refusal>
        ensures { outcome_number result ≡ samples_number_as self.sound self.finished self.has_header absent file_len room n }
    {
        if self.sound && !self.finished && self.has_header && absent {
            return Err(Refusal::NoFormat);
        }
        self.check_data(file_len, room, n)
    }

    // A second finish is no fault.
    pub fn check_finish(self) -> Result<(), Refusal>
        ensures { outcome_number result ≡ finish_number_as self.sound self.finished self.has_header }
    {
        if !self.sound {
            return Err(Refusal::BadWriter);
        }
        if self.finished || self.has_header {
            return Ok(());
        }
        Err(Refusal::NoHeader)
    }
}
