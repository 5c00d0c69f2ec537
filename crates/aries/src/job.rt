ghost use Rattle.std.specs.Prelude.{◌≡◌};
ghost use Rattle.aries.specs.Judging.{lending};

use crate::reader::Setting;

// The numbers of an entry in the list: X, Y, tool and mode.
pub const NUMBERS: usize = 4;

// What the caller fixes for a whole text: the decimal point setting, and the places of the lent list.
#[derive(Clone, Copy)]
pub struct Job {
    pub setting: Setting,
    pub places: usize,
}

impl Job {
    // The job of a setting, and of a list of so many numbers that is lent.
    pub fn lending(setting: Setting, numbers: usize) -> Job
        ensures { result ≡ lending setting numbers }
    {
        Job {
            setting,
            places: numbers / NUMBERS,
        }
    }
}
