ghost use Rattle.std.specs.Prelude.{◌≡◌};
ghost use Rattle.aries.specs.Reader.{setting_of};

// The decimal point setting: what a length or an angle without a point counts, hundredths at 1, whole millimetres and degrees
// at 0.
#[derive(Clone, Copy)]
pub enum Setting {
    Hundredths,
    Millimetres,
}

// The setting that a caller states: 0, and any other number counts as 1.
impl From<i32> for Setting {
    ghost from_gives = { λ number setting. setting ≡ setting_of number };

    fn from(number: i32) -> Setting {
        if number == 0 {
            Setting::Millimetres
        } else {
            Setting::Hundredths
        }
    }
}

// Whether a G73 has given its X, and its Y.
#[derive(Clone, Copy)]
pub struct Given {
    pub x: bool,
    pub y: bool,
}

// What a block is read by, besides its words: the setting, and which letters a G73 has given.
#[derive(Clone, Copy)]
pub struct Reader {
    pub setting: Setting,
    pub given: Given,
}
