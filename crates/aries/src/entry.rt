ghost use Rattle.std.specs.Prelude.{◌≡◌};
ghost use Rattle.aries.specs.Entries.{mode_number, stop_number, numbers_of};

use crate::point::Point;

// A hit: where, with which tool, and whether in mode N (nibble).
#[derive(Clone, Copy)]
pub struct Hit {
    pub place: Point,
    pub tool: u8,
    pub nibble: bool,
}

// The numbers of an entry in the list.
#[derive(Clone, Copy)]
pub struct Numbers {
    pub x: i32,
    pub y: i32,
    pub tool: i32,
    pub mode: i32,
}

// An entry of the list.
#[derive(Clone, Copy)]
pub enum Entry {
    // a hit
    Hit(Hit),
    // a stop: an optional one by M01, and with false one by M00
    Stop(bool),
}

impl Entry {
    // The numbers of the entry.
    pub fn numbers(self) -> Numbers
        ensures { result ≡ numbers_of self }
    {
        match self {
            Entry::Hit(hit) => {
                let place = hit.place;
                Numbers {
                    x: place.x,
                    y: place.y,
                    tool: i32::from(hit.tool),
                    mode: mode_number(hit.nibble),
                }
            }
            Entry::Stop(optional) => Numbers {
                x: 0,
                y: 0,
                tool: 0,
                mode: stop_number(optional),
            },
        }
    }
}

// The mode number of a hit: 1 in mode N, 0 in mode P.
fn mode_number(nibble: bool) -> i32
    ensures { result ≡ mode_number nibble }
{
    i32::from(nibble)
}

// The mode number of a stop: 3 where it is optional, else 2.
fn stop_number(optional: bool) -> i32
    ensures { result ≡ stop_number optional }
{
    if optional { 3 } else { 2 }
}
