// Back and forth through lanes of equal length, place by place: grids and layouts go so.
#![tactic(auto)]

ghost use Rattle.std.specs.Prelude.{◌≤◌};

// A place: its lane, how many places of that lane come before it in the order of counting, and the last place of each lane.
#[derive(Clone, Copy)]
pub struct Cursor {
    pub lane: u32,
    pub rest: u16,
    pub last: u16,
    ghost inside: { rest ≤ last },
}

impl Cursor {
    ghost use Rattle.std.specs.Prelude.{◌≡◌, suc};
    ghost use Rattle.aries.specs.declared.block.Steps.{Steps};
    ghost use Rattle.aries.specs.Lanes.{lane, along, lane_end, column_of, row_of};
    ghost use Rattle.lanes.specs.Cursors.{passed};

    // The first place, in lanes that end there.
    pub fn first(last: u16) -> Cursor
        ensures last { result.last ≡ last }
        ensures place { passed result ≡ 0 }
    {
        Cursor {
            lane: 0,
            rest: 0,
            last,
        }
    }

    // The place after this one, in its lane or at the start of the next.
    pub fn next(self) -> Cursor
        requires { lane self.last (suc (passed self)) ≤ 4294967295 }
        ensures last { result.last ≡ self.last }
        ensures place { passed result ≡ suc (passed self) }
    {
        if self.rest < self.last {
            Cursor {
                lane: self.lane,
                rest: self.rest + 1,
                last: self.last,
            }
        } else {
            Cursor {
                lane: self.lane + 1,
                rest: 0,
                last: self.last,
            }
        }
    }

    // How far along its lane the place lies: every other lane is counted backwards.
    #[tactic(auto, using(crate::proofs::Cursors::along_place))]
    pub fn along(self) -> u16
        ensures { result ≡ along self.last (passed self) }
    {
        if self.lane % 2 == 0 {
            self.rest
        } else {
            self.last - self.rest
        }
    }

    // The column and the row of the place: lanes are rows, or where they are vertical columns.
    #[tactic(auto, using(crate::proofs::Cursors::in_column, crate::proofs::Cursors::in_row))]
    pub fn column_and_row(self, vertical: bool) -> (u16, u16)
        requires { self.lane ≤ 65535 }
        ensures { (steps : Steps) → self.last ≡ lane_end vertical steps → result ≡ (column_of vertical steps (passed self), row_of vertical steps (passed self)) }
    {
        // fits, by the clause
        let lane = self.lane as u16;
        let along = self.along();
        if vertical {
            (lane, along)
        } else {
            (along, lane)
        }
    }
}
