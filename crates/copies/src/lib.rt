// G75 and G76: copies of a part, one for each place of the layout.
#![tactic(auto)]

ghost use Rattle.std.specs.Prelude.{◌≡◌, true};
ghost use Rattle.aries.specs.Judging.{near};
ghost use Rattle.aries.specs.Layouts.{copy, copy_part};
ghost use Rattle.aries.specs.Macros.{bodies_of};
ghost use Rattle.aries.specs.WidePoints.{point_of};
ghost use Rattle.aries.specs.Reader.{reader_of};
ghost use Rattle.aries.specs.Runs.{Lent, lent_both, leaving, Carried};
ghost use Rattle.aries.specs.Setup.{ordinary_frame};
ghost use Rattle.aries.specs.Steady.{GivenNear, Steady};
ghost use Rattle.stretches.specs.Lookahead.{Read};
ghost use Rattle.copies.specs.Copying.{blank_part, part_by, all_copies};

use aries::block::Copies;
use aries::point::WidePoint;
use aries::refusal::{Refusal, Refused};
use aries::setup::Setup;
use aries::state::{Frame, Progress, State};
use bodies::{FURTHER_CALLS, Stored, run_source};
use placing::Places;
use stretches::Lines;
use tallies::FIGURES;

// Copies a part without a block: all places are judged, and the state is that of the last copy.
fn copy_blank(line: u64, places: Places, progress: &mut Progress) -> Result<(), Refused>
    ensures { (f : Frame) (l : Lent) → Carried (leaving result progress.new) f l l progress.old (λ j. all_copies j blank_part f line places) }
{
    let last = places.last_copy().ok_or(Refusal::TooFar.at(line))?;
    progress.state = progress.state.standing_at(last);
    Ok(())
}

// A part ready to be copied: its body, whose first block is decoded once for all copies, and what its calls are looked up in.
#[derive(Clone, Copy)]
struct ReadyPart<'a> {
    stored: Stored<'a>,
    source: Lines<'a>,
}

impl ReadyPart<'_> {
    // One copy, after those that have left a progress: its place is judged, and then the part is carried out there with the
    // state found and the counts so far.
    fn copy_at(
        &self,
        list: &mut [i32],
        tally: &mut [u64; FIGURES],
        frame: Frame,
        line: u64,
        found: State,
        place: WidePoint,
        progress: &mut Progress,
    ) -> Result<(), Refused>
        requires read { Read (reader_of frame found) self.now.source }
        requires steady { Steady 3 frame }
        requires given_near { GivenNear found }
        ensures { Carried (leaving result progress.new) frame (lent_both list.old tally.old) (lent_both list.new tally.new) progress.old (λ j. copy j (part_by j self.now) frame line found (point_of place)) }
    {
        let point = place.located().ok_or(Refusal::TooFar.at(line))?;
        progress.state = found.standing_at(point);
        let here = frame.at(point);
        run_source(
            FURTHER_CALLS,
            list,
            tally,
            self.stored,
            self.source,
            here,
            progress,
        )
    }

    // All copies, place after place up to the first refusal. Each begins with the state that the first one found.
    fn copy_over(
        &self,
        list: &mut [i32],
        tally: &mut [u64; FIGURES],
        frame: Frame,
        line: u64,
        places: Places,
        progress: &mut Progress,
    ) -> Result<(), Refused>
        requires read { Read (reader_of frame progress.old.state) self.now.source }
        requires steady { Steady 3 frame }
        requires given_near { GivenNear progress.old.state }
        ensures { Carried (leaving result progress.new) frame (lent_both list.old tally.old) (lent_both list.new tally.new) progress.old (λ j. all_copies j (part_by j self.now) frame line places) }
    {
        let found = progress.state;
        let count = places.copy_count();
        let mut cursor = places.first();
        for _ in 0..count {
            let place = places.copy_place(cursor);
            self.copy_at(list, tally, frame, line, found, place, progress)?;
            cursor = cursor.next();
        }
        Ok(())
    }
}

// A G75 or G76 block: the part has to be stored and a layout in force, and then the copies are made.
pub fn copy_part(
    list: &mut [i32],
    tally: &mut [u64; FIGURES],
    stored: Stored,
    setup: Setup,
    line: u64,
    copies: Copies,
    progress: &mut Progress,
) -> Result<(), Refused>
    requires { (near setup.origin ≡ true) × (GivenNear progress.old.state) }
    ensures { Carried (leaving result progress.new) (ordinary_frame setup) (lent_both list.old tally.old) (lent_both list.new tally.new) progress.old (λ j. copy_part j (bodies_of stored.entry.text.now stored.entry.macros.now) setup line copies) }
{
    let body = stored.find(copies.part).ok_or(Refusal::NotStored.at(line))?;
    let layout = setup.sheet.ok_or(Refusal::NoLayout.at(line))?;
    let places = Places {
        origin: setup.origin,
        layout,
        copies,
    };
    let frame = setup.frame();
    let source = Lines::read(frame.reader_of(&progress.state), body.bytes, body.start());
    if source.first.is_none() {
        return copy_blank(line, places, progress);
    }
    let part = ReadyPart { stored, source };
    part.copy_over(list, tally, frame, line, places, progress)
}
