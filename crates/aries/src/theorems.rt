ghost use Rattle.aries.specs.CopyRuns.{BothOrNeither, EqualExactlyWhen, LayoutSentence, ReferenceMoves};
ghost use Rattle.aries.specs.CopyBlocks.{CopyLinesRun, ReachedOrdinary, OriginMoves};
ghost use Rattle.aries.specs.CopyPairs.{PairAlike};
ghost use Rattle.aries.specs.Plates.{PlatesHold, MillimetresHold};
ghost use Rattle.aries.specs.MirrorRuns.{MirrorsCompose, MirrorsUndone, MirrorSentence};
ghost use Rattle.aries.specs.MirrorBlocks.{MirrorLinesRun};
ghost use Rattle.aries.specs.Refusals.{RefusalsNamed};
ghost use Rattle.aries.specs.Settings.{BaseKept, SettingHolds, PointedAlike};
ghost use Rattle.aries.specs.FewestSteps.{FewestSteps};
ghost use Rattle.aries.specs.Tools.{ToolsNamed, TallyAddsUp};

// What is proved of the definitions alone. Each function does nothing; its contract is the theorem.

// Demand 3: by G75 and by G76, all else alike, both runs, of whichever texts, are accepted or both are refused.
pub fn both_or_neither()
    ensures { BothOrNeither }
{}

// Demand 3: their entries are equal exactly for a single row or column, without pitches, or without a hit.
pub fn equal_exactly_when()
    ensures { EqualExactlyWhen }
{}

// Demand 3: the entries of every accepted run are the part's own entries once for each place of the layout, in order: the
// hits moved there, the stops as they are.
pub fn layout_sentence()
    ensures { LayoutSentence }
{}

// Demand 3: moving the reference point by any vector moves every hit by it and leaves the stops.
pub fn reference_moves()
    ensures { ReferenceMoves }
{}

// A line of a program that asks for G75 or G76 is a run that the four theorems above speak of.
pub fn copy_lines_run()
    ensures { CopyLinesRun }
{}

// Wherever a program comes, the origin is reference plus offset,
pub fn reached_ordinary()
    ensures { ReachedOrdinary }
{}

// so that moving the reference point moves the origin along.
pub fn origin_moves()
    ensures { OriginMoves }
{}

// A sheet by G75 in one text and by G76 in another is a pair that the theorems compare.
pub fn pair_alike()
    ensures { PairAlike }
{}

// With one a and b, mirrors compose: twice by one Q is by Q1, by Q2 and Q3 is by Q4.
pub fn mirrors_compose()
    ensures { MirrorsCompose }
{}

// Where a point is seen, and which point is seen there, undo each other.
pub fn mirrors_undone()
    ensures { MirrorsUndone }
{}

// A macro that is accepted by Q1 and by another Q from one state makes the same entries, each hit turned as Q says, and leaves
// the same state. Where no other mirror is open, X is turned into a - X and Y into b - Y.
pub fn mirror_sentence()
    ensures { MirrorSentence }
{}

// A line of a program that asks for G73, in a body or outside, is a run that the mirror sentence speaks of.
pub fn mirror_lines_run()
    ensures { MirrorLinesRun }
{}

// Demand 1: a refusal has a number from 1 to 18; its line is 0 exactly for 1, and else one of the text.
pub fn refusals_named()
    ensures { RefusalsNamed }
{}

// The plates of document 01, as rows of one list.
pub fn plates_hold()
    ensures { PlatesHold }
{}

// Those of them in whole millimetres, at setting 0.
pub fn millimetres_hold()
    ensures { MillimetresHold }
{}

// At every setting number but 0 a text means what document 01 says.
pub fn base_kept()
    ensures { BaseKept }
{}

// Wherever a program comes, blocks are read at the setting that the caller stated.
pub fn setting_holds()
    ensures { SettingHolds }
{}

// A number with a point means the same at both settings.
pub fn pointed_alike()
    ensures { PointedAlike }
{}

// G66 cuts from D before its start to D past its end, by the fewest equal steps none of which is longer than the tool's size
// less 0.5 mm; there is one hit exactly where the tool is as long as the cut.
pub fn fewest_steps()
    ensures { FewestSteps }
{}

// Every hit of a text that is accepted has a tool from 1 to 99,
pub fn tools_named()
    ensures { ToolsNamed }
{}

// so that the hits of all tools in its tally add up to its hits: each is counted for one tool, and no stop is.
pub fn tally_adds_up()
    ensures { TallyAddsUp }
{}
