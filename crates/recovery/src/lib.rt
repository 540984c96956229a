// What a power cut leaves of a store, and what opening finds then. This crate is theory: its
// functions have no code, and their contracts name the theorems.
#![tactic(auto)]

ghost use Rattle.recovery.specs.Breaks.{CutSure, DroppingBreaks, DroppingLies, DroppingStands, EnteringBreaks, EnteringLies, EnteringListed, EnteringOrder, EnteringStands, LegibleStands, MakingBreaks, MakingLies, MakingStands, OpeningBreaks, OpeningLies, OpeningStanding, OpeningStands, SpoilingBreaks, SpoilingLies};
ghost use Rattle.recovery.specs.Calls.{DropBreaks, DropLies, DropStands, EnterBreaks, EnterLies, EnterStands, MakeBreaks, MakeLies, MakeStands, SpoilBreaks, SpoilLies, SpoilStays};
ghost use Rattle.recovery.specs.Data.{CallsKeepData, DataCallsKeepList, DataWrites};
ghost use Rattle.recovery.specs.Holding.{EntryWrittenAgain, FindsWhatItHolds, PicturesHold};
ghost use Rattle.recovery.specs.Readings.{OpeningAnswers, OpeningFinds, OpeningRefused};
ghost use Rattle.recovery.specs.Standing.{StandingAlone, StandingLies, StandingOpens};

// Opening answers what the sectors read, by one definition, unless the device refuses a call, with a
// number of its own (1, 2 or 3). One with all its sectors refuses only as it is gone. An image that
// opening refuses it leaves as it is.
pub fn opening_finds_what_is_there()
    ensures finds { OpeningFinds }
    ensures answers { OpeningAnswers }
    ensures refused { OpeningRefused }
{}

// On what a power cut leaves of a device: after a good opening the list stands. Broken off anywhere,
// in its cleaning too, and after any power cut, opening finds the same list again. Where a list
// stands already, an opening writes nothing. Of a list it is enough that its own sectors hold bytes,
// and they do after a power cut.
pub fn opening_survives_cuts()
    ensures sure { CutSure }
    ensures stands { OpeningStands }
    ensures breaks { OpeningBreaks }
    ensures legible { LegibleStands }
    ensures lies { OpeningLies }
    ensures standing { OpeningStanding }
{}

// A list that the sectors hold is found; the pictures of a list hold it, and an entry is written again
// as it was read; and what stands on a device is found, in sectors that hold bytes, each of which has
// one possibility.
pub fn what_stands_is_found()
    ensures found { FindsWhatItHolds }
    ensures pictures { PicturesHold }
    ensures entry { EntryWrittenAgain }
    ensures standing { StandingOpens }
    ensures lies { StandingLies }
    ensures alone { StandingAlone }
{}

// After a good making an empty list stands. Broken off anywhere, and after any power cut, all is as
// it was, or there is no store, or an empty list, in sectors that hold bytes.
pub fn making_survives_cuts()
    ensures stands { MakingStands }
    ensures breaks { MakingBreaks }
    ensures lies { MakingLies }
    ensures call_stands { MakeStands }
    ensures call_breaks { MakeBreaks }
    ensures call_lies { MakeLies }
{}

// What the store enters makes a list that an opening takes. After a good entering that list
// stands. Broken off anywhere, and after any power cut, the list is found with or without the new
// exception, in sectors that hold bytes. The same of the store's own call, which chooses the place.
// Once the entry is possible, all data lasts.
pub fn entering_survives_cuts()
    ensures listed { EnteringListed }
    ensures stands { EnteringStands }
    ensures breaks { EnteringBreaks }
    ensures lies { EnteringLies }
    ensures order { EnteringOrder }
    ensures call_stands { EnterStands }
    ensures call_breaks { EnterBreaks }
    ensures call_lies { EnterLies }
{}

// Spoiling broken off anywhere, and any power cut: the list is found, in sectors that hold bytes, or
// the store is invalid. After a good spoiling it is invalid.
pub fn spoiling_survives_cuts()
    ensures breaks { SpoilingBreaks }
    ensures lies { SpoilingLies }
    ensures call_stays { SpoilStays }
    ensures call_breaks { SpoilBreaks }
    ensures call_lies { SpoilLies }
{}

// After a good dropping the beginning of the list stands. Broken off anywhere, and after any power
// cut, any number of the dropped exceptions may have left, from the end; the rest is found in sectors
// that hold bytes. The same of the store's own call, which drops the last run.
pub fn dropping_survives_cuts()
    ensures stands { DroppingStands }
    ensures breaks { DroppingBreaks }
    ensures lies { DroppingLies }
    ensures call_stands { DropStands }
    ensures call_breaks { DropBreaks }
    ensures call_lies { DropLies }
{}

// No call but a data write adds to a data sector, and no data call changes the list. A data write adds
// its bytes to its own sectors at most, and a good one is read back.
pub fn data_and_list_are_apart()
    ensures sectors { CallsKeepData }
    ensures list { DataCallsKeepList }
    ensures writes { DataWrites }
{}
