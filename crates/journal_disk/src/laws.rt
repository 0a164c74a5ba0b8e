//! What holds of stores.
ghost use Rattle.journal_disk.specs.Laws.{EmptyStandsForNone, StandForOne, FaultyStandForNone};
ghost use Rattle.journal_disk.specs.Laws.{CutShortStandsForTheRest, HistoriesFit};

/// A law: bytes stand for one history or for none, and a new store for the empty one.
pub fn stores_stand_for_one_history()
    ensures empty { EmptyStandsForNone }
    ensures one { StandForOne }
    ensures none { FaultyStandForNone }
{}

/// A law: what a crash leaves of a block that was being written counts for nothing, whatever it is.
pub fn blocks_cut_short_count_for_nothing()
    ensures { CutShortStandsForTheRest }
{}

/// A law: a store has room for every history that a book may have, and for one entry more.
pub fn stores_have_room()
    ensures { HistoriesFit }
{}
