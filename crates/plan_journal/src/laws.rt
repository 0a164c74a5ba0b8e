//! What holds between journals and their texts.
ghost use Rattle.plan_journal.specs.Laws.{JournalIsReadAgain, JournalIsReadAlone, NoJournalGoesOn};
ghost use Rattle.plan_journal.specs.Laws.{FaultyLineIsFirst, LargeIsToldFirst};

/// What is read of a text is a journal with this text, and each journal is read from its texts. Too many bytes are told before all else.
pub fn journals_have_one_text()
    ensures again { JournalIsReadAgain }
    ensures alone { JournalIsReadAlone }
    ensures large { LargeIsToldFirst }
{}

/// The line that a fault of form names is the first one that no journal goes on with.
pub fn faulty_lines_are_first()
    ensures none { NoJournalGoesOn }
    ensures first { FaultyLineIsFirst }
{}
