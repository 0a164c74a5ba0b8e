//! What can be told from words: lines from their words, and replies, refusals and keys from their texts.
ghost use Rattle.command_words.specs.Laws.{WordsAreReadAgain, CommandIsReadAlone, CommandIsReadAgain};
ghost use Rattle.command_words.specs.Laws.{ReplyIsInForm, RefusalsDiffer, KeysDiffer};

/// The words that a line was made of are its words.
pub fn words_are_read_again()
    ensures { WordsAreReadAgain }
{}

/// A sound command is read from its spelling, and from no other words.
pub fn commands_have_one_spelling()
    ensures again { CommandIsReadAgain }
    ensures alone { CommandIsReadAlone }
{}

/// The text of a reply tells, byte for byte, its kind, its point and where it ends.
pub fn replies_are_in_form()
    ensures { ReplyIsInForm }
{}

/// Refusals with the same words are the same, and so are keys with the same key form.
pub fn refusals_have_one_spelling()
    ensures refusals { RefusalsDiffer }
    ensures keys { KeysDiffer }
{}
