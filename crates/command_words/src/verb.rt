//! The words that commands begin with.
ghost use Rattle.std.specs.Prelude.{◌≡◌};
ghost use Rattle.command_words.specs.Verbs as spec;

use row_text::is_word;

/// What a command does, as its first word says.
#[derive(Clone, Copy)]
pub(crate) enum Verb {
    Hello,
    Point,
    Put,
    Del,
    Load,
    Branch,
    Share,
    Update,
    Commit,
    Drop,
    Tree,
    Show,
    Level,
    Plan,
    Peg,
    Trace,
    Atp,
    Cost,
    Select,
    Reclaim,
    Quit,
}

const VERBS: [Verb; 21] = [
    Verb::Hello,
    Verb::Point,
    Verb::Put,
    Verb::Del,
    Verb::Load,
    Verb::Branch,
    Verb::Share,
    Verb::Update,
    Verb::Commit,
    Verb::Drop,
    Verb::Tree,
    Verb::Show,
    Verb::Level,
    Verb::Plan,
    Verb::Peg,
    Verb::Trace,
    Verb::Atp,
    Verb::Cost,
    Verb::Select,
    Verb::Reclaim,
    Verb::Quit,
];

impl Verb {
    /// The verb that a word is.
    #[tactic(auto, unfolding(crate::specs::Verbs::verb_of))]
    pub(crate) fn read(word: &[u8]) -> Option<Verb>
        ensures { result ≡ spec.verb_of word.now }
    {
        VERBS
            .iter()
            .copied()
            .find(|verb| is_word(word, verb.word()))
    }

    /// The word of the verb.
    fn word(self) -> &'static [u8]
        ensures { result.now ≡ spec.verb_word self }
    {
        match self {
            Verb::Hello => b"HELLO",
            Verb::Point => b"POINT",
            Verb::Put => b"PUT",
            Verb::Del => b"DEL",
            Verb::Load => b"LOAD",
            Verb::Branch => b"BRANCH",
            Verb::Share => b"SHARE",
            Verb::Update => b"UPDATE",
            Verb::Commit => b"COMMIT",
            Verb::Drop => b"DROP",
            Verb::Tree => b"TREE",
            Verb::Show => b"SHOW",
            Verb::Level => b"LEVEL",
            Verb::Plan => b"PLAN",
            Verb::Peg => b"PEG",
            Verb::Trace => b"TRACE",
            Verb::Atp => b"ATP",
            Verb::Cost => b"COST",
            Verb::Select => b"SELECT",
            Verb::Reclaim => b"RECLAIM",
            Verb::Quit => b"QUIT",
        }
    }
}
