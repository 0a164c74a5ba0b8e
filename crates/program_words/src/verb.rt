//! The words that command lines begin with.
ghost use Rattle.std.specs.Prelude.{◌≡◌};
ghost use Rattle.program_words.specs.Words as spec;

/// What a command line asks for, as its first word says.
#[derive(Clone, Copy)]
pub(crate) enum Verb {
    Run,
    Keep,
    Still(StillVerb),
}

/// What serves no sessions that write a journal.
#[derive(Clone, Copy)]
pub(crate) enum StillVerb {
    Audit,
    Replay,
    Make,
    Trial,
}

impl Verb {
    /// The verb that a word is.
    #[tactic(auto, unfolding(crate::specs::Words::verb_of))]
    pub(crate) fn read(word: &str) -> Option<Verb>
        ensures { result ≡ spec.verb_of word.now }
    {
        match word {
            "run" => Some(Verb::Run),
            "keep" => Some(Verb::Keep),
            "audit" => Some(Verb::Still(StillVerb::Audit)),
            "replay" => Some(Verb::Still(StillVerb::Replay)),
            "make" => Some(Verb::Still(StillVerb::Make)),
            "trial" => Some(Verb::Still(StillVerb::Trial)),
            _ => None,
        }
    }
}
