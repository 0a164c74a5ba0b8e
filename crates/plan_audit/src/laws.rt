//! What holds of verdicts: each law is the contract of a function that does nothing.
ghost use Rattle.plan_audit.specs.Laws.{UnrefusedIsAccepted, RefusedIsFirst, SeenSessionIsLegal};
ghost use Rattle.plan_audit.specs.Laws.{SeenRoundsAreLegal, JudgedLegalIsLegal, LegalIsJudgedLegal};

/// A history of which no entry is told to be refused has none that is.
pub fn unrefused_is_accepted()
    ensures { UnrefusedIsAccepted }
{}

/// An entry that is told to be refused is, and none before it.
pub fn refused_is_first()
    ensures { RefusedIsFirst }
{}

/// A session in which nothing is found is legal.
pub fn seen_session_is_legal()
    ensures { SeenSessionIsLegal }
{}

/// Rounds in which nothing is found are legal.
pub fn seen_rounds_are_legal()
    ensures { SeenRoundsAreLegal }
{}

/// A run that is judged to be legal is: its history is legal, so is each session, none of the inputs is too long, and each entry is printed
/// by exactly one accepted change.
pub fn judged_legal_is_legal()
    ensures { JudgedLegalIsLegal }
{}

/// A legal run is judged to be legal, where none of its inputs is too long and its replies are within the limits of their form.
pub fn legal_is_judged_legal()
    ensures { LegalIsJudgedLegal }
{}
