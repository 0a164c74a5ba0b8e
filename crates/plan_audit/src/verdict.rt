//! What an audit comes to.

/// The verdict on a run.
#[derive(Clone, Copy)]
pub enum Verdict {
    /// The run is legal, and the journal is its own.
    Legal,
    /// The number of the first entry that is refused after those before it.
    Journal(u64),
    /// The first fault of the sessions: a session, the line of a request, and the rule that its reply breaks.
    NotLegal {
        session: u64,
        line: u64,
        rule: AuditRule,
    },
}

/// The rules of legal runs, in the order in which they are looked at.
#[derive(Clone, Copy)]
pub enum AuditRule {
    /// The output has no more bytes.
    Short,
    /// What follows in the output isn't a whole reply in form.
    Form,
    /// A point lies above the ceiling of its round, or below its floor or an earlier point of the session.
    Point,
    /// A change was accepted whose entry isn't the one at the point, or isn't above the floor.
    Entry,
    /// The reply isn't what the request is to be answered at its point.
    Answer,
    /// Bytes follow the last reply.
    Extra,
    /// No accepted reply printed the entry.
    Lost,
}
