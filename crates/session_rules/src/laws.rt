//! What holds of legal sessions: each law is the contract of a function that does nothing.
ghost use Rattle.session_rules.specs.Laws.{PointsAreWithin, PointsDontFall, RepliesGrow, RepliesStay};

/// Legal replies with a reply to one more request are legal.
pub fn replies_grow()
    ensures { RepliesGrow }
{}

/// Points don't go back within a session.
pub fn points_dont_fall()
    ensures { PointsDontFall }
{}

/// No point is past the history.
pub fn points_are_within()
    ensures { PointsAreWithin }
{}

/// Legal replies stay legal, whatever entries follow.
pub fn replies_stay()
    ensures { RepliesStay }
{}
