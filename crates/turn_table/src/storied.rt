//! What a value must tell to stand in a turn.
ghost use Rattle.std.specs.Prelude.{◌≡◌, ℕ, List, length};

/// A value with a story, a count of faults that never falls, and a basis that never changes.
///
/// The story is a list of entries, each with the number of its maker. Contracts alone know of all three, but
/// for the story's length.
pub trait Storied {
    /// What an entry says.
    type Entry;

    /// What never changes.
    type Basis;

    ghost story: { Self → List (ℕ × Self.Entry) };

    ghost faults: { Self → ℕ };

    ghost basis: { Self → Self.Basis };

    /// How many entries the story has.
    fn story_len(&self) -> u64
        ensures { result ≡ length (story self.now) };
}
