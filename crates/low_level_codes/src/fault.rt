//! Why names have no levels.
use plan_schema::Name;
use std::alloc::AllocError;

/// Why names have no levels.
#[derive(Clone, Copy)]
pub enum LevelFault {
    /// The least of the names that is its own ancestor.
    Cyclic(Name),
    /// There was no room.
    Memory,
}

impl From<AllocError> for LevelFault {
    ghost use Rattle.std.specs.Prelude.{◌≡◌};
    ghost use Rattle.low_level_codes.specs.declared.fault.LevelFault.{LevelFault};

    ghost from_gives = { λ _ fault. fault ≡ LevelFault.Memory };

    fn from(_: AllocError) -> LevelFault {
        LevelFault::Memory
    }
}
