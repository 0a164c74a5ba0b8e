//! Why a job has no walk.
use plan_schema::Refusal;
use std::alloc::AllocError;

/// Why a job has no walk.
#[derive(Clone, Copy)]
pub enum Trouble {
    /// The plan is refused, at the job's point.
    Refused(u64, Refusal),
    /// There was no room.
    Memory,
}

impl From<AllocError> for Trouble {
    ghost use Rattle.std.specs.Prelude.{◌≡◌};
    ghost use Rattle.walk_names.specs.declared.trouble.Trouble.{Trouble};

    ghost from_gives = { λ _ trouble. trouble ≡ Trouble.Memory };

    fn from(_: AllocError) -> Trouble {
        Trouble::Memory
    }
}
