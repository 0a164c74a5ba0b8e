//! Why a store isn't recovered.
use plan_schema::outside::Failed;
use std::alloc::AllocError;
use thiserror::Error;

/// Why a store wasn't recovered.
#[derive(Clone, Copy, Debug, Error)]
pub enum StoreFault {
    /// The disk failed.
    #[error("the disk failed")]
    Failed,
    /// The bytes are no store: 0 where they don't begin as one, else the place of the first gate that is missing, or whose entry isn't
    /// whole or isn't the text of a sound entry with its number.
    #[error("the bytes are no store")]
    Form(u64),
    /// There are more than 1,073,741,824 bytes.
    #[error("there are too many bytes")]
    Large,
    #[error("there is no memory")]
    Memory,
}

impl From<Failed> for StoreFault {
    ghost use Rattle.std.specs.Prelude.{◌≡◌};
    ghost use Rattle.journal_disk.specs.declared.fault.StoreFault.{StoreFault};

    ghost from_gives = { λ _ fault. fault ≡ StoreFault.Failed };

    fn from(_fault: Failed) -> StoreFault {
        StoreFault::Failed
    }
}

impl From<AllocError> for StoreFault {
    ghost use Rattle.std.specs.Prelude.{◌≡◌};
    ghost use Rattle.journal_disk.specs.declared.fault.StoreFault.{StoreFault};

    ghost from_gives = { λ _ fault. fault ≡ StoreFault.Memory };

    fn from(_fault: AllocError) -> StoreFault {
        StoreFault::Memory
    }
}
