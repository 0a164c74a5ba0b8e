//! Why a call of a book isn't answered.
ghost use Rattle.std.specs.Prelude.{◌≡◌};
ghost use Rattle.plan_book.specs.declared.fault.BookFault.TheVariants as faults;

use plan_schema::Refusal;
use plan_walk::Trouble;
use std::alloc::AllocError;

/// Why a call of a book isn't answered.
#[derive(Clone, Copy)]
pub enum BookFault {
    /// It is refused, with the number of entries at which it is.
    Refused(u64, Refusal),
    /// There was no memory.
    Memory,
    /// What keeps the entries failed.
    Failed,
}

impl From<AllocError> for BookFault {
    ghost from_gives = { λ _ fault. fault ≡ faults.Memory };

    fn from(_: AllocError) -> BookFault {
        BookFault::Memory
    }
}

impl From<Trouble> for BookFault {
    ghost use Rattle.plan_book.specs.Faults.{fault_for};

    ghost from_gives = { λ trouble fault. fault ≡ fault_for trouble };

    fn from(trouble: Trouble) -> BookFault {
        match trouble {
            Trouble::Refused(point, refusal) => BookFault::Refused(point, refusal),
            Trouble::Memory => BookFault::Memory,
        }
    }
}
