//! Why a call of an office isn't answered.
ghost use Rattle.std.specs.Prelude.{◌≡◌};
ghost use Rattle.plan_book.specs.declared.fault.BookFault.TheVariants as faults;
ghost use Rattle.plan_office.specs.declared.fault.OfficeFault.TheVariants as office;
ghost use Rattle.plan_office.specs.Turns.{fault_for, has_failed, from_book, for_memory};

use plan_book::BookFault;
use plan_schema::Refusal;
use std::alloc::AllocError;
use turn_table::Worn;

/// Why a call of an office isn't answered.
#[derive(Clone, Copy)]
pub enum OfficeFault {
    /// It is refused, with the number of entries at which it is.
    Refused(u64, Refusal),
    /// There was no memory.
    Memory,
    /// What keeps the entries failed.
    Failed,
    /// The tickets of the pass are used up.
    Worn,
}

impl From<Worn> for OfficeFault {
    ghost from_gives = { λ _ fault. fault ≡ office.Worn };

    fn from(_: Worn) -> OfficeFault {
        OfficeFault::Worn
    }
}

impl From<AllocError> for OfficeFault {
    ghost from_gives = { λ _ fault. fault ≡ office.Memory };

    fn from(_: AllocError) -> OfficeFault {
        OfficeFault::Memory
    }
}

impl From<BookFault> for OfficeFault {
    ghost use Rattle.plan_office.specs.Turns.{fault_for};

    ghost from_gives = { λ cause fault. fault ≡ fault_for cause };

    fn from(cause: BookFault) -> OfficeFault {
        match cause {
            BookFault::Refused(point, refusal) => OfficeFault::Refused(point, refusal),
            BookFault::Memory => OfficeFault::Memory,
            BookFault::Failed => OfficeFault::Failed,
        }
    }
}

/// Whether a book failed at a call.
pub(crate) fn has_failed<T>(answer: &Result<T, BookFault>) -> bool
    ensures { result ≡ has_failed answer.now }
{
    match answer {
        Err(BookFault::Failed) => true,
        _ => false,
    }
}

/// A book's answer as the office's.
pub(crate) fn from_book<T>(answer: Result<T, BookFault>) -> Result<T, OfficeFault>
    ensures { result ≡ from_book answer }
{
    match answer {
        Ok(value) => Ok(value),
        Err(cause) => Err(OfficeFault::from(cause)),
    }
}

/// The answer of a call that fails only for want of memory, as a book's.
pub(crate) fn for_memory<T>(answer: Result<T, AllocError>) -> Result<T, BookFault>
    ensures { result ≡ for_memory answer }
{
    match answer {
        Ok(value) => Ok(value),
        Err(_) => Err(BookFault::Memory),
    }
}
