//! The planned order releases of a part, shared by all who read them.
ghost use Rattle.std.specs.Prelude.{◌≡◌, IfOk, nat_eq};
ghost use Rattle.std.specs.Cmp.{partial_equiv_from_equiv};
ghost use Rattle.std.specs.Cmp.Lexicographic.{pointwise, nat_list_eq_equiv, bytes_decides};
ghost use Rattle.std.specs.Hash as fed;
ghost use Rattle.std.specs.Hash.{same_Alike};
ghost use Rattle.plan_schema.specs.Release.{mixed, fingerprint};

use crate::key::Qty;
use crate::series::{Quantities, Series};
use std::alloc::{AllocError, Global};
use std::hash::{Hash, Hasher};
use std::marker::Model;
use std::sync::Arc;

/// A list of quantities that is shared, with a number that was made from it once, so that no look-up goes over the list again.
#[derive(Drop)]
pub struct Release {
    days: Arc<Quantities>,
    print: u64,
}

impl Model for Release {
    ghost use Rattle.std.specs.Prelude.{List, ℕ, ◌≡◌};
    ghost use Rattle.plan_schema.specs.Release.{fingerprint};

    ghost Value = { List ℕ };

    ghost view = { λ r. r.days.value };

    ghost invariant = { λ r. r.print ≡ fingerprint r.days.value };
}

/// One more quantity in the number of a list.
fn mix(print: u64, qty: u64) -> u64
    ensures { result ≡ mixed print qty }
{
    ((print as u128 * 6_364_136_223_846_793_005 + qty as u128) % 18_446_744_073_709_551_616) as u64
}

/// The number of a list.
fn print_of(days: &[u64]) -> u64
    ensures { result ≡ fingerprint days.now }
{
    days.iter().fold(0, |print, qty| mix(print, *qty))
}

impl Release {
    /// The quantities of a vector.
    pub fn new(alloc: Global, days: Vec<Qty>) -> Result<Release, AllocError>
        ensures { IfOk result (λ r. r ≡ days.items) }
    {
        let print = print_of(days.as_slice());
        let days = Arc::new(alloc, Series::from_vec(days))?;
        Ok(Release { days, print })
    }

    /// The same list once more.
    pub fn share(&self) -> Result<Release, AllocError>
        ensures { IfOk result (λ r. r ≡ self.now) }
    {
        Ok(Release {
            days: Arc::try_clone(&self.days)?,
            print: self.print,
        })
    }

    /// The quantities as a slice.
    pub fn as_slice(&self) -> &[Qty]
        ensures { result.now ≡ self.now }
    {
        self.days.as_slice()
    }
}

impl PartialEq for Release {
    ghost eq = { λ a b. pointwise nat_eq a b };

    ghost laws = { partial_equiv_from_equiv nat_list_eq_equiv };

    fn eq(&self, other: &Self) -> bool {
        self.print == other.print && self.as_slice() == other.as_slice()
    }
}

impl Eq for Release {
    ghost laws = { nat_list_eq_equiv };
}

impl Hash for Release {
    ghost hash_input = { λ a. fed.u64 (fingerprint a) };

    ghost respects_eq = { (same_Alike (λ a. fed.u64 (fingerprint a)) bytes_decides).fed };

    fn hash<H: Hasher>(&self, state: &mut H) {
        self.print.hash(state);
    }
}
