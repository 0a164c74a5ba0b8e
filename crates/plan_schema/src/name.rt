//! Names of parts, orders, calendars, scenarios and users.
ghost use Rattle.std.specs.Prelude.{◌≡◌, ◌≤◌, true, length, take, drop, Some, nat_eq, refl};
ghost use Rattle.std.specs.Ordering.{nat_cmp};
ghost use Rattle.std.specs.Cmp.{partial_equiv_from_equiv};
ghost use Rattle.std.specs.Cmp.Lexicographic.{pointwise, slice_cmp, nat_list_eq_equiv, nat_list_cmp_total};
ghost use Rattle.std.specs.Cmp.Lexicographic.{texts_po, texts_ties};
ghost use Rattle.std.specs.Cmp.Rules.{hashing};
ghost use Rattle.std.specs.List.{list_all};
ghost use Rattle.std.specs.Hash as fed;
ghost use Rattle.std.proofs.Common.{rules};
ghost use Rattle.plan_schema.specs.Name as spec;
ghost use Rattle.plan_schema.specs.Name.{is_name, name_of, worth};

use std::cmp::Ordering;
use std::hash::{Hash, Hasher};
use std::marker::Model;

/// A name: 1 to 32 letters, digits, `_`, `-` and `.`, of which the first is a letter or a digit. Names are ordered by bytes.
#[derive(Clone, Copy)]
pub struct Name {
    cells: [u8; 32],
    len: u8,
}

impl Model for Name {
    ghost use Rattle.std.specs.Prelude.{◌-◌, List, ℕ, ◌++◌, length, take, replicate};
    ghost use Rattle.plan_schema.specs.Name.{IsNameIn};

    ghost Value = { List ℕ };

    ghost view = { λ a. take a.len a.cells };

    ghost invariant = { λ a. IsNameIn a.cells a.len };

    ghost inverse = { λ xs. record { cells = xs ++ replicate (32 - length xs) 0; len = length xs } };

    ghost inverse_ok = { λ a h i. record { cells = h.padded i; len = h.exact i } };
}

impl Name {
    /// The name that the text is, or `None` where the text is no name.
    pub fn read(text: &[u8]) -> Option<Name>
        ensures { result ≡ name_of text.now }
    {
        if !is_name_text(text) {
            return None;
        }
        let mut cells = [0; 32];
        cells[..text.len()].copy_from_slice(text);
        Some(Name {
            cells,
            len: text.len() as u8,
        })
    }

    /// The bytes of the name.
    pub fn as_bytes(&self) -> &[u8]
        ensures value { result.now ≡ self.now }
        ensures name { is_name self.now ≡ true }
        ensures short { length result.now ≤ 32 }
    {
        &self.cells[..self.len as usize]
    }

    /// Tells a caller that the name is one.
    pub fn holds(&self)
        ensures { is_name self.now ≡ true }
    {
        let _bytes = self.as_bytes();
    }
}

impl PartialEq for Name {
    ghost eq = { pointwise nat_eq };

    ghost laws = { partial_equiv_from_equiv nat_list_eq_equiv };

    fn eq(&self, other: &Self) -> bool {
        compare(&self.cells, &other.cells) == Ordering::Equal
    }
}

impl Eq for Name {
    ghost laws = { nat_list_eq_equiv };
}

impl PartialOrd for Name {
    ghost partial_cmp = { λ a b. Some (slice_cmp nat_cmp a b) };

    ghost laws = { texts_po };

    fn partial_cmp(&self, other: &Self) -> Option<Ordering> {
        Some(self.cmp(other))
    }
}

impl Ord for Name {
    ghost cmp = { slice_cmp nat_cmp };

    ghost total = { nat_list_cmp_total };

    ghost matches_partial_cmp = { λ a b. refl };

    ghost matches_eq = { texts_ties };

    fn cmp(&self, other: &Self) -> Ordering {
        compare(&self.cells, &other.cells)
    }
}

impl Hash for Name {
    ghost hash_input = { λ name. fed.slice fed.u8 name };

    ghost respects_eq = { Prim.search (hashing, rules) };

    fn hash<H: Hasher>(&self, state: &mut H) {
        self.as_bytes().hash(state);
    }
}

/// Compares cells eight at a time.
fn compare(ours: &[u8; 32], theirs: &[u8; 32]) -> Ordering
    ensures { result ≡ slice_cmp nat_cmp ours.now theirs.now }
{
    let first = word(ours, 0).cmp(&word(theirs, 0));
    if first != Ordering::Equal {
        return first;
    }
    let second = word(ours, 8).cmp(&word(theirs, 8));
    let third = word(ours, 16).cmp(&word(theirs, 16));
    second
        .then(third)
        .then(word(ours, 24).cmp(&word(theirs, 24)))
}

/// The number that eight cells from a place on spell, the first of them weighing most.
fn word(cells: &[u8; 32], from: usize) -> u64
    requires { from ≤ 24 }
    ensures { result ≡ worth 0 (take 8 (drop from cells.now)) }
{
    u64::from_be_bytes([
        cells[from],
        cells[from + 1],
        cells[from + 2],
        cells[from + 3],
        cells[from + 4],
        cells[from + 5],
        cells[from + 6],
        cells[from + 7],
    ])
}

fn is_name_byte(byte: u8) -> bool
    ensures { result ≡ spec.is_name_byte byte }
{
    byte.is_ascii_alphanumeric() || byte == b'_' || byte == b'-' || byte == b'.'
}

fn starts_name(text: &[u8]) -> bool
    ensures { result ≡ spec.starts_name text.now }
{
    match text {
        [] => false,
        [first, ..] => first.is_ascii_alphanumeric(),
    }
}

#[tactic(auto, unfolding(crate::specs::Name::is_name))]
fn is_name_text(text: &[u8]) -> bool
    ensures { result ≡ is_name text.now }
{
    if text.len() > 32 {
        return false;
    }
    if !starts_name(text) {
        return false;
    }
    are_name_bytes(text)
}

fn are_name_bytes(text: &[u8]) -> bool
    ensures { result ≡ list_all spec.is_name_byte text.now }
{
    text.iter().all(|b| is_name_byte(*b))
}
