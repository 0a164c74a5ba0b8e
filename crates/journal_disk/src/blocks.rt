//! The blocks of a store's bytes.
ghost use Rattle.std.specs.Prelude.{◌≡◌, ◌≤◌, ◌<◌, ◌^◌, ◌++◌, ◌∷◌, List, ℕ, length, true, false, MatchOption, IfOk, IfSome, Ok, None};
ghost use Rattle.plan_schema.specs.declared.change.Entry.{Entry};
ghost use Rattle.plan_schema.specs.declared.limits.TheConstants.{BYTE_LIMIT};
ghost use Rattle.plan_schema.specs.Sound.{is_sound_entry};
ghost use Rattle.plan_journal.specs.Entries.{entry_text};
ghost use Rattle.journal_disk.specs.Stores.{store_head, HasNoHead, IsBlock};
ghost use Rattle.journal_disk.specs.Recovery.{TellsStore};

use crate::fault::StoreFault;
use crate::recovered::Recovered;
use plan_journal::{Entry, Journal, read_entry};
use std::alloc::{AllocError, Global};

/// A store's first bytes.
const HEAD: &[u8] = b"PLANSTO1";

/// Reads a store.
pub(crate) fn read_store(alloc: Global, bytes: &[u8]) -> Result<Recovered, StoreFault>
    requires { length bytes.now ≤ BYTE_LIMIT }
    ensures { TellsStore bytes.now result }
{
    let Some(blocks) = behind_head(bytes) else {
        return Err(StoreFault::Form(0));
    };
    let mut journal = Journal::new(alloc);
    let mut rest = blocks;
    while let Some((entry, behind)) = read_block(alloc, journal.len() as u64 + 1, rest)? {
        journal.push(entry)?;
        rest = behind;
    }
    let place = (bytes.len() - rest.len()) as u64;
    if is_closed(rest) {
        Ok(Recovered {
            journal,
            end: place,
        })
    } else {
        Err(StoreFault::Form(place))
    }
}

/// What stands behind a store's first bytes.
fn behind_head(bytes: &[u8]) -> Option<&[u8]>
    ensures { MatchOption result (HasNoHead bytes.now) (λ rest. bytes.now ≡ store_head ++ rest.now) }
{
    bytes.strip_prefix(HEAD)
}

/// Whether a closed gate stands first.
fn is_closed(bytes: &[u8]) -> bool
    ensures closed { result ≡ true → ((behind : List ℕ) × (bytes.now ≡ 0 ∷ behind)) }
    ensures other { result ≡ false → (behind : List ℕ) → bytes.now ≡ 0 ∷ behind → ⊥ }
{
    matches!(bytes, [0, ..])
}

/// The entry with a number in an open block at the beginning of bytes, and what stands behind the block.
fn read_block(
    alloc: Global,
    number: u64,
    bytes: &[u8],
) -> Result<Option<(Entry, &[u8])>, AllocError>
    requires { length bytes.now ≤ BYTE_LIMIT }
    ensures found { IfOk result (λ found. IfSome found (λ part. (is_sound_entry part.0 ≡ true)
        × IsBlock (entry_text number part.0) bytes.now part.1.now)) }
    ensures none { result ≡ Ok None → (entry : Entry) (behind : List ℕ)
        → is_sound_entry entry ≡ true → IsBlock (entry_text number entry) bytes.now behind → ⊥ }
{
    let Some((text, behind)) = cut_block(bytes) else {
        return Ok(None);
    };
    match read_entry(alloc, number, text)? {
        Some(entry) => Ok(Some((entry, behind))),
        None => Ok(None),
    }
}

/// The text of an open block at the beginning of bytes, and what stands behind the block.
fn cut_block(bytes: &[u8]) -> Option<(&[u8], &[u8])>
    requires { length bytes.now ≤ BYTE_LIMIT }
    ensures { MatchOption result ((text behind : List ℕ) → IsBlock text bytes.now behind → ⊥)
        (λ parts. IsBlock parts.0.now bytes.now parts.1.now) }
{
    let [gate, first, second, third, fourth, behind @ ..] = bytes else {
        return None;
    };
    let size = u32::from_be_bytes([*first, *second, *third, *fourth]) as usize;
    if *gate == 0 || size > behind.len() {
        return None;
    }
    Some((&behind[..size], &behind[size..]))
}
