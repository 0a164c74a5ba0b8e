//! Whether a change is one that was entered.
ghost use Rattle.std.specs.Prelude.{◌≡◌, ◌&&◌};
ghost use Rattle.plan_schema.specs.Key.{name_eq, key_eq};
ghost use Rattle.scenario_rules.specs.Same.{same_record};
ghost use Rattle.plan_schema.specs.declared.change.Change.TheVariants as changes;
ghost use Rattle.plan_audit.specs.Same.{same_rows, same_change, same_entry};

use plan_schema::{Change, Entry, Key, Name, Record};
use std::cmp::Ordering;

/// Whether an entry is this change, made by this user in this line of this session.
pub(crate) fn is_entry_of(
    session: u64,
    line: u64,
    user: &Name,
    change: &Change,
    entry: &Entry,
) -> bool
    ensures { result ≡ same_entry (record {
      session = session;
      line = line;
      user = user.now;
      change = change.now;
    }) entry.now }
{
    session == entry.session
        && line == entry.line
        && is_same_name(user, &entry.user)
        && is_same_change(change, &entry.change)
}

/// Whether two changes are the same.
fn is_same_change(change: &Change, other: &Change) -> bool
    ensures { result ≡ same_change change.now other.now }
{
    match change {
        Change::Put {
            scenario,
            key,
            value,
        } => is_put(scenario, key, value, other),
        Change::Del { scenario, key } => is_del(scenario, key, other),
        Change::Load { scenario, rows } => is_load(scenario, rows.as_slice(), other),
        Change::Branch { parent, child } => is_branch(parent, child, other),
        Change::Share { scenario } => is_share(scenario, other),
        Change::Update { scenario } => is_update(scenario, other),
        Change::Commit { scenario } => is_commit(scenario, other),
        Change::Drop { scenario } => is_drop(scenario, other),
    }
}

fn is_put(scenario: &Name, key: &Key, value: &Record, other: &Change) -> bool
    ensures { result ≡ same_change (changes.Put scenario.now key.now value.now) other.now }
{
    match other {
        Change::Put {
            scenario: at,
            key: under,
            value: put,
        } => is_same_name(scenario, at) && is_same_key(key, under) && is_same_record(value, put),
        _ => false,
    }
}

fn is_del(scenario: &Name, key: &Key, other: &Change) -> bool
    ensures { result ≡ same_change (changes.Del scenario.now key.now) other.now }
{
    match other {
        Change::Del {
            scenario: at,
            key: under,
        } => is_same_name(scenario, at) && is_same_key(key, under),
        _ => false,
    }
}

fn is_load(scenario: &Name, rows: &[(Key, Record)], other: &Change) -> bool
    ensures { result ≡ same_change (changes.Load scenario.now rows.now) other.now }
{
    match other {
        Change::Load {
            scenario: at,
            rows: put,
        } => is_same_name(scenario, at) && are_same_rows(rows, put.as_slice()),
        _ => false,
    }
}

fn is_branch(parent: &Name, child: &Name, other: &Change) -> bool
    ensures { result ≡ same_change (changes.Branch parent.now child.now) other.now }
{
    match other {
        Change::Branch {
            parent: from,
            child: made,
        } => is_same_name(parent, from) && is_same_name(child, made),
        _ => false,
    }
}

fn is_share(scenario: &Name, other: &Change) -> bool
    ensures { result ≡ same_change (changes.Share scenario.now) other.now }
{
    match other {
        Change::Share { scenario: at } => is_same_name(scenario, at),
        _ => false,
    }
}

fn is_update(scenario: &Name, other: &Change) -> bool
    ensures { result ≡ same_change (changes.Update scenario.now) other.now }
{
    match other {
        Change::Update { scenario: at } => is_same_name(scenario, at),
        _ => false,
    }
}

fn is_commit(scenario: &Name, other: &Change) -> bool
    ensures { result ≡ same_change (changes.Commit scenario.now) other.now }
{
    match other {
        Change::Commit { scenario: at } => is_same_name(scenario, at),
        _ => false,
    }
}

fn is_drop(scenario: &Name, other: &Change) -> bool
    ensures { result ≡ same_change (changes.Drop scenario.now) other.now }
{
    match other {
        Change::Drop { scenario: at } => is_same_name(scenario, at),
        _ => false,
    }
}

/// Whether rows are the same, in the same order.
fn are_same_rows(rows: &[(Key, Record)], others: &[(Key, Record)]) -> bool
    ensures { result ≡ same_rows rows.now others.now }
{
    if rows.len() != others.len() {
        return false;
    }
    for place in 0..rows.len() {
        if !is_same_row(&rows[place], &others[place]) {
            return false;
        }
    }
    true
}

fn is_same_row(row: &(Key, Record), other: &(Key, Record)) -> bool
    ensures { result ≡ (key_eq row.now.0 other.now.0 && same_record row.now.1 other.now.1) }
{
    is_same_key(&row.0, &other.0) && is_same_record(&row.1, &other.1)
}

fn is_same_name(name: &Name, other: &Name) -> bool
    ensures { result ≡ name_eq name.now other.now }
{
    matches!(name.cmp(other), Ordering::Equal)
}

fn is_same_key(key: &Key, other: &Key) -> bool
    ensures { result ≡ key_eq key.now other.now }
{
    matches!(key.compare(other), Ordering::Equal)
}

fn is_same_record(value: &Record, other: &Record) -> bool
    ensures { result ≡ same_record value.now other.now }
{
    value == other
}
