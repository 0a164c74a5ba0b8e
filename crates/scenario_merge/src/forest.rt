//! Scenarios that branch from one another, and the changes to them.
ghost use Rattle.std.specs.Map.{lookup};
ghost use Rattle.std.specs.BTreeMap.{is_at, insert_entry};
ghost use Rattle.scenario_rules.specs.Whole.{IsWhole};
ghost use Rattle.scenario_rules.specs.Steps.{all_put, with_changes};
ghost use Rattle.std.specs.Prelude.{◌<◌, IsSome, [], ◌∷◌, ◌≡◌, true, not, ◌||◌, length, map, is_some, IfOk, IfErr};
ghost use Rattle.std.specs.Prelude.{IfSome, OnOk, OnErr, IsOk, Some, None};
ghost use Rattle.std.specs.Option.{option_map};
ghost use Rattle.std.specs.List.{slice_get};
ghost use Rattle.version_rules.specs.Meaning.{Meaning};
ghost use Rattle.scenario_merge.specs.Tree.{tree_row};
ghost use Rattle.scenario_merge.specs.Grown.{world_by};
ghost use Rattle.plan_schema.specs.Sound.{is_sound_change};
ghost use Rattle.plan_schema.specs.declared.change.CellName.{CellName};
ghost use Rattle.scenario_rules.specs.World.{scenario_at, scenario, begin_with, is_name_of};
ghost use Rattle.scenario_rules.specs.Steps.{step};
ghost use Rattle.scenario_rules.specs.Refused.{named, access_refusal, scenario_refusal};
ghost use Rattle.scenario_rules.specs.Whole.{AreWholeContents, AreWithinLimits};
ghost use Rattle.record_versions.specs.declared.version.VersionId.{VersionId};
ghost use Rattle.record_versions.specs.Versions.{id_at, cell_at, has_id, only_live};
ghost use Rattle.version_rules.specs.Ids.{AreOlder, begin_ids, step_ids, IsLive};
ghost use Rattle.scenario_merge.specs.Grown.{IsGrown, IsAfterChanges, IsAsBefore, IsStepped, IsSteppedBy, ids_in};
ghost use Rattle.scenario_merge.specs.Faults.{IsAnswered};

use crate::refusals::first_refusal;
use crate::tree::{access, is_name_of};
use plan_schema::{Change, Contents, Key, Name, Record, Refusal};
use record_versions::{IdSet, Ids, Store};
use scenario_cells::{
    Held, based, branched, change_row, changed_rows, given, is_root, lay_all, regroup, root_held,
    root_name, settled, shared,
};
use std::alloc::{AllocError, Global};
use std::collections::BTreeMap;
use std::marker::Model;

/// Why a change wasn't applied.
#[derive(Drop)]
pub enum ApplyFault {
    /// The first rule that refuses it.
    Refused(Refusal),
    /// There was not enough memory.
    Memory,
}

/// A scenario in the tree of scenarios, without what it holds.
#[derive(Clone, Copy)]
pub struct TreeRow {
    pub name: Name,
    /// The scenario that it was branched from: none for the root.
    pub parent: Option<Name>,
    /// The user who branched it: none for the root.
    pub owner: Option<Name>,
    /// Whether its owner alone may use it.
    pub private: bool,
    /// How many own changes it has.
    pub own: usize,
}

impl TreeRow {
    /// Whether a user may use the scenario: it is shared, or theirs.
    pub fn allows(&self, user: &Name) -> bool
        ensures { result ≡ (not self.now.private || is_name_of self.now.owner user.now) }
    {
        !self.private || is_name_of(&self.owner, user)
    }
}

/// The scenarios, by name. Each holds the ids of its cells, and all cells lie in one store, so that scenarios share those in which they
/// don't differ. Contracts see the scenarios with their records, the ids and the cells.
#[derive(Drop)]
pub struct Forest {
    scenarios: BTreeMap<Name, Held>,
    store: Store,
    alloc: Global,
}

impl Model for Forest {
    ghost use Rattle.scenario_merge.specs.Grown.{Grown, grown, IsForest};

    ghost Value = { Grown };

    ghost view = { λ forest. grown forest.scenarios.entries forest.store };

    ghost invariant = { λ forest. IsForest forest.scenarios.entries forest.store };
}

impl Forest {
    /// The root alone, with these records.
    pub fn begin(alloc: Global, contents: &Contents) -> Result<Forest, AllocError>
        requires whole { AreWholeContents contents.now }
        requires limits { AreWithinLimits contents.now }
        ensures world { IfOk result (λ forest. forest.world ≡ begin_with contents.now) }
        ensures ids { IfOk result (λ forest. ids_in forest ≡ begin_ids contents.now) }
    {
        let grouped = regroup(alloc, contents)?;
        let held = root_held(alloc, grouped.ids, contents.parts(), contents.len())?;
        let Some(root) = root_name() else {
            return Err(AllocError);
        };
        let mut scenarios = BTreeMap::new(alloc);
        put_in(&mut scenarios, &root, held)?;
        Ok(Forest {
            scenarios,
            store: grouped.store,
            alloc,
        })
    }

    /// Tells a caller what holds of each forest.
    pub fn holds(&self)
        ensures { IsGrown self.now }
    {
        let _store = &self.store;
    }

    /// The ids of the contents of a scenario that is there.
    pub fn ids(&self, name: &Name) -> Option<&Ids>
        ensures there { is_some result ≡ is_some (scenario_at self.now.world name.now) }
        ensures ids { IfSome result
            (λ ids. (cell : CellName) → id_at ids.now cell
            ≡ (ids_in self.now name.now).contents cell) }
    {
        match self.scenarios.get(name) {
            Some(held) => Some(&held.ids),
            None => None,
        }
    }

    /// The ids of the base of a scenario that is there: of what its parent held when it was branched, last updated or last committed.
    pub fn base_ids(&self, name: &Name) -> Option<&Ids>
        ensures there { is_some result ≡ is_some (scenario_at self.now.world name.now) }
        ensures ids { IfSome result
            (λ ids. (cell : CellName) → id_at ids.now cell ≡ (ids_in self.now name.now).base cell) }
    {
        match self.scenarios.get(name) {
            Some(held) => Some(&held.base),
            None => None,
        }
    }

    /// The cells of all ids.
    pub fn store(&self) -> &Store
        ensures { result.now ≡ self.now.store }
    {
        &self.store
    }

    /// How many own changes a scenario has. The count is kept.
    pub fn own_len(&self, name: &Name) -> usize
        ensures { result ≡ length (scenario self.now.world name.now).own }
    {
        match self.scenarios.get(name) {
            Some(held) => held.own.len(),
            None => 0,
        }
    }

    /// How many scenarios there are.
    pub fn len(&self) -> usize
        ensures { result ≡ length self.now.world }
    {
        self.scenarios.len()
    }

    /// The scenario at a place in the order of names, from 0.
    pub fn at(&self, place: usize) -> Option<TreeRow>
        ensures { result ≡ option_map tree_row (slice_get self.now.world place) }
    {
        row_at(&self.scenarios, place)
    }

    /// All scenarios, in the order of their names.
    pub fn rows(&self) -> Result<Vec<TreeRow>, AllocError>
        ensures { IfOk result (λ rows. rows.items ≡ map tree_row self.now.world) }
    {
        all_rows(self.alloc, &self.scenarios)
    }

    /// Leaves the cells of these ids alone, among which all live ones are. Takes no memory.
    pub fn sweep(&mut self, live: &IdSet)
        requires { (id : VersionId) → IsLive (ids_in self.old) id → has_id live.now id ≡ true }
        ensures same { IsAsBefore self.old self.new }
        ensures store { self.new.store ≡ only_live live.now self.old.store }
    {
        self.store.sweep(live);
    }

    /// Why a user may not query a scenario.
    pub fn access(&self, user: &Name, name: &Name) -> Option<Refusal>
        ensures { result ≡ access_refusal self.now.world user.now name.now }
    {
        access(&self.scenarios, user, name)
    }

    /// Why a change is refused: the first of the rules that applies, whether or not there is room in the journal. Takes no memory.
    pub fn refusal(&self, user: &Name, change: &Change) -> Option<Refusal>
        ensures { result ≡ scenario_refusal self.now.world user.now change.now }
    {
        first_refusal(&self.scenarios, &self.store, user, change)
    }

    /// Applies a change as the entry of this number, which is above that of each id, or tells why it is refused. After an error the
    /// scenarios and their ids are as before; for want of memory the store may have further cells of this number, which a later call
    /// with it replaces.
    pub fn apply(&mut self, point: u64, user: &Name, change: &Change) -> Result<(), ApplyFault>
        requires older { AreOlder point (ids_in self.old) }
        requires sound { is_sound_change change.now ≡ true }
        ensures free { IsOk result → scenario_refusal self.old.world user.now change.now ≡ None }
        ensures world { OnOk result (self.new.world ≡ step self.old.world user.now change.now) }
        ensures ids { OnOk result
            (ids_in self.new ≡ step_ids point self.old.world (ids_in self.old) change.now) }
        ensures fault { IfErr result
            (λ fault. IsAnswered (scenario_refusal self.old.world user.now change.now) fault) }
        ensures err { OnErr result (IsAsBefore self.old self.new) }
    {
        self.holds();
        if let Some(refusal) = self.refusal(user, change) {
            return Err(ApplyFault::Refused(refusal));
        }
        match self.make(point, user, change) {
            Ok(()) => Ok(()),
            Err(_) => Err(ApplyFault::Memory),
        }
    }

    // Makes a change that isn't refused.
    fn make(&mut self, point: u64, user: &Name, change: &Change) -> Result<(), AllocError>
        requires older { AreOlder point (ids_in self.old) }
        requires sound { is_sound_change change.now ≡ true }
        requires there { IsSome (scenario_at self.old.world (named change.now)) }
        requires whole { IsWhole (step self.old.world user.now change.now) }
        ensures ok { OnOk result (IsSteppedBy point user.now change.now self.old self.new) }
        ensures err { OnErr result (IsAsBefore self.old self.new) }
    {
        match change {
            Change::Put {
                scenario,
                key,
                value,
            } => self.change_row(point, scenario, key, &Some(*value)),
            Change::Del { scenario, key } => self.change_row(point, scenario, key, &None),
            Change::Load { scenario, rows } => self.load(point, scenario, rows.as_slice()),
            Change::Branch { parent, child } => self.branch(point, user, parent, child),
            Change::Share { scenario } => self.share(point, scenario),
            Change::Update { scenario } => self.update(point, scenario),
            Change::Commit { scenario } => self.commit(point, scenario),
            Change::Drop { scenario } => {
                self.remove(point, scenario);
                Ok(())
            }
        }
    }

    // Puts a record under a key of a scenario, or takes it away.
    fn change_row(
        &mut self,
        point: u64,
        name: &Name,
        key: &Key,
        value: &Option<Record>,
    ) -> Result<(), AllocError>
        requires there { IsSome (scenario_at self.old.world name.now) }
        requires whole { IsWhole
            (with_changes self.old.world name.now ((key.now, value.now) ∷ [])) }
        requires older { AreOlder point (ids_in self.old) }
        ensures ok { OnOk result
            (IsAfterChanges point name.now ((key.now, value.now) ∷ []) self.old self.new) }
        ensures err { OnErr result (IsAsBefore self.old self.new) }
    {
        let Some(held) = self.scenarios.get_mut(name) else {
            return Err(AllocError);
        };
        let root = is_root(name);
        change_row(self.alloc, held, &mut self.store, point, root, key, value)
    }

    // Puts rows one after another, of which there is one at least.
    fn load(&mut self, point: u64, name: &Name, rows: &[(Key, Record)]) -> Result<(), AllocError>
        requires some { 0 < length rows.now }
        requires whole { IsWhole (with_changes self.old.world name.now (all_put rows.now)) }
        requires older { AreOlder point (ids_in self.old) }
        ensures ok { OnOk result
            (IsAfterChanges point name.now (all_put rows.now) self.old self.new) }
        ensures err { OnErr result (IsAsBefore self.old self.new) }
    {
        let Some(held) = self.scenarios.get(name) else {
            return Err(AllocError);
        };
        let root = is_root(name);
        let new = changed_rows(self.alloc, held, &mut self.store, point, root, rows)?;
        put_in(&mut self.scenarios, name, new)?;
        Ok(())
    }

    // Lets everyone use a scenario.
    fn share(&mut self, point: u64, name: &Name) -> Result<(), AllocError>
        requires whole { IsWhole (step self.old.world [] (Change.Share name.now)) }
        ensures ok { OnOk result (IsStepped point (Change.Share name.now) self.old self.new) }
        ensures err { OnErr result (self.new ≡ self.old) }
    {
        let _point = point;
        let Some(held) = self.scenarios.get(name) else {
            return Err(AllocError);
        };
        let new = shared(held)?;
        put_in(&mut self.scenarios, name, new)?;
        Ok(())
    }

    // Takes a scenario away, without memory.
    fn remove(&mut self, point: u64, name: &Name)
        requires whole { IsWhole (step self.old.world [] (Change.Drop name.now)) }
        ensures { IsStepped point (Change.Drop name.now) self.old self.new }
    {
        let _point = point;
        let _ = self.scenarios.remove(name);
    }

    // Lays the own changes of a scenario over what its parent holds now.
    fn update(&mut self, point: u64, name: &Name) -> Result<(), AllocError>
        requires whole { IsWhole (step self.old.world [] (Change.Update name.now)) }
        requires older { AreOlder point (ids_in self.old) }
        ensures ok { OnOk result (IsStepped point (Change.Update name.now) self.old self.new) }
        ensures err { OnErr result (IsAsBefore self.old self.new) }
    {
        let Some(child) = self.scenarios.get(name) else {
            return Err(AllocError);
        };
        let Some(parent) = &child.parent else {
            return Err(AllocError);
        };
        let Some(above) = self.scenarios.get(parent) else {
            return Err(AllocError);
        };
        let laid = lay_all(self.alloc, above, child, &mut self.store, point)?;
        let new = based(child, &above.ids, laid)?;
        put_in(&mut self.scenarios, name, new)?;
        Ok(())
    }

    // Gives the own changes of a scenario to its parent.
    fn commit(&mut self, point: u64, name: &Name) -> Result<(), AllocError>
        requires whole { IsWhole (step self.old.world [] (Change.Commit name.now)) }
        requires older { AreOlder point (ids_in self.old) }
        ensures ok { OnOk result (IsStepped point (Change.Commit name.now) self.old self.new) }
        ensures err { OnErr result (IsAsBefore self.old self.new) }
    {
        let Some(child) = self.scenarios.get(name) else {
            return Err(AllocError);
        };
        let Some(parent) = &child.parent else {
            return Err(AllocError);
        };
        let Some(above) = self.scenarios.get(parent) else {
            return Err(AllocError);
        };
        let parent = *parent;
        let root = is_root(&parent);
        let laid = lay_all(self.alloc, above, child, &mut self.store, point)?;
        let new = given(root, above, child, &laid)?;
        let new_child = settled(self.alloc, child, laid)?;
        put_two(&mut self.scenarios, &parent, new, name, new_child)?;
        Ok(())
    }

    // Makes a private scenario of the user over what its parent holds.
    fn branch(
        &mut self,
        point: u64,
        user: &Name,
        parent: &Name,
        child: &Name,
    ) -> Result<(), AllocError>
        requires whole { IsWhole
            (step self.old.world user.now (Change.Branch parent.now child.now)) }
        ensures ok { OnOk result
            (IsSteppedBy point user.now (Change.Branch parent.now child.now) self.old self.new) }
        ensures err { OnErr result (self.new ≡ self.old) }
    {
        let _point = point;
        let Some(above) = self.scenarios.get(parent) else {
            return Err(AllocError);
        };
        let new = branched(self.alloc, user, parent, above)?;
        put_in(&mut self.scenarios, child, new)?;
        Ok(())
    }
}

// The row of a scenario that is held.
fn tree_row(name: &Name, held: &Held) -> TreeRow
    ensures { result ≡ record {
      name = name.now;
      parent = held.now.parent;
      owner = held.now.owner;
      private =
          held.now.private;
      own =
          length held.now.own;
    } }
{
    TreeRow {
        name: *name,
        parent: held.parent,
        owner: held.owner,
        private: held.private,
        own: held.own.len(),
    }
}

// The row at a place in the order of names.
fn row_at(scenarios: &BTreeMap<Name, Held>, place: usize) -> Option<TreeRow>
    ensures { (m : Meaning) → result
        ≡ option_map tree_row (slice_get (world_by m scenarios.now.entries) place) }
{
    let mut left = place;
    for (name, held) in scenarios.iter() {
        if left == 0 {
            return Some(tree_row(name, held));
        }
        left -= 1;
    }
    None
}

// The rows of all scenarios, in the order of names.
fn all_rows(alloc: Global, scenarios: &BTreeMap<Name, Held>) -> Result<Vec<TreeRow>, AllocError>
    ensures { (m : Meaning) → IfOk result
        (λ rows. rows.items ≡ map tree_row (world_by m scenarios.now.entries)) }
{
    let mut rows = Vec::new(alloc);
    for (name, held) in scenarios.iter() {
        rows.push(tree_row(name, held))?;
    }
    Ok(rows)
}

// Puts a value under a key.
fn put_in<K: Ord + Copy, V: Drop>(
    map: &mut BTreeMap<K, V>,
    key: &K,
    value: V,
) -> Result<(), AllocError>
    ensures ok { OnOk result (map.new.entries ≡ insert_entry K.cmp map.old.entries key.now value) }
    ensures err { OnErr result (map.new.entries ≡ map.old.entries) }
{
    map.insert(*key, value)?;
    Ok(())
}

// Puts two values under keys that are both there.
fn put_two<K: Ord + Copy, V: Drop>(
    map: &mut BTreeMap<K, V>,
    key: &K,
    value: V,
    other: &K,
    other_value: V,
) -> Result<(), AllocError>
    requires there { IsSome (lookup (is_at (K.cmp other.now)) map.old.entries) }
    ensures ok { OnOk result
        (map.new.entries ≡ insert_entry K.cmp (insert_entry K.cmp map.old.entries key.now value)
        other.now other_value) }
    ensures err { OnErr result (map.new.entries ≡ map.old.entries) }
{
    map.insert(*key, value)?;
    map.insert(*other, other_value)?;
    Ok(())
}
