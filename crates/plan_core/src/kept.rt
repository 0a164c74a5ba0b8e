//! A core: what the book of a plan keeps.
ghost use Rattle.std.specs.Prelude.{◌≡◌, ◌≤◌, ◌+◌, ◌++◌, ◌∷◌, [], true};
ghost use Rattle.std.specs.Prelude.{Some, None, IfOk, IfErr, OnOk, OnErr, IsOk};
ghost use Rattle.scenario_rules.specs.Whole.{AreWholeContents, AreWithinLimits};
ghost use Rattle.std.specs.List.{list_all};
ghost use Rattle.record_versions.specs.Versions.{has_id};
ghost use Rattle.plan_core.specs.Keys.{key_ids};
ghost use Rattle.plan_core.specs.State.{begin_state, point_of, added};
ghost use Rattle.plan_core.specs.Reclaims.{IsReclaimed};
ghost use Rattle.plan_core.specs.Holds.{HoldsFor};

use crate::began::Began;
use crate::keys::stands_on;
use crate::tally::added;
use plan_journal::Journal;
use plan_schema::{Contents, Known};
use plan_walk::Tally;
use scenario_merge::Forest;
use shared_memo::Memo;
use std::alloc::{AllocError, Global};
use std::marker::Model;
use walk_rules::MemoKey;

/// The scenarios of a plan after a history of accepted changes, with the journal of these, the memo and its tally. No record of the
/// base is kept for its own sake: contracts alone see with which records and entries the core began.
#[derive(Drop)]
pub struct Core {
    pub(crate) began: Began,
    pub(crate) forest: Forest,
    pub(crate) journal: Journal,
    pub(crate) memo: Memo<MemoKey, Known>,
    pub(crate) tally: Tally,
    /// How many entries the core began with.
    pub(crate) before: usize,
    /// How many records all entries carry.
    pub(crate) carried: u64,
    pub(crate) alloc: Global,
}

impl Model for Core {
    ghost use Rattle.plan_core.specs.State.{State, state_of};
    ghost use Rattle.plan_core.specs.Holds.{IsCore};

    ghost Value = { State };

    ghost view = { λ core. state_of core.began.base core.began.earlier core.journal.entries
        core.memo core.tally };

    ghost invariant = { λ core. IsCore (state_of core.began.base core.began.earlier
        core.journal.entries core.memo core.tally) core.forest core.before core.carried };
}

impl Core {
    /// A core with these records as the root's, no entries, and an empty memo for so many pairs.
    pub fn begin(alloc: Global, contents: Contents, most: u32) -> Result<Core, AllocError>
        requires whole { AreWholeContents contents }
        requires limits { AreWithinLimits contents }
        requires some { 1 ≤ most }
        requires few { most ≤ 65_536 }
        ensures { IfOk result (λ core. core ≡ begin_state contents most) }
    {
        let journal = Journal::new(alloc);
        let began = Began::with(&contents, &journal);
        let forest = Forest::begin(alloc, &contents)?;
        let memo = Memo::new(alloc, most)?;
        Ok(Core {
            began,
            forest,
            journal,
            memo,
            tally: Tally {
                netted: 0,
                reused: 0,
                dropped: 0,
            },
            before: 0,
            carried: 0,
            alloc,
        })
    }

    /// How many accepted changes there are.
    pub fn point(&self) -> u64
        ensures { result ≡ point_of self.now }
    {
        (self.before + self.journal.len()) as u64
    }

    /// The entries that the core made.
    pub fn journal(&self) -> &Journal
        ensures { result.now.entries ≡ self.now.entries }
    {
        &self.journal
    }

    /// How much was netted, reused and dropped.
    pub fn tally(&self) -> Tally
        ensures { result ≡ self.now.tally }
    {
        self.tally
    }

    /// Tells a caller what holds of each core.
    pub fn holds(&self)
        ensures { HoldsFor self.now }
    {
        let _before = self.before;
    }

    /// Adds work to the tally.
    pub(crate) fn count(&mut self, work: Tally)
        ensures { self.new ≡ record self.old { tally = added self.old.tally work } }
    {
        self.tally = added(self.tally, work);
    }

    /// Gives back the versions of cells that no scenario uses, and the pairs of the memo that stand on them. Answers how many accepted
    /// changes there are. Where there is no memory, nothing is given back.
    pub fn reclaim(&mut self) -> Result<u64, AllocError>
        ensures point { IfOk result (λ point. point ≡ point_of self.old) }
        ensures ok { OnOk result (IsReclaimed self.old self.new) }
        ensures err { OnErr result (self.new ≡ self.old) }
    {
        let point = self.point();
        self.forest.holds();
        version_reclaim::reclaim(
            self.alloc,
            &mut self.forest,
            &mut self.memo,
            |key, live| -> bool
                ensures { result ≡ list_all (has_id live.now) (key_ids key.now) }
            { stands_on(key, live) },
        )?;
        Ok(point)
    }
}
