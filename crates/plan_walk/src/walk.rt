//! A walk over a plan.
ghost use Rattle.std.specs.Prelude.{◌≡◌, ◌==◌, ◌+◌, ℕ, List, [], true};
ghost use Rattle.std.specs.Prelude.{length, map, Some, IfOk, IfErr, OnOk, MatchOption, slice_get};
ghost use Rattle.std.specs.Option.{option_copied};
ghost use Rattle.plan_schema.specs.declared.name.Name.{Name};
ghost use Rattle.low_level_codes.specs.Numbers.{Lacks};
ghost use Rattle.version_rules.specs.Meaning.{Meaning};
ghost use Rattle.walk_rules.specs.Cells.{Stands, records};
ghost use Rattle.plan_jobs.specs.Jobs.{IsJob, asked_by, wants_plan};
ghost use Rattle.walk_names.specs.Names.{IsTrouble};
ghost use Rattle.walk_rules.specs.Memo.{MemoRight};
ghost use Rattle.walk_rules.specs.Walks.{known_at, names_of};
ghost use Rattle.planning_rules.specs.Plan.{plan};
ghost use Rattle.planning_rules.specs.Refused.{is_large, least_name};
ghost use Rattle.plan_walk.specs.Nodes.{names_at};
ghost use Rattle.plan_walk.specs.Walk.{Begins, IsOpen, IsSolved, Settles, EndsSettled, WalksItsJob, round_of};

use crate::graph::{nodes_of, nothing_known, ready_places, version_of};
use crate::large::least_large;
use crate::node::{Node, value_at};
use crate::round::{Round, Tally};
use crate::settle::settle_parts;
use crate::solved::Solved;
use low_level_codes::Numbering;
use plan_jobs::Job;
use plan_schema::{CellName, Known, Name};
use record_versions::VersionId;
use shared_memo::Memo;
use std::alloc::{AllocError, Global};
use std::marker::Model;
use std::sync::Arc;
use walk_names::{Trouble, names_by_level};
use walk_rules::MemoKey;

/// A walk over a plan: its job, its parts by level and then by name with what is known of them, and which are to be netted next.
/// The graph of the parts is made once.
#[derive(Drop)]
pub struct Walk {
    pub(crate) alloc: Global,
    pub(crate) job: Job,
    pub(crate) plan: VersionId,
    pub(crate) nodes: Vec<Node>,
    pub(crate) known: Vec<Option<Arc<Known>>>,
    pub(crate) front: Vec<usize>,
    pub(crate) places: Numbering,
}

impl Model for Walk {
    ghost use Rattle.std.specs.Prelude.{length};
    ghost use Rattle.plan_walk.specs.View.{View};
    ghost use Rattle.plan_walk.specs.Nodes.{node_names, names_at, shown};
    ghost use Rattle.plan_walk.specs.Places.{parts_of};
    ghost use Rattle.plan_walk.specs.Walk.{IsWalk};

    ghost Value = { View };

    ghost view = { λ w. record {
      job = w.job;
      parts = parts_of (node_names w.nodes.items) (shown w.known.items);
      front = names_at (node_names w.nodes.items) w.front.items;
    } };

    ghost invariant = { λ w.
        IsWalk w.job w.plan w.nodes.items (length w.known.items) w.front.items w.places };
}

impl Walk {
    /// The walk of a question about the plan of a part or of all parts, with nothing known; or the first refusal of the plan that needs
    /// no plans.
    pub fn prepare(alloc: Global, job: Job) -> Result<Walk, Trouble>
        requires wants { wants_plan job.wanted ≡ true }
        requires job { IsJob job.wanted job.cells }
        ensures begins { IfOk result (Begins job) }
        ensures open { IfOk result IsOpen }
        ensures refused { let c = records job.cells in
            IfErr result (IsTrouble c (asked_by c job.wanted) job.point) }
    {
        let names = names_by_level(alloc, &job)?;
        let (nodes, places) = nodes_of(alloc, &job, names.as_slice())?;
        let known = nothing_known(alloc, nodes.len())?;
        let front = ready_places(alloc, nodes.as_slice(), known.as_slice())?;
        let plan = version_of(&job.cells, &CellName::Plan, &mut 0);
        Ok(Walk {
            alloc,
            job,
            plan,
            nodes,
            known,
            front,
            places,
        })
    }

    /// Makes results known and puts each into the memo, and then takes all hits from it. Where there is no memory for it, the walk can
    /// only be dropped; the memo stays right.
    pub fn settle(
        &mut self,
        memo: &mut Memo<MemoKey, Known>,
        solved: Solved,
    ) -> Result<(Round, Tally), AllocError>
        requires open { IsOpen self.old }
        requires solved { IsSolved self.old solved }
        requires meant { (m : Meaning) × MemoRight m memo.old.pairs × Stands m self.old.job.cells }
        ensures settles { IfOk result
            (λ r. Settles self.old self.new memo.old.pairs memo.new.pairs memo.old.most solved r.0
            r.1) }
        ensures ends { IfOk result (λ r. EndsSettled self.new r.0) }
        ensures open { OnOk result (IsOpen self.new) }
        ensures job { self.new.job ≡ self.old.job }
        ensures most { memo.new.most ≡ memo.old.most }
        ensures right { (m : Meaning) → MemoRight m memo.old.pairs → Stands m self.old.job.cells
            → MemoRight m memo.new.pairs }
    {
        let mut next = Vec::new(self.alloc);
        let tally = settle_parts(
            self.alloc,
            &self.plan,
            self.nodes.as_slice(),
            self.front.as_slice(),
            solved.results.as_slice(),
            self.known.as_mut_slice(),
            &mut next,
            memo,
        )?;
        let round = round_after(next.as_slice());
        self.front = next;
        Ok((round, tally))
    }

    /// Tells a caller what holds of each walk.
    pub fn holds(&self)
        ensures { WalksItsJob self.now }
    {
        let _job = &self.job;
    }

    /// The question that the walk is for, with its cells.
    pub fn job(&self) -> &Job
        ensures { result.now ≡ self.now.job }
    {
        &self.job
    }

    /// How many parts the walk has.
    pub fn len(&self) -> usize
        ensures { result ≡ length self.now.parts }
    {
        self.nodes.len()
    }

    /// Whether the walk has no parts.
    pub fn is_empty(&self) -> bool
        ensures { result ≡ (length self.now.parts == 0) }
    {
        self.nodes.is_empty()
    }

    /// How many parts are to be netted next.
    pub fn frontier_len(&self) -> usize
        ensures { result ≡ length self.now.front }
    {
        self.front.len()
    }

    /// The part that is to be netted at a place of the frontier, from 0.
    pub fn frontier_at(&self, place: usize) -> Option<&Name>
        ensures { option_copied result ≡ slice_get self.now.front place }
    {
        let at = *self.front.get(place)?;
        Some(&self.nodes[at].name)
    }

    /// The part at a place, from 0: the parts stand by level, and in a level by name.
    pub fn name_at(&self, place: usize) -> Option<&Name>
        ensures { option_copied result ≡ slice_get (names_of self.now.parts) place }
    {
        self.places.name(place)
    }

    /// The place of a part.
    pub fn place_of(&self, name: &Name) -> Option<usize>
        ensures { MatchOption result (Lacks (names_of self.now.parts) name.now)
            (λ place. slice_get (names_of self.now.parts) place ≡ Some name.now) }
    {
        self.places.find(name)
    }

    /// What is known of a part.
    pub fn known(&self, name: &Name) -> Option<&Known>
        ensures { option_copied result ≡ known_at self.now.parts name.now }
    {
        match self.places.find(name) {
            Some(place) => value_at(self.known.as_slice(), place),
            None => None,
        }
    }

    /// The least name whose plan is too large, where the walk is at its end.
    pub fn too_large(&self) -> Option<Name>
        requires open { IsOpen self.now }
        requires done { self.now.front ≡ [] }
        ensures { let c = records self.now.job.cells in
            result ≡ least_name (λ n. is_large (plan c n)) (names_of self.now.parts) }
    {
        least_large(self.nodes.as_slice(), self.known.as_slice())
    }
}

/// Whether a walk with this frontier is at its end.
fn round_after(front: &[usize]) -> Round
    ensures { (ns : List Name) → result ≡ round_of (names_at ns front.now) }
{
    if front.is_empty() {
        Round::Done
    } else {
        Round::More
    }
}
