//! What the replies of a session are judged by, and what is kept of those that were.
ghost use Rattle.std.specs.Prelude.{◌≡◌, ◌++◌, OnOk};
ghost use Rattle.plan_schema.specs.declared.change.Change.{Change};
ghost use Rattle.session_rules.specs.Requests.{Makes};
ghost use Rattle.plan_audit.specs.Judging.{last_after, point_accepted};
ghost use Rattle.plan_audit.specs.Replies.{form_for};

use crate::form::ReplyForm;
use crate::replies::{Replies, ReplyFault};
use crate::verdict::AuditRule;
use plan_book::Book;
use plan_schema::{Contents, Entry};
use std::alloc::{AllocError, Global};

/// What the replies of a session are judged by.
#[derive(Clone, Copy)]
pub struct Case<'a> {
    pub alloc: Global,
    /// The records that the root began with.
    pub base: &'a Contents,
    /// The entries of the journal, none of which is refused behind those before it.
    pub entries: &'a [Entry],
    /// The session's number.
    pub session: u64,
    /// How many entries there were before the session's round.
    pub floor: u64,
    /// How many there were behind it.
    pub ceiling: u64,
}

/// What is kept of a session whose replies are judged one behind the other.
#[derive(Drop)]
pub(crate) struct Judge {
    pub(crate) replies: Replies,
    /// A book that goes forward in the journal, up to the last point.
    pub(crate) book: Book,
    /// The last point that was printed.
    pub(crate) last: u64,
    /// The line of the last request.
    pub(crate) line: u64,
    /// The points of the accepted changes.
    pub(crate) accepted: Vec<u64>,
}

/// Why a reply isn't let through.
#[derive(Clone, Copy)]
pub(crate) enum Found {
    /// The source of the output failed.
    Read,
    /// There is no memory.
    Memory,
    /// It breaks a rule.
    Breaks(AuditRule),
}

impl From<AllocError> for Found {
    ghost use Rattle.plan_audit.specs.declared.case.Found.TheVariants as found;

    ghost from_gives = { λ _ fault. fault ≡ found.Memory };

    fn from(_: AllocError) -> Found {
        Found::Memory
    }
}

impl From<ReplyFault> for Found {
    ghost use Rattle.plan_audit.specs.Cases.{found_for};

    ghost from_gives = { λ fault found. found ≡ found_for fault };

    fn from(fault: ReplyFault) -> Found {
        match fault {
            ReplyFault::Read => Found::Read,
            ReplyFault::Memory => Found::Memory,
        }
    }
}

impl Judge {
    ghost use Rattle.plan_audit.specs.Cases.{JudgeKeeps};

    /// Takes a reply's point for the last one, where it prints one.
    pub(crate) fn reach(&mut self, form: ReplyForm)
        ensures last { self.new.last ≡ last_after self.old.last (form_for form) }
        ensures line { self.new.line ≡ self.old.line }
        ensures accepted { self.new.accepted ≡ self.old.accepted }
        ensures rest { JudgeKeeps self.old self.new }
    {
        if let Some(point) = form.point() {
            self.last = point;
        }
    }

    /// Goes on behind a reply to a change, in this line, that breaks no rule.
    pub(crate) fn pass(&mut self, line: u64, form: ReplyForm) -> Result<(), AllocError>
        ensures last { self.new.last ≡ self.old.last }
        ensures line { OnOk result (self.new.line ≡ line) }
        ensures accepted { OnOk result ((change : Change) → self.new.accepted.items
            ≡ self.old.accepted.items ++ point_accepted (Makes change) (form_for form)) }
        ensures rest { JudgeKeeps self.old self.new }
    {
        if let ReplyForm::Done(point) = form {
            self.accepted.push(point)?;
        }
        self.line = line;
        Ok(())
    }
}
