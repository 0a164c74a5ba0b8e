//! A session is gone through: its requests are heard, and the reply to each is judged.
ghost use Rattle.std.specs.Prelude.{◌≡◌, ◌≢◌, ◌≤◌, ℕ, List, Some, None, Err, [], IfOk, IfErr};
ghost use Rattle.plan_schema.specs.Outside.{Rose};
ghost use Rattle.scenario_rules.specs.Whole.{AreWholeContents, AreWithinLimits};
ghost use Rattle.session_rules.specs.Requests.{guest};
ghost use Rattle.plan_audit.specs.Judging.{none_seen};
ghost use Rattle.plan_audit.specs.Cases.{terms_of, AreTerms, IsBehind, seen_by, StaysSource};
ghost use Rattle.plan_audit.specs.Sessions.{IsReady, to_read, IsStep, IsHalt, IsHeardTo, fault_of};
ghost use Rattle.plan_audit.specs.Sessions.{IsClosed, IsThrough, IsSessionFault};
ghost use Rattle.plan_audit.specs.Ahead.{still};
ghost use Rattle.plan_audit.specs.Verdicts.{Pair};
ghost use Rattle.plan_audit.specs.declared.session.SessionFault.TheVariants as session;

use crate::case::{Case, Found, Judge};
use crate::judge::{judge_answer, judge_change, judge_fault};
use crate::replies::{Replies, ReplyFault};
use crate::verdict::AuditRule;
use byte_lines::{Served, Sink, SinkFault, Source};
use command_words::{Bad, Command, Reply};
use plan_book::Book;
use plan_schema::{Change, Name};
use request_loop::{Answers, Why, serve_requests};
use std::alloc::AllocError;
use std::marker::PhantomData;

/// Why a session isn't let through.
#[derive(Clone, Copy)]
pub enum SessionFault {
    /// The source of the input failed.
    Input,
    /// The source of the written output failed.
    Output,
    /// The input is longer than a session's input may be.
    Limit,
    /// There is no memory.
    Memory,
    /// The reply to the request in this line breaks a rule.
    Breaks(u64, AuditRule),
}

/// Why no more replies are judged, and behind which line.
#[derive(Clone, Copy)]
struct Halt {
    line: u64,
    found: Found,
}

/// A session whose requests are heard: the judge of its replies, and where these come from.
#[derive(Drop)]
struct Hearing<'a, K: 'a> {
    judge: Judge,
    output: &'a mut K,
    halt: Option<Halt>,
}

/// Hears the requests of a session, and has the reply to each judged.
#[derive(Drop)]
struct Hearer<'a, K: 'a> {
    case: Case<'a>,
    output: PhantomData<K>,
}

/// A sink that keeps nothing: the replies that are written again are no one's.
#[derive(Drop)]
struct Nothing;

impl Sink for Nothing {
    ghost taken = { λ _. None };

    ghost faults = { λ _. 0 };

    ghost label = { λ _. [] };

    fn write(&mut self, from: &[u8]) -> Result<usize, SinkFault> {
        Ok(from.len())
    }
}

impl<'a, K: Source + 'a> Answers for Hearer<'a, K> {
    type State = Hearing<'a, K>;

    ghost ready = { λ hearer hearing. IsReady (terms_of hearer.case) hearing.judge };

    ghost gives = { λ hearer old user request _ new.
        (new.output.ghost_name ≡ old.output.ghost_name)
        × IsStep K.left K.faults K.label (terms_of hearer.case) old.judge new.judge
        old.output.now new.output.now user request };

    ghost stops = { λ hearer old user request _ new.
        (new.output.ghost_name ≡ old.output.ghost_name)
        × IsHalt K.left K.faults K.label (terms_of hearer.case) old.judge
        old.output.now new.output.now user request new.halt };

    fn change(
        &self,
        hearing: &mut Hearing<'a, K>,
        line: u64,
        user: &Name,
        change: Change,
    ) -> Result<Reply, Why> {
        let judge = &mut hearing.judge;
        match judge_change(&self.case, judge, &mut *hearing.output, line, user, &change) {
            Ok(()) => Ok(Reply::Mem),
            Err(found) => {
                hearing.halt = Some(Halt { line, found });
                Err(Why::Failed)
            }
        }
    }

    fn faulty(
        &self,
        hearing: &mut Hearing<'a, K>,
        line: u64,
        _user: &Name,
        bad: Bad,
    ) -> Result<Reply, Why> {
        let judge = &mut hearing.judge;
        match judge_fault(&self.case, judge, &mut *hearing.output, line, bad) {
            Ok(()) => Ok(Reply::Mem),
            Err(found) => {
                hearing.halt = Some(Halt { line, found });
                Err(Why::Failed)
            }
        }
    }

    fn wanting(&self, hearing: &mut Hearing<'a, K>, line: u64, _user: &Name) -> Result<Reply, Why> {
        let found = Found::Memory;
        hearing.halt = Some(Halt { line, found });
        Err(Why::Failed)
    }

    fn ask(
        &self,
        hearing: &mut Hearing<'a, K>,
        line: u64,
        user: &Name,
        command: &Command<'_>,
    ) -> Result<Reply, Why> {
        let judge = &mut hearing.judge;
        match judge_answer(&self.case, judge, &mut *hearing.output, line, user, command) {
            Ok(()) => Ok(Reply::Mem),
            Err(found) => {
                hearing.halt = Some(Halt { line, found });
                Err(Why::Failed)
            }
        }
    }
}

/// Hears all requests of an input.
fn hear<'a, S: Source, K: Source + 'a>(
    hearer: &Hearer<'a, K>,
    hearing: &mut Hearing<'a, K>,
    source: &mut S,
) -> Result<(), SessionFault>
    requires { IsReady (terms_of hearer.now.case) hearing.old.judge }
    ensures name { hearing.new.output.ghost_name ≡ hearing.old.output.ghost_name }
    ensures output { StaysSource K.faults K.label hearing.old.output.now hearing.new.output.now }
    ensures input { StaysSource S.faults S.label source.old source.new }
    ensures read { result ≡ Err session.Input → Rose (S.faults source.old) (S.faults source.new) }
    ensures fault { result ≡ Err session.Output
        → Rose (K.faults hearing.old.output.now) (K.faults hearing.new.output.now) }
    ensures heard { (input output : List ℕ) → S.left source.old ≡ Some input
        → to_read K.left K.faults K.label (terms_of hearer.now.case) hearing.old.judge hearing.old.output.now ≡ Some output
        → IsHeardTo (terms_of hearer.now.case) hearing.old.judge hearing.new.judge input output
        (to_read K.left K.faults K.label (terms_of hearer.now.case) hearing.new.judge hearing.new.output.now) result }
{
    let mut nothing = Nothing;
    let alloc = hearer.case.alloc;
    match serve_requests(alloc, hearer, hearing, source, &mut nothing) {
        Served::Ended(_) => Ok(()),
        Served::ReadFault => Err(SessionFault::Input),
        Served::Limit => Err(SessionFault::Limit),
        Served::BookFault => Err(why_halted(&hearing.halt)),
        Served::Worn => Err(why_halted(&hearing.halt)),
        Served::WriteFault | Served::Memory => Err(SessionFault::Memory),
    }
}

/// The fault of a session whose replies weren't all judged.
fn why_halted(halt: &Option<Halt>) -> SessionFault
    ensures { result ≡ fault_of halt.now }
{
    match halt {
        None => SessionFault::Memory,
        Some(halt) => match halt.found {
            Found::Read => SessionFault::Output,
            Found::Memory => SessionFault::Memory,
            Found::Breaks(rule) => SessionFault::Breaks(halt.line, rule),
        },
    }
}

/// A judge before the first request.
fn begin(case: &Case<'_>) -> Result<Judge, AllocError>
    requires whole { AreWholeContents case.now.base.now }
    requires limits { AreWithinLimits case.now.base.now }
    requires low { case.now.floor ≤ case.now.ceiling }
    ensures behind { IfOk result (IsBehind (terms_of case.now)) }
    ensures none { IfOk result (λ judge. (output : List ℕ)
        → seen_by judge guest output ≡ none_seen case.now.floor output) }
    ensures ahead { IfOk result (λ judge. judge.replies.ahead ≡ []) }
{
    let contents = case.base.copy()?;
    let book = Book::begin(case.alloc, contents, 1)?;
    Ok(Judge {
        replies: Replies::new(case.alloc),
        book,
        last: case.floor,
        line: 0,
        accepted: Vec::new(case.alloc),
    })
}

/// Tells whether bytes follow the last reply.
fn close<K: Source>(judge: &mut Judge, output: &mut K) -> Result<(), SessionFault>
    ensures accepted { judge.new.accepted ≡ judge.old.accepted }
    ensures source { StaysSource K.faults K.label output.old output.new }
    ensures fault { result ≡ Err session.Output → Rose (K.faults output.old) (K.faults output.new) }
    ensures within { result ≢ Err session.Input }
    ensures closed { (rest : List ℕ)
        → still judge.old.replies.ahead (K.left output.old) ≡ Some rest
        → IsClosed judge.old.line rest result }
{
    match judge.replies.is_at_end(output) {
        Ok(true) => Ok(()),
        Ok(false) => Err(SessionFault::Breaks(judge.line, AuditRule::Extra)),
        Err(ReplyFault::Read) => Err(SessionFault::Output),
        Err(ReplyFault::Memory) => Err(SessionFault::Memory),
    }
}

/// Goes through a session: hears its requests, reads the reply to each from what the session wrote, and judges it. Answers the points of
/// the accepted changes, or the first fault. Input and output are read piece by piece, and a reply is compared with the right one as
/// soon as it was read. A book of its own goes forward in the journal up to each point, so nothing of another session's plans is used,
/// and the plans of a question are netted anew.
pub fn audit_session<S: Source, K: Source>(
    case: Case<'_>,
    source: &mut S,
    output: &mut K,
) -> Result<Vec<u64>, SessionFault>
    requires whole { AreWholeContents case.base.now }
    requires limits { AreWithinLimits case.base.now }
    requires terms { AreTerms (terms_of case) }
    ensures points { (pair : Pair) → S.left source.old ≡ Some pair.input
        → K.left output.old ≡ Some pair.output
        → IfOk result (λ points. IsThrough (terms_of case.entry) pair points.items) }
    ensures fault { (pair : Pair) → S.left source.old ≡ Some pair.input
        → K.left output.old ≡ Some pair.output
        → IfErr result (IsSessionFault (terms_of case.entry) pair) }
    ensures input { StaysSource S.faults S.label source.old source.new }
    ensures output { StaysSource K.faults K.label output.old output.new }
    ensures read { result ≡ Err session.Input → Rose (S.faults source.old) (S.faults source.new) }
    ensures read_output { result ≡ Err session.Output
        → Rose (K.faults output.old) (K.faults output.new) }
{
    let Ok(judge) = begin(&case) else {
        return Err(SessionFault::Memory);
    };
    let hearer = Hearer {
        case,
        output: PhantomData,
    };
    let mut hearing = Hearing {
        judge,
        output,
        halt: None,
    };
    let heard = hear(&hearer, &mut hearing, source);
    let Hearing { judge, output, .. } = hearing;
    let mut judge = judge;
    if let Err(fault) = heard {
        return Err(fault);
    }
    match close(&mut judge, output) {
        Ok(()) => Ok(judge.accepted),
        Err(fault) => Err(fault),
    }
}
