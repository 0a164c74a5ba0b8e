//! Sessions.
ghost use Rattle.std.specs.Prelude.{◌≡◌, ◌≢◌, ◌≤◌, ℕ, List, Some};
ghost use Rattle.byte_lines.specs.declared.rounds.Served.TheVariants as ends;
ghost use Rattle.plan_book.specs.declared.ground.Ground.{Ground};
ghost use Rattle.plan_book.specs.Books.{history};
ghost use Rattle.request_loop.specs.Handed.{Ending};
ghost use Rattle.sessions.specs.InTurns.{IsReady};
ghost use Rattle.sessions.specs.Ends.{BookEnding, PassEnding};
ghost use Rattle.sessions.specs.Serving.{setting, Serves, ServesInTurns};

use crate::alone::Alone;
use crate::answering::Session;
use crate::in_turns::InTurns;
use crate::terms::Terms;
use byte_lines::{Served, Sink, Source};
use plan_book::PlanBook;
use plan_office::{Office, Pass};
use request_loop::serve_requests;
use std::alloc::Global;
use std::sync::Wait;

/// Serves one session at an office, in turns: reads its requests to the end or to QUIT, and writes a reply to each. Each request is one
/// turn at the book, or a few where a question asks for plans; netting, reading, writing and spelling happen outside of them. The point
/// of a question is fixed in its first turn. It may wait for other passes.
pub fn serve<B: PlanBook, S: Source, K: Sink, R: Wait>(
    rt: &R,
    alloc: Global,
    office: &Office<B>,
    pass: &mut Pass<B>,
    source: &mut S,
    sink: &mut K,
) -> Served
    requires { IsReady office.now pass.old }
    ensures ready { IsReady office.now pass.new }
    ensures cause { Ending S.faults S.label K.faults K.label source.old source.new sink.old sink.new
        result }
    ensures pass { PassEnding pass.old pass.new result }
    ensures served { (began : Ground) (input : List ℕ) → pass.old.basis ≡ Some began
        → S.left source.old ≡ Some input
        → ServesInTurns began pass.old pass.new input (K.taken sink.old) (K.taken sink.new) result }
{
    let session = Session::new(alloc, InTurns { rt, office });
    serve_requests(alloc, &session, pass, source, sink)
}

/// Serves one session over a book, which waits for nobody: reads its requests to the end or to QUIT, and writes a reply to each. Where
/// nothing may be changed, each change is answered `read-only`. The plans that a question asks for are netted between the calls of the
/// book.
pub fn serve_alone<B: PlanBook, S: Source, K: Sink>(
    alloc: Global,
    book: &mut B,
    session: u64,
    may_change: bool,
    source: &mut S,
    sink: &mut K,
) -> Served
    requires some { 1 ≤ session }
    requires most { session ≤ 16 }
    ensures cause { Ending S.faults S.label K.faults K.label source.old source.new sink.old sink.new
        result }
    ensures book { BookEnding B.faults B.basis book.old book.new result }
    ensures worn { result ≢ ends.Worn }
    ensures served { (input : List ℕ) → S.left source.old ≡ Some input
        → Serves (setting may_change session (B.basis book.old) (B.story book.old))
        (history (B.basis book.new) (B.story book.new)) input (K.taken sink.old)
        (K.taken sink.new) result }
{
    let alone = Alone::new(Terms {
        session,
        may_change,
    });
    let session = Session::new(alloc, alone);
    serve_requests(alloc, &session, book, source, sink)
}
