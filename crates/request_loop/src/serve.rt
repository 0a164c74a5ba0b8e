//! The loop: an input is read piece by piece, its lines are served, and the replies are written.
ghost use Rattle.byte_lines.specs.declared.rounds.Served.TheVariants as ends;
ghost use Rattle.std.specs.Prelude.{◌≡◌, ◌≢◌, ◌⊎◌, ◌+◌, ◌≤◌, ◌∷◌};
ghost use Rattle.std.specs.Prelude.{◌++◌, [], ℕ, List, Option, false, length};
ghost use Rattle.std.specs.Prelude.{None, Some, Err, OnOk, option_map};
ghost use Rattle.byte_lines.specs.Cuts.{shown};
ghost use Rattle.byte_lines.specs.Lines.{line_of, lines_from, lines_after, no_bytes};
ghost use Rattle.plan_schema.specs.Outside.{Rose};
ghost use Rattle.plan_schema.specs.declared.outside.SinkFault.TheVariants as sinks;
ghost use Rattle.request_loop.specs.declared.answers.Why.{Why};
ghost use Rattle.request_loop.specs.declared.hear.Stop.TheVariants as stop;
ghost use Rattle.request_loop.specs.Gathered.{AreBegun};
ghost use Rattle.request_loop.specs.Heard.{counted_after};
ghost use Rattle.request_loop.specs.Serving.{ServedMore, ServedLast, SoFar, HasServed, sink_end};
ghost use Rattle.request_loop.specs.Handed.{WriteCauses, Ending, HasEnded};

use crate::answers::{Answers, Why};
use crate::gathering::Gathering;
use crate::hear::{Heard, Stop, fault_handed_on, hear};
use byte_lines::{Cut, Cutter, Served, Sink, SinkFault, Source};
use command_words::{Page, flush};
use plan_schema::Name;
use plan_schema::limits::{BYTE_LIMIT, LINE_LIMIT};
use std::alloc::Global;

/// The lines so far: the one that is read, how many were read, how many requests they were, and who speaks.
#[derive(Drop)]
struct Progress {
    cutter: Cutter,
    lines: u64,
    requests: u64,
    user: Name,
    /// The LOAD whose rows are read.
    rows: Option<Gathering>,
}

/// Who speaks before the first HELLO.
const GUEST: &[u8] = b"guest";

/// How much is read at once.
const PIECE: usize = 16_384;

/// Serves a session: answers its requests to the end or to QUIT, and writes the replies. What the page holds is written before the source
/// is read again, before a change is handed on, where it is full, and at the end, so no reply waits while another change is entered or
/// while the source is waited for. It always returns, and takes memory for the rows of a LOAD alone.
pub fn serve_requests<A: Answers, S: Source, K: Sink>(
    alloc: Global,
    answers: &A,
    state: &mut A::State,
    source: &mut S,
    sink: &mut K,
) -> Served
    requires { A.ready answers.now state.old }
    ensures ready { A.ready answers.now state.new }
    ensures cause { Ending S.faults S.label K.faults K.label source.old source.new sink.old sink.new
        result }
    ensures served { HasServed (A.gives answers.now) (A.stops answers.now) state.old state.new
        (S.left source.old) (K.taken sink.old) (K.taken sink.new) result }
{
    let mut buffer = [0u8; PIECE];
    let Some(user) = Name::read(GUEST) else {
        unreachable!()
    };
    let mut page = Page::new();
    let mut progress = Progress {
        cutter: Cutter::new(),
        lines: 0,
        requests: 0,
        user,
        rows: None,
    };
    let mut left = BYTE_LIMIT as u64;
    'reads: loop {
        if let Err(fault) = flush(&mut page, sink) {
            return sink_fault(fault);
        }
        let Ok(count) = source.read(&mut buffer) else {
            return Served::ReadFault;
        };
        if count == 0 {
            let end = serve_rest(alloc, answers, state, &mut progress, &mut page, sink);
            return ended(end, progress.requests, &mut page, sink);
        }
        let within = left.min(count as u64) as usize;
        let piece = &buffer[..within];
        let served = serve_piece(alloc, answers, state, &mut progress, piece, &mut page, sink);
        if let Err(stop) = served {
            return ended(Err(stop), progress.requests, &mut page, sink);
        }
        if within < count {
            return ended(Err(Stop::Limit), progress.requests, &mut page, sink);
        }
        left -= within as u64;
    }
}

/// How a session ends, once what the page holds is written.
fn ended<K: Sink>(end: Result<(), Stop>, requests: u64, page: &mut Page, sink: &mut K) -> Served
    ensures later { K.faults sink.old ≤ K.faults sink.new }
    ensures failed { result ≡ ends.WriteFault → (end ≡ Err (stop.Sink sinks.Failed))
        ⊎ Rose (K.faults sink.old) (K.faults sink.new) }
    ensures read { result ≢ ends.ReadFault }
    ensures same { K.label sink.new ≡ K.label sink.old }
    ensures text { HasEnded K.taken sink.old sink.new page.old.items requests end result }
{
    if let Err(Stop::Sink(fault)) = end {
        return sink_fault(fault);
    }
    if let Err(fault) = flush(page, sink) {
        return sink_fault(fault);
    }
    match end {
        Ok(()) | Err(Stop::Quit) => Served::Ended(requests),
        Err(Stop::Limit) => Served::Limit,
        Err(Stop::Kept(Why::Failed)) => Served::BookFault,
        Err(Stop::Kept(Why::Worn)) => Served::Worn,
        Err(Stop::Sink(fault)) => sink_fault(fault),
    }
}

fn sink_fault(fault: SinkFault) -> Served
    ensures { result ≡ sink_end fault }
{
    match fault {
        SinkFault::Failed => Served::WriteFault,
        SinkFault::Memory => Served::Memory,
    }
}

/// Serves the lines that end in a piece of the input.
fn serve_piece<A: Answers, K: Sink>(
    alloc: Global,
    answers: &A,
    state: &mut A::State,
    progress: &mut Progress,
    piece: &[u8],
    page: &mut Page,
    sink: &mut K,
) -> Result<(), Stop>
    requires ready { A.ready answers.now state.old }
    requires rows { AreBegun progress.old.rows }
    requires begun { progress.old.cutter.is_complete ≡ false }
    ensures begun { OnOk result (progress.new.cutter.is_complete ≡ false) }
    ensures kept { OnOk result
        (progress.new.cutter.kept ≡ (lines_from progress.old.cutter.kept piece.now).1) }
    ensures counted { OnOk result
        (progress.new.lines ≡ progress.old.lines
        + length (lines_from progress.old.cutter.kept piece.now).0) }
    ensures most { progress.new.lines ≤ progress.old.lines
        + length (lines_from progress.old.cutter.kept piece.now).0 }
    ensures full { result ≡ Err stop.Limit → LINE_LIMIT ≤ progress.old.lines
        + length (lines_from progress.old.cutter.kept piece.now).0 }
    ensures rows { AreBegun progress.new.rows }
    ensures ready { A.ready answers.now state.new }
    ensures cause { WriteCauses K.faults K.label sink.old sink.new result }
    ensures served { (old : A.State) (input rest : List ℕ) (before : Option (List ℕ))
        → SoFar (A.gives answers.now) (A.stops answers.now) old state.old input
        (lines_after progress.old.cutter.kept (piece.now ++ rest)) progress.old.lines
        progress.old.requests progress.old.user
        progress.old.rows page.old.items before (K.taken sink.old)
        → ServedMore (A.gives answers.now) (A.stops answers.now) old state.new input
        (lines_after progress.new.cutter.kept rest) progress.new.lines progress.new.requests
        progress.new.user
        progress.new.rows page.new.items before (K.taken sink.new) result }
{
    let mut done = 0;
    while done < piece.len() {
        let (count, is_complete) = progress.cutter.feed(&piece[done..]);
        done += count;
        if is_complete {
            if let Err(stop) = serve_line(alloc, answers, state, progress, page, sink) {
                return Err(stop);
            }
        }
    }
    Ok(())
}

/// Serves what stands behind the last line feed, if anything does.
fn serve_last<A: Answers, K: Sink>(
    alloc: Global,
    answers: &A,
    state: &mut A::State,
    progress: &mut Progress,
    page: &mut Page,
    sink: &mut K,
) -> Result<(), Stop>
    requires ready { A.ready answers.now state.old }
    requires rows { AreBegun progress.old.rows }
    ensures quit { result ≡ Err stop.Quit → progress.new.lines ≡ progress.old.lines + 1 }
    ensures stopped { (why : Why) → result ≡ Err (stop.Kept why)
        → progress.new.lines ≡ progress.old.lines + 1 }
    ensures full { result ≡ Err stop.Limit → LINE_LIMIT ≤ progress.old.lines }
    ensures rows { AreBegun progress.new.rows }
    ensures ready { A.ready answers.now state.new }
    ensures cause { WriteCauses K.faults K.label sink.old sink.new result }
    ensures served { (old : A.State) (input : List ℕ) (before : Option (List ℕ))
        → SoFar (A.gives answers.now) (A.stops answers.now) old state.old input
        (lines_after progress.old.cutter.kept []) progress.old.lines progress.old.requests
        progress.old.user
        progress.old.rows page.old.items before (K.taken sink.old)
        → ServedMore (A.gives answers.now) (A.stops answers.now) old state.new input
        [] progress.new.lines progress.new.requests progress.new.user
        progress.new.rows page.new.items before (K.taken sink.new) result }
{
    if progress.cutter.is_empty() {
        return Ok(());
    }
    serve_line(alloc, answers, state, progress, page, sink)
}

/// Serves what stands behind the last line feed, and a LOAD whose last rows are missing.
fn serve_rest<A: Answers, K: Sink>(
    alloc: Global,
    answers: &A,
    state: &mut A::State,
    progress: &mut Progress,
    page: &mut Page,
    sink: &mut K,
) -> Result<(), Stop>
    requires ready { A.ready answers.now state.old }
    requires rows { AreBegun progress.old.rows }
    ensures quit { result ≡ Err stop.Quit → progress.new.lines ≡ progress.old.lines + 1 }
    ensures full { result ≡ Err stop.Limit → LINE_LIMIT ≤ progress.old.lines }
    ensures ready { A.ready answers.now state.new }
    ensures cause { WriteCauses K.faults K.label sink.old sink.new result }
    ensures served { (old : A.State) (input : List ℕ) (before : Option (List ℕ))
        → SoFar (A.gives answers.now) (A.stops answers.now) old state.old input
        (lines_after progress.old.cutter.kept []) progress.old.lines progress.old.requests
        progress.old.user
        progress.old.rows page.old.items before (K.taken sink.old)
        → ServedLast (A.gives answers.now) (A.stops answers.now) old state.new input
        progress.new.lines progress.new.requests progress.new.user page.new.items before (K.taken sink.new) result }
{
    match serve_last(alloc, answers, state, progress, page, sink) {
        Ok(()) => serve_left_over(answers, state, progress, page, sink),
        Err(stop) => Err(stop),
    }
}

/// Hands on that the last rows of a LOAD are missing, where one was begun.
fn serve_left_over<A: Answers, K: Sink>(
    answers: &A,
    state: &mut A::State,
    progress: &mut Progress,
    page: &mut Page,
    sink: &mut K,
) -> Result<(), Stop>
    requires ready { A.ready answers.now state.old }
    requires rows { AreBegun progress.old.rows }
    ensures ready { A.ready answers.now state.new }
    ensures lines { progress.new.lines ≡ progress.old.lines }
    ensures going { result ≢ Err stop.Quit }
    ensures within { result ≢ Err stop.Limit }
    ensures cause { WriteCauses K.faults K.label sink.old sink.new result }
    ensures served { (old : A.State) (input : List ℕ) (before : Option (List ℕ))
        → SoFar (A.gives answers.now) (A.stops answers.now) old state.old input
        [] progress.old.lines progress.old.requests progress.old.user
        progress.old.rows page.old.items before (K.taken sink.old)
        → ServedLast (A.gives answers.now) (A.stops answers.now) old state.new input
        progress.new.lines progress.new.requests progress.new.user page.new.items before (K.taken sink.new) result }
{
    let Some(begun) = progress.rows.take() else {
        return Ok(());
    };
    let line = begun.line;
    let bad = begun.cut_short();
    progress.requests = progress.requests.saturating_add(1);
    fault_handed_on(answers, state, line, &progress.user, bad, page, sink)
}

/// Serves the line that was read, and begins the next.
#[tactic(auto, using(crate::proofs::Lines::shown_is_short))]
fn serve_line<A: Answers, K: Sink>(
    alloc: Global,
    answers: &A,
    state: &mut A::State,
    progress: &mut Progress,
    page: &mut Page,
    sink: &mut K,
) -> Result<(), Stop>
    requires ready { A.ready answers.now state.old }
    requires rows { AreBegun progress.old.rows }
    ensures begun { OnOk result (progress.new.cutter ≡ no_bytes) }
    ensures counted { OnOk result (progress.new.lines ≡ progress.old.lines + 1) }
    ensures most { progress.new.lines ≤ progress.old.lines + 1 }
    ensures quit { result ≡ Err stop.Quit → progress.new.lines ≡ progress.old.lines + 1 }
    ensures stopped { (why : Why) → result ≡ Err (stop.Kept why)
        → progress.new.lines ≡ progress.old.lines + 1 }
    ensures full { result ≡ Err stop.Limit → LINE_LIMIT ≤ progress.old.lines }
    ensures rows { AreBegun progress.new.rows }
    ensures ready { A.ready answers.now state.new }
    ensures cause { WriteCauses K.faults K.label sink.old sink.new result }
    ensures served { (old : A.State) (input : List ℕ) (left : List (Option (List ℕ)))
        (before : Option (List ℕ))
        → SoFar (A.gives answers.now) (A.stops answers.now) old state.old input
        (line_of progress.old.cutter.kept ∷ left) progress.old.lines progress.old.requests
        progress.old.user
        progress.old.rows page.old.items before (K.taken sink.old)
        → ServedMore (A.gives answers.now) (A.stops answers.now) old state.new input
        left progress.new.lines progress.new.requests progress.new.user
        progress.new.rows page.new.items before (K.taken sink.new) result }
{
    if progress.lines >= LINE_LIMIT {
        return Err(Stop::Limit);
    }
    progress.lines += 1;
    let number = progress.lines;
    let heard = hear(
        alloc,
        answers,
        state,
        number,
        &mut progress.user,
        &mut progress.rows,
        text_of(progress.cutter.line()),
        page,
        sink,
    );
    progress.cutter.next();
    progress.requests = requests_after(progress.requests, heard);
    match heard {
        Ok(_) => Ok(()),
        Err(stop) => Err(stop),
    }
}

/// How many requests were answered behind a line, of so many before it.
fn requests_after(requests: u64, heard: Result<Heard, Stop>) -> u64
    ensures { result ≡ counted_after requests heard }
{
    match heard {
        Ok(Heard::Answered) | Err(Stop::Quit) => requests.saturating_add(1),
        _ => requests,
    }
}

/// The text of a line that isn't too long.
fn text_of(cut: Cut<'_>) -> Option<&[u8]>
    ensures { option_map (λ text. text.now) result ≡ shown cut.entry }
{
    match cut {
        Cut::Line(text) => Some(text),
        Cut::TooLong => None,
    }
}
