//! Lines as requests: each request is handed on as soon as it is complete, and its reply is put into the page at once. What the page holds
//! is written before a change is handed on.
ghost use Rattle.std.specs.Prelude.{◌≡◌, ◌≤◌, ◌<◌, ℕ, Option, true, false, length, None, Some, Ok, Err};
ghost use Rattle.std.specs.Prelude.{IfSome, option_map};
ghost use Rattle.command_words.specs.Replies.{reply_text};
ghost use Rattle.command_words.specs.Spelling.{is_sound_command};
ghost use Rattle.plan_schema.specs.declared.limits.TheConstants.{LINE_LIMIT};
ghost use Rattle.plan_schema.specs.Sound.{is_sound_change};
ghost use Rattle.session_rules.specs.Requests as requests;
ghost use Rattle.session_rules.specs.Requests.{Wish};
ghost use Rattle.session_rules.specs.Sessions.{is_load};
ghost use Rattle.plan_schema.specs.declared.change.Change.{Change};
ghost use Rattle.request_loop.specs.Exchanges.{to_make, to_tell};
ghost use Rattle.request_loop.specs.Reading.{Rows};
ghost use Rattle.request_loop.specs.Gathered.{IsGathered, AreGathered, AreBegun, ComesTo};
ghost use Rattle.request_loop.specs.Handed.{WriteCauses};
ghost use Rattle.request_loop.specs.Heard.{HasPut, IsTaken, HasCome, IsHeard, heard_of};

use crate::answers::{Answers, Why};
use crate::gathering::{Gathered, Gathering};
use byte_lines::{Sink, SinkFault};
use command_words::{Bad, Command, Page, Reply, flush, is_blank, put_reply, read_line};
use plan_schema::{Change, Name};
use std::alloc::Global;

/// Why no more of an input is served.
#[derive(Clone, Copy)]
pub(crate) enum Stop {
    /// The sink took no more.
    Sink(SinkFault),
    /// A request was handed on, and nothing more is answered.
    Kept(Why),
    /// The input is too long.
    Limit,
    /// QUIT was answered.
    Quit,
}

/// What a line comes to, where more lines are heard.
#[derive(Clone, Copy)]
pub(crate) enum Heard {
    /// It completes no request.
    Nothing,
    /// The request that it completes was answered, and the page took the reply.
    Answered,
}

/// Hears a line: answers the request that it completes, if it does, and puts the reply into the page.
pub(crate) fn hear<A: Answers, K: Sink>(
    alloc: Global,
    answers: &A,
    state: &mut A::State,
    number: u64,
    user: &mut Name,
    rows: &mut Option<Gathering>,
    line: Option<&[u8]>,
    page: &mut Page,
    sink: &mut K,
) -> Result<Heard, Stop>
    requires ready { A.ready answers.now state.old }
    requires number { 1 ≤ number }
    requires most_lines { number ≤ LINE_LIMIT }
    requires short { IfSome (option_map (λ text. text.now) line) (λ text. length text ≤ 1024) }
    requires begun { AreBegun rows.old }
    ensures begun { AreBegun rows.new }
    ensures ready { A.ready answers.now state.new }
    ensures cause { WriteCauses K.faults K.label sink.old sink.new result }
    ensures heard { (kept : Option Rows) → AreGathered kept rows.old
        → IsHeard (A.gives answers.now) (A.stops answers.now) K.taken state.old state.new user.old
        user.new
        kept rows.new (number, option_map (λ text. text.now) line.entry) page.old.items page.new.items sink.old sink.new result }
{
    if is_blank_text(&line) {
        return Ok(Heard::Nothing);
    }
    match rows.take() {
        Some(begun) => hear_row(answers, state, number, user, begun, rows, line, page, sink),
        None => hear_request(alloc, answers, state, number, user, rows, line, page, sink),
    }
}

/// Whether a line that isn't too long is blank.
fn is_blank_text(line: &Option<&[u8]>) -> bool
    ensures { (number : ℕ) → result
        ≡ requests.is_blank_line (number, option_map (λ text. text.now) line.now) }
{
    match line {
        Some(text) => is_blank(text),
        None => false,
    }
}

/// Hears a line of a LOAD: answers this where the line is its last.
fn hear_row<A: Answers, K: Sink>(
    answers: &A,
    state: &mut A::State,
    number: u64,
    user: &Name,
    begun: Gathering,
    rows: &mut Option<Gathering>,
    line: Option<&[u8]>,
    page: &mut Page,
    sink: &mut K,
) -> Result<Heard, Stop>
    requires ready { A.ready answers.now state.old }
    requires short { IfSome (option_map (λ text. text.now) line) (λ text. length text ≤ 1024) }
    requires begun { (r : Rows) × IsGathered r begun × (length r.rows < r.count) }
    requires none { rows.old ≡ None }
    ensures begun { AreBegun rows.new }
    ensures ready { A.ready answers.now state.new }
    ensures cause { WriteCauses K.faults K.label sink.old sink.new result }
    ensures heard { (r : Rows) → IsGathered r begun → length r.rows < r.count
        → requests.is_blank_line (number, option_map (λ text. text.now) line.entry) ≡ false
        → IsHeard (A.gives answers.now) (A.stops answers.now) K.taken state.old state.new user.now
        user.now
        (Some r) rows.new (number, option_map (λ text. text.now) line.entry) page.old.items
        page.new.items sink.old sink.new result }
{
    let mut begun = begun;
    begun.add(number, line);
    if begun.read < begun.count {
        *rows = Some(begun);
        return Ok(Heard::Nothing);
    }
    let first = begun.line;
    let gathered = begun.finish();
    answered(load_handed_on(answers, state, first, user, gathered, page, sink))
}

/// What a line comes to behind which the session goes on, once its request was handed on.
fn answered(taken: Result<(), Stop>) -> Result<Heard, Stop>
    ensures { result ≡ heard_of taken }
{
    match taken {
        Ok(()) => Ok(Heard::Answered),
        Err(stop) => Err(stop),
    }
}

/// Hands a LOAD on, once its rows were read.
fn load_handed_on<A: Answers, K: Sink>(
    answers: &A,
    state: &mut A::State,
    line: u64,
    user: &Name,
    gathered: Gathered,
    page: &mut Page,
    sink: &mut K,
) -> Result<(), Stop>
    requires ready { A.ready answers.now state.old }
    requires line { 1 ≤ line }
    requires most_lines { line ≤ LINE_LIMIT }
    requires comes { (wish : Wish) × ComesTo wish gathered }
    ensures ready { A.ready answers.now state.new }
    ensures cause { WriteCauses K.faults K.label sink.old sink.new result }
    ensures taken { (wish : Wish) → ComesTo wish gathered
        → IsTaken (A.gives answers.now) (A.stops answers.now) K.taken state.old state.new user.now
        (record { line = line; wish = wish }) page.old.items page.new.items sink.old sink.new
        result }
{
    match gathered {
        Gathered::Faulty(bad) => fault_handed_on(answers, state, line, user, bad, page, sink),
        Gathered::Wanting => want_handed_on(answers, state, line, user, page, sink),
        Gathered::Sound(change) => {
            change_handed_on(answers, state, line, user, change, page, sink)
        }
    }
}

/// Hands on that there was no memory for the rows of a LOAD, behind what the page held.
fn want_handed_on<A: Answers, K: Sink>(
    answers: &A,
    state: &mut A::State,
    line: u64,
    user: &Name,
    page: &mut Page,
    sink: &mut K,
) -> Result<(), Stop>
    requires ready { A.ready answers.now state.old }
    ensures ready { A.ready answers.now state.new }
    ensures cause { WriteCauses K.faults K.label sink.old sink.new result }
    ensures taken { (change : Change) → is_load change ≡ true
        → IsTaken (A.gives answers.now) (A.stops answers.now) K.taken state.old state.new user.now
        (to_make line change) page.old.items page.new.items sink.old sink.new result }
{
    match flush(page, sink) {
        Ok(()) => match &answers.wanting(state, line, user) {
            Ok(reply) => put_out(page, reply, sink),
            Err(why) => Err(Stop::Kept(*why)),
        },
        Err(fault) => Err(Stop::Sink(fault)),
    }
}

/// Hears a line that begins a request.
fn hear_request<A: Answers, K: Sink>(
    alloc: Global,
    answers: &A,
    state: &mut A::State,
    number: u64,
    user: &mut Name,
    rows: &mut Option<Gathering>,
    line: Option<&[u8]>,
    page: &mut Page,
    sink: &mut K,
) -> Result<Heard, Stop>
    requires ready { A.ready answers.now state.old }
    requires number { 1 ≤ number }
    requires most_lines { number ≤ LINE_LIMIT }
    requires short { IfSome (option_map (λ text. text.now) line) (λ text. length text ≤ 1024) }
    requires none { rows.old ≡ None }
    ensures begun { AreBegun rows.new }
    ensures ready { A.ready answers.now state.new }
    ensures cause { WriteCauses K.faults K.label sink.old sink.new result }
    ensures heard { requests.is_blank_line (number, option_map (λ text. text.now) line.entry)
        ≡ false
        → IsHeard (A.gives answers.now) (A.stops answers.now) K.taken state.old state.new user.old
        user.new
        None rows.new (number, option_map (λ text. text.now) line.entry) page.old.items page.new.items sink.old sink.new result }
{
    match line {
        Some(text) => hear_command(alloc, answers, state, number, user, rows, text, page, sink),
        None => answered(fault_handed_on(answers, state, number, user, Bad::Long, page, sink)),
    }
}

/// Hears a line that isn't too long and begins a request.
#[tactic(auto, unfolding(session_rules::specs::Requests::reading))]
fn hear_command<A: Answers, K: Sink>(
    alloc: Global,
    answers: &A,
    state: &mut A::State,
    number: u64,
    user: &mut Name,
    rows: &mut Option<Gathering>,
    text: &[u8],
    page: &mut Page,
    sink: &mut K,
) -> Result<Heard, Stop>
    requires ready { A.ready answers.now state.old }
    requires number { 1 ≤ number }
    requires most_lines { number ≤ LINE_LIMIT }
    requires short { length text.now ≤ 1024 }
    requires none { rows.old ≡ None }
    ensures begun { AreBegun rows.new }
    ensures ready { A.ready answers.now state.new }
    ensures cause { WriteCauses K.faults K.label sink.old sink.new result }
    ensures heard { requests.is_blank_line (number, Some text.now) ≡ false
        → IsHeard (A.gives answers.now) (A.stops answers.now) K.taken state.old state.new user.old
        user.new
        None rows.new (number, Some text.now) page.old.items page.new.items sink.old sink.new result }
{
    let read = read_line(text);
    let command = match &read {
        Ok(command) => command,
        Err(bad) => {
            return answered(fault_handed_on(answers, state, number, user, *bad, page, sink));
        }
    };
    if let Command::Load { scenario, count } = command {
        *rows = Some(Gathering::begin(alloc, number, scenario, *count));
        return Ok(Heard::Nothing);
    }
    answer_command(answers, state, number, user, command, page, sink)
}

/// Hands on that a line isn't in the grammar, and puts the reply into the page.
pub(crate) fn fault_handed_on<A: Answers, K: Sink>(
    answers: &A,
    state: &mut A::State,
    line: u64,
    user: &Name,
    bad: Bad,
    page: &mut Page,
    sink: &mut K,
) -> Result<(), Stop>
    requires ready { A.ready answers.now state.old }
    ensures ready { A.ready answers.now state.new }
    ensures cause { WriteCauses K.faults K.label sink.old sink.new result }
    ensures taken { IsTaken (A.gives answers.now) (A.stops answers.now) K.taken state.old state.new
        user.now
        (to_tell line bad)
        page.old.items page.new.items sink.old sink.new result }
{
    match &answers.faulty(state, line, user, bad) {
        Ok(reply) => put_out(page, reply, sink),
        Err(why) => Err(Stop::Kept(*why)),
    }
}

/// Puts a reply into the page.
fn put_out<K: Sink>(page: &mut Page, reply: &Reply, sink: &mut K) -> Result<(), Stop>
    ensures cause { WriteCauses K.faults K.label sink.old sink.new result }
    ensures put { HasPut K.taken sink.old sink.new page.old.items page.new.items
        (reply_text reply.now) result }
{
    match put_reply(page, reply, sink) {
        Ok(()) => Ok(()),
        Err(fault) => Err(Stop::Sink(fault)),
    }
}

/// Answers a command that is no LOAD, and puts the reply into the page.
fn answer_command<A: Answers, K: Sink>(
    answers: &A,
    state: &mut A::State,
    line: u64,
    user: &mut Name,
    command: &Command<'_>,
    page: &mut Page,
    sink: &mut K,
) -> Result<Heard, Stop>
    requires ready { A.ready answers.now state.old }
    requires line { 1 ≤ line }
    requires most_lines { line ≤ LINE_LIMIT }
    requires sound { is_sound_command command.now ≡ true }
    ensures ready { A.ready answers.now state.new }
    ensures cause { WriteCauses K.faults K.label sink.old sink.new result }
    ensures came { HasCome (A.gives answers.now) (A.stops answers.now) K.taken state.old state.new
        user.old
        user.new
        (record { line = line; wish = requests.wish_of command.now })
        (requests.is_quit (Ok command.now))
        page.old.items page.new.items sink.old sink.new result }
{
    if let Err(stop) = handed_on(answers, state, line, user, command, page, sink) {
        return Err(stop);
    }
    match command {
        Command::Hello(name) => {
            *user = *name;
            Ok(Heard::Answered)
        }
        Command::Quit => Err(Stop::Quit),
        _ => Ok(Heard::Answered),
    }
}

/// Hands a command on, and puts the reply into the page. Before a change is handed on, what the page holds is written.
fn handed_on<A: Answers, K: Sink>(
    answers: &A,
    state: &mut A::State,
    line: u64,
    user: &Name,
    command: &Command<'_>,
    page: &mut Page,
    sink: &mut K,
) -> Result<(), Stop>
    requires ready { A.ready answers.now state.old }
    requires line { 1 ≤ line }
    requires most_lines { line ≤ LINE_LIMIT }
    requires sound { is_sound_command command.now ≡ true }
    ensures ready { A.ready answers.now state.new }
    ensures cause { WriteCauses K.faults K.label sink.old sink.new result }
    ensures taken { IsTaken (A.gives answers.now) (A.stops answers.now) K.taken state.old state.new
        user.now
        (record { line = line; wish = requests.wish_of command.now })
        page.old.items page.new.items sink.old sink.new result }
{
    match command.change() {
        Some(change) => change_handed_on(answers, state, line, user, change, page, sink),
        None => match &answers.ask(state, line, user, command) {
            Ok(reply) => put_out(page, reply, sink),
            Err(why) => Err(Stop::Kept(*why)),
        },
    }
}

/// Hands a change on, behind what the page held.
fn change_handed_on<A: Answers, K: Sink>(
    answers: &A,
    state: &mut A::State,
    line: u64,
    user: &Name,
    change: Change,
    page: &mut Page,
    sink: &mut K,
) -> Result<(), Stop>
    requires ready { A.ready answers.now state.old }
    requires line { 1 ≤ line }
    requires most_lines { line ≤ LINE_LIMIT }
    requires sound { is_sound_change change ≡ true }
    ensures ready { A.ready answers.now state.new }
    ensures cause { WriteCauses K.faults K.label sink.old sink.new result }
    ensures taken { IsTaken (A.gives answers.now) (A.stops answers.now) K.taken state.old state.new
        user.now
        (to_make line change)
        page.old.items page.new.items sink.old sink.new result }
{
    if let Err(fault) = flush(page, sink) {
        return Err(Stop::Sink(fault));
    }
    match &answers.change(state, line, user, change) {
        Ok(reply) => put_out(page, reply, sink),
        Err(why) => Err(Stop::Kept(*why)),
    }
}
