//! The desk of a session: the files of a pair, opened.
ghost use Rattle.std.specs.Prelude.{◌≡◌, ◌≤◌, [], None, IfOk, IfErr};
ghost use Rattle.plan_schema.specs.Base.{is_base};
ghost use Rattle.response_program.specs.Names.{pair_of};
ghost use Rattle.response_program.specs.Outcomes.{outcome_of};
ghost use Rattle.response_program.specs.Views.{view};
ghost use Rattle.response_program.specs.InRounds.{desk_at};
ghost use Rattle.response_program.specs.Desks.{IsOpened, IsUnopened, IsGivenBack, HasServed};
ghost use Rattle.response_program.specs.Replayed.{IsOfPair};

use crate::ending::Ending;
use crate::files::Pair;
use byte_lines::{Desk, Served, Shelf, Sink, Source};
use plan_book::Book;
use sessions::serve_alone;
use std::alloc::Global;
use std::marker::Model;

/// A desk: the names of a session's files, and what a shelf gave out under them.
#[derive(Drop)]
pub struct OpenDesk<'a, S: Source, K: Sink> {
    pair: Pair<'a>,
    source: S,
    sink: K,
}

impl<'a, S: Source, K: Sink> Model for OpenDesk<'a, S, K> {
    ghost use Rattle.std.specs.Prelude.{◌≡◌};
    ghost use Rattle.response_program.specs.Names.{pair_of};
    ghost use Rattle.response_program.specs.Desks.{DeskView};

    ghost Value = { DeskView };

    ghost view = { λ desk. record {
      pair = pair_of desk.pair;
      left = S.left desk.source;
      reads = S.faults desk.source;
      taken = K.taken desk.sink;
      writes = K.faults desk.sink;
    } };

    ghost invariant = { λ desk. (S.label desk.source ≡ desk.pair.input.now)
        × (K.label desk.sink ≡ desk.pair.output.now) };
}

impl<'a, S: Source, K: Sink> OpenDesk<'a, S, K> {
    /// The names of its files.
    pub fn pair(&self) -> Pair<'a>
        ensures { pair_of result ≡ self.now.pair }
    {
        self.pair
    }

    /// As a desk of a round, which knows no names.
    pub fn into_desk(self) -> Desk<S, K>
        ensures view { self.entry
            ≡ desk_at S.left S.faults K.taken K.faults self.entry.pair result }
        ensures source { S.label result.source ≡ self.entry.pair.input }
        ensures sink { K.label result.sink ≡ self.entry.pair.output }
        ensures unserved { result.served ≡ None }
    {
        let OpenDesk {
            pair: _,
            source,
            sink,
        } = self;
        Desk {
            source,
            sink,
            served: None,
        }
    }

    /// A desk of a round, with the names of its files.
    pub fn named(pair: Pair<'a>, desk: Desk<S, K>) -> OpenDesk<'a, S, K>
        requires source { S.label desk.source ≡ pair.input.now }
        requires sink { K.label desk.sink ≡ pair.output.now }
        ensures { result ≡ desk_at S.left S.faults K.taken K.faults (pair_of pair.entry) desk }
    {
        let Desk {
            source,
            sink,
            served: _,
        } = desk;
        OpenDesk { pair, source, sink }
    }
}

/// Opens the files of a pair.
pub fn open_desk<'a, H: Shelf>(
    pair: &Pair<'a>,
    shelf: &mut H,
) -> Result<OpenDesk<'a, H::In, H::Out>, Ending<'a>>
    ensures ok { IfOk result (λ desk.
        IsOpened (view H.held H.open_faults H.read_faults H.write_faults shelf.old)
        (pair_of pair.now) desk
        (view H.held H.open_faults H.read_faults H.write_faults shelf.new)) }
    ensures err { IfErr result (λ ending.
        IsUnopened (view H.held H.open_faults H.read_faults H.write_faults shelf.old)
        (pair_of pair.now) (outcome_of ending)
        (view H.held H.open_faults H.read_faults H.write_faults shelf.new)) }
    ensures which { IfErr result (λ ending. IsOfPair (pair_of pair.now) (outcome_of ending)) }
{
    let source = match shelf.open_in(pair.input) {
        Ok(source) => source,
        Err(fault) => return Err(Ending::of_open(pair.input, fault)),
    };
    match shelf.make_out(pair.output) {
        Ok(sink) => Ok(OpenDesk {
            pair: *pair,
            source,
            sink,
        }),
        Err(fault) => {
            shelf.give_in(pair.input, source);
            Err(Ending::of_open(pair.output, fault))
        }
    }
}

/// Gives the files of a desk back.
pub fn close_desk<H: Shelf>(desk: OpenDesk<'_, H::In, H::Out>, shelf: &mut H)
    ensures { IsGivenBack (view H.held H.open_faults H.read_faults H.write_faults shelf.old)
        desk.entry (view H.held H.open_faults H.read_faults H.write_faults shelf.new) }
{
    let OpenDesk { pair, source, sink } = desk;
    shelf.give_out(pair.output, sink);
    shelf.give_in(pair.input, source);
}

/// Serves the session of a desk, by its number. Answers how it ended, where nothing stands behind it.
pub fn serve_desk<'a, S: Source, K: Sink>(
    alloc: Global,
    session: u64,
    book: &mut Book,
    desk: &mut OpenDesk<'a, S, K>,
) -> Served
    requires some { 1 ≤ session }
    requires most { session ≤ 16 }
    requires first { book.old.earlier ≡ [] }
    ensures base { book.new.base ≡ book.old.base }
    ensures first { book.new.earlier ≡ [] }
    ensures served { HasServed book.old.base session book.old.entries book.new.entries desk.old
        desk.new result }
{
    serve_alone(alloc, book, session, true, &mut desk.source, &mut desk.sink)
}
