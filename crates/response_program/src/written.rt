//! What sessions were sent and what they wrote: the files of pairs, both opened to be read.
ghost use Rattle.std.specs.Prelude.{◌≡◌, ◌<◌, ◌∷◌, [], true, map, length, IfOk, IfErr, IfSome, OnOk, IsSome};
ghost use Rattle.std.specs.List.{list_any};
ghost use Rattle.plan_schema.specs.Outside.{Stays};
ghost use Rattle.byte_lines.specs.Desks.{all_desks};
ghost use Rattle.program_words.specs.Rounds.{pair_of};
ghost use Rattle.plan_audit.specs.Rounds.{is_unread};
ghost use Rattle.response_program.specs.InRounds.{begun};
ghost use Rattle.response_program.specs.Names as names;
ghost use Rattle.response_program.specs.Outcomes.{outcome_of, HasCause};
ghost use Rattle.response_program.specs.Views.{view, NoneFell};
ghost use Rattle.response_program.specs.Written.{AreUnopened, IsDeskOf, AreSeated};
ghost use Rattle.response_program.specs.Written.{CanGoBack, AllCanGoBack, IsUnreadOf};

use crate::ending::Ending;
use crate::files::Pair;
use crate::in_rounds::seat_desk;
use byte_lines::{Desk, Rounds, Served, Shelf};
use program_words::PlacedPair;

/// Opens the files of pairs to be read, in order, and puts them into rounds as desks; the first begins a round where that is told. A
/// desk's sink is the source of what its session wrote. Where something can't be opened, nothing was read yet, and all is let go.
pub fn open_written<'a, H: Shelf>(
    pairs: &[PlacedPair<'a>],
    begins: bool,
    rounds: &mut Rounds<H::In, H::In>,
    shelf: &mut H,
) -> Result<(), Ending<'a>>
where
    H::In: Drop,
    requires some { 0 < length (begun begins rounds.old) }
    ensures held { Stays (H.held shelf.old) (H.held shelf.new) }
    ensures fell { NoneFell (view H.held H.open_faults H.read_faults H.write_faults shelf.old)
        (view H.held H.open_faults H.read_faults H.write_faults shelf.new) }
    ensures ok { OnOk result (AreSeated H.In.left H.In.faults H.In.label
        (view H.held H.open_faults H.read_faults H.write_faults shelf.old)
        begins rounds.old rounds.new pairs.now) }
    ensures cause { IfErr result (λ ending.
        HasCause (view H.held H.open_faults H.read_faults H.write_faults shelf.old)
        (view H.held H.open_faults H.read_faults H.write_faults shelf.new)
        (outcome_of ending)) }
    ensures which { IfErr result (λ ending.
        AreUnopened (map pair_of pairs.now) (outcome_of ending)) }
{
    match pairs.split_first() {
        None => Ok(()),
        Some((placed, rest)) => {
            let desk = open_pair(&Pair::of(placed), shelf)?;
            match seat_desk(desk, begins, rounds) {
                Ok(()) => open_written(rest, placed.ends_round, rounds, shelf),
                Err(_) => Err(Ending::Memory),
            }
        }
    }
}

/// Opens both files of a pair to be read.
fn open_pair<'a, H: Shelf>(pair: &Pair<'a>, shelf: &mut H) -> Result<Desk<H::In, H::In>, Ending<'a>>
where
    H::In: Drop,
    ensures held { Stays (H.held shelf.old) (H.held shelf.new) }
    ensures fell { NoneFell (view H.held H.open_faults H.read_faults H.write_faults shelf.old)
        (view H.held H.open_faults H.read_faults H.write_faults shelf.new) }
    ensures ok { IfOk result (λ desk. IsDeskOf H.In.left H.In.faults H.In.label
        (view H.held H.open_faults H.read_faults H.write_faults shelf.old)
        (names.pair_of pair.now) desk) }
    ensures cause { IfErr result (λ ending.
        HasCause (view H.held H.open_faults H.read_faults H.write_faults shelf.old)
        (view H.held H.open_faults H.read_faults H.write_faults shelf.new)
        (outcome_of ending)) }
    ensures which { IfErr result (λ ending.
        AreUnopened (names.pair_of pair.now ∷ []) (outcome_of ending)) }
{
    let source = match shelf.open_in(pair.input) {
        Ok(source) => source,
        Err(fault) => return Err(Ending::of_open(pair.input, fault)),
    };
    match shelf.open_in(pair.output) {
        Ok(sink) => Ok(Desk {
            source,
            sink,
            served: None,
        }),
        Err(fault) => Err(Ending::of_open(pair.output, fault)),
    }
}

/// Gives the files of desks back, the last first. Answers the name of the first that is told to have failed.
pub fn close_written<'a, H: Shelf>(
    pairs: &[PlacedPair<'a>],
    rounds: &mut Rounds<H::In, H::In>,
    shelf: &mut H,
) -> Option<&'a str>
    requires { AllCanGoBack H.In.left H.In.faults H.In.label (map pair_of pairs.now)
        (all_desks rounds.old) }
    ensures held { Stays (H.held shelf.old) (H.held shelf.new) }
    ensures fell { NoneFell (view H.held H.open_faults H.read_faults H.write_faults shelf.old)
        (view H.held H.open_faults H.read_faults H.write_faults shelf.new) }
    ensures told { list_any is_unread (all_desks rounds.old) ≡ true → IsSome result }
    ensures which { IfSome result (λ name.
        IsUnreadOf (view H.held H.open_faults H.read_faults H.write_faults shelf.old)
        (view H.held H.open_faults H.read_faults H.write_faults shelf.new)
        (map pair_of pairs.now) name.now) }
{
    match pairs.split_last() {
        None => None,
        Some((placed, rest)) => match rounds.pop() {
            None => None,
            Some(desk) => {
                let unread = close_pair(&Pair::of(placed), desk, shelf);
                let earlier = close_written(rest, rounds, shelf);
                earlier.or(unread)
            }
        },
    }
}

/// Gives both files of a desk back. Answers the name of the one that is told to have failed, if one is.
fn close_pair<'a, H: Shelf>(
    pair: &Pair<'a>,
    desk: Desk<H::In, H::In>,
    shelf: &mut H,
) -> Option<&'a str>
    requires { CanGoBack H.In.left H.In.faults H.In.label (names.pair_of pair.now) desk }
    ensures held { Stays (H.held shelf.old) (H.held shelf.new) }
    ensures fell { NoneFell (view H.held H.open_faults H.read_faults H.write_faults shelf.old)
        (view H.held H.open_faults H.read_faults H.write_faults shelf.new) }
    ensures told { is_unread desk ≡ true → IsSome result }
    ensures which { IfSome result (λ name.
        IsUnreadOf (view H.held H.open_faults H.read_faults H.write_faults shelf.old)
        (view H.held H.open_faults H.read_faults H.write_faults shelf.new)
        (names.pair_of pair.now ∷ []) name.now) }
{
    let Desk {
        source,
        sink,
        served,
    } = desk;
    shelf.give_in(pair.input, source);
    shelf.give_in(pair.output, sink);
    match served {
        Some(Served::ReadFault) => Some(pair.input),
        Some(Served::WriteFault) => Some(pair.output),
        _ => None,
    }
}
