//! Rounds of desks.
ghost use Rattle.std.specs.Prelude.{◌≡◌, length};
ghost use Rattle.std.specs.List.{AllByRecursion};
ghost use Rattle.std.specs.Thread.{IsSync};
ghost use Rattle.sessions.specs.InTurns.{IsReady};
ghost use Rattle.desk_rounds.specs.Four.{EachFour};
ghost use Rattle.desk_rounds.specs.DesksServed.{IsDeskServed};

use byte_lines::{Desk, Sink, Source};
use plan_book::PlanBook;
use plan_office::{Office, Pass};
use sessions::serve;
use std::alloc::Global;
use std::sync::Wait;
use std::thread::{Threads, join_mut};

/// What serves a desk with a pass.
trait Serves<D> {
    type Pass;

    /// Which passes may be served with.
    ghost may: { Self → Self.Pass → Type 0 };

    /// What becomes of a desk and its pass.
    ghost serves: { Self → D → Self.Pass → D → Self.Pass → Type 0 };

    fn serve(&self, desk: &mut D, pass: &mut Self::Pass)
        requires { may self.now pass.old }
        ensures { serves self.now desk.old pass.old desk.new pass.new };
}

/// Serves the desks of a round at an office, each with the pass at its place, and each on a thread of its own where one can be made. It
/// may wait for other passes.
pub fn serve_desks<B: PlanBook + Send, S: Source + Send, K: Sink + Send, R: Threads + Wait + Sync>(
    rt: &R,
    alloc: Global,
    office: &Office<B>,
    desks: &mut [Desk<S, K>],
    passes: &mut [Pass<B>],
)
    requires same { length desks.old ≡ length passes.old }
    requires ready { AllByRecursion (IsReady office.now) passes.old }
    ensures { EachFour (IsDeskServed S.left S.faults S.label K.taken K.faults K.label office.now)
        desks.old passes.old desks.new passes.new }
{
    let server = AtOffice { rt, alloc, office };
    serve_round(rt, &server, desks, passes);
}

/// Serves the desks of a round, each with the pass at its place: one here, and more by halves side by side.
fn serve_round<D: Send, C: Serves<D> + Sync, R: Threads + Sync>(
    rt: &R,
    server: &C,
    desks: &mut [D],
    passes: &mut [C::Pass],
)
where
    C::Pass: Send,
    requires same { length desks.old ≡ length passes.old }
    requires ready { AllByRecursion (C.may server.now) passes.old }
    ensures { EachFour (C.serves server.now) desks.old passes.old desks.new passes.new }
{
    if desks.len() == 0 {
        return;
    }
    if desks.len() == 1 {
        server.serve(&mut desks[0], &mut passes[0]);
        return;
    }
    let half = desks.len() / 2;
    let (some_desks, more_desks) = desks.split_at_mut(half);
    let (some_passes, more_passes) = passes.split_at_mut(half);
    join_mut(
        rt,
        &mut ||
            requires { IsSync R.row × IsSync C.row
                × (length some_desks.now ≡ length some_passes.now)
                × AllByRecursion (C.may server.now) some_passes.now }
            ensures { EachFour (C.serves server.entry.now)
                some_desks.entry.now some_passes.entry.now
                some_desks.exit.now some_passes.exit.now }
        { serve_round(rt, server, some_desks, some_passes) },
        &mut ||
            requires { IsSync R.row × IsSync C.row
                × (length more_desks.now ≡ length more_passes.now)
                × AllByRecursion (C.may server.now) more_passes.now }
            ensures { EachFour (C.serves server.entry.now)
                more_desks.entry.now more_passes.entry.now
                more_desks.exit.now more_passes.exit.now }
        { serve_round(rt, server, more_desks, more_passes) },
    );
}

/// Serves desks at an office.
#[derive(Drop)]
struct AtOffice<'a, B: PlanBook, R> {
    rt: &'a R,
    alloc: Global,
    office: &'a Office<B>,
}

impl<'a, B: PlanBook, S: Source, K: Sink, R: Wait> Serves<Desk<S, K>> for AtOffice<'a, B, R> {
    type Pass = Pass<B>;

    ghost may = { λ at pass. IsReady at.office.now pass };

    ghost serves = { λ at desk pass desk_then pass_then.
        IsDeskServed S.left S.faults S.label K.taken K.faults K.label at.office.now
        desk pass desk_then pass_then };

    fn serve(&self, desk: &mut Desk<S, K>, pass: &mut Pass<B>) {
        let served = serve(
            self.rt,
            self.alloc,
            self.office,
            pass,
            &mut desk.source,
            &mut desk.sink,
        );
        desk.served = Some(served);
    }
}
