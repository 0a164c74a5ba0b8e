//! A session over a source that gives its bytes in other pieces, and over answers that count.
ghost use Rattle.std.specs.Prelude.{◌≤◌, Some, [], drop, length};

use crate::{Answers, Served, Why, serve_requests};
use byte_lines::{Bytes, Failed, Source, SteadyOut};
use command_words::{Bad, Command, Reply};
use plan_schema::{Change, Name, Refusal};
use std::alloc::{AllocError, Global};
use std::test::Fail;

// Bytes of which the first read gives at most so many, and each later one as many as a piece has.
#[derive(Drop)]
struct Pieces {
    bytes: Bytes,
    place: usize,
    cut: usize,
    piece: usize,
    ghost inside: { place ≤ length bytes },
}

impl Source for Pieces {
    ghost left = { λ s. Some (drop s.place s.bytes) };

    ghost faults = { λ _. 0 };

    ghost label = { λ _. [] };

    fn read(&mut self, into: &mut [u8]) -> Result<usize, Failed> {
        let most = if self.place == 0 {
            self.cut
        } else {
            self.piece
        };
        let rest = &self.bytes.as_slice()[self.place..];
        let count = rest.len().min(into.len()).min(most.max(1));
        into[..count].copy_from_slice(&rest[..count]);
        self.place += count;
        Ok(count)
    }
}

// Takes each change, and answers each question with the number of changes; a plan is denied to whoever asks.
struct Counting;

impl Answers for Counting {
    type State = u64;

    ghost ready = { λ _ _. Unit {0} };

    ghost gives = { λ _ _ _ _ _ _. Unit {0} };

    ghost stops = { λ _ _ _ _ _ _. Unit {0} };

    fn change(&self, count: &mut u64, _: u64, _: &Name, _: Change) -> Result<Reply, Why> {
        *count = count.saturating_add(1);
        Ok(Reply::Ok(*count))
    }

    fn faulty(&self, _: &mut u64, _: u64, _: &Name, bad: Bad) -> Result<Reply, Why> {
        Ok(Reply::Bad(bad))
    }

    fn wanting(&self, _: &mut u64, _: u64, _: &Name) -> Result<Reply, Why> {
        Ok(Reply::Mem)
    }

    fn ask(
        &self,
        count: &mut u64,
        _: u64,
        user: &Name,
        command: &Command<'_>,
    ) -> Result<Reply, Why> {
        match command {
            Command::Plan { .. } => Ok(Reply::No(*count, Refusal::Denied(*user))),
            _ => Ok(Reply::Ok(*count)),
        }
    }
}

const WHOLE: &[u8] =
    b"HELLO ann\nPOINT\n\nPUT Baseline STOCK A 5\nPLAN Baseline A\r\nNONSENSE\nQUIT\nPOINT\n";

const WHOLE_REPLIES: &[u8] = b"OK @0\nOK @0\nOK @1\nNO @1 denied ann\nBAD word\nOK @1\n";

const UNENDED: &[u8] = b"PLAN Baseline A\n \t \nDEL Baseline STOCK A\nPOINT x\nPOINT";

const UNENDED_REPLIES: &[u8] = b"NO @0 denied guest\nOK @1\nBAD field 1 shape\nOK @1\n";

// Whether a script, read in such pieces, is answered so, and ends after so many requests.
fn is_answered(
    alloc: Global,
    script: &[u8],
    cut: usize,
    piece: usize,
    replies: &[u8],
    requests: u64,
) -> Result<bool, AllocError> {
    let mut bytes = Bytes::new(alloc);
    bytes.extend(script)?;
    let mut source = Pieces {
        bytes,
        place: 0,
        cut,
        piece,
    };
    let mut sink = SteadyOut::new(alloc);
    let mut count = 0;
    let served = serve_requests(alloc, &Counting, &mut count, &mut source, &mut sink);
    let is_whole = match served {
        Served::Ended(number) => number == requests,
        _ => false,
    };
    Ok(is_whole && sink.bytes() == replies)
}

#[test]
fn one_byte_at_a_time(rt: HostRuntime) -> Result<(), Fail> {
    assert!(rt; is_answered(rt.alloc(), WHOLE, 1, 1, WHOLE_REPLIES, 6)?);
    assert!(rt; is_answered(rt.alloc(), UNENDED, 1, 1, UNENDED_REPLIES, 4)?);
    Ok(())
}

#[test]
fn every_cut(rt: HostRuntime) -> Result<(), Fail> {
    for cut in 1..=WHOLE.len() {
        assert!(rt; is_answered(rt.alloc(), WHOLE, cut, 100, WHOLE_REPLIES, 6)?);
    }
    for cut in 1..=UNENDED.len() {
        assert!(rt; is_answered(rt.alloc(), UNENDED, cut, 100, UNENDED_REPLIES, 4)?);
    }
    Ok(())
}
