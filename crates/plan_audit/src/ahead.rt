//! Bytes of a source, read ahead of their use.
ghost use Rattle.std.specs.Prelude.{◌≡◌, ◌<◌, ◌≤◌, ℕ, List, [], ◌∷◌, Some, Ok, true, false, length, IfOk, OnOk};
ghost use Rattle.plan_audit.specs.Ahead.{still, TellsEnd, GivesByte, LineTaken};
ghost use Rattle.plan_audit.specs.Causes.{ReplyCause};

use byte_lines::Source;

/// How much is read at once.
const PIECE: usize = 16_384;

/// The most bytes of a line, with its line feed.
const LONGEST: usize = 1_025;

/// Why no reply was read.
#[derive(Clone, Copy)]
pub enum ReplyFault {
    /// The source failed.
    Read,
    /// There is no memory.
    Memory,
}

/// The bytes that were read and aren't used yet: those of a piece from a place to another.
#[derive(Drop)]
pub(crate) struct Ahead {
    piece: [u8; PIECE],
    from: usize,
    to: usize,
    ghost ordered: { from ≤ to },
    ghost within: { to ≤ 16384 },
}

impl Ahead {
    ghost use Rattle.plan_audit.specs.Buffers.{ahead_of};

    /// No bytes.
    pub(crate) fn new() -> Ahead
        ensures { ahead_of result ≡ [] }
    {
        Ahead {
            piece: [0; PIECE],
            from: 0,
            to: 0,
        }
    }

    /// Whether there are no more bytes. Reads where none is ahead.
    pub(crate) fn is_at_end<S: Source>(&mut self, source: &mut S) -> Result<bool, ReplyFault>
        ensures told { IfOk result (λ is_end. TellsEnd is_end
            (still (ahead_of self.old) (S.left source.old))) }
        ensures bytes { OnOk result (still (ahead_of self.new) (S.left source.new)
            ≡ still (ahead_of self.old) (S.left source.old)) }
        ensures some { result ≡ Ok false → self.new.from < self.new.to }
        ensures cause { ReplyCause S.faults S.label source.old source.new result }
    {
        if self.from < self.to {
            return Ok(false);
        }
        let Ok(count) = source.read(&mut self.piece) else {
            return Err(ReplyFault::Read);
        };
        self.from = 0;
        self.to = count;
        Ok(count == 0)
    }

    /// Takes the next byte, or tells the end.
    pub(crate) fn next_byte<S: Source>(&mut self, source: &mut S) -> Result<Option<u8>, ReplyFault>
        ensures bytes { IfOk result
            (λ byte. GivesByte byte (still (ahead_of self.old) (S.left source.old))
            (still (ahead_of self.new) (S.left source.new))) }
        ensures cause { ReplyCause S.faults S.label source.old source.new result }
    {
        if self.is_at_end(source)? {
            return Ok(None);
        }
        Ok(Some(self.take()))
    }

    /// Takes a byte that is there.
    fn take(&mut self) -> u8
        requires { self.old.from < self.old.to }
        ensures { ahead_of self.old ≡ result ∷ ahead_of self.new }
    {
        let byte = self.piece[self.from];
        self.from += 1;
        byte
    }

    /// Puts the next line with its line feed behind a text. Tells whether there is one that isn't too long; where there is none, bytes of
    /// what is no line may have been taken.
    pub(crate) fn take_line<S: Source>(
        &mut self,
        source: &mut S,
        text: &mut Vec<u8>,
    ) -> Result<bool, ReplyFault>
        ensures line { (all : List ℕ) → still (ahead_of self.old) (S.left source.old) ≡ Some all
            → IfOk result (LineTaken all (still (ahead_of self.new) (S.left source.new))
            text.old.items text.new.items) }
        ensures some { result ≡ Ok true → 1 ≤ length text.new.items }
        ensures cause { ReplyCause S.faults S.label source.old source.new result }
    {
        for count in 0..LONGEST {
            let Some(byte) = self.next_byte(source)? else {
                return Ok(false);
            };
            if text.push(byte).is_err() {
                return Err(ReplyFault::Memory);
            }
            if byte == b'\n' {
                return Ok(true);
            }
        }
        Ok(false)
    }
}
