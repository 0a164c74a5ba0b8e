//! Where bytes come from and go to. A program over these traits is proved for every device that keeps to them: the clauses
//! speak of the device's ghost meanings, which a device that tells nothing (a real file) leaves out as `None`.
ghost use Rattle.std.specs.Prelude.{◌≡◌, ◌≤◌, ℕ, List, Option, IfOk, IsSome, Some, []};
ghost use Rattle.plan_schema.specs.Outside.{Gives, ReadCause, Takes, WriteCause, Wrote, Stays, StaysBut, OpenCause};
ghost use Rattle.plan_schema.specs.Outside.{IsKeptOrEmpty, Counted};

/// A read that failed.
#[derive(Clone, Copy)]
pub struct Failed;

/// Why a sink took no more.
#[derive(Clone, Copy)]
pub enum SinkFault {
    /// The device failed.
    Failed,
    /// There was no memory for the bytes.
    Memory,
}

/// Why a part of a shelf can't be had.
#[derive(Clone, Copy)]
pub enum ShelfFault {
    /// The device failed.
    Failed,
    /// There was no memory for the part.
    Memory,
}

/// Where bytes come from.
pub trait Source {
    /// The bytes that are left, where the source tells.
    ghost left: { Self → Option (List ℕ) };

    /// How many reads failed. The count never falls.
    ghost faults: { Self → ℕ };

    /// The name under which a shelf keeps the source.
    ghost label: { Self → List ℕ };

    /// Puts the first bytes that are left into the buffer, and answers how many: none at the end alone.
    fn read(&mut self, into: &mut [u8]) -> Result<usize, Failed>
        ensures bytes { Gives (left self.old) (left self.new) into.new result }
        ensures cause { ReadCause (faults self.old) (faults self.new) result }
        ensures same { label self.new ≡ label self.old };
}

/// Where bytes go to.
pub trait Sink {
    /// What has been taken, where the sink tells.
    ghost taken: { Self → Option (List ℕ) };

    /// How many writes failed. The count never falls.
    ghost faults: { Self → ℕ };

    /// The name under which a shelf keeps the sink.
    ghost label: { Self → List ℕ };

    /// Takes the first bytes of a piece, and answers how many: at least one where there are any.
    fn write(&mut self, from: &[u8]) -> Result<usize, SinkFault>
        ensures bytes { Takes (taken self.old) (taken self.new) from.now result }
        ensures cause { WriteCause (faults self.old) (faults self.new) result }
        ensures same { label self.new ≡ label self.old };
}

/// Files, or what stands for them, by name. The name `-` is the console, an output.
pub trait Shelf {
    type In: Source;

    type Out: Sink;

    /// What is held under a name, where the shelf tells.
    ghost held: { Self → List ℕ → Option (List ℕ) };

    /// How many calls to open or make what a name holds failed. The count never falls.
    ghost open_faults: { Self → List ℕ → ℕ };

    /// How many reads of the sources given back under a name failed.
    ghost read_faults: { Self → List ℕ → ℕ };

    /// How many writes to the sinks given back under a name failed.
    ghost write_faults: { Self → List ℕ → ℕ };

    /// A source of what is held under the name.
    fn open_in(&mut self, name: &str) -> Result<Self::In, ShelfFault>
        ensures left { IfOk result (λ part. Self.In.left part ≡ held self.old name.now) }
        ensures label { IfOk result (λ part. Self.In.label part ≡ name.now) }
        ensures fresh { IfOk result (λ part. Self.In.faults part ≡ 0) }
        ensures cause { OpenCause name.now (open_faults self.old) (open_faults self.new) result }
        ensures holds { Stays (held self.old) (held self.new) }
        ensures reads { Stays (read_faults self.old) (read_faults self.new) }
        ensures writes { Stays (write_faults self.old) (write_faults self.new) };

    /// An empty sink whose bytes the name will hold. Until it is given back, the name holds what it held, or nothing.
    fn make_out(&mut self, name: &str) -> Result<Self::Out, ShelfFault>
        ensures empty { IfOk result (λ part. IsSome (held self.old name.now)
            → Self.Out.taken part ≡ Some []) }
        ensures label { IfOk result (λ part. Self.Out.label part ≡ name.now) }
        ensures fresh { IfOk result (λ part. Self.Out.faults part ≡ 0) }
        ensures cause { OpenCause name.now (open_faults self.old) (open_faults self.new) result }
        ensures here { IsKeptOrEmpty (held self.old name.now) (held self.new name.now) }
        ensures others { StaysBut name.now (held self.old) (held self.new) }
        ensures reads { Stays (read_faults self.old) (read_faults self.new) }
        ensures writes { Stays (write_faults self.old) (write_faults self.new) };

    /// Takes a source back, with its count of faults.
    fn give_in(&mut self, name: &str, part: Self::In)
        requires { Self.In.label part ≡ name.now }
        ensures count { Counted name.now (Self.In.faults part) (read_faults self.old)
            (read_faults self.new) }
        ensures holds { Stays (held self.old) (held self.new) }
        ensures opens { Stays (open_faults self.old) (open_faults self.new) }
        ensures writes { Stays (write_faults self.old) (write_faults self.new) };

    /// Takes a sink back, with its count of faults: the name holds what the sink has taken.
    fn give_out(&mut self, name: &str, part: Self::Out)
        requires { Self.Out.label part ≡ name.now }
        ensures here { held self.new name.now ≡ Self.Out.taken part }
        ensures others { StaysBut name.now (held self.old) (held self.new) }
        ensures count { Counted name.now (Self.Out.faults part) (write_faults self.old)
            (write_faults self.new) }
        ensures opens { Stays (open_faults self.old) (open_faults self.new) }
        ensures reads { Stays (read_faults self.old) (read_faults self.new) };
}

/// Writes all the bytes. After a fault a front of them was taken.
pub fn write_all<S: Sink>(sink: &mut S, bytes: &[u8]) -> Result<(), SinkFault>
    ensures { Wrote S.taken S.faults S.label sink.old sink.new bytes.now result }
{
    let mut done = 0;
    while done < bytes.len() {
        let count = sink.write(&bytes[done..])?;
        done += count;
    }
    Ok(())
}
