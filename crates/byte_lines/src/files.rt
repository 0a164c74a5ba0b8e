//! Files and standard output. What these devices hold is outside every contract; how often they failed is counted.
ghost use Rattle.std.specs.Prelude.{◌≡◌, None, [], List, ℕ};

use crate::part::Part;
use crate::rows::{Room, Rows};
use plan_schema::outside::{Failed, Shelf, ShelfFault, Sink, SinkFault, Source};
use std::alloc::Global;
use std::io::{ErrorKind, Print, Read, Write};
use std::rt::Files;
use std::{fs, io};

/// A file that is read.
#[derive(Drop)]
pub struct FileIn<R: Files> {
    file: R::File,
    faults: u64,
}

impl<R: Files> Source for FileIn<R> {
    ghost left = { λ _. None };

    ghost faults = { λ s. s.faults };

    ghost label = { λ _. [] };

    fn read(&mut self, into: &mut [u8]) -> Result<usize, Failed> {
        match self.file.read(into) {
            Ok(count) => Ok(count),
            Err(_) => {
                self.faults = self.faults.saturating_add(1);
                Err(Failed)
            }
        }
    }
}

#[derive(Drop)]
enum Target<'a, R: Files + Print> {
    File(R::File),
    Console(&'a R),
}

/// A file that is written, or standard output.
#[derive(Drop)]
pub struct FileOut<'a, R: Files + Print> {
    target: Target<'a, R>,
    faults: u64,
}

impl<R: Files + Print> Sink for FileOut<'_, R> {
    ghost taken = { λ _. None };

    ghost faults = { λ s. s.faults };

    ghost label = { λ _. [] };

    fn write(&mut self, from: &[u8]) -> Result<usize, SinkFault> {
        let written = match &mut self.target {
            Target::File(file) => file.write(from),
            Target::Console(runtime) => io::writer(*runtime).write(from),
        };
        match written {
            Ok(count) if count > 0 || from.is_empty() => Ok(count),
            Err(error) if error.kind() == ErrorKind::OutOfMemory => Err(SinkFault::Memory),
            _ => {
                self.faults = self.faults.saturating_add(1);
                Err(SinkFault::Failed)
            }
        }
    }
}

/// The files of a runtime. The name `-` is its standard output.
#[derive(Drop)]
pub struct FileShelf<'a, R: Files + Print> {
    rows: Rows,
    runtime: &'a R,
    alloc: Global,
}

impl<'a, R: Files + Print> FileShelf<'a, R> {
    /// The files of a runtime.
    pub fn new(alloc: Global, runtime: &'a R) -> FileShelf<'a, R>
        ensures opens { (name : List ℕ)
            → ⟦<FileShelf<'a, R> as Shelf>⟧.open_faults result name ≡ 0 }
        ensures reads { (name : List ℕ)
            → ⟦<FileShelf<'a, R> as Shelf>⟧.read_faults result name ≡ 0 }
        ensures writes { (name : List ℕ)
            → ⟦<FileShelf<'a, R> as Shelf>⟧.write_faults result name ≡ 0 }
    {
        FileShelf {
            rows: Rows::End,
            runtime,
            alloc,
        }
    }

    // Opens a file to read it. The console can't be read.
    fn file_in(&self, name: &str) -> io::Result<R::File> {
        if name == "-" {
            return Err(io::Error::from(ErrorKind::Unsupported));
        }
        fs::open(self.runtime, name)
    }

    // Makes a file, in place of the one there, or takes the console.
    fn target(&self, name: &str) -> io::Result<Target<'a, R>> {
        if name == "-" {
            return Ok(Target::Console(self.runtime));
        }
        Ok(Target::File(fs::create(self.runtime, name)?))
    }
}

impl<'a, R: Files + Print> Shelf for FileShelf<'a, R> {
    ghost use Rattle.byte_lines.specs.Rows.{open_faults_in, read_faults_in, write_faults_in};

    type In = Part<FileIn<R>>;

    type Out = Part<FileOut<'a, R>>;

    ghost held = { λ _ _. None };

    ghost open_faults = { λ s. open_faults_in s.rows };

    ghost read_faults = { λ s. read_faults_in s.rows };

    ghost write_faults = { λ s. write_faults_in s.rows };

    fn open_in(&mut self, name: &str) -> Result<Part<FileIn<R>>, ShelfFault> {
        let Ok(room) = Room::new(self.alloc, name) else {
            return Err(ShelfFault::Memory);
        };
        match self.file_in(name) {
            Ok(file) => {
                let device = FileIn { file, faults: 0 };
                Ok(Part { device, room })
            }
            Err(error) if error.kind() == ErrorKind::OutOfMemory => Err(ShelfFault::Memory),
            Err(_) => {
                self.rows.add_open_fault(room);
                Err(ShelfFault::Failed)
            }
        }
    }

    fn make_out(&mut self, name: &str) -> Result<Part<FileOut<'a, R>>, ShelfFault> {
        let Ok(room) = Room::new(self.alloc, name) else {
            return Err(ShelfFault::Memory);
        };
        match self.target(name) {
            Ok(target) => {
                let device = FileOut { target, faults: 0 };
                Ok(Part { device, room })
            }
            Err(error) if error.kind() == ErrorKind::OutOfMemory => Err(ShelfFault::Memory),
            Err(_) => {
                self.rows.add_open_fault(room);
                Err(ShelfFault::Failed)
            }
        }
    }

    fn give_in(&mut self, _name: &str, part: Part<FileIn<R>>) {
        let Part { device, room } = part;
        self.rows.add_read_faults(room, device.faults, 0);
    }

    fn give_out(&mut self, _name: &str, part: Part<FileOut<'a, R>>) {
        let Part { device, room } = part;
        self.rows.add_write_faults(room, device.faults, 0);
    }
}
