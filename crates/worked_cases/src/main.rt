//! Runs worked cases of the program over a shelf in memory. The cases are read from the standard input, and what each comes to is
//! printed: its status, what its console has, and what the shelf holds under the names that it shows. `directive` has the format.
#![tactic(auto)]

mod case;
mod directive;
mod made;
mod mutants;
mod mutation;
mod report;
mod study;
mod traces;

use case::Case;
use directive::Directive;
use std::alloc::AllocError;
use std::io::{self, BufRead, BufReader, Write};
use std::sync::Wait;
use std::thread::Threads;

fn main(rt: HostRuntime) -> io::Result<()> {
    let alloc = rt.alloc();
    let mut report = Vec::new(alloc);
    let mut case = Case::new(alloc);
    for line in BufReader::new(alloc, rt.reader())?.lines(alloc) {
        let line = line?;
        let directive = Directive::read(line.as_str());
        if let Directive::Case(name) = directive {
            finish(&rt, &mut report, case)?;
            case = Case::named(alloc, name)?;
        } else {
            case.add(directive)?;
        }
    }
    finish(&rt, &mut report, case)?;
    io::writer(&rt).write_all(report.as_slice())
}

/// Runs a case that has a name.
fn finish<R: Threads + Wait + Sync>(
    rt: &R,
    report: &mut Vec<u8>,
    case: Case,
) -> Result<(), AllocError> {
    if case.is_begun() {
        case.run(rt, report)?;
    }
    Ok(())
}
