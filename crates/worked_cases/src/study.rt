//! What is looked at of a base that is made.
use crate::mutants::report_mutants;
use crate::traces::report_traces;
use std::alloc::{AllocError, Global};
use std::sync::Wait;
use std::thread::Threads;

/// A look at what is made of so many parts from a start.
#[derive(Clone, Copy)]
pub enum Study {
    /// The shares of all planned receipts.
    Traces { parts: u64, start: u64 },
    /// The audits of so many mutants of a run.
    Mutants { count: u64, parts: u64, start: u64 },
}

impl Study {
    /// The shares of all planned receipts, by two numbers.
    pub fn read_traces(words: &str) -> Option<Study> {
        let (parts, start) = words.split_once(" ")?;
        Some(Study::Traces {
            parts: parts.parse::<u64>().ok()?,
            start: start.parse::<u64>().ok()?,
        })
    }

    /// The audits of mutants, by three numbers.
    pub fn read_mutants(words: &str) -> Option<Study> {
        let (count, rest) = words.split_once(" ")?;
        let (parts, start) = rest.split_once(" ")?;
        Some(Study::Mutants {
            count: count.parse::<u64>().ok()?,
            parts: parts.parse::<u64>().ok()?,
            start: start.parse::<u64>().ok()?,
        })
    }

    /// Reports what is found.
    pub fn report<R: Threads + Wait + Sync>(
        self,
        rt: &R,
        alloc: Global,
        report: &mut Vec<u8>,
    ) -> Result<(), AllocError> {
        match self {
            Study::Traces { parts, start } => report_traces(rt, alloc, parts, start, report),
            Study::Mutants {
                count,
                parts,
                start,
            } => report_mutants(rt, alloc, count, parts, start, report),
        }
    }
}
