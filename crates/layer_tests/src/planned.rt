//! Scenarios to which changes are made one after another, and what they show.
ghost use Rattle.std.specs.Prelude.{◌+◌};
ghost use Rattle.version_rules.specs.Ids.{AreOlder};
ghost use Rattle.scenario_merge.specs.Grown.{ids_in};

use crate::fixtures::{base, entry};
use byte_lines::{Bytes, SteadyOut};
use command_words::{Reply, write_reply};
use plan_schema::{CellName, Name};
use record_versions::Ids;
use scenario_merge::{ApplyFault, Forest, TreeRow};
use std::alloc::{AllocError, Global};
use std::test::Fail;

/// Scenarios with the number of the last change.
#[derive(Drop)]
pub struct Planned {
    alloc: Global,
    pub forest: Forest,
    point: u64,
    ghost older: { AreOlder (point + 1) (ids_in forest) },
}

impl Planned {
    /// The root alone, with the records of a base file.
    pub fn begin(alloc: Global, text: &[u8]) -> Result<Planned, Fail> {
        let contents = base(alloc, text)?;
        let forest = Forest::begin(alloc, &contents)?;
        Ok(Planned {
            alloc,
            forest,
            point: 0,
        })
    }

    /// Makes the change of an entry, and answers as a session is answered.
    pub fn enter(&mut self, text: &[u8]) -> Result<Bytes, Fail> {
        let entry = entry(self.alloc, text)?;
        let Some(next) = self.point.checked_add(1) else {
            return Err(Fail::new("too many changes"));
        };
        match self.forest.apply(next, &entry.user, &entry.change) {
            Ok(()) => {
                self.point = next;
                reply_text(self.alloc, &Reply::Ok(next))
            }
            Err(ApplyFault::Refused(refusal)) => {
                reply_text(self.alloc, &Reply::No(self.point, refusal))
            }
            Err(ApplyFault::Memory) => reply_text(self.alloc, &Reply::Mem),
        }
    }

    /// All that the scenarios show: their rows, and the ids of their bases and contents.
    pub fn shown(&self) -> Result<Bytes, AllocError> {
        let mut text = Bytes::new(self.alloc);
        for row in self.forest.rows()?.as_slice() {
            show_row(&mut text, self.alloc, row)?;
            if let Some(ids) = self.forest.base_ids(&row.name) {
                show_ids(&mut text, self.alloc, ids)?;
            }
            if let Some(ids) = self.forest.ids(&row.name) {
                show_ids(&mut text, self.alloc, ids)?;
            }
        }
        Ok(text)
    }

    /// The ids of the contents of a scenario.
    pub fn ids(&self, name: &Name) -> Result<Bytes, AllocError> {
        let mut text = Bytes::new(self.alloc);
        if let Some(ids) = self.forest.ids(name) {
            show_ids(&mut text, self.alloc, ids)?;
        }
        Ok(text)
    }
}

/// What a session would be told.
pub fn reply_text(alloc: Global, reply: &Reply) -> Result<Bytes, Fail> {
    let mut sink = SteadyOut::new(alloc);
    match write_reply(reply, &mut sink) {
        Ok(()) => Ok(sink.into_bytes()),
        Err(_) => Err(Fail::new("no reply")),
    }
}

/// Adds a scenario's name, its parent, its owner, whether it is private, and how many own changes it has.
fn show_row(text: &mut Bytes, alloc: Global, row: &TreeRow) -> Result<(), AllocError> {
    text.extend(b"\n")?;
    text.extend(row.name.as_bytes())?;
    show_name(text, &row.parent)?;
    show_name(text, &row.owner)?;
    text.extend(if row.private { b" private" } else { b" shared" })?;
    show_number(text, alloc, row.own as u64)
}

/// Adds a name that may be missing.
fn show_name(text: &mut Bytes, name: &Option<Name>) -> Result<(), AllocError> {
    text.extend(b" ")?;
    match name {
        Some(name) => text.extend(name.as_bytes()),
        None => text.extend(b"-"),
    }
}

/// Adds a number.
pub fn show_number(text: &mut Bytes, alloc: Global, number: u64) -> Result<(), AllocError> {
    text.extend(b" ")?;
    text.extend(format!(in alloc; "{number}")?.as_str().as_bytes())
}

/// Adds each id: the number of its entry, and its cell.
fn show_ids(text: &mut Bytes, alloc: Global, ids: &Ids) -> Result<(), AllocError> {
    for (_cell, id) in ids.iter() {
        show_number(text, alloc, id.point)?;
        match &id.cell {
            CellName::Plan => text.extend(b" plan")?,
            CellName::Cal(name) | CellName::Part(name) => {
                text.extend(b" ")?;
                text.extend(name.as_bytes())?;
            }
        }
    }
    Ok(())
}
