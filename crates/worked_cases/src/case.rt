//! A case as it is read, and its run.
use crate::directive::Directive;
use crate::made::CONSOLE;
use crate::report::{show, show_text};
use crate::study::Study;
use byte_lines::{Calls, MemoryShelf, NamedCalls};
use plan_schema::Series;
use response_program::response;
use std::alloc::{AllocError, Global};
use std::sync::Wait;
use std::thread::Threads;

/// A file of the shelf.
#[derive(Drop)]
struct File {
    name: String,
    bytes: Vec<u8>,
}

/// What a case has been told so far.
#[derive(Drop)]
pub struct Case {
    alloc: Global,
    name: Option<String>,
    words: Vec<String>,
    files: Vec<File>,
    /// The numbers of the opening calls that fail.
    opens: Calls,
    /// The reads and writes that fail, by file.
    calls: NamedCalls,
    shown: Vec<String>,
    /// What is looked at in the place of a run.
    study: Option<Study>,
    /// Lines that say nothing.
    unknown: Vec<String>,
}

impl Case {
    /// A case that isn't begun.
    pub fn new(alloc: Global) -> Case {
        Case {
            alloc,
            name: None,
            words: Vec::new(alloc),
            files: Vec::new(alloc),
            opens: Series::new(alloc),
            calls: NamedCalls::new(alloc),
            shown: Vec::new(alloc),
            study: None,
            unknown: Vec::new(alloc),
        }
    }

    /// A case with a name.
    pub fn named(alloc: Global, name: &str) -> Result<Case, AllocError> {
        let mut case = Case::new(alloc);
        case.name = Some(String::from_str(alloc, name)?);
        Ok(case)
    }

    /// Whether the case has a name.
    pub fn is_begun(&self) -> bool {
        self.name.is_some()
    }

    /// Adds what a line says.
    pub fn add(&mut self, directive: Directive<'_>) -> Result<(), AllocError> {
        match directive {
            Directive::Words(words) => self.add_words(words),
            Directive::File(name) => self.begin_file(name),
            Directive::FailOpen(call) => self.opens.push(call),
            Directive::FailCall(call, name) => self.calls.push(name, call),
            Directive::Show(name) => push_text(&mut self.shown, self.alloc, name),
            Directive::Unknown(line) => push_text(&mut self.unknown, self.alloc, line),
            Directive::Study(study) => {
                self.study = Some(study);
                Ok(())
            }
            Directive::Case(_) | Directive::Remark => Ok(()),
            bytes => self.add_bytes(bytes),
        }
    }

    fn add_words(&mut self, words: &str) -> Result<(), AllocError> {
        for word in words.split_whitespace() {
            push_text(&mut self.words, self.alloc, word)?;
        }
        Ok(())
    }

    fn begin_file(&mut self, name: &str) -> Result<(), AllocError> {
        let file = File {
            name: String::from_str(self.alloc, name)?,
            bytes: Vec::new(self.alloc),
        };
        self.files.push(file)?;
        Ok(())
    }

    /// Adds bytes to the last file.
    fn add_bytes(&mut self, directive: Directive<'_>) -> Result<(), AllocError> {
        match self.files.last_mut() {
            Some(file) => file.add(self.alloc, directive),
            None => Ok(()),
        }
    }

    /// Runs the case, and reports what it comes to.
    pub fn run<R: Threads + Wait + Sync>(
        self,
        rt: &R,
        report: &mut Vec<u8>,
    ) -> Result<(), AllocError> {
        if let Some(name) = &self.name {
            show_text(report, "case", name.as_str())?;
        }
        if let Some(study) = self.study {
            return study.report(rt, self.alloc, report);
        }
        let mut shelf = MemoryShelf::new(self.alloc, self.opens, self.calls);
        for file in &self.files {
            shelf.put(file.name.as_str(), file.bytes.as_slice())?;
        }
        let status = response(rt, self.alloc, self.words.as_slice(), &mut shelf);
        let number = format!(in self.alloc; "{status}")?;
        show_text(report, "status", number.as_str())?;
        show(report, CONSOLE, shelf.held(CONSOLE))?;
        show_all(report, &shelf, self.shown.as_slice())?;
        show_unknown(report, self.unknown.as_slice())
    }
}

impl File {
    /// Adds the bytes that a line says.
    fn add(&mut self, alloc: Global, directive: Directive<'_>) -> Result<(), AllocError> {
        match directive {
            Directive::Line(text) => {
                self.bytes.extend_from_slice(text.as_bytes())?;
                self.bytes.push(b'\n')?;
            }
            Directive::Text(text) => self.bytes.extend_from_slice(text.as_bytes())?,
            Directive::Times(count, text) => self.add_times(count, text)?,
            Directive::Blank(count) => self.add_times(count, "\n")?,
            Directive::Lines(count, text) => self.add_lines(alloc, count, text)?,
            Directive::Byte(byte) => self.bytes.push(byte)?,
            _ => (),
        }
        Ok(())
    }

    fn add_times(&mut self, count: u64, text: &str) -> Result<(), AllocError> {
        for _ in 0..count {
            self.bytes.extend_from_slice(text.as_bytes())?;
        }
        Ok(())
    }

    fn add_lines(&mut self, alloc: Global, count: u64, text: &str) -> Result<(), AllocError> {
        for number in 0..count {
            let number = format!(in alloc; "{}", number + 1)?;
            self.add_numbered(number.as_str(), text)?;
        }
        Ok(())
    }

    /// Adds a line with a number in the place of each `#`.
    fn add_numbered(&mut self, number: &str, text: &str) -> Result<(), AllocError> {
        for byte in text.as_bytes() {
            if *byte == b'#' {
                self.bytes.extend_from_slice(number.as_bytes())?;
            } else {
                self.bytes.push(*byte)?;
            }
        }
        self.bytes.push(b'\n')?;
        Ok(())
    }
}

fn push_text(texts: &mut Vec<String>, alloc: Global, text: &str) -> Result<(), AllocError> {
    texts.push(String::from_str(alloc, text)?)?;
    Ok(())
}

/// Reports what the shelf holds under each name.
fn show_all(report: &mut Vec<u8>, shelf: &MemoryShelf, names: &[String]) -> Result<(), AllocError> {
    for name in names {
        show(report, name.as_str(), shelf.held(name.as_str()))?;
    }
    Ok(())
}

/// Reports the lines that say nothing.
fn show_unknown(report: &mut Vec<u8>, lines: &[String]) -> Result<(), AllocError> {
    for line in lines {
        show_text(report, "unknown", line.as_str())?;
    }
    Ok(())
}
