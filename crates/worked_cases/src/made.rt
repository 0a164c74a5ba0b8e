//! A base that is made, and the program over what the shelf holds of it.
use byte_lines::{MemoryShelf, NamedCalls};
use plan_schema::Series;
use response_program::response;
use std::alloc::{AllocError, Global};
use std::sync::Wait;
use std::thread::Threads;

/// The name of the console.
pub const CONSOLE: &str = "-";

/// A shelf of which no call fails.
pub fn steady_shelf(alloc: Global) -> MemoryShelf {
    MemoryShelf::new(alloc, Series::new(alloc), NamedCalls::new(alloc))
}

/// A shelf with a base of so many parts, under the name `base`, and an input, under `in`, both made from a start.
pub fn made_shelf<R: Threads + Wait + Sync>(
    rt: &R,
    alloc: Global,
    parts: u64,
    start: u64,
) -> Result<MemoryShelf, AllocError> {
    let mut shelf = steady_shelf(alloc);
    let words = format!(in alloc; "make {parts} {start} base in")?;
    run_words(rt, alloc, words.as_str(), &mut shelf)?;
    Ok(shelf)
}

/// Runs the program with the words of a text.
pub fn run_words<R: Threads + Wait + Sync>(
    rt: &R,
    alloc: Global,
    words: &str,
    shelf: &mut MemoryShelf,
) -> Result<(), AllocError> {
    let mut texts = Vec::new(alloc);
    for word in words.split_whitespace() {
        texts.push(String::from_str(alloc, word)?)?;
    }
    let _status = response(rt, alloc, texts.as_slice(), shelf);
    Ok(())
}

/// A copy of what the shelf holds under a name.
pub fn held(alloc: Global, shelf: &MemoryShelf, name: &str) -> Result<Vec<u8>, AllocError> {
    match shelf.held(name) {
        Some(bytes) => Vec::from_slice(alloc, bytes),
        None => Ok(Vec::new(alloc)),
    }
}
