//! Small faults of a text.
use std::alloc::{AllocError, Global};

/// What is done to a text at a place.
#[derive(Clone, Copy)]
pub enum Mutation {
    /// The byte there is replaced by another digit or letter.
    ByteReplaced,
    /// The byte there is taken out.
    ByteTakenOut,
    /// The line there is taken out.
    LineTakenOut,
    /// The line there stands twice.
    LineTwice,
    /// The line there stands behind the next one, if there is one.
    LinesExchanged,
}

impl Mutation {
    /// The mutations by turns.
    pub fn by_turns(turn: u64) -> Mutation {
        match turn % 5 {
            0 => Mutation::ByteReplaced,
            1 => Mutation::ByteTakenOut,
            2 => Mutation::LineTakenOut,
            3 => Mutation::LineTwice,
            _ => Mutation::LinesExchanged,
        }
    }

    /// The text with this done to it.
    pub fn of(self, alloc: Global, text: &[u8], place: usize) -> Result<Vec<u8>, AllocError> {
        match self {
            Mutation::ByteReplaced => with_byte_replaced(alloc, text, place),
            Mutation::ByteTakenOut => without_byte(alloc, text, place),
            Mutation::LineTakenOut => with_line_times(alloc, text, line_at(text, place), 0),
            Mutation::LineTwice => with_line_times(alloc, text, line_at(text, place), 2),
            Mutation::LinesExchanged => with_line_later(alloc, text, line_at(text, place)),
        }
    }
}

/// The number, from 0, of the line that a place is in.
fn line_at(text: &[u8], place: usize) -> usize {
    text.iter()
        .take(place)
        .filter(|byte| **byte == b'\n')
        .count()
}

/// The text with the byte at a place replaced.
fn with_byte_replaced(alloc: Global, text: &[u8], place: usize) -> Result<Vec<u8>, AllocError> {
    let mut mutant = Vec::from_slice(alloc, text)?;
    if let Some(byte) = mutant.get_mut(place) {
        *byte = replaced(*byte);
    }
    Ok(mutant)
}

/// The text without the byte at a place.
fn without_byte(alloc: Global, text: &[u8], place: usize) -> Result<Vec<u8>, AllocError> {
    let mut mutant = Vec::new(alloc);
    for (at, byte) in text.iter().enumerate() {
        if at != place {
            mutant.push(*byte)?;
        }
    }
    Ok(mutant)
}

/// The text with the line of a number so many times, from 0 to 2, in the place of once.
fn with_line_times(
    alloc: Global,
    text: &[u8],
    number: usize,
    times: u8,
) -> Result<Vec<u8>, AllocError> {
    let mut mutant = Vec::new(alloc);
    for (at, line) in text.split_inclusive(|byte| *byte == b'\n').enumerate() {
        if at != number || times > 0 {
            mutant.extend_from_slice(line)?;
        }
        if at == number && times > 1 {
            mutant.extend_from_slice(line)?;
        }
    }
    Ok(mutant)
}

/// The text with the line of a number behind the next one.
fn with_line_later(alloc: Global, text: &[u8], number: usize) -> Result<Vec<u8>, AllocError> {
    let mut mutant = Vec::new(alloc);
    let mut waiting: &[u8] = b"";
    for (at, line) in text.split_inclusive(|byte| *byte == b'\n').enumerate() {
        if at == number {
            waiting = line;
        } else {
            mutant.extend_from_slice(line)?;
            mutant.extend_from_slice(waiting)?;
            waiting = b"";
        }
    }
    mutant.extend_from_slice(waiting)?;
    Ok(mutant)
}

/// Another digit for a digit, another letter for a letter, and a digit for any other byte.
fn replaced(byte: u8) -> u8 {
    match byte {
        b'0'..=b'8' | b'a'..=b'y' | b'A'..=b'Y' => byte + 1,
        b'z' => b'a',
        b'Z' => b'A',
        _ => b'0',
    }
}
