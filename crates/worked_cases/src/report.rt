//! What is printed of a case.
use std::alloc::AllocError;

/// A line with a word and a text.
pub fn show_text(report: &mut Vec<u8>, word: &str, text: &str) -> Result<(), AllocError> {
    report.extend_from_slice(word.as_bytes())?;
    report.push(b' ')?;
    report.extend_from_slice(text.as_bytes())?;
    report.push(b'\n')?;
    Ok(())
}

/// What is held under a name: each line of it behind a `|`, and a last one without line feed behind a `+`.
pub fn show(report: &mut Vec<u8>, name: &str, held: Option<&[u8]>) -> Result<(), AllocError> {
    match held {
        Some(bytes) => {
            show_text(report, "held", name)?;
            show_lines(report, bytes)
        }
        None => show_text(report, "nothing", name),
    }
}

fn show_lines(report: &mut Vec<u8>, bytes: &[u8]) -> Result<(), AllocError> {
    for line in bytes.split_inclusive(|byte| *byte == b'\n') {
        if line.ends_with(b"\n") {
            report.push(b'|')?;
            report.extend_from_slice(line)?;
        } else {
            report.push(b'+')?;
            report.extend_from_slice(line)?;
            report.push(b'\n')?;
        }
    }
    Ok(())
}
