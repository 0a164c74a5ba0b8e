//! Full pegging over a base that is made: for each planned receipt of each part its shares are asked for, and they are to sum to it.
use crate::made::{held, made_shelf, run_words};
use std::alloc::{AllocError, Global};
use std::sync::Wait;
use std::thread::Threads;

/// A planned receipt of a part.
#[derive(Clone, Copy)]
struct Receipt<'a> {
    part: &'a [u8],
    date: &'a [u8],
    planned: u64,
}

/// Makes a base of so many parts from a start, asks for the plans of all parts and then for the shares of all planned receipts, and reports
/// how many of these there are and how many the shares sum to.
pub fn report_traces<R: Threads + Wait + Sync>(
    rt: &R,
    alloc: Global,
    parts: u64,
    start: u64,
    report: &mut Vec<u8>,
) -> Result<(), AllocError> {
    let mut shelf = made_shelf(rt, alloc, parts, start)?;
    let base = held(alloc, &shelf, "base")?;
    let names = part_names(alloc, base.as_slice())?;
    shelf.put("asked", plan_requests(alloc, names.as_slice())?.as_slice())?;
    run_words(rt, alloc, "run base journal asked plans", &mut shelf)?;
    let plans = held(alloc, &shelf, "plans")?;
    let receipts = receipts_in(alloc, names.as_slice(), plans.as_slice())?;
    shelf.put(
        "traced",
        trace_requests(alloc, receipts.as_slice())?.as_slice(),
    )?;
    run_words(rt, alloc, "run base journal traced shares", &mut shelf)?;
    let shares = held(alloc, &shelf, "shares")?;
    let sums = sums_in(alloc, shares.as_slice())?;
    let equal = receipts
        .iter()
        .zip(sums.iter())
        .filter(|(receipt, sum)| receipt.planned == **sum);
    let line = format!(in alloc; "{} receipts {} sums\n", receipts.len(), equal.count())?;
    report.extend_from_slice(line.as_bytes())
}

/// The names of a base's parts, in order.
fn part_names<'a>(alloc: Global, base: &'a [u8]) -> Result<Vec<&'a [u8]>, AllocError> {
    let mut names = Vec::new(alloc);
    for line in base.split(|byte| *byte == b'\n') {
        if line.starts_with(b"PART,") {
            names.push(field(line, b',', 1))?;
        }
    }
    Ok(names)
}

/// A request for the plan of each part.
fn plan_requests(alloc: Global, names: &[&[u8]]) -> Result<Vec<u8>, AllocError> {
    let mut text = Vec::new(alloc);
    for name in names {
        text.extend_from_slice(b"PLAN Baseline ")?;
        text.extend_from_slice(name)?;
        text.push(b'\n')?;
    }
    Ok(text)
}

/// The planned receipts that the replies to these requests tell.
fn receipts_in<'a>(
    alloc: Global,
    names: &[&'a [u8]],
    plans: &'a [u8],
) -> Result<Vec<Receipt<'a>>, AllocError> {
    let mut receipts = Vec::new(alloc);
    let mut rest = names.iter();
    let mut part: &'a [u8] = b"";
    for line in plans.split(|byte| *byte == b'\n') {
        if line.starts_with(b"OK ") {
            part = rest.next().copied().unwrap_or(b"");
        } else if number(field(line, b' ', 3)) > 0 {
            receipts.push(Receipt {
                part,
                date: field(line, b' ', 0),
                planned: number(field(line, b' ', 3)),
            })?;
        }
    }
    Ok(receipts)
}

/// A request for the shares of each planned receipt.
fn trace_requests(alloc: Global, receipts: &[Receipt<'_>]) -> Result<Vec<u8>, AllocError> {
    let mut text = Vec::new(alloc);
    for receipt in receipts {
        text.extend_from_slice(b"TRACE Baseline ")?;
        text.extend_from_slice(receipt.part)?;
        text.push(b' ')?;
        text.extend_from_slice(receipt.date)?;
        text.push(b'\n')?;
    }
    Ok(text)
}

/// The sums of the shares that each reply tells.
fn sums_in(alloc: Global, shares: &[u8]) -> Result<Vec<u64>, AllocError> {
    let mut sums = Vec::new(alloc);
    for line in shares.split(|byte| *byte == b'\n') {
        if line.starts_with(b"OK ") {
            sums.push(0)?;
        } else if let Some(sum) = sums.last_mut() {
            *sum = quantity(line).saturating_add(*sum);
        }
    }
    Ok(sums)
}

/// The quantity of a share: it stands last in its line.
fn quantity(line: &[u8]) -> u64 {
    if line.starts_with(b"DEMAND ") {
        number(field(line, b' ', 3))
    } else {
        number(field(line, b' ', 2))
    }
}

/// The field of a line at a place, from 0; nothing where there is none.
fn field<'a>(line: &'a [u8], comma: u8, place: usize) -> &'a [u8] {
    let mut fields = line.split(|byte| *byte == comma);
    for _ in 0..place {
        let _ = fields.next();
    }
    fields.next().unwrap_or(b"")
}

/// The number that some digits are.
fn number(digits: &[u8]) -> u64 {
    let mut number: u64 = 0;
    for digit in digits {
        number = number
            .saturating_mul(10)
            .saturating_add(u64::from(digit.saturating_sub(b'0')));
    }
    number
}
