//! Text that is gathered before it is written.
ghost use Rattle.std.specs.Prelude.{◌≡◌, [], OnOk, map};
ghost use Rattle.std.specs.List.{flat_map};
ghost use Rattle.plan_schema.specs.Outside.{Wrote};
ghost use Rattle.command_words.specs.Pages.{Gathered};
ghost use Rattle.command_words.specs.Replies.{ended};

use arrayvec::ArrayVec;
use byte_lines::{Sink, SinkFault, write_all};

/// Room for text that isn't written yet, so that a long text is written by few calls, and a reply that fits by one.
pub type Page = ArrayVec<u8, 4096>;

/// Writes what is gathered.
pub fn flush<S: Sink>(page: &mut Page, sink: &mut S) -> Result<(), SinkFault>
    ensures wrote { Wrote S.taken S.faults S.label sink.old sink.new page.old.items result }
    ensures empty { OnOk result (page.new.items ≡ []) }
{
    write_all(sink, page.as_slice())?;
    page.clear();
    Ok(())
}

/// Adds a text behind what is gathered. Where there is no room for it, that is written first.
pub(crate) fn put<S: Sink>(page: &mut Page, text: &[u8], sink: &mut S) -> Result<(), SinkFault>
    ensures { Gathered S.taken S.faults S.label sink.old sink.new page.old.items page.new.items
        text.now result }
{
    if let Ok(()) = page.try_extend_from_slice(text) {
        return Ok(());
    }
    flush(page, sink)?;
    put_first(page, text, sink)
}

/// Begins a page with a text, or writes one that is too long for a page.
fn put_first<S: Sink>(page: &mut Page, text: &[u8], sink: &mut S) -> Result<(), SinkFault>
    requires { page.old.items ≡ [] }
    ensures { Gathered S.taken S.faults S.label sink.old sink.new page.old.items page.new.items
        text.now result }
{
    if let Ok(()) = page.try_extend_from_slice(text) {
        return Ok(());
    }
    write_all(sink, text)
}

/// Adds a line with its line feed. Where there is no room for it, what is gathered is written first.
pub fn put_line<S: Sink>(page: &mut Page, line: &[u8], sink: &mut S) -> Result<(), SinkFault>
    ensures { Gathered S.taken S.faults S.label sink.old sink.new page.old.items page.new.items
        (ended line.now) result }
{
    put(page, line, sink)?;
    put(page, b"\n", sink)
}

/// Adds lines, each with its line feed.
pub(crate) fn put_lines<S: Sink>(
    page: &mut Page,
    lines: &[Vec<u8>],
    sink: &mut S,
) -> Result<(), SinkFault>
    ensures { Gathered S.taken S.faults S.label sink.old sink.new page.old.items page.new.items
        (flat_map ended (map (λ line. line.items) lines.now)) result }
{
    for line in lines {
        if let Err(fault) = put_line(page, line.as_slice(), sink) {
            return Err(fault);
        }
    }
    Ok(())
}
