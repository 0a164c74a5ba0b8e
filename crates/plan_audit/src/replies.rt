//! The replies of a session, read from its output.
ghost use Rattle.std.specs.Prelude.{◌≡◌, ◌≢◌, ◌≤◌, ℕ, List, [], Some, IfOk};
ghost use Rattle.plan_audit.specs.Ahead.{still, TellsEnd, LinesTaken};
ghost use Rattle.plan_audit.specs.Buffers.{ahead_of};
ghost use Rattle.plan_audit.specs.Replies.{ReplyTaken};
ghost use Rattle.plan_audit.specs.Causes.{ReplyCause};

use crate::ahead::Ahead;
pub use crate::ahead::ReplyFault;
use crate::form::{ReplyForm, form_of_line};
use byte_lines::Source;
use std::alloc::Global;
use std::marker::Model;

/// What stands next in an output.
#[derive(Clone, Copy)]
pub enum NextReply {
    /// No more bytes.
    End,
    /// Bytes that don't begin with a whole reply in form.
    NotInForm,
    /// A whole reply in form.
    Reply(ReplyForm),
}

/// The replies of an output, one behind the other. The caller brings the same source to each call.
#[derive(Drop)]
pub struct Replies {
    ahead: Ahead,
    text: Vec<u8>,
}

impl Model for Replies {
    ghost use Rattle.plan_audit.specs.Buffers.{ahead_of};
    ghost use Rattle.plan_audit.specs.Ahead.{Output};

    ghost Value = { Output };

    ghost view = { λ r. record {
      ahead = ahead_of r.ahead;
      text = r.text.items;
    } };
}

impl Replies {
    /// Before the first reply.
    pub fn new(alloc: Global) -> Replies
        ensures ahead { result.ahead ≡ [] }
        ensures text { result.text ≡ [] }
    {
        Replies {
            ahead: Ahead::new(),
            text: Vec::new(alloc),
        }
    }

    /// The text of the reply that was read last.
    pub fn text(&self) -> &[u8]
        ensures { result.now ≡ self.now.text }
    {
        self.text.as_slice()
    }

    /// Whether there are no more bytes.
    pub(crate) fn is_at_end<S: Source>(&mut self, source: &mut S) -> Result<bool, ReplyFault>
        ensures told { IfOk result (λ is_end. TellsEnd is_end
            (still self.old.ahead (S.left source.old))) }
        ensures cause { ReplyCause S.faults S.label source.old source.new result }
    {
        self.ahead.is_at_end(source)
    }

    /// Reads the next reply. Where it isn't in form, the output is good for nothing more.
    pub fn next<S: Source>(&mut self, source: &mut S) -> Result<NextReply, ReplyFault>
        ensures reply { (all : List ℕ) → still self.old.ahead (S.left source.old) ≡ Some all
            → IfOk result (ReplyTaken all (still self.new.ahead (S.left source.new)) self.new.text) }
        ensures cause { ReplyCause S.faults S.label source.old source.new result }
    {
        self.text.clear();
        if self.ahead.is_at_end(source)? {
            return Ok(NextReply::End);
        }
        take_reply(&mut self.ahead, source, &mut self.text)
    }
}

/// Reads a reply into an empty text, where there are more bytes.
fn take_reply<S: Source>(
    ahead: &mut Ahead,
    source: &mut S,
    text: &mut Vec<u8>,
) -> Result<NextReply, ReplyFault>
    requires { text.old.items ≡ [] }
    ensures reply { (all : List ℕ) → still (ahead_of ahead.old) (S.left source.old) ≡ Some all
        → all ≢ []
        → IfOk result (ReplyTaken all (still (ahead_of ahead.new) (S.left source.new))
        text.new.items) }
    ensures cause { ReplyCause S.faults S.label source.old source.new result }
{
    if !ahead.take_line(source, text)? {
        return Ok(NextReply::NotInForm);
    }
    let Some(form) = form_of_line(&text[..text.len() - 1]) else {
        return Ok(NextReply::NotInForm);
    };
    if !take_lines(ahead, form.lines(), source, text)? {
        return Ok(NextReply::NotInForm);
    }
    Ok(NextReply::Reply(form))
}

/// Puts so many lines behind a text. Tells whether there are as many.
fn take_lines<S: Source>(
    ahead: &mut Ahead,
    count: u64,
    source: &mut S,
    text: &mut Vec<u8>,
) -> Result<bool, ReplyFault>
    ensures lines { (all : List ℕ) → still (ahead_of ahead.old) (S.left source.old) ≡ Some all
        → IfOk result (LinesTaken count all (still (ahead_of ahead.new) (S.left source.new))
        text.old.items text.new.items) }
    ensures cause { ReplyCause S.faults S.label source.old source.new result }
{
    for line in 0..count {
        if !ahead.take_line(source, text)? {
            return Ok(false);
        }
    }
    Ok(true)
}
