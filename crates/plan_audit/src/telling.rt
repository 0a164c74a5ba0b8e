//! Whether a text is that of a reply.
ghost use Rattle.std.specs.Prelude.{◌≡◌, Some, IfOk};
ghost use Rattle.plan_audit.specs.Judging as spec;

use byte_lines::SteadyOut;
use command_words::{Reply, write_reply};
use std::alloc::{AllocError, Global};

/// Whether a text is that of a reply, which is spelled in memory.
pub(crate) fn is_text_of(alloc: Global, text: &[u8], reply: &Reply) -> Result<bool, AllocError>
    ensures { IfOk result (λ is. is ≡ spec.is_text_of text.now (Some reply.now)) }
{
    let mut spelled = SteadyOut::new(alloc);
    match write_reply(reply, &mut spelled) {
        Ok(()) => Ok(text == spelled.bytes()),
        Err(_) => Err(AllocError),
    }
}
