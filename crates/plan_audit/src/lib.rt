//! The audit of a run: whether what its sessions wrote is legal for its journal.
#![tactic(auto)]

mod ahead;
mod auditing;
mod case;
mod form;
mod judge;
mod laws;
mod lost;
mod replies;
mod rounds;
mod same;
mod session;
mod standing;
mod telling;
mod verdict;

pub use auditing::{AuditFault, audit};
pub use case::Case;
pub use form::ReplyForm;
pub use laws::{
    judged_legal_is_legal, legal_is_judged_legal, refused_is_first, seen_rounds_are_legal,
    seen_session_is_legal, unrefused_is_accepted,
};
pub use replies::{NextReply, Replies, ReplyFault};
pub use rounds::{RunFault, audit_rounds};
pub use session::{SessionFault, audit_session};
pub use verdict::{AuditRule, Verdict};
