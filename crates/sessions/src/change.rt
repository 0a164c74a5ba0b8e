//! Replies to changes, which are entered in the book.
ghost use Rattle.std.specs.Prelude.{◌≡◌, ◌≤◌, true, IfErr, IfOk};
ghost use Rattle.plan_schema.specs.declared.limits.TheConstants.{LINE_LIMIT};
ghost use Rattle.plan_schema.specs.Sound.{is_sound_change};
ghost use Rattle.request_loop.specs.Exchanges.{to_make};
ghost use Rattle.sessions.specs.Replied.{Gives, Stops};

use crate::reach::Reach;
use command_words::Reply;
use plan_office::OfficeFault;
use plan_schema::{Change, Name};
use request_loop::Why;

/// The reply to a change of this user in a line of the session. One that isn't refused is entered.
pub fn reply_to_change<T: Reach>(
    reach: &T,
    state: &mut T::State,
    user: &Name,
    line: u64,
    change: Change,
) -> Result<Reply, Why>
    requires ready { T.ready reach.now state.old }
    requires sound { is_sound_change change ≡ true }
    requires line { 1 ≤ line }
    requires most_lines { line ≤ LINE_LIMIT }
    ensures ready { T.ready reach.now state.new }
    ensures ok { IfOk result
        (λ reply. Gives (T.sight reach.now) state.old state.new user.now
        (to_make line change) reply) }
    ensures err { IfErr result
        (λ why. Stops (T.sight reach.now) (T.failed reach.now) (T.worn reach.now)
        state.old state.new user.now (to_make line change) why) }
{
    match reach.change(state, line, user, change) {
        Ok(point) => Ok(Reply::Ok(point)),
        Err(OfficeFault::Refused(point, refusal)) => Ok(Reply::No(point, refusal)),
        Err(OfficeFault::Memory) => Ok(Reply::Mem),
        Err(OfficeFault::Failed) => Err(Why::Failed),
        Err(OfficeFault::Worn) => Err(Why::Worn),
    }
}
