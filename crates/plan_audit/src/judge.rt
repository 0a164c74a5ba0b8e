//! The reply to a request is judged: whether it is in order, and is the one that the definitions give.
ghost use Rattle.std.specs.Prelude.{◌≡◌, true, take, IfOk, IfErr};
ghost use Rattle.plan_schema.specs.declared.name.Name.{Name};
ghost use Rattle.command_words.specs.Spelling.{is_sound_command};
ghost use Rattle.session_rules.specs.Requests.{Request, Makes, Asks, IsBad};
ghost use Rattle.session_rules.specs.Answers.{answer, change_answer};
ghost use Rattle.session_rules.specs.Sessions as sessions;
ghost use Rattle.request_loop.specs.Exchanges.{to_make, to_ask, to_tell};
ghost use Rattle.plan_audit.specs.Ahead.{still};
ghost use Rattle.plan_audit.specs.Judging as spec;
ghost use Rattle.plan_audit.specs.Replies.{form_for};
ghost use Rattle.plan_audit.specs.Cases.{terms_of, AreTerms, IsBehind, IsFound, IsJudged, IsNext};
ghost use Rattle.plan_audit.specs.Cases.{StaysSource, JudgeStays, JudgeWaits, JudgeKeepsAll};

use crate::case::{Case, Found, Judge};
use crate::form::ReplyForm;
use crate::replies::NextReply;
use crate::same::is_entry_of;
use crate::standing::go_on;
use crate::telling::is_text_of;
use crate::verdict::AuditRule;
use byte_lines::Source;
use command_words::{Bad, Command, Reply};
use plan_book::PlanBook;
use plan_schema::{Change, Name};
use sessions::answer_at;
use std::alloc::AllocError;

/// Judges the reply to a change.
pub(crate) fn judge_change<K: Source>(
    case: &Case<'_>,
    judge: &mut Judge,
    output: &mut K,
    line: u64,
    user: &Name,
    change: &Change,
) -> Result<(), Found>
    requires terms { AreTerms (terms_of case.now) }
    requires behind { IsBehind (terms_of case.now) judge.old }
    ensures behind { IsBehind (terms_of case.now) judge.new }
    ensures judged { IsJudged (terms_of case.now) judge.old judge.new user.now
        (to_make line change.now) (still judge.old.replies.ahead (K.left output.old))
        (still judge.new.replies.ahead (K.left output.new)) (K.faults output.old)
        (K.faults output.new) result }
    ensures source { StaysSource K.faults K.label output.old output.new }
{
    let form = next_reply(case, judge, output)?;
    if !has_entry(case, line, user, change, form) {
        return Err(Found::Breaks(AuditRule::Entry));
    }
    if !is_right_change(case, judge, user, change, form)? {
        return Err(Found::Breaks(AuditRule::Answer));
    }
    judge.pass(line, form)?;
    Ok(())
}

/// Judges the reply to a command that is no change.
pub(crate) fn judge_answer<K: Source>(
    case: &Case<'_>,
    judge: &mut Judge,
    output: &mut K,
    line: u64,
    user: &Name,
    command: &Command<'_>,
) -> Result<(), Found>
    requires terms { AreTerms (terms_of case.now) }
    requires behind { IsBehind (terms_of case.now) judge.old }
    requires sound { is_sound_command command.now ≡ true }
    ensures behind { IsBehind (terms_of case.now) judge.new }
    ensures judged { IsJudged (terms_of case.now) judge.old judge.new user.now
        (to_ask line command.now) (still judge.old.replies.ahead (K.left output.old))
        (still judge.new.replies.ahead (K.left output.new)) (K.faults output.old)
        (K.faults output.new) result }
    ensures source { StaysSource K.faults K.label output.old output.new }
{
    let form = next_reply(case, judge, output)?;
    if !is_right_answer(case, judge, user, command, form)? {
        return Err(Found::Breaks(AuditRule::Answer));
    }
    judge.line = line;
    Ok(())
}

/// Judges the reply to a request that isn't in the grammar.
pub(crate) fn judge_fault<K: Source>(
    case: &Case<'_>,
    judge: &mut Judge,
    output: &mut K,
    line: u64,
    bad: Bad,
) -> Result<(), Found>
    requires behind { IsBehind (terms_of case.now) judge.old }
    ensures behind { IsBehind (terms_of case.now) judge.new }
    ensures judged { (user : Name) → IsJudged (terms_of case.now) judge.old judge.new user
        (to_tell line bad) (still judge.old.replies.ahead (K.left output.old))
        (still judge.new.replies.ahead (K.left output.new)) (K.faults output.old)
        (K.faults output.new) result }
    ensures source { StaysSource K.faults K.label output.old output.new }
{
    let form = next_reply(case, judge, output)?;
    if !is_told_so(case, judge, bad, form)? {
        return Err(Found::Breaks(AuditRule::Answer));
    }
    judge.line = line;
    Ok(())
}

/// Reads the next reply, whose point has to be in order, and takes it for the last one.
fn next_reply<K: Source>(
    case: &Case<'_>,
    judge: &mut Judge,
    output: &mut K,
) -> Result<ReplyForm, Found>
    requires { IsBehind (terms_of case.now) judge.old }
    ensures behind { IsBehind (terms_of case.now) judge.new }
    ensures stays { JudgeWaits judge.old judge.new }
    ensures reached { IfOk result
        (λ form. judge.new.last ≡ spec.last_after judge.old.last (form_for form)) }
    ensures next { IfOk result (IsNext (terms_of case.now) judge.old.last
        (still judge.old.replies.ahead (K.left output.old))
        (still judge.new.replies.ahead (K.left output.new)) judge.new.replies.text) }
    ensures found { IfErr result (λ found. (user : Name) (request : Request)
        → IsFound (terms_of case.now) judge.old user request
        (still judge.old.replies.ahead (K.left output.old)) (K.faults output.old)
        (K.faults output.new) found) }
    ensures source { StaysSource K.faults K.label output.old output.new }
{
    let form = next_in_order(case, judge, output)?;
    judge.reach(form);
    Ok(form)
}

/// Reads the next reply, whose point has to be in order.
fn next_in_order<K: Source>(
    case: &Case<'_>,
    judge: &mut Judge,
    output: &mut K,
) -> Result<ReplyForm, Found>
    ensures stays { JudgeStays judge.old judge.new }
    ensures next { IfOk result (IsNext (terms_of case.now) judge.old.last
        (still judge.old.replies.ahead (K.left output.old))
        (still judge.new.replies.ahead (K.left output.new)) judge.new.replies.text) }
    ensures found { IfErr result (λ found. (user : Name) (request : Request)
        → IsFound (terms_of case.now) judge.old user request
        (still judge.old.replies.ahead (K.left output.old)) (K.faults output.old)
        (K.faults output.new) found) }
    ensures source { StaysSource K.faults K.label output.old output.new }
{
    let form = match judge.replies.next(output)? {
        NextReply::End => return Err(Found::Breaks(AuditRule::Short)),
        NextReply::NotInForm => return Err(Found::Breaks(AuditRule::Form)),
        NextReply::Reply(form) => form,
    };
    if !is_in_order(case, judge.last, form) {
        return Err(Found::Breaks(AuditRule::Point));
    }
    Ok(form)
}

/// Whether a reply's point is no less than the last one, and not above the ceiling.
fn is_in_order(case: &Case<'_>, last: u64, form: ReplyForm) -> bool
    ensures { result ≡ spec.is_in_order last case.now.ceiling (spec.point_in (form_for form)) }
{
    match form.point() {
        Some(point) => last <= point && point <= case.ceiling,
        None => true,
    }
}

/// Whether the change was entered, where the reply says that it was accepted.
fn has_entry(case: &Case<'_>, line: u64, user: &Name, change: &Change, form: ReplyForm) -> bool
    ensures { result ≡ spec.has_entry case.now.base.now case.now.entries.now case.now.session
        case.now.floor line user.now (Makes change.now) (form_for form) }
{
    match form {
        ReplyForm::Done(point) => is_entered(case, line, user, change, point),
        ReplyForm::Listed(_, _) => true,
        ReplyForm::Refused(_) => true,
        ReplyForm::Faulty => true,
        ReplyForm::NoMemory => true,
    }
}

/// Whether the reply that was read is one that a change is to be answered.
fn is_right_change(
    case: &Case<'_>,
    judge: &mut Judge,
    user: &Name,
    change: &Change,
    form: ReplyForm,
) -> Result<bool, AllocError>
    requires terms { AreTerms (terms_of case.now) }
    requires behind { IsBehind (terms_of case.now) judge.old }
    requires reached { judge.old.last ≡ spec.last_after judge.old.last (form_for form) }
    ensures behind { IsBehind (terms_of case.now) judge.new }
    ensures keeps { JudgeKeepsAll judge.old judge.new }
    ensures right { IfOk result (λ is. is ≡ spec.is_right case.now.base.now case.now.entries.now
        case.now.session user.now (Makes change.now) (form_for form) judge.old.replies.text) }
{
    match form {
        ReplyForm::Done(point) => {
            is_text_of(case.alloc, judge.replies.text(), &Reply::Ok(point))
        }
        ReplyForm::NoMemory => is_text_of(case.alloc, judge.replies.text(), &Reply::Mem),
        ReplyForm::Listed(point, _) => is_right_refusal(case, judge, user, change, point),
        ReplyForm::Refused(point) => is_right_refusal(case, judge, user, change, point),
        ReplyForm::Faulty => Ok(false),
    }
}

/// Whether the entry at a point stands above the floor and is this change.
fn is_entered(case: &Case<'_>, line: u64, user: &Name, change: &Change, point: u64) -> bool
    ensures { result ≡ spec.is_entered case.now.base.now case.now.entries.now case.now.session
        case.now.floor line user.now change.now point }
{
    if point <= case.floor {
        return false;
    }
    match case.entries.get((point - 1) as usize) {
        Some(entry) => is_entry_of(case.session, line, user, change, entry),
        None => false,
    }
}

/// Whether the reply that was read is the refusal of a change at a point.
fn is_right_refusal(
    case: &Case<'_>,
    judge: &mut Judge,
    user: &Name,
    change: &Change,
    point: u64,
) -> Result<bool, AllocError>
    requires terms { AreTerms (terms_of case.now) }
    requires behind { IsBehind (terms_of case.now) judge.old }
    requires reached { judge.old.last ≡ point }
    ensures behind { IsBehind (terms_of case.now) judge.new }
    ensures keeps { JudgeKeepsAll judge.old judge.new }
    ensures right { IfOk result (λ is. is ≡ spec.is_text_of judge.old.replies.text
        (change_answer case.now.base.now (take point case.now.entries.now) user.now change.now)) }
{
    go_on(&mut judge.book, case.entries, point)?;
    match judge.book.refusal(user, change) {
        Some(refusal) => is_text_of(case.alloc, judge.replies.text(), &Reply::No(point, refusal)),
        None => Ok(false),
    }
}

/// Whether the reply that was read is the one that a command is to be answered.
fn is_right_answer(
    case: &Case<'_>,
    judge: &mut Judge,
    user: &Name,
    command: &Command<'_>,
    form: ReplyForm,
) -> Result<bool, AllocError>
    requires terms { AreTerms (terms_of case.now) }
    requires behind { IsBehind (terms_of case.now) judge.old }
    requires reached { judge.old.last ≡ spec.last_after judge.old.last (form_for form) }
    requires sound { is_sound_command command.now ≡ true }
    ensures behind { IsBehind (terms_of case.now) judge.new }
    ensures keeps { JudgeKeepsAll judge.old judge.new }
    ensures right { IfOk result (λ is. is ≡ spec.is_right case.now.base.now case.now.entries.now
        case.now.session user.now (Asks command.now) (form_for form) judge.old.replies.text) }
{
    if let ReplyForm::NoMemory = form {
        if needs_no_memory(command) {
            return Ok(false);
        }
        return is_text_of(case.alloc, judge.replies.text(), &Reply::Mem);
    }
    match form.point() {
        Some(point) => is_answer_at(case, judge, user, command, point),
        None => Ok(false),
    }
}

/// Whether there is always memory for the answer to a command.
fn needs_no_memory(command: &Command<'_>) -> bool
    ensures { result ≡ sessions.needs_no_memory command.now }
{
    matches!(command, Command::Hello(_) | Command::Point | Command::Quit)
}

/// Whether the reply that was read is the answer to a command at a point.
fn is_answer_at(
    case: &Case<'_>,
    judge: &mut Judge,
    user: &Name,
    command: &Command<'_>,
    point: u64,
) -> Result<bool, AllocError>
    requires terms { AreTerms (terms_of case.now) }
    requires behind { IsBehind (terms_of case.now) judge.old }
    requires reached { judge.old.last ≡ point }
    requires sound { is_sound_command command.now ≡ true }
    ensures behind { IsBehind (terms_of case.now) judge.new }
    ensures keeps { JudgeKeepsAll judge.old judge.new }
    ensures right { IfOk result (λ is. is ≡ spec.is_text_of judge.old.replies.text
        (answer case.now.base.now (take point case.now.entries.now) user.now command.now)) }
{
    go_on(&mut judge.book, case.entries, point)?;
    let reply = answer_at(case.alloc, &mut judge.book, user, command)?;
    is_text_of(case.alloc, judge.replies.text(), &reply)
}

/// Whether the reply that was read tells why a request isn't in the grammar.
fn is_told_so(case: &Case<'_>, judge: &Judge, bad: Bad, form: ReplyForm) -> Result<bool, AllocError>
    ensures { IfOk result (λ is. (user : Name) → is ≡ spec.is_right case.now.base.now
        case.now.entries.now case.now.session user (IsBad bad) (form_for form)
        judge.now.replies.text) }
{
    match form {
        ReplyForm::Faulty => is_text_of(case.alloc, judge.replies.text(), &Reply::Bad(bad)),
        ReplyForm::Done(_) => Ok(false),
        ReplyForm::Listed(_, _) => Ok(false),
        ReplyForm::Refused(_) => Ok(false),
        ReplyForm::NoMemory => Ok(false),
    }
}
