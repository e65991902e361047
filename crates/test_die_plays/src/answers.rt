//! Answers in words.

use crate::said::Reported;
use late_cert::{Certificate, JobRow};
use slot_core::{Outcome, Overdue, RenewalRefusal, Worst};
use slot_types::{Act, JobNo, Refusal, Reply, SlotReply};

/// Tells an act as scripts write operations: what a read gave and a write wrote stands after its page.
fn put_act(said: &mut Reported, act: &Act) -> Result<(), Refusal> {
    match act {
        Act::Read { page, bytes } => {
            said.numbered("R", *page)?;
            said.holds(bytes)
        }
        Act::Write { page, bytes } => {
            said.numbered("W", *page)?;
            said.holds(bytes)
        }
        Act::Trim { page } => said.numbered("T", *page),
        Act::CopyRead { page } => said.numbered("copy-out", *page),
        Act::CopyProgram { page } => said.numbered("copy-in", *page),
        Act::Erase { block } => said.numbered("erase", *block),
    }
}

/// Tells the whole of what a slot was answered.
pub(crate) fn put_slot(said: &mut Reported, reply: &SlotReply) -> Result<(), Refusal> {
    said.number(i64::from(reply.slot))?;
    said.end(":")?;
    for waived in reply.waived.as_slice() {
        said.counted("waived", i64::from(waived.number.0))?;
        said.counted("given", i64::from(waived.given))?;
    }
    match &reply.ran {
        Some((number, act)) => {
            said.number(i64::from(number.0))?;
            put_act(said, act)?;
        }
        None => said.words("idle")?,
    }
    match reply.finished {
        Some(number) => said.counted("done", i64::from(number.0)),
        None => Ok(()),
    }
}

/// Tells the number alone that a slot carried.
pub(crate) fn put_carried(said: &mut Reported, reply: &SlotReply) -> Result<(), Refusal> {
    match &reply.ran {
        Some((number, _)) => said.number(i64::from(number.0)),
        None => said.words("-"),
    }
}

/// Tells what an event of a run was answered.
pub(crate) fn put_reply(said: &mut Reported, reply: &Reply) -> Result<(), Refusal> {
    match reply {
        Reply::Taken(number) => said.counted("taken", i64::from(number.0)),
        Reply::Refused(refusal) => said.refused(*refusal),
        Reply::Slot(reply) => put_slot(said, reply),
    }
}

pub(crate) fn put_outcome(said: &mut Reported, outcome: &Outcome) -> Result<(), Refusal> {
    match outcome {
        Outcome::Waiting => said.words("waiting"),
        Outcome::Waived { given } => said.counted("waived given", i64::from(*given)),
        Outcome::Done {
            completion,
            lateness,
            given,
            reads,
        } => {
            said.counted("done", i64::from(*completion))?;
            said.counted("late", *lateness)?;
            said.counted("given", i64::from(*given))?;
            for page in reads.as_slice() {
                said.page(page)?;
            }
            Ok(())
        }
    }
}

pub(crate) fn put_worst(said: &mut Reported, worst: &Option<Worst>) -> Result<(), Refusal> {
    match worst {
        Some(worst) => {
            said.counted("job", i64::from(worst.job.0))?;
            said.counted("late", worst.lateness)
        }
        None => said.words("none"),
    }
}

pub(crate) fn put_overdue(said: &mut Reported, overdue: &Option<Overdue>) -> Result<(), Refusal> {
    match overdue {
        Some(overdue) => {
            said.counted("job", i64::from(overdue.job.0))?;
            said.counted("due", i64::from(overdue.due))?;
            said.words("late")?;
            said.count(overdue.late_by)
        }
        None => said.words("none"),
    }
}

pub(crate) fn put_renewal(
    said: &mut Reported,
    answer: Result<(), RenewalRefusal>,
) -> Result<(), Refusal> {
    match answer {
        Ok(()) => said.words("ok"),
        Err(RenewalRefusal::DieStopped) => said.words("stopped"),
        Err(RenewalRefusal::NotQuiet { job }) => said.counted("waits", i64::from(job)),
        Err(RenewalRefusal::WornOut { block }) => said.counted("worn", i64::from(block)),
    }
}

fn put_numbers(said: &mut Reported, numbers: &[JobNo]) -> Result<(), Refusal> {
    for number in numbers {
        said.number(i64::from(number.0))?;
    }
    Ok(())
}

pub(crate) fn put_certificate(
    said: &mut Reported,
    certificate: &Option<Certificate>,
) -> Result<(), Refusal> {
    match certificate {
        Some(certificate) => {
            said.counted("job", i64::from(certificate.job.0))?;
            said.counted("start", i64::from(certificate.start))?;
            said.counted("due", i64::from(certificate.due))?;
            said.counted("completion", i64::from(certificate.completion))?;
            said.words("of")?;
            put_numbers(said, certificate.jobs.as_slice())
        }
        None => said.words("none"),
    }
}

pub(crate) fn put_row(said: &mut Reported, row: &JobRow) -> Result<(), Refusal> {
    said.counted("row", i64::from(row.number.0))?;
    said.number(i64::from(row.release))?;
    said.number(i64::from(row.due))?;
    said.number(i64::from(row.work))?;
    match row.completion {
        Some(completion) => said.number(i64::from(completion)),
        None => said.words("-"),
    }
}
