//! A die on which histories are played, and the events that it was asked for.

use crate::answers::put_reply;
use crate::calls::call;
use crate::checkpoints::resume;
use crate::dies::{Die, die_in};
use crate::events::note;
use crate::fields::{Fields, UNREAD};
use crate::said::Reported;
use flash_die::Nand;
use plan_rules::keeps_plan;
use slot_core::DieCore;
use slot_types::{Event, Items, Refusal};
use std::alloc::Global;
use std::mem;

#[derive(Drop)]
pub(crate) struct Stage {
    die: Option<Box<Die>>,
    /// What the die was asked for, if its plan has times.
    asked: Items<Event>,
    /// What the next run carries out.
    put: Items<Event>,
}

/// Events are carried out in one run.
fn run<N: Nand>(
    die: &mut DieCore<N>,
    alloc: Global,
    events: Items<Event>,
    said: &mut Reported,
) -> Result<(), Refusal> {
    let replies = die.run(alloc, events)?;
    for reply in replies.as_slice() {
        put_reply(said, reply)?;
    }
    Ok(())
}

impl Stage {
    pub(crate) fn new(alloc: Global) -> Stage {
        Stage {
            die: None,
            asked: Items::new(alloc),
            put: Items::new(alloc),
        }
    }

    /// A new die in place of the one before.
    fn begin(
        &mut self,
        alloc: Global,
        fields: &Fields,
        said: &mut Reported,
    ) -> Result<(), Refusal> {
        let die = die_in(alloc, fields)?;
        self.die = Some(die);
        self.asked.clear();
        self.put.clear();
        said.words("ok")
    }

    fn has_times(&self) -> bool {
        match &self.die {
            Some(die) => die.plan().times.is_some(),
            None => false,
        }
    }

    fn note(&mut self, alloc: Global, fields: &Fields) -> Result<(), Refusal> {
        if self.has_times() {
            note(&mut self.asked, alloc, fields)?;
        }
        Ok(())
    }

    /// The events after the word `put` are added to the next run.
    fn put(&mut self, alloc: Global, asked: &str, said: &mut Reported) -> Result<(), Refusal> {
        let Some((_, event)) = asked.split_once(',') else {
            return Err(UNREAD);
        };
        let fields = Fields::new(alloc, event)?;
        self.note(alloc, &fields)?;
        note(&mut self.put, alloc, &fields)?;
        said.words("ok")
    }

    fn run(&mut self, alloc: Global, said: &mut Reported) -> Result<(), Refusal> {
        let events = mem::replace(&mut self.put, Items::new(alloc));
        match &mut self.die {
            Some(die) => run(die, alloc, events, said),
            None => Err(UNREAD),
        }
    }

    /// The die is given up, and one goes on in its place.
    fn resume(
        &mut self,
        alloc: Global,
        fields: &Fields,
        said: &mut Reported,
    ) -> Result<(), Refusal> {
        let Some(die) = self.die.take() else {
            return Err(UNREAD);
        };
        let (die, answer) = resume(alloc, die, fields, said);
        self.die = die;
        answer
    }

    /// Whether what the die was asked for keeps to its plan.
    fn keeps(&self, said: &mut Reported) -> Result<(), Refusal> {
        match &self.die {
            Some(die) if keeps_plan(die.plan(), &self.asked) => said.words("yes"),
            Some(_) => said.words("no"),
            None => Err(UNREAD),
        }
    }

    fn call(&mut self, alloc: Global, fields: &Fields, said: &mut Reported) -> Result<(), Refusal> {
        self.note(alloc, fields)?;
        match &mut self.die {
            Some(die) => call(die, alloc, fields, said),
            None => Err(UNREAD),
        }
    }

    /// Carries out what is asked, and tells the answer.
    pub(crate) fn carry(
        &mut self,
        alloc: Global,
        asked: &str,
        said: &mut Reported,
    ) -> Result<(), Refusal> {
        let fields = Fields::new(alloc, asked)?;
        match fields.name {
            "die" | "fused" | "timed" => self.begin(alloc, &fields, said),
            "put" => self.put(alloc, asked, said),
            "run" => self.run(alloc, said),
            "keeps" => self.keeps(said),
            "resume" | "resume-as" | "resume-from" => self.resume(alloc, &fields, said),
            _ => self.call(alloc, &fields, said),
        }
    }
}
