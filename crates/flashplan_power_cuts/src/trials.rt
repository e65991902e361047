//! Cuts that are tried at each call of a run.

ghost use Rattle.std.specs.Prelude.{◌≡◌, false};
ghost use Rattle.slot_types.specs.Refusal.{FailsForMemory};

use crate::mounted_dies::mounted_die;
use crate::said::{Gives, Lost, PageSaid, say_all};
use flashplan_labelled_parts::{
    Leaves, Looks, Loss, MountCosts, MountEnd, Part, PartCall, Unmounted, cut_mount, cut_part,
    mount_part,
};
use slot_types::{DiePlan, Refusal};
use std::alloc::Global;

/// What is tried at each call.
#[derive(Clone, Copy, Drop)]
pub struct Tries {
    /// What is left of the call; each of the three where none is named.
    pub leaves: Option<Leaves>,
    /// The seed of how blocks in erase look.
    pub looks: u32,
    /// Whether each mount is cut, too, at each of its calls, and the part mounted again.
    pub mounts: bool,
}

/// What came of the cuts that were tried.
#[derive(Clone, Copy, Drop)]
pub struct Tally {
    /// Calls of the run at which the power went.
    pub calls: u64,
    /// Cuts of these calls.
    pub cuts: u64,
    /// Cuts of mounts after these.
    pub mount_cuts: u64,
    /// Whole mounts that undid a block.
    pub undone: u64,
    /// Pages by what they gave after whole mounts: their last write, the one in progress, nothing, and an earlier one
    /// that was trimmed.
    pub last: u64,
    pub in_progress: u64,
    pub blank: u64,
    pub earlier: u64,
    /// By kind the most that a whole mount did.
    pub most: MountCosts,
    /// The most slots that one took.
    pub most_slots: u64,
}

impl Tally {
    /// Nothing yet.
    pub const NONE: Tally = Tally {
        calls: 0,
        cuts: 0,
        mount_cuts: 0,
        undone: 0,
        last: 0,
        in_progress: 0,
        blank: 0,
        earlier: 0,
        most: MountCosts::NONE,
        most_slots: 0,
    };

    fn note_page(&mut self, gives: Gives) {
        match gives {
            Gives::Last => self.last = self.last.saturating_add(1),
            Gives::InProgress => self.in_progress = self.in_progress.saturating_add(1),
            Gives::Blank => self.blank = self.blank.saturating_add(1),
            Gives::Earlier => self.earlier = self.earlier.saturating_add(1),
            Gives::Wrong => {}
        }
    }

    fn note_mount(&mut self, end: &MountEnd) {
        self.most = self.most.at_least(end.costs);
        self.most_slots = self.most_slots.max(end.costs.slots());
        if end.undone.is_some() {
            self.undone = self.undone.saturating_add(1);
        }
    }
}

/// What was wrong.
#[derive(Clone, Copy, PartialEq, Eq, Drop)]
pub enum Amiss {
    /// A page gives none of what it may give.
    Page(PageSaid),
    /// The part wasn't mounted.
    Unmounted(Unmounted),
}

/// The first cut that was wrong.
#[derive(Clone, Copy, PartialEq, Eq, Drop)]
pub struct WrongCut {
    /// The call of the run, the first being 1.
    pub call: u64,
    pub leaves: Leaves,
    /// The call of the mount that was cut, too, the first being 1; none where none was.
    pub mount_call: Option<u64>,
    pub amiss: Amiss,
}

/// The cuts that are tried at each call of a run, each on a part of its own, and what came of them. After the first
/// that is wrong none is tried.
#[derive(Drop)]
pub struct Trials {
    plan: DiePlan,
    tries: Tries,
    tally: Tally,
    wrong: Option<WrongCut>,
}

/// Why a trial stops.
#[derive(Clone, Copy, Drop)]
enum Stop {
    NoMemory,
    Wrong(Amiss),
}

impl From<Unmounted> for Stop {
    fn from(unmounted: Unmounted) -> Stop {
        match unmounted {
            Unmounted::NoMemory => Stop::NoMemory,
            other => Stop::Wrong(Amiss::Unmounted(other)),
        }
    }
}

impl From<Refusal> for Stop {
    fn from(_: Refusal) -> Stop {
        Stop::NoMemory
    }
}

/// The first page that gives none of what it may give.
fn first_wrong(said: &[PageSaid]) -> Option<PageSaid> {
    for page in said {
        if page.gives == Gives::Wrong {
            return Some(*page);
        }
    }
    None
}

/// Mounts a part whole, and says of each page what it gives; tells how many calls the mount had.
fn look(
    alloc: Global,
    plan: &DiePlan,
    lost: Lost<'_>,
    part: &mut Part,
    tally: &mut Tally,
) -> Result<u64, Stop>
    requires { lost.die.now.core.stopped ≡ false }
{
    let end = mount_part(alloc, plan, part)?;
    let die = mounted_die(alloc, plan, part, &end)?;
    let said = say_all(alloc, lost, &die)?;
    tally.note_mount(&end);
    for page in said.as_slice() {
        tally.note_page(page.gives);
    }
    match first_wrong(said.as_slice()) {
        Some(page) => Err(Stop::Wrong(Amiss::Page(page))),
        None => Ok(end.costs.calls()),
    }
}

impl Trials {
    /// Nothing was tried yet.
    pub fn new(plan: DiePlan, tries: Tries) -> Trials {
        Trials {
            plan,
            tries,
            tally: Tally::NONE,
            wrong: None,
        }
    }

    pub fn tally(&self) -> Tally {
        self.tally
    }

    /// The first cut that was wrong, if one was.
    pub fn wrong(&self) -> Option<WrongCut> {
        self.wrong
    }

    /// Tries all cuts of a call of a run, which comes next. The only refusal is NoMemory.
    pub(crate) fn try_call(
        &mut self,
        alloc: Global,
        lost: Lost<'_>,
        part: &Part,
        call: PartCall,
        number: u64,
    ) -> Result<(), Refusal>
        requires { lost.die.now.core.stopped ≡ false }
        ensures { FailsForMemory result }
    {
        if self.wrong.is_some() {
            return Ok(());
        }
        self.tally.calls = self.tally.calls.saturating_add(1);
        for leaves in &Leaves::ALL {
            if self.wrong.is_none() && self.asks_for(*leaves) {
                self.try_leaves(alloc, lost, part, call, number, *leaves)?;
            }
        }
        Ok(())
    }

    fn asks_for(&self, leaves: Leaves) -> bool {
        match self.tries.leaves {
            Some(asked) => asked == leaves,
            None => true,
        }
    }

    /// Tries a cut of a call with what is left of it.
    fn try_leaves(
        &mut self,
        alloc: Global,
        lost: Lost<'_>,
        part: &Part,
        call: PartCall,
        number: u64,
        leaves: Leaves,
    ) -> Result<(), Refusal>
        requires { lost.die.now.core.stopped ≡ false }
        ensures { FailsForMemory result }
    {
        let mut mount_call = None;
        let loss = Loss {
            leaves,
            looks: self.tries.looks,
        };
        match self.try_loss(alloc, lost, part, call, number, loss, &mut mount_call) {
            Ok(()) => Ok(()),
            Err(Stop::NoMemory) => Err(Refusal::NoMemory),
            Err(Stop::Wrong(amiss)) => {
                self.wrong = Some(WrongCut {
                    call: number,
                    leaves,
                    mount_call,
                    amiss,
                });
                Ok(())
            }
        }
    }

    fn try_loss(
        &mut self,
        alloc: Global,
        lost: Lost<'_>,
        part: &Part,
        call: PartCall,
        number: u64,
        loss: Loss,
        mount_call: &mut Option<u64>,
    ) -> Result<(), Stop>
        requires { lost.die.now.core.stopped ≡ false }
    {
        let mut cut = part.twin()?;
        let mut looks = cut_part(&mut cut, call, number, loss)?;
        self.tally.cuts = self.tally.cuts.saturating_add(1);
        let mut whole = cut.twin()?;
        let calls = look(alloc, &self.plan, lost, &mut whole, &mut self.tally)?;
        if !self.tries.mounts {
            return Ok(());
        }
        for done in 0..calls {
            *mount_call = Some(done.saturating_add(1));
            self.try_mount(alloc, lost, &cut, done, loss.leaves, &mut looks)?;
        }
        Ok(())
    }

    /// Tries a cut of the mount of a part, after its first `calls` calls.
    fn try_mount(
        &mut self,
        alloc: Global,
        lost: Lost<'_>,
        part: &Part,
        calls: u64,
        leaves: Leaves,
        looks: &mut Looks,
    ) -> Result<(), Stop>
        requires { lost.die.now.core.stopped ≡ false }
    {
        let mut again = part.twin()?;
        if cut_mount(alloc, &self.plan, &mut again, calls, leaves, looks)? {
            self.tally.mount_cuts = self.tally.mount_cuts.saturating_add(1);
        }
        let _ = look(alloc, &self.plan, lost, &mut again, &mut self.tally)?;
        Ok(())
    }
}
