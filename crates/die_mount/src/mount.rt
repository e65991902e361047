//! A mount after the scan: which call of the part comes next, until a die may start.

ghost use Rattle.std.specs.Prelude.{◌≡◌, ◌≢◌, ◌⊎◌, ◌+◌, ◌<◌, ◌≤◌, ◌^◌, ℕ, [], List, Option, Some, None, length, map, slice_index_or, IfOk, IfErr, IfNone, OnOk};
ghost use Rattle.std.specs.List.{range_with_len};
ghost use Rattle.slot_types.specs.Places.{place_of};
ghost use Rattle.slot_types.specs.Refusal.{FailsForMemory};
ghost use Rattle.slot_types.specs.declared.acts.Act.{Act};
ghost use Rattle.die_checkpoint.specs.Fits.{Fits};
ghost use Rattle.die_log.specs.Model.Flash.{block_at, cells_after};
ghost use Rattle.power_loss.specs.Aside.{part_of};
ghost use Rattle.power_loss.specs.Labels.{Shown, FitPlan};
ghost use Rattle.power_loss.specs.Mounted.{all_count};
ghost use Rattle.power_loss.specs.Recovery.{AreIdle, IsFreeBlock, MayErase, MayMount, without_block};
ghost use Rattle.die_mount.specs.Beginning.{BeginsAt, HasBeginFault, HasIdle, IsIdleIn, IsScanned};
ghost use Rattle.die_mount.specs.Ending.{IsEndOf};
ghost use Rattle.die_mount.specs.EndRoom.{room_for};
ghost use Rattle.die_mount.specs.Erases.{AreCounts, AreUnworn, CountsFrom, WearsOut, counts_with};
ghost use Rattle.die_mount.specs.Faults.{IsMountPlan};
ghost use Rattle.die_mount.specs.Scanned.{IsScanOf};
ghost use Rattle.die_mount.specs.Choosing.{HasClosed, IsChosen, IsNextIn, LieFrom, LieWithin};
ghost use Rattle.die_mount.specs.Mounting.{BeginsWith, IsAtEnd, IsMountOf, IsStep, IsTaken, acts_after, act_at, call_at, calls_left, carried_at, ends_erase_at};
ghost use Rattle.die_mount.specs.Mounting.{free_of, goal_of, most_calls, programs_at, victim_at};
ghost use Rattle.die_mount.specs.Nexts.{BeginsFirst, IsNextStage, IsPastFirst};
ghost use Rattle.die_mount.specs.SoundMount.{StandsWell};

use crate::begin_fault::BeginFault;
use crate::end_memory::EndMemory;
use crate::erases::{counts_of, first_worn};
use crate::label::Label;
use crate::mounted::Mounted;
use crate::part::Part;
use crate::scan::Scan;
use crate::stage::{MountCall, Stage};
use die_checkpoint::Checkpoint;
use plan_rules::figures;
use slot_types::{DiePlan, Items, Place, Refusal};
use std::alloc::Global;
use std::marker::Model;

/// A mount after the scan, without a device. [`next`](Mount::next) says which call of the part comes next; once it was
/// carried out, the owner says so with [`done`](Mount::done).
///
/// It erases a block first. Then, until enough pages are free, it copies the pages of the closed block with the fewest
/// into blocks that it erased itself, and erases that one. Where a call fails, or the power goes, the mount is given
/// up, and the part is scanned anew: each page is found where it was, or where it was copied.
#[derive(Drop)]
pub struct Mount {
    plan: DiePlan,
    part: Part,
    /// By block how often it was erased before the rounds.
    counts: Vec<u32>,
    /// Of the next program.
    serial: u64,
    /// How many blocks may have to be emptied in addition to the one that is at work.
    rounds: u32,
    stage: Stage,
    /// It ends with `goal` free pages.
    goal: u32,
}

impl Model for Mount {
    ghost use Rattle.die_mount.specs.Mounting.{Mounting};

    ghost Value = { Mounting };

    ghost use Rattle.die_mount.specs.SoundMount.{mounting_of, IsSoundMount};

    ghost view = { mounting_of };

    ghost invariant = { IsSoundMount };
}

impl Mount {
    /// A mount that erases a block in which no page is found. All its memory is taken here; the scan is used up, also
    /// where the mount is refused. Erases are counted on from what was reported to the scan.
    ///
    /// Refused with the first fault that stands, as [`BeginFault`] lists them. Where no block is idle, a mount was cut
    /// as it copied, and [`undo`](Mount::undo) goes on.
    pub fn new(alloc: Global, plan: DiePlan, scan: Scan) -> Result<Mount, BeginFault>
        requires { scan.told ≡ scan.shape.blocks }
        ensures ok { IfOk result (λ mount. (seen : Shown) → IsScanOf (part_of plan) scan seen
            → FitPlan (part_of plan) seen → BeginsWith plan seen mount) }
        ensures first { IfOk result (BeginsFirst plan) }
        ensures counts { IfOk result (CountsFrom scan.erases) }
        ensures fault { IfErr result (HasBeginFault plan scan scan.erases (HasIdle scan)) }
    {
        if !scan.fits(&plan) {
            return Err(BeginFault::BadPlan);
        }
        let serial = scan.next_serial();
        let Some(block) = scan.idle_block() else {
            return Err(BeginFault::NoIdleBlock);
        };
        let counts = counts_after(alloc, &plan, scan.erases(), block)?;
        begin(alloc, plan, scan, block, serial, counts)
    }

    /// A mount that undoes a block, where no block is idle: that which [`Scan::first_erase`] names. It goes by a scan
    /// to which the labels of each other block were reported again, and none of that one. All its memory is taken here;
    /// the second scan is used up, also where the mount is refused. Erases are counted on from what was
    /// reported to the first scan.
    ///
    /// Refused with the first fault that stands, as [`BeginFault`] lists them.
    pub fn undo(
        alloc: Global,
        plan: DiePlan,
        before: &Scan,
        again: Scan,
        block: u32,
    ) -> Result<Mount, BeginFault>
        requires before { before.now.told ≡ before.now.shape.blocks }
        requires again { again.told ≡ again.shape.blocks }
        ensures ok { IfOk result (λ mount. (seen : Shown) → IsScanOf (part_of plan) before.now seen
            → IsScanOf (part_of plan) again (without_block block seen)
            → MayErase (part_of plan) all_count seen block → BeginsWith plan seen mount) }
        ensures first { IfOk result (BeginsFirst plan) }
        ensures counts { IfOk result (CountsFrom before.now.erases) }
        ensures fault { IfErr result
            (HasBeginFault plan again before.now.erases (IsIdleIn again block)) }
    {
        if !again.fits(&plan) {
            return Err(BeginFault::BadPlan);
        }
        if !again.is_idle(block) {
            return Err(BeginFault::NoIdleBlock);
        }
        let counts = counts_after(alloc, &plan, before.erases(), block)?;
        begin(alloc, plan, again, block, before.next_serial(), counts)
    }

    /// The next call of the part; none once enough pages are free. It is one that the part may do: what is read is
    /// programmed, what is programmed is the next cell of its block, and what is erased is closed.
    pub fn next(&self) -> Option<MountCall>
        ensures call { result ≡ call_at self.now.next self.now.stage }
        ensures stands { StandsWell self.now }
        ensures end { IfNone result (IsAtEnd self.now) }
    {
        match self.stage {
            Stage::First { block, .. } => Some(MountCall::EraseSlot { block }),
            Stage::Read { from, .. } => Some(MountCall::Read { place: from }),
            Stage::Program { page, to, .. } => Some(MountCall::Program {
                place: to,
                label: Label {
                    page,
                    serial: self.serial,
                },
            }),
            Stage::Erase { block, .. } => Some(MountCall::EraseSlot { block }),
            Stage::Done => None,
        }
    }

    /// Whether that call is the last slot of an erase.
    pub fn ends_erase(&self) -> bool
        ensures { result ≡ ends_erase_at self.now.plan self.now.stage }
    {
        match self.stage {
            Stage::First { slots, .. } => slots + 1 == self.plan.shape.erase_slots,
            Stage::Erase { slots, .. } => slots + 1 == self.plan.shape.erase_slots,
            _ => false,
        }
    }

    /// How often a block of the part was erased, as the mount counts: what the label of a program in it bears. The erase
    /// of its first block is counted from the beginning on. 0 where there is no such block.
    pub fn erases(&self, block: u32) -> u32
        ensures { result ≡ slice_index_or self.now.counts block 0
            + (block_at self.now.cells block).erases }
    {
        self.part.erases(block, self.counts.as_slice())
    }

    /// The plan of the die.
    pub fn plan(&self) -> &DiePlan
        ensures { result.now ≡ self.now.plan }
    {
        &self.plan
    }

    /// The call that comes next was carried out.
    pub fn done(&mut self)
        requires { self.old.stage ≢ Stage.Done }
        ensures step { IsStep self.old self.new }
        ensures stage { IsNextStage self.old.plan.shape.erase_slots self.old.stage self.new.stage }
    {
        match self.stage {
            Stage::First { block, slots } => self.first_slot(block, slots),
            Stage::Read { page, from } => self.was_read(page, from),
            Stage::Program { page, from, to } => self.was_programmed(page, from, to),
            Stage::Erase { block, slots } => self.erase_slot(block, slots),
            Stage::Done => {}
        }
    }

    /// How many calls may come yet.
    pub fn calls_left(&self) -> u64
        ensures { result ≡ calls_left self.now }
    {
        let slots = self.plan.shape.erase_slots;
        let round = 2 * (self.plan.shape.pages - self.plan.alpha) + slots;
        let rest = self.rounds as u64 * round as u64;
        match self.stage {
            Stage::First { slots: had, .. } => (slots - had) as u64 + rest,
            Stage::Read { from, .. } => (2 * self.part.valid(from.block) + slots) as u64 + rest,
            Stage::Program { from, .. } => {
                (2 * self.part.valid(from.block) - 1 + slots) as u64 + rest
            }
            Stage::Erase { slots: had, .. } => (slots - had) as u64 + rest,
            Stage::Done => 0,
        }
    }

    /// The cell in which a page lies now, from which it may be read. A page that the plan doesn't have lies nowhere.
    pub fn place(&self, page: u32) -> Option<Place>
        ensures { result ≡ place_of self.now.cells.places page }
    {
        if page >= self.part.pages() {
            return None;
        }
        self.part.place(page)
    }

    /// Where no call comes any longer, the block that stands aside from then on, the die on the others, and the serial
    /// of its first program. The mount stays as it is.
    ///
    /// The checkpoint fits the plan: each balance is its cap, pages lie where the mount left them, and of each block as
    /// many cells count as programmed as the mount left programmed. A block's erases are those that were reported to the
    /// scan, and those of this mount. Where a block had no good label they may be off. It takes memory for 12 bytes by
    /// page and 8 by block. Refused with `NoMemory` alone, and may be called again then.
    pub fn finish(&self, alloc: Global) -> Result<Mounted, Refusal>
        requires { self.now.stage ≡ Stage.Done }
        ensures end { IfOk result (IsEndOf self.now) }
        ensures fits { IfOk result (λ end. Fits self.now.plan end.checkpoint) }
        ensures refused { FailsForMemory result }
    {
        let memory = EndMemory::take(alloc, &self.plan)?;
        Ok(self.finish_in(memory))
    }

    /// The same in memory that was taken before, so that it is never refused.
    pub fn finish_in(&self, memory: EndMemory) -> Mounted
        requires ended { self.now.stage ≡ Stage.Done }
        requires room { memory ≡ room_for self.now.plan }
        ensures end { IsEndOf self.now result }
        ensures fits { Fits self.now.plan result.checkpoint }
    {
        match self.part.free_block() {
            Some(aside) => self.end_beside(memory, aside),
            None => unreachable!(),
        }
    }
}

impl Mount {
    /// The end beside a block of which no cell is programmed.
    fn end_beside(&self, memory: EndMemory, aside: u32) -> Mounted
        requires stage { self.now.stage ≡ Stage.Done }
        requires free { IsFreeBlock self.now.cells aside }
        requires room { memory ≡ room_for self.now.plan }
        ensures end { IsEndOf self.now result }
        ensures fits { Fits self.now.plan result.checkpoint }
    {
        let EndMemory {
            places,
            blocks,
            balances,
        } = memory;
        let last = self.plan.shape.blocks;
        let before = self.counts.as_slice();
        Mounted {
            aside,
            checkpoint: Checkpoint {
                places: self.part.places_beside(places, last, aside),
                blocks: self.part.blocks_beside(blocks, last, aside, before),
                // The goal has the pages of the block aside, and those of full accounts.
                spare: self.part.free() - self.goal,
                balances: Items::from_vec(balances),
            },
            next: self.serial,
        }
    }

    /// The block that is erased first had one slot more of its erase.
    fn first_slot(&mut self, block: u32, slots: u32)
        requires { self.old.stage ≡ Stage.First block slots }
        ensures step { IsStep self.old self.new }
        ensures stage { IsNextStage self.old.plan.shape.erase_slots self.old.stage self.new.stage }
    {
        let all = self.plan.shape.erase_slots;
        if slots + 1 < all {
            self.stage = Stage::First {
                block,
                slots: slots + 1,
            };
        } else {
            let (stage, rounds) = chosen(&self.part, self.goal, self.rounds);
            self.stage = stage;
            self.rounds = rounds;
        }
    }

    /// A page was read, and goes to the next cell.
    fn was_read(&mut self, page: u32, from: Place)
        requires { self.old.stage ≡ Stage.Read page from }
        ensures step { IsStep self.old self.new }
        ensures stage { IsNextStage self.old.plan.shape.erase_slots self.old.stage self.new.stage }
    {
        match self.part.next_cell() {
            Some(to) => self.stage = Stage::Program { page, from, to },
            None => unreachable!(),
        }
    }

    /// A page was programmed, and lies there.
    fn was_programmed(&mut self, page: u32, from: Place, to: Place)
        requires { self.old.stage ≡ Stage.Program page from to }
        ensures step { IsStep self.old self.new }
        ensures stage { IsNextStage self.old.plan.shape.erase_slots self.old.stage self.new.stage }
    {
        self.part.program(page, to);
        self.serial += 1;
        self.stage = next_in(&self.part, from.block, from.page + 1);
    }

    /// The block whose pages were copied had one slot more of its erase.
    fn erase_slot(&mut self, block: u32, slots: u32)
        requires { self.old.stage ≡ Stage.Erase block slots }
        ensures step { IsStep self.old self.new }
        ensures stage { IsNextStage self.old.plan.shape.erase_slots self.old.stage self.new.stage }
    {
        self.part.erase_slot(block);
        if slots + 1 < self.plan.shape.erase_slots {
            self.stage = Stage::Erase {
                block,
                slots: slots + 1,
            };
        } else {
            let (stage, rounds) = chosen(&self.part, self.goal, self.rounds);
            self.stage = stage;
            self.rounds = rounds;
        }
    }
}

/// By block how often it was erased, with the erase of the block that is erased first. Refused where a block may wear out,
/// or else where there is no memory.
fn counts_after(
    alloc: Global,
    plan: &DiePlan,
    told: &[Option<u32>],
    erased: u32,
) -> Result<Vec<u32>, BeginFault>
    requires may { IsMountPlan plan.now }
    ensures counts { IfOk result (λ counts. counts.items
        ≡ map (counts_with told.now erased) (range_with_len 0 (plan.now.shape.blocks + 1))) }
    ensures fit { IfOk result (λ counts. AreCounts plan.now counts.items) }
    ensures unworn { OnOk result (AreUnworn plan.now told.now) }
    ensures fault { IfErr result (WearsOut plan.now told.now) }
{
    if let Some(block) = first_worn(plan, told) {
        return Err(BeginFault::WornOut { block });
    }
    match counts_of(alloc, plan, told, erased) {
        Ok(counts) => Ok(counts),
        Err(_) => Err(BeginFault::NoMemory),
    }
}

/// A mount that erases this block, and goes on with this serial and with these counts.
fn begin(
    alloc: Global,
    plan: DiePlan,
    scan: Scan,
    block: u32,
    serial: u64,
    counts: Vec<u32>,
) -> Result<Mount, BeginFault>
    requires fits { IsScanned plan scan }
    requires idle { IsIdleIn scan block }
    requires serial { serial ≤ 2 ^ 63 }
    requires counts { AreCounts plan counts.items }
    ensures ok { IfOk result (BeginsAt plan scan block serial) }
    ensures first { IfOk result (BeginsFirst plan) }
    ensures counts { IfOk result (λ mount.
        (mount.counts ≡ counts.items) × (mount.stage ≡ Stage.First block 0)) }
    ensures err { IfErr result (λ fault. fault ≡ BeginFault.NoMemory) }
{
    let fmax = figures(&plan).fmax;
    let (shape, map) = scan.into_map();
    let Ok(part) = Part::new(alloc, shape, map, block) else {
        return Err(BeginFault::NoMemory);
    };
    Ok(Mount {
        serial,
        // The most rounds, and as many free pages as full accounts and a block come to.
        rounds: fmax / plan.alpha,
        goal: fmax + 1 - plan.alpha + plan.shape.pages,
        stage: Stage::First { block, slots: 0 },
        plan,
        part,
        counts,
    })
}

/// What comes next where no block is in erase: the end, or a round with the closed block that has the fewest pages; and
/// how many rounds are left after it.
fn chosen(part: &Part, goal: u32, rounds: u32) -> (Stage, u32)
    requires closed { part.now.free < goal → HasClosed part.now.shape.pages part.now }
    requires rounds { part.now.free < goal → 0 < rounds }
    requires within { LieWithin part.now.shape.pages part.now.cells }
    ensures chosen { IsChosen part.now goal rounds result.0 result.1 }
    ensures past { IsPastFirst result.0 }
{
    if goal <= part.free() {
        return (Stage::Done, rounds);
    }
    match part.fewest() {
        Some(block) => (next_in(part, block, 0), rounds - 1),
        None => unreachable!(),
    }
}

/// What comes next of a block that is emptied, in which no page lies before a cell.
fn next_in(part: &Part, block: u32, from: u32) -> Stage
    requires block { block < part.now.shape.blocks }
    requires from { LieFrom part.now.cells block from }
    requires within { LieWithin part.now.shape.pages part.now.cells }
    ensures next { IsNextIn part.now.cells block from result }
    ensures past { IsPastFirst result }
{
    if part.valid(block) == 0 {
        return Stage::Erase { block, slots: 0 };
    }
    match part.first_page(block, from) {
        Some((page, from)) => Stage::Read { page, from },
        None => unreachable!(),
    }
}
