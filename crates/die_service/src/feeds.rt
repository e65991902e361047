//! The events that a run brings to a die.

ghost use Rattle.std.specs.Prelude.{◌≡◌, ◌↔◌, ◌<◌, ◌≤◌, ◌∷◌, ◌++◌, [], IsTrue, Some, length, slice_get, option_map, OnOk, OnErr};
ghost use Rattle.slot_types.specs.Refusal.{FailsForMemory};
ghost use Rattle.slot_types.specs.Arrivals.{arrival_of};
ghost use Rattle.slot_core.specs.Events.{with_ops};
ghost use Rattle.die_service.specs.Feeds.{IsInOrder, all_follow, begins_at, follows, is_job, ops_at, ops_in, writes_before};
ghost use Rattle.die_service.specs.Runs.{AllArrive};

use slot_core::EventHead;
use slot_types::{Event, JobHead, LentOps, Op, PackedOps, Refusal};
use std::alloc::Global;
use std::marker::Model;
use std::mem::size_of;

/// An event, and the slot before which it comes.
#[derive(Clone, PartialEq, Eq, Debug, Drop)]
pub struct Arrival {
    pub at: u32,
    pub event: Event,
}

/// An event that comes, flat. A job's operations are those of the feed from where those of the row before it end to
/// `ops_end`; of all operations up to there `writes_end` write.
#[derive(Clone, Copy, Debug, Drop)]
pub(crate) struct FeedRow {
    pub(crate) ops_end: usize,
    pub(crate) writes_end: usize,
    pub(crate) at: u32,
    pub(crate) head: EventHead,
}

const _: () = prove!(size_of::<FeedRow>() == 40);

/// The events that come to a die in a run, in their order. Contracts see the list of these.
#[derive(Drop)]
pub struct Feed {
    rows: Vec<FeedRow>,
    /// The operations of all jobs, one after another.
    ops: PackedOps,
}

impl Model for Feed {
    ghost use Rattle.std.specs.Prelude.{◌≡◌, List, length};
    ghost use Rattle.die_service.specs.declared.feeds.Arrival.{Arrival};
    ghost use Rattle.die_service.specs.Feeds.{feed_from, AreRowsOf, last_end};

    ghost Value = { List Arrival };

    ghost view = { λ f. feed_from f.ops 0 f.rows.items };

    ghost invariant = { λ f. AreRowsOf f.ops 0 f.rows.items × (last_end 0 f.rows.items ≡ length f.ops) };
}

/// An event of a feed, lent. Contracts see the event, and the slot before which it comes.
#[derive(Drop)]
pub struct FeedItem<'a> {
    at: u32,
    head: EventHead,
    ops: &'a PackedOps,
    first_op: usize,
    ops_end: usize,
    /// How many operations before the end write.
    writes_end: usize,
}

impl<'a> Model for FeedItem<'a> {
    ghost use Rattle.std.specs.Prelude.{◌≡◌, ◌≤◌, length, take};
    ghost use Rattle.slot_types.specs.Operations.{writes};
    ghost use Rattle.slot_core.specs.Events.{with_ops};
    ghost use Rattle.die_service.specs.declared.feeds.Arrival.{Arrival};
    ghost use Rattle.die_service.specs.Feeds.{ops_between};

    ghost Value = { Arrival };

    ghost view = { λ i. record { at = i.at; event = with_ops i.head (ops_between i.ops.now i.first_op i.ops_end) } };

    ghost invariant = { λ i.
        (i.first_op ≤ i.ops_end) × (i.ops_end ≤ length i.ops.now) × (i.writes_end ≡ writes (take i.ops_end i.ops.now)) };
}

/// Whether it is the head of a job, which has operations.
fn has_ops(head: &EventHead) -> bool
    ensures { result ≡ is_job head.now }
{
    match head {
        EventHead::Arrive(head) => !head.collects,
        EventHead::Slot => false,
    }
}

/// Where the operations of a row begin, and how many of those before them write.
#[derive(Clone, Copy, Debug, Drop)]
struct RowBegin {
    op: usize,
    writes: usize,
}

/// Where the operations of the row of a place begin.
fn begin_of(rows: &[FeedRow], place: usize) -> RowBegin
    requires { place ≤ length rows.now }
    ensures op { result.op ≡ begins_at 0 rows.now place }
    ensures writes { result.writes ≡ writes_before 0 rows.now place }
{
    if place == 0 {
        return RowBegin { op: 0, writes: 0 };
    }
    match rows.get(place - 1) {
        Some(before) => RowBegin {
            op: before.ops_end,
            writes: before.writes_end,
        },
        None => unreachable!(),
    }
}

/// Whether a row may come after one that comes before this slot, in a feed for a run.
fn may_follow(from: u32, row: &FeedRow) -> bool
    ensures { result ≡ follows from row.now }
{
    match row.head {
        EventHead::Arrive(_) => from <= row.at,
        EventHead::Slot => false,
    }
}

/// Whether the rows are of a feed that a run may be given.
fn are_in_order(rows: &[FeedRow]) -> bool
    ensures { result ≡ all_follow 0 rows.now }
{
    let mut from = 0;
    for row in rows {
        if !may_follow(from, row) {
            return false;
        }
        from = row.at;
    }
    true
}

impl FeedItem<'_> {
    /// The slot before which the event comes.
    pub fn at(&self) -> u32
        ensures { result ≡ self.now.at }
    {
        self.at
    }

    /// The event, without a job's operations.
    pub fn head(&self) -> EventHead
        ensures { with_ops result (ops_in self.now.event) ≡ self.now.event }
    {
        self.head
    }

    /// How many operations the event has: none, where it isn't a job.
    pub fn len(&self) -> usize
        ensures { result ≡ length (ops_in self.now.event) }
    {
        if !has_ops(&self.head) {
            return 0;
        }
        self.ops_end - self.first_op
    }

    /// The operation at a place from 0, if there is one. It takes a step for each operation from there on.
    pub fn op(&self, place: usize) -> Option<Op>
        ensures { slice_get (ops_in self.now.event) place ≡ result }
    {
        let count = self.len();
        if place >= count {
            return None;
        }
        let at = self.ops_end - (count - place);
        let writes = self.writes_end - self.ops.count_writes(at, self.ops_end);
        Some(self.ops.get(at, writes))
    }
}

impl Feed {
    /// No event. It takes no memory.
    pub fn new(alloc: Global) -> Feed
        ensures { result ≡ [] }
    {
        Feed {
            rows: Vec::new(alloc),
            ops: PackedOps::new(alloc),
        }
    }

    /// How many events there are.
    pub fn len(&self) -> usize
        ensures { result ≡ length self.now }
    {
        self.rows.len()
    }

    /// The event at a place from 0, if there is one.
    pub fn get(&self, place: usize) -> Option<FeedItem<'_>>
        ensures { slice_get self.now place ≡ result }
    {
        match self.rows.get(place) {
            Some(row) => Some(FeedItem {
                at: row.at,
                head: row.head,
                ops: &self.ops,
                first_op: begin_of(self.rows.as_slice(), place).op,
                ops_end: row.ops_end,
                writes_end: row.writes_end,
            }),
            None => None,
        }
    }

    /// Whether the feed may be given to a run: no event is a slot, and no event comes before an earlier slot than the
    /// one in front of it.
    pub fn is_in_order(&self) -> bool
        ensures exact { IsTrue result ↔ IsInOrder 0 self.now }
        ensures arrive { IsTrue result → AllArrive self.now }
    {
        are_in_order(self.rows.as_slice())
    }

    /// Adds a row of this head and these operations, which only a job has.
    fn push_row(&mut self, at: u32, head: EventHead, ops: &LentOps) -> Result<(), Refusal>
        ensures ok { OnOk result (self.new
            ≡ self.old ++ record { at = at; event = with_ops head ops.now } ∷ []) }
        ensures refused { FailsForMemory result }
        ensures err { OnErr result (self.new ≡ self.old) }
    {
        self.rows.reserve(1)?;
        self.ops.push_all(ops, ops.writes())?;
        self.rows.push_reserved(FeedRow {
            ops_end: self.ops.len(),
            writes_end: self.ops.writes(),
            at,
            head,
        });
        Ok(())
    }

    /// Adds an event that comes before slot `at`, at the end. Refused with `NoMemory`, the feed stays as it was, and
    /// the event is freed.
    pub fn push(&mut self, at: u32, event: Event) -> Result<(), Refusal>
        ensures ok { OnOk result (self.new ≡ self.old ++ record { at = at; event = event } ∷ []) }
        ensures refused { FailsForMemory result }
        ensures err { OnErr result (self.new ≡ self.old) }
    {
        match event {
            Event::Submit {
                task,
                release,
                due,
                ops,
            } => {
                let head = JobHead {
                    collects: false,
                    task,
                    release,
                    due,
                };
                self.push_row(at, EventHead::Arrive(head), &LentOps::list(ops.as_slice()))
            }
            Event::Collect { task, release, due } => {
                let head = JobHead {
                    collects: true,
                    task,
                    release,
                    due,
                };
                self.push_row(at, EventHead::Arrive(head), &LentOps::none())
            }
            Event::Slot => self.push_row(at, EventHead::Slot, &LentOps::none()),
        }
    }

    /// Adds a job of these operations, which are lent, that comes before slot `at`; or a collection, which leaves them
    /// aside. Refused with `NoMemory`, the feed stays as it was.
    pub fn push_lent(&mut self, at: u32, head: JobHead, ops: &LentOps) -> Result<(), Refusal>
        ensures ok { OnOk result (self.new
            ≡ self.old ++ record { at = at; event = arrival_of head ops.now } ∷ []) }
        ensures refused { FailsForMemory result }
        ensures err { OnErr result (self.new ≡ self.old) }
    {
        if head.collects {
            return self.push_row(at, EventHead::Arrive(head), &LentOps::none());
        }
        self.push_row(at, EventHead::Arrive(head), ops)
    }

    /// Takes all events away. The memory stays.
    pub fn clear(&mut self)
        ensures { self.new ≡ [] }
    {
        self.rows.clear();
        self.ops.clear();
    }

    /// The slot before which the event of a place comes.
    pub(crate) fn at(&self, place: usize) -> u32
        requires { place < length self.now }
        ensures { option_map (λ arrival. arrival.at) (slice_get self.now place) ≡ Some result }
    {
        self.rows[place].at
    }

    /// The event of a place, without its operations.
    pub(crate) fn head(&self, place: usize) -> EventHead
        requires { place < length self.now }
        ensures { option_map (λ arrival. arrival.event) (slice_get self.now place)
            ≡ Some (with_ops result (ops_at self.now place)) }
    {
        self.rows[place].head
    }

    /// The operations of the event of a place, lent as they lie: none, where there is no event or it isn't a job.
    pub(crate) fn ops(&self, place: usize) -> LentOps<'_>
        ensures { result ≡ ops_at self.now place }
    {
        let row = match self.rows.get(place) {
            Some(row) => row,
            None => return LentOps::none(),
        };
        if !has_ops(&row.head) {
            return LentOps::none();
        }
        let begin = begin_of(self.rows.as_slice(), place);
        self.ops
            .slice(begin.op, row.ops_end, begin.writes, row.writes_end)
    }
}
