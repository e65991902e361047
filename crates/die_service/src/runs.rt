//! Runs of a store by workers.

ghost use Rattle.std.specs.Prelude.{◌≡◌, ◌<◌, ◌≤◌, [], map, length, All, IfOk, IfErr, IsSome, vec_capacity};
ghost use Rattle.slot_types.specs.Refusal.{FailsForMemory};
ghost use Rattle.die_service.specs.Runs.{AllArrive, HaveRun, whole_batch};
ghost use Rattle.die_service.specs.Drives.{whole_course};
ghost use Rattle.die_service.specs.PassWorks.{AreReady, AreWaiting, HaveEnded};
ghost use Rattle.die_service.specs.Work.{EndsAs, EndAs};

use crate::courses::Course;
use crate::die::{Die, DiePass};
use crate::drivers::Driver;
use crate::ends::{DieEnd, DieEnds};
use crate::feeds::Feed;
use crate::gate::Gate;
use crate::pass_works::PassWork;
use crate::store::Store;
use crate::work::Work;
use crate::worked::Worked;
use flash_die::Nand;
use slot_types::Refusal;
use std::alloc::Global;
use std::sync::Wait;
use std::thread::Threads;
use std::{mem, thread};

/// The whole of each feed. The only refusal is out of memory.
fn make_courses(alloc: Global, feeds: Vec<Feed>) -> Result<Vec<Course>, Refusal>
    requires arrive { All AllArrive feeds.items }
    ensures whole { IfOk result (λ courses. courses.items ≡ map whole_course feeds.items) }
    ensures refused { FailsForMemory result }
{
    let mut courses = Vec::with_capacity(alloc, feeds.len())?;
    for feed in feeds {
        courses.push_reserved(Course::new(alloc, feed)?);
    }
    Ok(courses)
}

/// Gives each die its pass and its feed, with the gate as its hook, in room that was made.
fn make_drivers<'a, N: Nand, G: Gate, R: Wait>(
    rt: &'a R,
    dies: &'a [Die<N>],
    passes: Vec<DiePass<N>>,
    courses: Vec<Course>,
    gate: &'a G,
    drivers: Vec<Worked<PassWork<'a, N, G, R>>>,
) -> Vec<Worked<PassWork<'a, N, G, R>>>
    requires own { map (λ pass. pass.lock) passes.items ≡ dies.now }
    requires courses { length courses.items ≡ length passes.items }
    requires none { drivers.items ≡ [] }
    requires room { length passes.items ≤ vec_capacity drivers }
    ensures waiting { AreWaiting passes.items courses.items result.items }
    ensures ready { AreReady passes.items }
{
    let mut drivers = drivers;
    let mut dies = dies;
    let mut courses = courses.into_iter();
    for pass in passes {
        let Some((die, later)) = dies.split_first() else {
            unreachable!()
        };
        let Some(course) = courses.next() else {
            unreachable!()
        };
        let driver = Driver::new(PassWork::new(rt, die, pass, gate), course);
        drivers.push_reserved(Worked::new(driver));
        dies = later;
    }
    drivers
}

/// What came of each die, with its pass put back, in room that was made.
fn into_ends<'a, N: Nand, G: Gate, R: Wait>(
    drivers: Vec<Worked<PassWork<'a, N, G, R>>>,
    ends: Vec<DieEnd>,
    passes: &mut Vec<DiePass<N>>,
) -> DieEnds
    requires ended { All (λ worked. IsSome worked.1) drivers.items }
    requires none { ends.items ≡ [] }
    requires no_passes { passes.old.items ≡ [] }
    requires room { length drivers.items ≤ vec_capacity ends }
    requires passes_room { length drivers.items ≤ vec_capacity passes.old }
    ensures { HaveEnded drivers.entry.items result passes.new.items }
{
    let mut ends = ends;
    for worked in drivers {
        let Some((end, work)) = worked.into_ended() else {
            unreachable!()
        };
        ends.push_reserved(end);
        passes.push_reserved(work.into_pass());
    }
    DieEnds::from_vec(ends)
}

/// Runs each of these dies, whose numbers are from 0, by workers that are threads.
fn run_drivers<W: Work + Send, R: Threads + Sync>(
    rt: &R,
    drivers: &mut [Worked<W>],
    slots: u32,
    workers: u32,
)
    requires few { length drivers.old ≤ 8 }
    requires workers { 1 ≤ workers }
    ensures { EndAs W.does 0 slots drivers.old drivers.new }
{
    let drive = |die: usize, worked: &mut Worked<W>|
        requires { die < 4294967296 }
        ensures { EndsAs W.does die slots worked.entry.now worked.exit.now }
    { worked.run(die as u32, slots) };
    thread::for_each_mut(rt, drivers, workers as usize, &drive);
}

/// Runs each die of a store, with its pass and its feed, for `slots` slots, by workers that are threads. The passes and
/// the feeds are in the order of the dies, and a feed has no slot among its events. The dies are dealt out in their
/// order, as many to each worker as dies / workers, rounded up; a worker takes its dies one after the other, each wholly.
/// Where no thread can be made for a worker, its dies come before or after those of another. Nothing is said of which
/// thread has which die, nor of when. Each call of a die may wait for its turn, and no worker has one while it calls the
/// gate.
///
/// On each die a clock begins at 0. Each event in front of the feed whose `at` isn't above the clock is asked for, in the
/// order of the feed; `gate.before` is called with the die and the clock; then the slot is asked for, `gate.after` is
/// called with the slot that was carried out, and the clock goes on to the one after it. Once all `slots` were carried
/// out, the events that come by the clock are asked for, and the run on this die ends; later ones are freed. A refused
/// slot ends the run on this die alone: `gate.after` isn't called, and no event is asked for after it. A refused event
/// ends nothing.
///
/// The ends are in the order of the dies: `slots`, how many were carried out; `refused`, the place in its feed of each
/// event that was refused, with its refusal; `stop`, why a slot was refused, if one was. Where `stop` is none, `slots` is
/// what was asked.
///
/// The only refusal is `NoMemory`. It comes before anything is asked of a die: the passes are as they were then, and
/// the feeds are given up. While the run goes on, memory is taken by the dies alone, and where it is refused to a die,
/// that is in its end.
pub fn run_slots<N: Nand + Send, G: Gate + Sync, R: Threads + Wait + Sync>(
    rt: &R,
    store: &Store<N>,
    passes: &mut Vec<DiePass<N>>,
    feeds: Vec<Feed>,
    slots: u32,
    workers: u32,
    gate: &G,
) -> Result<DieEnds, Refusal>
    requires own { map (λ pass. pass.lock) passes.old.items ≡ store.now }
    requires feeds { length feeds.items ≡ length store.now }
    requires arrive { All AllArrive feeds.items }
    requires workers { (1 ≤ workers) × (workers ≤ 16) }
    ensures ran { IfOk result (λ ends.
        HaveRun N.never_fails (map (whole_batch slots) feeds.items) passes.old.items ends
        passes.new.items) }
    ensures refused { FailsForMemory result }
    ensures stays { IfErr result (λ _. passes.new.items ≡ passes.old.items) }
    ensures own { map (λ pass. pass.lock) passes.new.items ≡ store.now }
{
    let alloc = store.alloc;
    let count = passes.len();
    let courses = make_courses(alloc, feeds)?;
    let drivers = Vec::with_capacity(alloc, count)?;
    let ends = Vec::with_capacity(alloc, count)?;
    let back = Vec::with_capacity(alloc, count)?;
    let taken = mem::replace(passes, back);
    let mut drivers = make_drivers(rt, store.dies.as_slice(), taken, courses, gate, drivers);
    run_drivers(rt, drivers.as_mut_slice(), slots, workers);
    Ok(into_ends(drivers, ends, passes))
}
