ghost use Rattle.std.specs.Prelude.{◌≡◌, ◌<◌, [], ◌∷◌, ◌++◌, if◌then◌else◌, IfOk};
ghost use Rattle.turn_lock.specs.Log.{entry, calls_by};
ghost use Rattle.turn_lock.specs.Views.{IsSamePass};
ghost use Rattle.test_lock_book.specs.Numbers.{is_added};

use crate::numbers::{NumberReply, Numbers};
use slot_types::Refusal;
use std::alloc::Global;
use std::env::Env;
use std::sync::Wait;
use std::test::Fail;
use std::thread;
use test_memory::is_scarce;
use turn_lock::{Pass, Turned};

// Applies 1 to `count`, each with a 0 after it, and says whether each was added and each 0 refused.
fn count_up<R: Wait>(
    rt: &R,
    lock: &Turned<Numbers>,
    mut pass: Pass<Numbers>,
    count: u64,
) -> (Pass<Numbers>, bool)
    requires { pass.lock ≡ lock.now }
    ensures { result.0.lock ≡ lock.now }
{
    let mut right = true;
    for below in 0..count {
        right = right && lock.apply(rt, &mut pass, below + 1) == NumberReply::Added;
        right = right && lock.apply(rt, &mut pass, 0) == NumberReply::Zero;
    }
    (pass, right)
}

// A caller's own entries after two calls, from the clauses of the lock alone.
fn apply_both<R: Wait>(
    rt: &R,
    lock: &Turned<Numbers>,
    pass: &mut Pass<Numbers>,
    first: u64,
    second: u64,
) -> (NumberReply, NumberReply)
    requires { pass.old.lock ≡ lock.now }
    ensures same { IsSamePass pass.old pass.new }
    ensures own { let n = pass.old.view.number in
        calls_by n pass.new.view.seen ≡ (calls_by n pass.old.view.seen
        ++ (if is_added result.0 then entry n first result.0 ∷ [] else []))
        ++ (if is_added result.1 then entry n second result.1 ∷ [] else []) }
{
    let one = lock.apply(rt, pass, first);
    let other = lock.apply(rt, pass, second);
    (one, other)
}

#[test]
fn two_threads_count_up(rt: HostRuntime) -> Result<(), Fail> {
    let (lock, mut first) = Turned::new(rt.alloc(), Numbers::new(rt.alloc()))?;
    let second = lock.split_pass(&rt, &mut first)?;
    assert_eq!(rt; first.number(), 0);
    assert_eq!(rt; second.number(), 1);
    assert_eq!(rt; lock.out(&rt, &mut first), 1);
    let lock_ref = &lock;
    let ((mut first, first_right), (second, second_right)) = thread::join(
        &rt,
        || -> (Pass<Numbers>, bool)
            requires { first.lock ≡ lock_ref.now }
            ensures { result.0.lock ≡ lock_ref.entry.now }
        { count_up(&rt, lock_ref, first, 1000) },
        || -> (Pass<Numbers>, bool)
            requires { second.lock ≡ lock_ref.now }
            ensures { result.0.lock ≡ lock_ref.entry.now }
        { count_up(&rt, lock_ref, second, 1000) },
    );
    assert!(rt; first_right && second_right);
    lock.join_pass(&mut first, second);
    assert_eq!(rt; lock.look(&mut first), 2000);
    assert_eq!(rt; lock.out(&rt, &mut first), 0);
    let Ok(book) = lock.close(&rt, first) else {
        panic!(rt; "a pass is out")
    };
    assert_eq!(rt; book.entries().len(), 2000);
    let mut last = [0u64, 0u64];
    for entry in book.entries() {
        let caller = entry.caller as usize;
        assert!(rt; caller < 2);
        assert!(rt; entry.event > last[caller]);
        assert_eq!(rt; entry.reply, NumberReply::Added);
        last[caller] = entry.event;
    }
    assert_eq!(rt; last, [1000, 1000]);
    Ok(())
}

#[test]
fn a_lock_closes_once_each_pass_was_joined(rt: HostRuntime) -> Result<(), Fail> {
    let (lock, mut first) = Turned::new(rt.alloc(), Numbers::new(rt.alloc()))?;
    let mut second = lock.split_pass(&rt, &mut first)?;
    let replies = apply_both(&rt, &lock, &mut second, 7, 0);
    assert!(rt; replies == (NumberReply::Added, NumberReply::Zero));
    assert_eq!(rt; lock.ask(&rt, &mut first, 0), Some(7));
    assert_eq!(rt; lock.ask(&rt, &mut first, 1), None);
    let Err(kept) = lock.close(&rt, first) else {
        panic!(rt; "closed with a pass out")
    };
    assert_eq!(rt; kept.refusal, Refusal::PassesOut { out: 1 });
    let lock = kept.lock;
    let first = kept.pass;
    assert_eq!(rt; first.number(), 0);
    // The other pass takes this one in, and keeps its own number.
    lock.join_pass(&mut second, first);
    assert_eq!(rt; second.number(), 1);
    assert_eq!(rt; lock.look(&mut second), 1);
    let Ok(book) = lock.close(&rt, second) else {
        panic!(rt; "a pass is out")
    };
    assert_eq!(rt; book.entries().len(), 1);
    assert_eq!(rt; book.entries()[0].caller, 1);
    Ok(())
}

#[test]
fn passes_are_made_up_to_their_limit(rt: HostRuntime) -> Result<(), Fail> {
    let (lock, mut first) = Turned::new(rt.alloc(), Numbers::new(rt.alloc()))?;
    for number in 1..65536u32 {
        let Ok(pass) = lock.split_pass(&rt, &mut first) else {
            panic!(rt; "no pass {number}")
        };
        assert_eq!(rt; pass.number(), number);
        // Every other pass is joined: that makes no room.
        if number % 2 == 0 {
            lock.join_pass(&mut first, pass);
        }
    }
    let Err(refusal) = lock.split_pass(&rt, &mut first) else {
        panic!(rt; "one pass too many")
    };
    assert_eq!(rt; refusal, Refusal::PassesFull);
    assert_eq!(rt; lock.out(&rt, &mut first), 32768);
    let Err(kept) = lock.close(&rt, first) else {
        panic!(rt; "closed with passes out")
    };
    assert_eq!(rt; kept.refusal, Refusal::PassesOut { out: 32768 });
    Ok(())
}

// Notes 1 to `count`, and says whether each was added.
fn note_up<R: Wait>(
    rt: &R,
    lock: &Turned<Numbers>,
    mut pass: Pass<Numbers>,
    count: u64,
) -> (Pass<Numbers>, bool)
    requires { pass.lock ≡ lock.now }
    ensures { result.0.lock ≡ lock.now }
{
    let mut right = true;
    for below in 0..count {
        right = right && lock.note(rt, &mut pass, below + 1, &()) == NumberReply::Added;
    }
    (pass, right)
}

#[test]
fn a_turn_is_over_with_its_call(rt: HostRuntime) -> Result<(), Fail> {
    let (lock, mut first) = Turned::new(rt.alloc(), Numbers::new(rt.alloc()))?;
    let mut second = lock.split_pass(&rt, &mut first)?;
    assert!(rt; lock.note(&rt, &mut first, 5, &()) == NumberReply::Added);
    // Another pass sees the entry at once, and has a turn.
    assert_eq!(rt; lock.look(&mut second), 1);
    assert!(rt; lock.note(&rt, &mut second, 6, &()) == NumberReply::Added);
    assert!(rt; lock.note(&rt, &mut first, 0, &()) == NumberReply::Zero);
    assert_eq!(rt; lock.look(&mut first), 2);
    assert!(rt; lock.note(&rt, &mut first, 7, &()) == NumberReply::Added);
    assert!(rt; lock.apply(&rt, &mut second, 8) == NumberReply::Added);
    lock.join_pass(&mut first, second);
    let Ok(book) = lock.close(&rt, first) else {
        panic!(rt; "a pass is out")
    };
    let mut wanted = 5;
    for entry in book.entries() {
        assert_eq!(rt; entry.event, wanted);
        assert_eq!(rt;
            entry.caller,
            if wanted == 6 || wanted == 8 { 1 } else { 0 }
        );
        wanted = entry.event.wrapping_add(1);
    }
    assert_eq!(rt; wanted, 9);
    Ok(())
}

#[test]
fn two_threads_note_by_turns(rt: HostRuntime) -> Result<(), Fail> {
    let (lock, mut first) = Turned::new(rt.alloc(), Numbers::new(rt.alloc()))?;
    let second = lock.split_pass(&rt, &mut first)?;
    let lock_ref = &lock;
    let ((mut first, first_right), (second, second_right)) = thread::join(
        &rt,
        || -> (Pass<Numbers>, bool)
            requires { first.lock ≡ lock_ref.now }
            ensures { result.0.lock ≡ lock_ref.entry.now }
        { note_up(&rt, lock_ref, first, 1000) },
        || -> (Pass<Numbers>, bool)
            requires { second.lock ≡ lock_ref.now }
            ensures { result.0.lock ≡ lock_ref.entry.now }
        { note_up(&rt, lock_ref, second, 1000) },
    );
    assert!(rt; first_right && second_right);
    lock.join_pass(&mut first, second);
    let Ok(book) = lock.close(&rt, first) else {
        panic!(rt; "a pass is out")
    };
    let mut last = [0u64, 0u64];
    for entry in book.entries() {
        let caller = entry.caller as usize;
        assert!(rt; caller < 2);
        assert_eq!(rt; entry.event, last[caller].wrapping_add(1));
        last[caller] = entry.event;
    }
    assert_eq!(rt; last, [1000, 1000]);
    Ok(())
}

// Applies a number that is added to a book of `entries` entries. Where memory is scarce and refused for it, it adds
// nothing and is applied again. Says whether it was added.
fn gets_added<R: Wait + Env>(
    rt: &R,
    lock: &Turned<Numbers>,
    pass: &mut Pass<Numbers>,
    number: u64,
    entries: u64,
) -> bool
    requires { pass.old.lock ≡ lock.now }
    ensures { pass.new.lock ≡ lock.now }
{
    let mut reply = lock.apply(rt, pass, number);
    if reply == NumberReply::NoMemory && is_scarce(rt) {
        if lock.look(pass) != entries {
            return false;
        }
        reply = lock.apply(rt, pass, number);
    }
    reply == NumberReply::Added && lock.look(pass) == entries.saturating_add(1)
}

// A lock on an empty book, which is made at the second time where memory is scarce and refused for it.
fn new_lock<R: Env>(rt: &R, alloc: Global) -> Result<(Turned<Numbers>, Pass<Numbers>), Refusal>
    ensures { IfOk result (λ made. made.1.lock ≡ made.0) }
{
    match Turned::new(alloc, Numbers::new(alloc)) {
        Err(Refusal::NoMemory) if is_scarce(rt) => Turned::new(alloc, Numbers::new(alloc)),
        answer => answer,
    }
}

#[test]
fn a_refused_allocation_adds_nothing(rt: HostRuntime) -> Result<(), Fail> {
    let (lock, mut pass) = new_lock(&rt, rt.alloc())?;
    for below in 0..20u64 {
        assert!(rt;
            gets_added(&rt, &lock, &mut pass, below + 1, below),
            "{below}"
        );
    }
    Ok(())
}
