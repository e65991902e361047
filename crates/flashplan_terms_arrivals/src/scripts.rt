//! The script of a plan's arrivals.

ghost use Rattle.std.specs.Prelude.{◌≤◌, All, IfErr, IfOk, OnOk, length};
ghost use Rattle.terms_texts.specs.Stores.{IsUsable};
ghost use Rattle.flashplan_arrivals.specs.PlannedScripts.{IsOwnFault};
ghost use Rattle.flashplan_terms_keeping.specs.Verdicts.{IsKeptScript};

use crate::makers::script;
use flashplan_arrivals::Fault;
use flashplan_terms_keeping::{Verdict, keep_terms};
use slot_types::Refusal;
use std::alloc::Global;
use terms_texts::StoreTerms;

/// Whether the script that was made keeps the plan of each die.
fn kept(alloc: Global, text: &[u8], store: &StoreTerms, slots: u32) -> Result<(), Fault>
    requires some { 1 ≤ length store.now }
    requires few { length store.now ≤ 8 }
    requires usable { All IsUsable store.now }
    ensures kept { OnOk result (IsKeptScript store.now slots text.now) }
    ensures refused { IfErr result IsOwnFault }
{
    match keep_terms(alloc, text, store, slots) {
        Ok(Verdict::Kept) => Ok(()),
        Err(Refusal::NoMemory) => Err(Fault::Refused(Refusal::NoMemory)),
        Ok(Verdict::Broken(_)) | Err(_) => Err(Fault::Astray),
    }
}

/// The script, as its readers take it, of the heaviest use that the terms of a plan allow in `slots` slots: all tasks
/// at once in slot 0, and back to back from then on. At each multiple of its period a task asks for its whole `work`,
/// in jobs of at most 64 operations that come and are released in that slot and are due `deadline` slots later;
/// `writes` of these operations are writes. A collection comes at each multiple of its collect period. Both end where a
/// deadline would be beyond 1,048,576. Which operations are writes, and the pages, are drawn by the seed: those of task
/// t of n tasks are t, t + n, t + 2n and so on.
///
/// The text that is given is proved to be a script whose rows keep the plan of their die. Fault::TooMany comes where a die
/// would get more than 65,536 jobs and collections, TooLong where the script would have more than 67,108,864 bytes, and
/// else NoMemory alone; Astray, a fault of this crate, has never been seen.
pub fn arrivals(alloc: Global, store: &StoreTerms, slots: u32, seed: u32) -> Result<Vec<u8>, Fault>
    requires some { 1 ≤ length store.now }
    requires few { length store.now ≤ 8 }
    requires usable { All IsUsable store.now }
    ensures kept { IfOk result (λ text. IsKeptScript store.now slots text.items) }
    ensures refused { IfErr result IsOwnFault }
{
    let text = script(alloc, store, slots, seed)?;
    kept(alloc, &text, store, slots)?;
    Ok(text)
}
