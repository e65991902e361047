//! What holds of the labels of every exact log. Each law is a function that does nothing.

ghost use Rattle.std.specs.Prelude.{◌≡◌, ℕ, ◌⊎◌, ◌∷◌, ◌+◌, ◌-◌, ◌*◌, ◌≤◌, List, Some, length, sum, sum_by};
ghost use Rattle.std.specs.Prelude.{slice_index_or};
ghost use Rattle.slot_types.specs.declared.pages.PageData.{PageData};
ghost use Rattle.slot_types.specs.declared.acts.Act.TheVariants as does;
ghost use Rattle.slot_types.specs.declared.replies.SlotReply.{SlotReply};
ghost use Rattle.slot_types.specs.declared.plans.Times.{Times};
ghost use Rattle.die_log.specs.Results.Supply.{AreStocked};
ghost use Rattle.die_log.specs.Results.Promises.{HasSlot};
ghost use Rattle.slot_types.specs.declared.plans.DiePlan.{DiePlan};
ghost use Rattle.slot_types.specs.declared.replies.Entry.{Entry};
ghost use Rattle.plan_rules.specs.Bound.{MeetsBound, fmax_of};
ghost use Rattle.die_log.specs.Model.Answers.{IsExact};
ghost use Rattle.die_log.specs.Model.Flash.{cells, contents, free_in, ran_by};
ghost use Rattle.die_log.specs.Model.Log.{Log};
ghost use Rattle.die_log.specs.Model.Opening.{IsOpening, renewed_start};
ghost use Rattle.die_log.specs.Model.Start.{Start, fresh, blank_page};
ghost use Rattle.die_log.specs.Invariants.TrueAccounts.{AccountsAgree};
ghost use Rattle.die_log.specs.Results.Laws.{ForEveryExactLog};
ghost use Rattle.power_loss.specs.Labels.{Labels, Shown, labels, counts_from, fresh_labels, AreLabelled, IsLabelled};
ghost use Rattle.power_loss.specs.Mounted.{all_count};
ghost use Rattle.power_loss.specs.Recovery.{IsRecoverable, IsMountable, MayErase, AreIdle, mounted_start};
ghost use Rattle.power_loss.specs.Recovery.{full_accounts, IsAbove};
ghost use Rattle.power_loss.specs.Recovery.{remounted_cells, remounted_labels, IsWorthIt, CanEnd, CanStart};
ghost use Rattle.power_loss.specs.Recovery.{IsFreeBlock};
ghost use Rattle.power_loss.specs.Recovery.{MaySeeInErase, MaySeeAgain};
ghost use Rattle.power_loss.specs.Seen.{MaySeeAfter, MaySeeDuring, MaySeePlaced};
ghost use Rattle.power_loss.specs.Laws.{ForEveryLabelledLog, ForAllSeen, ForAllSeenDuring, ShowsPages, OfPrograms};
ghost use Rattle.power_loss.specs.Laws.{MountsAll};
ghost use Rattle.power_loss.specs.Laws.{MountsPlaced, ForAllRecoverable, ForAllMountable, Remounts, GoesOn, From};
ghost use Rattle.power_loss.specs.Laws.{GoesOnDuring, Opens, CutsInActs};

/// A fresh die has no labels, and is labelled. A die that is renewed goes on with those that it has.
pub fn starts_are_labelled()
    ensures fresh { (plan : DiePlan) → IsLabelled (fresh plan) (fresh_labels plan) }
    ensures renewed { ForEveryLabelledLog (λ start first log.
        IsLabelled (renewed_start start log) (labels start first log)) }
{}

/// After each exact log that starts at a labelled opening the cells are labelled: where a page is placed, its newest
/// label is.
pub fn exact_keeps_labels()
    ensures { ForEveryLabelledLog (λ start first log.
        AreLabelled start.plan (cells start log) (labels start first log)) }
{}

/// Each label was there when the log began, or a program of the log left it, with the content that its page had then.
pub fn labels_are_of_programs()
    ensures { ForEveryLabelledLog OfPrograms }
{}

/// Whatever a mount sees of the labels shows the pages. Where the power went after an exact log, each page's newest
/// label is at its place, and counts; and of a page that is placed nowhere no label counts. Where it went during a
/// slot, this holds of the log as it was before, or as it is after.
pub fn labels_show_pages()
    ensures after { ForAllSeen ShowsPages }
    ensures during { ForAllSeenDuring ShowsPages }
{}

/// A mount that knows from which number each page's labels count finds every page's place and content. So it does where
/// the power went after an exact log; where it went during a slot, it finds them as they were before, or as they are
/// after.
pub fn a_mount_finds_all()
    ensures after { ForAllSeen MountsAll }
    ensures during { ForAllSeenDuring MountsAll }
{}

/// A mount that goes by the labels alone finds the place and the content of each page that is placed. A page that was
/// trimmed, or never written, it finds nowhere, or as an earlier program of it left it: with the bytes of that program.
pub fn a_mount_finds_what_is_placed()
    ensures after { ForAllSeen (λ c pages from. MountsPlaced c pages all_count from) }
    ensures during { ForAllSeenDuring (λ c pages from. MountsPlaced c pages all_count from) }
{}

/// After each exact log that starts at a labelled opening the die can be recovered; and all that a mount may see, where
/// the power went after the log or during its last call, is all that it needs.
pub fn logs_can_be_recovered()
    ensures after { ForEveryLabelledLog (λ start first log.
        IsRecoverable start.plan (cells start log) (contents start log) (labels start first log)
        (counts_from start first log)) }
    ensures seen { ForEveryLabelledLog (λ start first log. (seen : Shown)
        → MaySeeAfter (cells start log) (labels start first log) seen
        → MaySeePlaced (cells start log) (labels start first log).blocks seen) }
    ensures during { (start : Start) (first : Labels) → IsOpening start → IsLabelled start first
        → (e : Entry) (past : Log) → IsExact start (e ∷ past) → (seen : Shown)
        → MaySeeDuring start.plan (cells start past) (contents start past) (labels start first past) (ran_by e.reply)
        seen
        → MaySeePlaced (cells start past) (labels start first past).blocks seen
        ⊎ MaySeePlaced (cells start (e ∷ past)) (labels start first (e ∷ past)).blocks seen }
{}

/// What a mount sees of a die that can be recovered shows all of it.
pub fn what_can_be_recovered_is_seen()
    ensures shows { ForAllRecoverable (λ plan c pages l from. (seen : Shown)
        → MaySeePlaced c l.blocks seen → ShowsPages c pages from seen) }
    ensures mounts { ForAllRecoverable (λ plan c pages l from. (seen : Shown)
        → MaySeePlaced c l.blocks seen → MountsAll c pages from seen) }
{}

/// A mount that erases a block in which it finds no page, or undoes the newest one where it finds one in each, and
/// counts the others as closed, leaves a die that can be recovered, with just the pages that it found, and with that
/// block wholly free. Each copy, and each slot of an erase, by which it then puts pages together leaves a die that can
/// be recovered, with the same pages; and where the power goes during one of these, the die can be recovered as it was
/// before, or as it is after.
pub fn a_mount_keeps_all()
    ensures above { ForAllRecoverable (λ plan c pages l from. (seen : Shown)
        → MaySeePlaced c l.blocks seen → IsAbove seen from l.next) }
    ensures erases { (plan : DiePlan) (pages : List PageData) (from : From) (seen : Shown)
        → IsMountable plan pages from seen → (erased : ℕ) × MayErase plan from seen erased }
    ensures remounts { ForAllMountable Remounts }
    ensures goes_on { ForAllRecoverable GoesOn }
    ensures during { ForAllRecoverable GoesOnDuring }
{}

/// Where no erase is under way, and accounts share out the free pages, a recovered die may start a log, and is
/// labelled. With as many free pages as all caps and reserves come to, full accounts do, and planned work goes on. With
/// fewer, a block is worth copying from and erasing.
pub fn a_mount_ends()
    ensures opens { ForAllRecoverable Opens }
    ensures full { ForAllRecoverable (λ plan c pages l from.
        sum plan.caps + length plan.caps * (plan.shape.pages - plan.alpha) ≤ sum_by (free_in plan) c.blocks
        → AccountsAgree plan (full_accounts plan (sum_by (free_in plan) c.blocks)) (λ task. 0) (λ task. 0) 0
        (sum_by (free_in plan) c.blocks)) }
    ensures stocked { ForAllRecoverable (λ plan c pages l from. (times : Times) → AreStocked
        (mounted_start plan c pages (full_accounts plan (sum_by (free_in plan) c.blocks))) times) }
    ensures few { ForAllRecoverable (λ plan c pages l from. AreIdle c
        → sum_by (free_in plan) c.blocks ≤ fmax_of plan → (b : ℕ) × IsWorthIt plan c b) }
{}

/// A mount that has a wholly free block can go on until full accounts share out the free pages. It has one as soon as
/// it has erased its first block, whichever it was; so a log can start.
pub fn a_mount_can_end()
    ensures ends { ForAllRecoverable (λ plan c pages l from. AreIdle c → (b : ℕ) → IsFreeBlock c b
        → CanEnd plan c) }
    ensures starts { ForAllMountable (λ plan pages from seen erased. (erases : ℕ → ℕ) (next : ℕ)
        → IsAbove seen from next → CanStart plan (remounted_cells plan from erased erases seen) pages
        (remounted_labels erased seen next)) }
{}

/// Where the power goes during a mount, the next one can go on from what it sees, with the same pages: in the erase of
/// its first block; and at each safe moment of its acts, or during the act after it. Each moment of the acts by which a
/// mount can end (`CanEnd`) is safe.
pub fn a_mount_can_lose_power()
    ensures in_erase { ForAllMountable (λ plan pages from seen erased. (later : Shown)
        → MaySeeInErase erased seen later → IsMountable plan pages from later) }
    ensures in_acts { ForAllRecoverable CutsInActs }
    ensures again { (plan : DiePlan) → MeetsBound plan → (pages : List PageData) (from : From) (before seen : Shown)
        → IsMountable plan pages from before → MaySeeAgain plan from before seen → IsMountable plan pages from seen }
{}
