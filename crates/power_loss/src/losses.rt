//! What holds where the power goes while a die works, on a part with one block more than the die has.

ghost use Rattle.std.specs.Prelude.{◌≡◌, ◌⊎◌, ◌∷◌, ◌<◌, ℕ, List, slice_index_or, None, Some, true};
ghost use Rattle.slot_types.specs.Places.{place_of};
ghost use Rattle.slot_types.specs.declared.pages.Place.{Place};
ghost use Rattle.slot_types.specs.declared.acts.Act.{Act};
ghost use Rattle.slot_types.specs.declared.acts.Act.TheVariants as does;
ghost use Rattle.slot_types.specs.declared.pages.PageData.{PageData};
ghost use Rattle.slot_types.specs.declared.plans.DiePlan.{DiePlan};
ghost use Rattle.slot_types.specs.declared.replies.Entry.{Entry};
ghost use Rattle.slot_types.specs.declared.replies.SlotReply.{SlotReply};
ghost use Rattle.slot_types.specs.declared.plans.Times.{Times};
ghost use Rattle.plan_rules.specs.Bound.{MeetsBound};
ghost use Rattle.demand_rules.specs.declared.terms.Terms.{Terms};
ghost use Rattle.die_log.specs.Model.Flash.{Cells, cells, content, contents, ran_by};
ghost use Rattle.die_log.specs.Model.Lives.{Lives};
ghost use Rattle.die_log.specs.Model.Lives as renewals;
ghost use Rattle.die_log.specs.Model.Log.{Log};
ghost use Rattle.die_log.specs.Model.Answers.{IsExact};
ghost use Rattle.die_log.specs.Model.Opening.{IsOpening, renewed_start};
ghost use Rattle.die_log.specs.Model.Start.{Start, fresh, blank_page};
ghost use Rattle.die_log.specs.Results.Covered.{AreStocked};
ghost use Rattle.die_log.specs.Results.Promises.{HasSlot, KeepsPromises};
ghost use Rattle.die_log.specs.Results.Supply as timed;
ghost use Rattle.power_loss.specs.Aside.{part_of, with_cells, AgreeButErases, AreUntrimmed, NothingTrimmed};
ghost use Rattle.power_loss.specs.Aside.{MaySeeOnPart, MaySeeAgainOnPart, StandsOnPart, CanStartBeside, EndsBeside};
ghost use Rattle.power_loss.specs.Aside.{ForEveryLogOnPart};
ghost use Rattle.power_loss.specs.Labels.{Label, Labels, Shown, label_at, labels, counts_from, fresh_labels};
ghost use Rattle.power_loss.specs.Labels.{IsLabelled, MayCountFrom};
ghost use Rattle.power_loss.specs.Laws.{ForEveryLabelledLog, From, ShowsOnPart};
ghost use Rattle.power_loss.specs.Losses.{Life, AreLives, BeginsNext, ForAllLives, MaySeeAtEnd, MaySeeInCall};
ghost use Rattle.power_loss.specs.Losses.{AreSeenSince, seen_last};
ghost use Rattle.power_loss.specs.Losses.{up_to, renewed_life, renewed_lives, contents_left, first_contents, logs};
ghost use Rattle.power_loss.specs.Losses.{IsTrimmedSinceLoss, IsTrimmedAndLost, WasWritten};
ghost use Rattle.power_loss.specs.Losses.{AreTrimless};
ghost use Rattle.power_loss.specs.Losses.{MayKnow, WasUntold};
ghost use Rattle.power_loss.specs.Mounted.{all_count};
ghost use Rattle.power_loss.specs.Recovery.{AreMountActs, IsAbove, MayErase, remounted_cells, remounted_labels};
ghost use Rattle.power_loss.specs.Seen.{MaySeeAfter, MaySeeDuring};

/// A fresh die has no old labels; and where a log trims nothing, a page that is placed nowhere has none after it, if it
/// had none before.
pub fn untrimmed_logs_leave_no_old_labels()
    ensures fresh { (plan : DiePlan)
        → AreUntrimmed (fresh plan).cells (fresh_labels plan).blocks }
    ensures kept { (start : Start) (first : Labels) → IsOpening start → IsLabelled start first
        → AreUntrimmed start.cells first.blocks → (log : Log) → IsExact start log → NothingTrimmed log
        → AreUntrimmed (cells start log) (labels start first log).blocks }
{}

/// Wherever the power goes in a log, what is seen of the part is a state from which a mount can go on, whatever it
/// knows of trims. It shows each page that is placed, at its place and with its bytes, as it was before the last call
/// or as it is after it; and of each other page nothing, or a label that stood in that cell, if the mount doesn't know
/// that it was trimmed since. Where no such page has a label that counts, it shows just the pages of the log.
pub fn a_part_shows_its_die()
    ensures after { ForEveryLogOnPart (λ start first log aside. (known : From)
        → MayCountFrom (cells start log) (labels start first log) known → (seen : Shown) →
        MaySeeOnPart start.plan.shape.blocks aside
        (MaySeeAfter (cells start log) (labels start first log)) seen
        → ShowsOnPart start.plan aside (cells start log) (contents start log) (labels start first log)
        known (counts_from start first log) seen) }
    ensures during { ForEveryLogOnPart (λ start first log aside. (e : Entry) (past : Log) → log ≡ e ∷ past
        → (known : From) → MayCountFrom (cells start past) (labels start first past) known
        → MayCountFrom (cells start log) (labels start first log) known → (seen : Shown) →
        MaySeeOnPart start.plan.shape.blocks aside (MaySeeDuring start.plan (cells start past) (contents start past)
        (labels start first past) (ran_by e.reply)) seen
        → ShowsOnPart start.plan aside (cells start past) (contents start past) (labels start first past)
        known (counts_from start first past) seen
        ⊎ ShowsOnPart start.plan aside (cells start log) (contents start log) (labels start first log)
        known (counts_from start first log) seen) }
    ensures none_known { (c : Cells) (l : Labels) → MayCountFrom c l all_count }
    ensures all_known { ForEveryLabelledLog (λ start first log.
        MayCountFrom (cells start log) (labels start first log) (counts_from start first log)) }
{}

/// From what is seen of the part a mount erases any one block that it may, and can then go on, by acts at each moment
/// of which the power may go again, until a log may start with full accounts, and with just the pages that were found,
/// beside a block that is wholly free. So it may wherever the mount stops and has that many free pages and such a
/// block.
pub fn a_mount_starts_a_log()
    ensures starts { (plan : DiePlan) (pages : List PageData) (from : From) (seen : Shown) → MeetsBound plan
        → plan.shape.blocks < 1024 → StandsOnPart plan pages from seen → (erased : ℕ)
        → MayErase (part_of plan) from seen erased → (erases : ℕ → ℕ) (next : ℕ) → IsAbove seen from next
        → CanStartBeside plan from (remounted_cells (part_of plan) from erased erases seen) pages
        (remounted_labels erased seen next) }
    ensures ends { (plan : DiePlan) (pages : List PageData) (from : From) (seen : Shown) → MeetsBound plan
        → plan.shape.blocks < 1024 → StandsOnPart plan pages from seen → (erased : ℕ)
        → MayErase (part_of plan) from seen erased → (erases : ℕ → ℕ) (next : ℕ) → IsAbove seen from next
        → (acts : List Act)
        → AreMountActs (part_of plan) (remounted_cells (part_of plan) from erased erases seen) acts
        → EndsBeside plan from (remounted_cells (part_of plan) from erased erases seen) pages
        (remounted_labels erased seen next) acts }
{}

/// Where the power goes during a mount, in the erase of its first block, at a safe moment of its acts or during the
/// next one, what is seen of the part shows the same pages again, the trimmed ones too, and a mount can go on from it.
pub fn a_mount_may_be_cut()
    ensures { (plan : DiePlan) (pages : List PageData) (from : From) (before seen : Shown) → MeetsBound plan
        → plan.shape.blocks < 1024 → StandsOnPart plan pages from before → MaySeeAgainOnPart plan from before seen
        → StandsOnPart plan pages from seen }
{}

/// No label tells how many erases a block has had, and no law rests on it: whatever a mount takes these counts for, a
/// log may start.
pub fn counts_of_erases_may_be_any()
    ensures { (start : Start) (first : Labels) → IsOpening start → IsLabelled start first
        → AreUntrimmed start.cells first.blocks → (d : Cells) → AgreeButErases start.cells d
        → IsOpening (with_cells d start) × IsLabelled (with_cells d start) first × AreUntrimmed d first.blocks }
{}

/// Over all lives each label bears bytes that were written on its page; and a page that is placed nowhere and has a
/// label yet that counts was trimmed since the power was last lost.
pub fn labels_bear_what_was_written()
    ensures written { (life : Life) (earlier : List Life) → AreLives (life ∷ earlier) → (place : Place) (x : Label)
        → label_at (labels life.start life.first life.log).blocks place ≡ Some x
        → WasWritten x.page x.bytes (life ∷ earlier) }
    ensures trimmed { (life : Life) (earlier : List Life) → AreLives (life ∷ earlier) → (place : Place) (x : Label)
        → label_at (labels life.start life.first life.log).blocks place ≡ Some x
        → place_of (cells life.start life.log).places x.page ≡ None
        → (x.serial < life.from x.page) ⊎ IsTrimmedSinceLoss x.page (life ∷ earlier) }
{}

/// Each life keeps all that is promised of a log, however the one before it ended: up to its last call, or up to the
/// one during which the power went.
pub fn each_life_keeps_promises()
    ensures { (life : Life) (earlier : List Life) → AreLives (life ∷ earlier) → KeepsPromises life.start life.log }
{}

/// Lives of which each ended by a renewal, none by a loss of power, are such lives, too: from a first start on without
/// old labels, as a fresh one.
pub fn renewals_are_lives()
    ensures lives { (start : Start) (first : Labels) → IsOpening start → IsLabelled start first
        → AreUntrimmed start.cells first.blocks → (lives : Lives) → renewals.AreLives start lives
        → AreLives (renewed_lives start first lives) }
    ensures next { (life : Life) (earlier : List Life) → AreLives (life ∷ earlier)
        → IsOpening (renewed_start life.start life.log) → AreLives (renewed_life life ∷ life ∷ earlier) }
{}

/// A die loses no finished write, however often the power goes: over all its lives a read tells what the last finished
/// write or trim of its page left, in whichever life that was. But where that was a trim, the power was lost since, and
/// the mount wasn't told of it, it may tell what was written on the page before: some write of it, maybe not the last
/// one. So it is of what pages hold; and what one mount found stays: a life begins with what the pages held, except for
/// those that were trimmed since the loss before, of which the mount wasn't told. Where nothing was trimmed in the
/// lives before, it is the last write always. And wherever the power goes in the last life, and however many mounts are
/// cut then, whatever is seen, a next life begins: with full accounts, so that planned work goes on. A mount may know
/// of any trims, or of none; what the one before it knew, it may know still.
pub fn losses_of_power_lose_nothing()
    ensures reads { (life : Life) (earlier : List Life) → AreLives (life ∷ earlier)
        → (s : SlotReply) (past : Log) (number page : ℕ) (bytes : PageData)
        → HasSlot life.log s past → s.ran ≡ Some (number, does.Read page bytes)
        → (bytes ≡ slice_index_or (contents_left (first_contents life earlier) (past ∷ logs earlier)) page blank_page)
        ⊎ (IsTrimmedAndLost page (up_to past life ∷ earlier) × WasWritten page bytes (up_to past life ∷ earlier)) }
    ensures holds { (life : Life) (earlier : List Life) → AreLives (life ∷ earlier) → (page : ℕ)
        → (content life.start life.log page
        ≡ slice_index_or (contents_left (first_contents life earlier) (logs (life ∷ earlier))) page blank_page)
        ⊎ (IsTrimmedAndLost page (life ∷ earlier)
        × WasWritten page (content life.start life.log page) (life ∷ earlier)) }
    ensures stays { (life before : Life) (earlier : List Life) → AreLives (life ∷ before ∷ earlier) → (page : ℕ)
        → (slice_index_or life.start.contents page blank_page ≡ content before.start before.log page)
        ⊎ ((life.lost ≡ true) × IsTrimmedSinceLoss page (before ∷ earlier)
        × WasUntold page life.from (before ∷ earlier)
        × WasWritten page (slice_index_or life.start.contents page blank_page) (before ∷ earlier)) }
    ensures untrimmed { (life : Life) (earlier : List Life) → AreLives (life ∷ earlier) → AreTrimless earlier
        → (s : SlotReply) (past : Log) (number page : ℕ) (bytes : PageData)
        → HasSlot life.log s past → s.ran ≡ Some (number, does.Read page bytes)
        → bytes ≡ slice_index_or (contents_left (first_contents life earlier) (past ∷ logs earlier)) page blank_page }
    ensures knows { (life : Life) (earlier : List Life) → AreLives (life ∷ earlier) → MayKnow life life.from }
    ensures next { ForAllLives (λ life earlier aside. (known : From) → MayKnow life known
        → (seen : Shown) → MaySeeAtEnd life aside seen
        → (since : List Shown) → AreSeenSince life.start.plan known seen since
        → (next : Life) × BeginsNext life earlier known (seen_last seen since) next) }
    ensures next_in_call { ForAllLives (λ life earlier aside. (e : Entry) (past : Log) → life.log ≡ e ∷ past
        → (known : From) → MayKnow (up_to past life) known → MayKnow life known
        → (seen : Shown) → MaySeeInCall life e past aside seen
        → (since : List Shown) → AreSeenSince life.start.plan known seen since
        → ((next : Life) × BeginsNext (up_to past life) earlier known (seen_last seen since) next)
        ⊎ ((next : Life) × BeginsNext life earlier known (seen_last seen since) next)) }
{}

/// Where a life begins so, each balance is its cap: it is stocked for whatever its tasks may ask for. So by the laws of
/// work with deadlines and bursts, and with times, planned work is in time and refused nothing in it as in the first.
pub fn next_lives_are_stocked()
    ensures terms { (before : Life) (earlier : List Life) (known : From) (seen : Shown) (life : Life)
        → BeginsNext before earlier known seen life → (terms : Terms) → AreStocked life.start terms }
    ensures times { (before : Life) (earlier : List Life) (known : From) (seen : Shown) (life : Life)
        → BeginsNext before earlier known seen life → (times : Times) → timed.AreStocked life.start times }
{}
