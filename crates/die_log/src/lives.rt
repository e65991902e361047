//! What holds over a die's lives: of its logs one after the other, each of which starts at what the one before it left
//! once all was quiet. Each law is a function that does nothing.

ghost use Rattle.std.specs.Prelude.{◌≡◌, ℕ, List, ◌+◌, ◌++◌, ◌∷◌, Some, sum_by, ◌*◌, ◌≤◌, length, IsSome, true, option_map};
ghost use Rattle.slot_types.specs.declared.acts.Act.{Act};
ghost use Rattle.slot_types.specs.declared.acts.Act.TheVariants as does;
ghost use Rattle.slot_types.specs.declared.pages.PageData.{PageData};
ghost use Rattle.slot_types.specs.declared.replies.SlotReply.{SlotReply};
ghost use Rattle.slot_types.specs.declared.plans.Times.{Times};
ghost use Rattle.plan_rules.specs.Times.{Passes};
ghost use Rattle.plan_rules.specs.Keeping.{KeepsPlan};
ghost use Rattle.die_log.specs.Model.Log.{Log};
ghost use Rattle.die_log.specs.Results.Supply.{AreStocked};
ghost use Rattle.die_log.specs.Results.PlannedLives.{Calls, events_of_calls, lives_of, KeepPlans, IsServedInTime, AreServedInTime};
ghost use Rattle.die_log.specs.Model.Start.{Start};
ghost use Rattle.die_log.specs.Results.Legal.{FindsFree};
ghost use Rattle.die_log.specs.Model.Opening.{IsOpening};
ghost use Rattle.die_log.specs.Results.Laws.{ForEveryExactLog, ForAllLives, ForEachLife, ForPlannedLives};
ghost use Rattle.die_log.specs.Results.Promises.{HasSlot, KeepsPromises};
ghost use Rattle.die_log.specs.Model.Lives.{Lives, start_after, HaveEnded, AreLives, HasLife, last_content, all_slots, all_jobs};
ghost use Rattle.die_log.specs.Model.Lives.{rows_of_all, numbers_of_all, erases_in, all_erases_in, collections_taken};
ghost use Rattle.slot_types.specs.declared.limits.TheConstants.{MAX_JOBS};
ghost use Rattle.die_log.specs.Model.Flash.{cells, block_at};
ghost use Rattle.die_log.specs.Model.Answers.{IsExact};
ghost use Rattle.late_cert.specs.Build.{certificate_of};
ghost use Rattle.late_cert.specs.JoinedRows.{row_after};
ghost use Rattle.late_cert.specs.Rows.{row_of, is_known, is_done};
ghost use Rattle.die_log.specs.Model.Rows.{rows};
ghost use Rattle.late_cert.specs.Schedule.{IsLeastLate};
ghost use Rattle.late_cert.specs.BusyInterval.{CarriesLeastKeys};

/// Each of a die's lives starts at an opening and keeps all that is promised of a log: so it is exact, legal and
/// least late, and has its certificates. Another life may start where all have ended. No write that was accepted finds
/// its die without a free page, in whichever life.
pub fn lives_keep_promises()
    ensures each { ForEachLife (λ first log earlier.
        KeepsPromises (start_after first earlier) log) }
    ensures next { (first : Start) → IsOpening first → (lives : Lives) → HaveEnded first lives →
        IsOpening (start_after first lives) }
    ensures room { ForEachLife (λ first log earlier.
        (s : SlotReply) (past : Log) (number : ℕ) (act : Act) →
        HasSlot log s past → s.ran ≡ Some (number, act)
        → FindsFree (start_after first earlier) past act) }
{}

/// Each read gives what the last finished write or trim of its page left on it, in whichever life that was, or else
/// what stood on it where the die's first life started.
pub fn lives_report_the_last_write()
    ensures { ForEachLife (λ first log earlier.
        (s : SlotReply) (past : Log) (number page : ℕ) (bytes : PageData) →
        HasSlot log s past → s.ran ≡ Some (number, does.Read page bytes) →
        bytes ≡ last_content first (past ∷ earlier) page) }
{}

/// No schedule of all lives together has a smaller greatest lateness, at no moment: put one life after the other, each
/// slot carried a least key, and each done job has a certificate over all slots. A job's release, deadline and
/// completion are those of its life, later by the slots of the lives before (`rows`).
pub fn lives_are_least_late()
    ensures keys { ForAllLives (λ first lives.
        CarriesLeastKeys (rows_of_all first.plan lives) (numbers_of_all lives)) }
    ensures least_late { ForAllLives (λ first lives.
        IsLeastLate (rows_of_all first.plan lives) (numbers_of_all lives)) }
    ensures moments { (first : Start) → IsOpening first → (later moment : Log) (earlier : Lives) →
        AreLives first ((later ++ moment) ∷ earlier) →
        IsLeastLate (rows_of_all first.plan (moment ∷ earlier))
        (numbers_of_all (moment ∷ earlier)) }
    ensures rows { ForAllLives (λ first lives.
        (log : Log) (earlier : Lives) → HasLife lives log earlier → (j : ℕ) →
        is_known (rows first.plan log) j ≡ true
        → row_of (rows_of_all first.plan lives) (all_jobs earlier + j)
        ≡ option_map (row_after (all_jobs earlier) (all_slots earlier))
        (row_of (rows first.plan log) j)) }
    ensures certified { ForAllLives (λ first lives.
        (j : ℕ) → is_done (rows_of_all first.plan lives) j ≡ true →
        IsSome (certificate_of (rows_of_all first.plan lives) (numbers_of_all lives) j)) }
{}

/// Wear adds up. A block's count of erases after an exact log that starts at an opening is what it was at the start and
/// one for each erase of the block that was finished in the log; so over all lives it is the sum.
pub fn wear_adds_up()
    ensures log { ForEveryExactLog (λ start log. (block : ℕ) →
        (block_at (cells start log) block).erases
        ≡ (block_at start.cells block).erases + erases_in block log) }
    ensures lives { ForAllLives (λ first lives.
        (block : ℕ) → (block_at (start_after first lives).cells block).erases
        ≡ (block_at first.cells block).erases + sum_by (erases_in block) lives) }
{}

/// A log has at most as many finished erases, of all blocks together, as collections: so at most 65,536. A block's
/// count of erases grows by no more than that in each life.
pub fn few_erases()
    ensures log { ForEveryExactLog (λ start log. all_erases_in log ≤ collections_taken log) }
    ensures block { ForEveryExactLog (λ start log. (block : ℕ) → erases_in block log ≤ MAX_JOBS) }
    ensures lives { ForAllLives (λ first lives.
        (block : ℕ) → (block_at (start_after first lives).cells block).erases
        ≤ (block_at first.cells block).erases + MAX_JOBS * length lives) }
{}

/// Planned work goes on, life after life. Let a die start stocked, as a fresh one does, at an opening whose plan passes
/// the test of its times. Let the calls of each life keep the plan as if there were no other, with as many jobs and
/// collections as one life may have, and let them end where the periods end: in a slot that is a multiple of every
/// collect period, by which the deadline of all that came has come. Then no call is refused and nothing is late, in no
/// life; after each the die is quiet, may be renewed, and is stocked again. So it is of the calls of the next life that
/// keep the plan, wherever they end.
pub fn planned_lives_go_on()
    ensures served { ForPlannedLives (λ first times all. AreServedInTime first all) }
    ensures next { ForPlannedLives (λ first times all.
        (calls : Calls) → KeepsPlan first.plan times (events_of_calls calls) →
        IsServedInTime (start_after first (lives_of first all)) calls) }
    ensures ended { ForPlannedLives (λ first times all. HaveEnded first (lives_of first all)) }
    ensures stocked { ForPlannedLives (λ first times all.
        AreStocked (start_after first (lives_of first all)) times) }
{}
