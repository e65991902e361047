//! What holds of the runs of such scripts.

ghost use Rattle.std.specs.Prelude.{ℕ, List, Option, Some};
ghost use Rattle.std.specs.List.{AllZip};
ghost use Rattle.slot_types.specs.declared.plans.DiePlan.{DiePlan};
ghost use Rattle.task_script.specs.PlannedRuns.{RowsGoAsPlanned, RunsAsPlanned};
ghost use Rattle.task_script.specs.declared.run_counts.RunCount.{RunCount};
ghost use Rattle.flashplan_arrivals.specs.PlannedScripts.{IsPlannedScript};

/// A run of a script that keeps the plans of its dies goes as planned on each of them: all that is due by the end is done
/// or was waived, no row of the report has a lateness above 0, and no row of the script is refused but out of memory,
/// or after one that was.
pub fn planned_scripts_go_as_planned()
    ensures { (plans : List DiePlan) (slots : ℕ) (text : List ℕ) (count : RunCount)
        (old new : Option (List ℕ)) →
        IsPlannedScript plans slots text →
        (run : RunsAsPlanned (Some text) plans slots count old new) →
        AllZip RowsGoAsPlanned plans run.ran.runs }
{}
