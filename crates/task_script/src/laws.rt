//! What holds of the reports of exact logs, and of runs.

ghost use Rattle.std.specs.Prelude.{◌≡◌, ◌≢◌, ◌≤◌, ◌⊎◌, ℕ, List, Option, Some, false, All, Ok, Result, IfOk, IfErr, OnOk, IsErrAnd, length};
ghost use Rattle.plan_rules.specs.Bound.{MeetsBound};
ghost use Rattle.slot_types.specs.declared.plans.DiePlan.{DiePlan};
ghost use Rattle.slot_types.specs.declared.refusals.Refusal.{Refusal as Refused};
ghost use Rattle.text_base.specs.Readings.{IsOutside};
ghost use Rattle.text_base.specs.Flags.{KeepsFlag};
ghost use Rattle.text_base.specs.Writing.{RefusesOrCuts};
ghost use Rattle.report_texts.specs.ReportOf.{report_of};
ghost use Rattle.report_texts.specs.ReportText.{report_text};
ghost use Rattle.report_texts.specs.WellFormed.{IsReport};
ghost use Rattle.script_texts.specs.declared.script_rows.ScriptItem.{ScriptItem};
ghost use Rattle.task_script.specs.DieRuns.{DieRun, IsScriptRun};
ghost use Rattle.task_script.specs.ExactRuns.{AreExact};
ghost use Rattle.task_script.specs.Feeds.{AllArrive, RefusesScript};
ghost use Rattle.task_script.specs.PlannedRuns.{RowsGoAsPlanned, RowsKeepPlan, RunsSo};
ghost use Rattle.task_script.specs.TextRuns.{RunsText, ends_of, reports_from};
ghost use Rattle.task_script.specs.declared.run_counts.RunCount.{RunCount};

use slot_types::Refusal;
use text_base::Output;

/// The report of the exact logs of at most eight dies meets the conditions of reading, so it is read back from its
/// text. The plan of each die meets its bound, and its jobs were asked to write pages of sixteen bytes.
pub fn exact_reports_come_back()
    ensures formed { (plans : List DiePlan) (runs : List DieRun) → length plans ≤ 8
        → AreExact plans runs
        → IsReport (reports_from 0 plans runs) }
    ensures read { (plans : List DiePlan) (runs : List DieRun) → length plans ≤ 8
        → AreExact plans runs
        → report_of (report_text (reports_from 0 plans runs)) ≡ Ok (reports_from 0 plans runs) }
{}

/// So is the report that a run writes, whatever script was read.
pub fn run_reports_come_back()
    ensures { (text : Option (List ℕ)) (plans : List DiePlan) (slots : ℕ) (count : RunCount)
        (old new : Option (List ℕ)) → length plans ≤ 8
        → All MeetsBound plans →
        (ran : RunsText text plans slots count old new) →
        report_of (report_text (reports_from 0 plans ran.runs))
        ≡ Ok (reports_from 0 plans ran.runs) }
{}

/// Where the rows of a die keep its plan, with times that pass their test, its run goes as planned: all that is due by
/// the end is done or was waived, no row of its report has a lateness above 0, and no row is refused but out of memory,
/// or after one that was.
pub fn planned_runs_go_as_planned()
    ensures { (plan : DiePlan) (slots : ℕ) (items : List ScriptItem) (run : DieRun)
        → MeetsBound plan →
        AllArrive slots items → RowsKeepPlan plan slots items → IsScriptRun plan slots items run
        → RowsGoAsPlanned plan run }
{}

/// Running a script (`run_text`) has one answer, where its text and what the writer has are known, and leaves one
/// report there. Left open is whether there is memory, for the run or for a row, and whether the reader or the writer
/// fails, which the writer's flag then says. Where that is known, and wasn't set, two answers that leave the same flag
/// differ by memory or the reader alone.
pub fn running_a_script_has_one_answer<W: Output>()
    ensures written { (text known : List ℕ) (plans : List DiePlan) (slots : ℕ)
        (before left right : W) (one other : Result RunCount Refused) →
        W.contents before ≡ Some known →
        IfOk one (λ count.
        (ran : RunsText (Some text) plans slots count (W.contents before) (W.contents left))
        × All (λ end. end.refusal ≢ Some Refusal.NoMemory) (ends_of ran.runs)) →
        IfOk other (λ count.
        (ran : RunsText (Some text) plans slots count (W.contents before) (W.contents right))
        × All (λ end. end.refusal ≢ Some Refusal.NoMemory) (ends_of ran.runs)) →
        IfErr one (RefusesOrCuts W.contents W.has_failed
        (RefusesScript (Some text) (length plans) slots) (RunsSo (Some text) plans slots)
        before left) →
        IfErr other (RefusesOrCuts W.contents W.has_failed
        (RefusesScript (Some text) (length plans) slots) (RunsSo (Some text) plans slots)
        before right) →
        ((one ≡ other) × OnOk one (W.contents left ≡ W.contents right))
        ⊎ IsErrAnd one (λ refusal. IsOutside refusal ⊎ (refusal ≡ Refusal.WriteFault))
        ⊎ IsErrAnd other (λ refusal. IsOutside refusal ⊎ (refusal ≡ Refusal.WriteFault)) }
    ensures flagged { (text known : List ℕ) (plans : List DiePlan) (slots : ℕ)
        (before left right : W) (one other : Result RunCount Refused) →
        W.contents before ≡ Some known → W.has_failed before ≡ Some false →
        IfOk one (λ count.
        (ran : RunsText (Some text) plans slots count (W.contents before) (W.contents left))
        × All (λ end. end.refusal ≢ Some Refusal.NoMemory) (ends_of ran.runs)) →
        IfOk other (λ count.
        (ran : RunsText (Some text) plans slots count (W.contents before) (W.contents right))
        × All (λ end. end.refusal ≢ Some Refusal.NoMemory) (ends_of ran.runs)) →
        OnOk one (KeepsFlag (W.has_failed before) (W.has_failed left)) →
        OnOk other (KeepsFlag (W.has_failed before) (W.has_failed right)) →
        IfErr one (RefusesOrCuts W.contents W.has_failed
        (RefusesScript (Some text) (length plans) slots) (RunsSo (Some text) plans slots)
        before left) →
        IfErr other (RefusesOrCuts W.contents W.has_failed
        (RefusesScript (Some text) (length plans) slots) (RunsSo (Some text) plans slots)
        before right) →
        W.has_failed left ≡ W.has_failed right →
        ((one ≡ other) × OnOk one (W.contents left ≡ W.contents right))
        ⊎ IsErrAnd one IsOutside ⊎ IsErrAnd other IsOutside }
{}
