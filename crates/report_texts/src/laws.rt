//! What holds of the texts themselves.

ghost use Rattle.std.specs.Prelude.{◌≡◌, ◌⊎◌, ℕ, List, Ok, Result, Some};
ghost use Rattle.slot_types.specs.declared.refusals.Refusal.{Refusal as Refused};
ghost use Rattle.text_base.specs.Writing.{EndsWriting, HaveOneEnd};
ghost use Rattle.report_texts.specs.OutsideFaults.{EndsOutside};
ghost use Rattle.report_texts.specs.ReportOf.{Reading, Says, report_of};
ghost use Rattle.report_texts.specs.ReportText.{report_text};
ghost use Rattle.report_texts.specs.WellFormed.{IsReport};
ghost use Rattle.report_texts.specs.declared.reports.DieReport.{DieReport};

use text_base::Output;

/// The text of a report reads as the report: whatever is written of a report that meets the conditions of reading is
/// read back the same.
pub fn reports_come_back()
    ensures { (report : List DieReport) → IsReport report
        → report_of (report_text report) ≡ Ok report }
{}

/// Reading a report (`report`, `read_report`) has one answer, where its text is known, unless memory or its reader fails.
pub fn reading_a_report_has_one_answer()
    ensures { (read one other : Reading) → Says (Some read) one → Says (Some read) other →
        (one ≡ other) ⊎ EndsOutside one ⊎ EndsOutside other }
{}

/// Writing a report (`write`, `write_parts`, `write_report`) has one answer, where what its writer has is known, and
/// leaves one text there; out of memory it leaves the writer as it was. Left open is whether there is memory for it,
/// whether the writer fails, which its flag then says, and how much of the text it took then. Where the flag is known,
/// and wasn't set, two answers that leave the same flag differ by memory alone: WriteFault comes exactly where it was
/// set.
pub fn writing_a_report_has_one_answer<W: Output>()
    ensures { (text : List ℕ) (before left right : W) (one other : Result (Unit {0}) Refused) →
        EndsWriting W.contents W.has_failed text before one left →
        EndsWriting W.contents W.has_failed text before other right →
        HaveOneEnd W.contents W.has_failed before one other left right }
{}
