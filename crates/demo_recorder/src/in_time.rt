//! Which jobs were late, by the outcomes that their tasks took.

use crate::tasks::Diary;
use crate::timer::Ticked;

/// How many of a task's jobs weren't done by their deadline, of those whose deadline has gone by, or read something else than the
/// task wrote: of the first ones it took the outcomes, and of the others none came.
pub(crate) fn late(diary: &Diary, ticked: &Ticked) -> u32 {
    let mut late = diary.wrong;
    for asked in diary.accepted.iter().skip(diary.told) {
        if asked.due <= ticked.slots {
            late = late.saturating_add(1);
        }
    }
    late
}
