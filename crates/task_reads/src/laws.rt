//! What a task's reads give. Each law is a function that does nothing.

ghost use Rattle.std.specs.Prelude.{◌≡◌, ◌++◌, ◌<◌, ℕ, List, [], Some, Contains, MatchOption, IsTrue, slice_get, take, drop, map};
ghost use Rattle.slot_types.specs.declared.pages.PageData.{PageData};
ghost use Rattle.slot_types.specs.declared.acts.Act.{Act};
ghost use Rattle.slot_types.specs.declared.acts.Act.TheVariants as does;
ghost use Rattle.slot_types.specs.declared.events.Op.{Op};
ghost use Rattle.slot_types.specs.Operations.{is_read, page_of};
ghost use Rattle.die_log.specs.Model.Log.{Log, Job, acts, work};
ghost use Rattle.die_log.specs.Model.Flash.{content};
ghost use Rattle.die_log.specs.Model.Start.{Start};
ghost use Rattle.die_log.specs.Model.Work.{is_done};
ghost use Rattle.die_log.specs.Model.Opening.{IsQuiet};
ghost use Rattle.die_log.specs.Results.Laws.{ForEveryExactLog};
ghost use Rattle.die_log.specs.Results.Legal.{Does};
ghost use Rattle.task_reads.specs.Asked.{task_jobs, operations, ComeInOrder, left_on};
ghost use Rattle.task_reads.specs.OwnPages.{IsOwnPage, AreAskedAlike, IsOwnInBoth, ReadAlike, ForAskedAlike};
ghost use Rattle.demand_rules.specs.declared.terms.Terms.{Terms};
ghost use Rattle.die_log.specs.Model.Lives.{start_after, AreLives};
ghost use Rattle.planned_log.specs.Laws.{seen_by};
ghost use Rattle.planned_log.specs.Moves.{Move, lives_after};
ghost use Rattle.task_reads.specs.Runs.{AreSeenAlike, ForRunsSeenAlike};
ghost use Rattle.task_reads.specs.Lives.{IsOwnInLives, AreLivesSeenAlike};
ghost use Rattle.ongoing_log.specs.PastLives.{PastLife, starts_after};
ghost use Rattle.ongoing_log.specs.Ongoing.{start_of};
ghost use Rattle.ongoing_log.specs.Ahead.{AheadMove};
ghost use Rattle.task_reads.specs.GoingOn.{BeginsAfter, gone_on, lives_since, ForGoneOnAlike, AskAlikeInLives, HaveAlikeInLives, ForOwnPages};

use ongoing_log::ongoing_tasks_are_answered_for_their_own_asks;

/// Where a task's jobs come in order, a job of the task isn't begun before all that were taken before it are done. The acts
/// of a job are its operations, in order. So the task's operations are carried out in the order in which it asked for them,
/// whatever comes between.
pub fn tasks_are_served_in_order()
    ensures jobs { ForEveryExactLog (λ start log. (task : ℕ) → ComeInOrder task log → (i j : Job)
        → Contains (task_jobs task log) i → Contains (task_jobs task log) j → i.number < j.number
        → 0 < work j.number log → IsTrue (is_done start.plan log i)) }
    ensures operations { ForEveryExactLog (λ start log. (task : ℕ) (j : Job) → Contains (task_jobs task log) j
        → (n : ℕ) (act : Act) → slice_get (acts j.number log) n ≡ Some act
        → (op : Op) × (slice_get j.ops n ≡ Some op) × Does op act) }
{}

/// A page that no other task writes or trims holds what the task's own jobs asked for. Each read of it gives what stood on it
/// at first, changed by all operations of the task's jobs before and by those of the job itself before the read (`reads`).
/// And where all is done, all of the task's operations have changed it, and nothing else (`ended`).
pub fn own_pages_stand_as_asked()
    ensures reads { ForEveryExactLog (λ start log. (task page : ℕ) → ComeInOrder task log →
        IsOwnPage task page log → (k : ℕ) (j : Job) → slice_get (task_jobs task log) k ≡ Some j →
        (n : ℕ) (bytes : PageData) → slice_get (acts j.number log) n ≡ Some (does.Read page bytes)
        → bytes ≡ left_on page (operations (take k (task_jobs task log)) ++ take n j.ops)
        (content start [] page)) }
    ensures ended { ForEveryExactLog (λ start log. (task page : ℕ) → ComeInOrder task log →
        IsOwnPage task page log → IsQuiet start log
        → content start log page
        ≡ left_on page (operations (task_jobs task log)) (content start [] page)) }
{}

/// What a task reads depends on its own asks. Of two logs in which it asked for the same, whatever else was asked for in
/// either and in whichever slots it was carried out, each read of a page that is the task's own in both gives the same bytes
/// in both (`reads`). If that is so of all pages that one of its jobs reads, the job does the same in both, once it is done
/// (`jobs`). And once all is done, the same stands on such a page in both, so the next lives begin alike (`ended`).
pub fn tasks_read_for_their_own_asks()
    ensures reads { ForAskedAlike (λ task first one other two. (page : ℕ) →
        IsOwnInBoth task page first one other two → ReadAlike task page one two) }
    ensures jobs { ForAskedAlike (λ task first one other two. (k : ℕ) (i j : Job) →
        slice_get (task_jobs task one) k ≡ Some i → slice_get (task_jobs task two) k ≡ Some j →
        ((op : Op) → Contains i.ops op → IsTrue (is_read op)
        → IsOwnInBoth task (page_of op) first one other two) →
        IsTrue (is_done first.plan one i) → IsTrue (is_done other.plan two j)
        → acts i.number one ≡ acts j.number two) }
    ensures ended { ForAskedAlike (λ task first one other two. (page : ℕ) →
        IsOwnInBoth task page first one other two → IsQuiet first one → IsQuiet other two
        → content first one page ≡ content other two page) }
{}

/// Of two runs that agree on their slots and on one task's asks, from dies of one plan that keep it themselves, the task's
/// jobs come in order and ask for the same in both (`asked`), and each has the same release and the same deadline.
/// So its reads give the same bytes of its own pages, by the law above, whatever the others ask for in either.
pub fn runs_read_alike()
    ensures asked { ForRunsSeenAlike AreAskedAlike }
    ensures releases { ForRunsSeenAlike (λ task first one other two.
        map (λ (j : Job). j.release) (task_jobs task one)
        ≡ map (λ (j : Job). j.release) (task_jobs task two)) }
    ensures deadlines { ForRunsSeenAlike (λ task first one other two.
        map (λ (j : Job). j.due) (task_jobs task one)
        ≡ map (λ (j : Job). j.due) (task_jobs task two)) }
{}

/// So it is life after life. Where the task sees the same in each life of two dies that start full, each next life begins
/// alike for it (`next`), and the same stands on each page that was its own in all lives before, if it did at first
/// (`pages`): so its reads give the same bytes in that life, too, by the laws above.
pub fn lives_read_alike()
    ensures next { (task life : ℕ) (terms : Terms) (first : Start) (all : List (List Move))
        (other : Start) (others : List (List Move)) →
        AreLivesSeenAlike task life terms first all other others → (moves more : List Move) →
        seen_by task moves ≡ seen_by task more →
        let lives = lives_after first terms life all in
        let twins = lives_after other terms life others in
        AreSeenAlike task life terms (start_after first lives) lives moves
        (start_after other twins) twins more }
    ensures pages { (task life : ℕ) (terms : Terms) (first : Start) (all : List (List Move))
        (other : Start) (others : List (List Move)) →
        AreLivesSeenAlike task life terms first all other others → (page : ℕ) →
        content first [] page ≡ content other [] page →
        let lives = lives_after first terms life all in
        let twins = lives_after other terms life others in
        IsOwnInLives task page lives → IsOwnInLives task page twins →
        content (start_after first lives) [] page ≡ content (start_after other twins) [] page }
{}

/// So it is of a die that begins its lives itself, and lets in what waits for the next life or for a slot ahead. Its lives
/// since it was made, went on from a checkpoint, or was mounted are lives as `die_log` has them (`lives`), and the present one
/// starts where they leave it (`starts`). Where a task sees the same of two such dies, its jobs come in order and ask for the
/// same in both, life by life (`asked`), with the same releases and the same deadlines. In each life the same stands at first on
/// each page that was its own in all lives so far, if it did in the first (`pages`), and each of its reads of such a page
/// gives the same bytes (`reads`), whatever the others ask for in either.
pub fn ongoing_dies_read_alike()
    ensures lives { (first : Start) (terms : Terms) (life : ℕ) (past : List PastLife) →
        BeginsAfter first terms life past → (moves : List AheadMove)
        → AreLives (starts_after first past) (lives_since past (gone_on first terms life past moves)) }
    ensures starts { (first : Start) (terms : Terms) (life : ℕ) (past : List PastLife) →
        BeginsAfter first terms life past → (moves : List AheadMove) →
        let d = gone_on first terms life past moves in
        start_after (starts_after first past) (drop 1 (lives_since past d)) ≡ start_of first d }
    ensures asked { ForGoneOnAlike AskAlikeInLives }
    ensures releases { ForGoneOnAlike (HaveAlikeInLives (λ (j : Job). j.release)) }
    ensures deadlines { ForGoneOnAlike (HaveAlikeInLives (λ (j : Job). j.due)) }
    ensures pages { ForGoneOnAlike (λ task. ForOwnPages (IsOwnInBoth task) task) }
    ensures reads { ForGoneOnAlike (λ task. ForOwnPages (λ page start log other twin. ReadAlike task page log twin) task) }
{
    ongoing_tasks_are_answered_for_their_own_asks();
}
