//! What the tasks of a die ask for, with deadlines of their own and in bursts.

use slot_types::Items;

/// What a task asks for. All times are in slots.
///
/// A job comes in the slot in which it is asked for, and its release lies then or later. Operations are counted by a
/// job's release, since it is carried out from then on; writes are counted by its coming, since its tokens go when it is
/// accepted, however far ahead its release lies.
#[derive(Clone, Copy, PartialEq, Eq, Debug, Drop)]
pub struct TaskTerms {
    /// The period in slots, 1 to 4,294,967,295. In any period, the task's jobs that are released have at most `work`
    /// operations in all, and its jobs that come have at most `writes` writes in all. It may be longer than a life.
    pub period: u32,
    /// The fewest slots from a job's release to its deadline: 1 to `held`.
    pub deadline: u32,
    /// The most slots from a job's arrival to its deadline, in which it may hold the tokens for what it writes:
    /// `deadline` to 1,048,576. With `held` equal to `deadline` each job comes at its release.
    pub held: u32,
    /// The most operations that jobs released in a period have in all, 1 to 1,048,576, in any number of jobs of at most 64
    /// each.
    pub work: u32,
    /// The most writes that jobs which come in a period have in all, 0 to `work`.
    pub writes: u32,
    /// A collection comes at each multiple of this, 1 to 1,048,576.
    pub collect_period: u32,
    /// The slots from a collection's arrival to its deadline: 1 to `collect_period`. Where they are fewer than
    /// `collect_period`, a life may end in each slot by which all that came is due.
    pub collect_deadline: u32,
}

/// By task what it asks for.
pub type TermsList = Items<TaskTerms>;

/// What the tasks of a die ask for. Within a life their periods need have no common multiple.
#[derive(Clone, PartialEq, Eq, Debug, Drop)]
pub struct Terms {
    pub tasks: TermsList,
}
