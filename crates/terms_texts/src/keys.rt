//! The keys of a plan with terms.

ghost use Rattle.std.specs.Prelude.{◌≡◌};
ghost use Rattle.terms_texts.specs.Keys.{name_of};

/// A key that a plan with terms has, or `version`, which plans without terms have in place of `terms`.
#[derive(Clone, Copy, PartialEq, Eq, Debug, Drop)]
pub enum Key {
    Version,
    Terms,
    Dies,
    Blocks,
    Pages,
    EraseSlots,
    Logical,
    Alpha,
    Task,
    Die,
    Cap,
    Period,
    Deadline,
    Held,
    Work,
    Writes,
    CollectPeriod,
    CollectDeadline,
}

impl Key {
    /// The key as it stands in a text.
    pub fn name(self) -> &'static str
        ensures { result.now ≡ name_of self }
    {
        match self {
            Key::Version => "version",
            Key::Terms => "terms",
            Key::Dies => "dies",
            Key::Blocks => "blocks",
            Key::Pages => "pages",
            Key::EraseSlots => "erase_slots",
            Key::Logical => "logical",
            Key::Alpha => "alpha",
            Key::Task => "task",
            Key::Die => "die",
            Key::Cap => "cap",
            Key::Period => "period",
            Key::Deadline => "deadline",
            Key::Held => "held",
            Key::Work => "work",
            Key::Writes => "writes",
            Key::CollectPeriod => "collect_period",
            Key::CollectDeadline => "collect_deadline",
        }
    }
}
