//! The names of refusals.

ghost use Rattle.std.specs.Prelude.{◌≡◌, ◌≤◌, ◌++◌, ◌∷◌, [], length};
ghost use Rattle.flash_c.specs.Lists.{array_with};
ghost use Rattle.flash_c.specs.Texts.{name_among, name_at, names, plan_names};
ghost use Rattle.flash_c.specs.Conversions.{number_in};

/// The name of a refusal's number.
pub(crate) fn name_of(refusal: u32) -> &'static str
    ensures name { result.now ≡ name_at refusal }
    ensures short { length result.now ≤ 16 }
{
    if refusal > 400 {
        plan_name_of(refusal)
    } else {
        own_name_of(refusal)
    }
}

/// The name of a number up to 400.
fn own_name_of(refusal: u32) -> &'static str
    ensures name { result.now ≡ name_among names refusal }
    ensures short { length result.now ≤ 16 }
{
    match refusal {
        0 => "Ok",
        1 => "NoMemory",
        2 => "BadShape",
        3 => "BadPlan",
        4 => "UnknownDie",
        5 => "UnknownTask",
        6 => "EmptyJob",
        7 => "TooManyOps",
        8 => "BadPage",
        9 => "ReleasePast",
        10 => "BadDue",
        11 => "JobsFull",
        12 => "NoTokens",
        13 => "CollectorBusy",
        14 => "ClockEnd",
        15 => "DeviceFault",
        16 => "DieStopped",
        17 => "UnknownJob",
        18 => "PlanText",
        19 => "ScriptRow",
        20 => "ReportText",
        21 => "ReadFault",
        22 => "WriteFault",
        23 => "PassesFull",
        24 => "PassesOut",
        100 => "Begun",
        101 => "NotBegun",
        102 => "BadKind",
        103 => "NothingDone",
        104 => "RowsNotRising",
        105 => "NotQuiet",
        106 => "WornOut",
        107 => "EmptyHandle",
        108 => "FullHandle",
        109 => "NullPointer",
        110 => "NotTaken",
        111 => "NoneOverdue",
        112 => "WrongStep",
        113 => "TooManyCells",
        114 => "BadLabel",
        115 => "CheckpointStands",
        201 => "Empty",
        202 => "NotRising",
        203 => "UnknownJob",
        204 => "Unfinished",
        205 => "EarlyRelease",
        206 => "LateDue",
        207 => "WrongSum",
        301 => "OtherShape",
        302 => "Overfull",
        303 => "SecondOpen",
        304 => "Unprogrammed",
        305 => "AboveCap",
        306 => "OtherSum",
        307 => "SharedCell",
        _ => "Unknown",
    }
}

/// The name of a number above 400: of a refusal of a die that keeps its plan, or of a table of spare blocks.
fn plan_name_of(refusal: u32) -> &'static str
    ensures name { result.now ≡ name_among plan_names refusal }
    ensures short { length result.now ≤ 16 }
{
    match refusal {
        401 => "TooManyWrites",
        402 => "TooSoon",
        403 => "WaitsAlready",
        404 => "LifeEnd",
        405 => "NoLife",
        406 => "ShortLife",
        407 => "BadTerms",
        408 => "TooMuchDemand",
        409 => "TooFewPages",
        410 => "AskWaits",
        411 => "NotStocked",
        501 => "NoSpare",
        502 => "NoBlock",
        _ => "Unknown",
    }
}

/// Puts a text and a 0 after it into place, as far as there is room.
pub(crate) fn put_text(places: &mut [u8], text: &[u8])
    ensures { places.new ≡ array_with number_in places.old (text.now ++ 0 ∷ []) }
{
    for i in 0..places.len().min(text.len()) {
        places[i] = text[i];
    }
    if text.len() < places.len() {
        places[text.len()] = 0;
    }
}
