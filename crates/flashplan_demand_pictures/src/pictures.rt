//! The picture, as SVG.

use crate::axes::Axes;
use crate::sampling::Point;
use flashplan_slot_times::{Slots, Time};
use std::io;
use std::io::Write;

/// The interval that is marked.
#[derive(Clone, Copy, PartialEq, Eq, Debug, Drop)]
pub enum Marked {
    /// The one that is left with the fewest slots, and how many.
    Tightest { slots: u32, slack: u32 },
    /// The shortest one of which more is asked than it has, and how many slots more.
    Overfull { slots: u32, excess: u64 },
}

impl Marked {
    /// How long it is.
    pub fn slots(self) -> u32 {
        match self {
            Marked::Tightest { slots, .. } | Marked::Overfull { slots, .. } => slots,
        }
    }

    /// How many slots may be asked of it.
    pub fn demand(self) -> u64 {
        match self {
            Marked::Tightest { slots, slack } => u64::from(slots.saturating_sub(slack)),
            Marked::Overfull { slots, excess } => u64::from(slots).saturating_add(excess),
        }
    }
}

/// The styles: dark on light, and the other way on a screen that is dark.
const STYLES: &str = "<style>
svg{background:#fff;print-color-adjust:exact;-webkit-print-color-adjust:exact}
.back{fill:#fff}
text{font:13px sans-serif;fill:#222}
.h{font-size:16px;font-weight:bold}
.e{text-anchor:end}
.m{text-anchor:middle}
.s{fill:#555}
.axis{stroke:#ddd}
.there{stroke:#1b9e47;stroke-width:2}
.asked{fill:#0b62a4;fill-opacity:.15;stroke:#0b62a4;stroke-width:2}
.mark{stroke:#b00020;stroke-width:2;stroke-dasharray:4 3}
.dot{fill:#b00020}
@media screen and (prefers-color-scheme:dark){
svg{background:#16181d}
.back{fill:#16181d}
text{fill:#ddd}
.s{fill:#aaa}
.axis{stroke:#3a3f48}
.there{stroke:#6bd08a}
.asked{fill:#5db0f0;stroke:#5db0f0}
.mark{stroke:#ff8a96}
.dot{fill:#ff8a96}
}
</style>";

fn put_head(text: &mut Vec<u8>, die: u32) -> io::Result<()> {
    writeln!(
        text,
        "<svg xmlns=\"http://www.w3.org/2000/svg\" width=\"820\" height=\"470\" viewBox=\"0 0 820 470\">"
    )?;
    writeln!(
        text,
        "<title>Die {die}: what may be asked of an interval, by its length</title>"
    )?;
    writeln!(text, "{STYLES}")?;
    writeln!(
        text,
        "<rect class=\"back\" width=\"100%\" height=\"100%\"/>"
    )?;
    writeln!(
        text,
        "<text class=\"h\" x=\"20\" y=\"28\">Die {die}: what may be asked of an interval, by its length</text>"
    )
}

/// What the lines are.
fn put_legend(text: &mut Vec<u8>) -> io::Result<()> {
    writeln!(
        text,
        "<line class=\"there\" x1=\"84\" y1=\"50\" x2=\"112\" y2=\"50\"/><text x=\"118\" y=\"54\">slots that it has</text>"
    )?;
    writeln!(
        text,
        "<rect class=\"asked\" x=\"250\" y=\"44\" width=\"28\" height=\"12\"/><text x=\"284\" y=\"54\">slots that may be asked for</text>"
    )
}

/// A mark of each axis, with its number.
fn put_mark(text: &mut Vec<u8>, axes: Axes, slots: u32) -> io::Result<()> {
    let (x, y) = (axes.x(slots), axes.y(u64::from(slots)));
    writeln!(text, "<path class=\"axis\" d=\"M{x} 400V80M84 {y}H784\"/>")?;
    writeln!(
        text,
        "<text class=\"m s\" x=\"{x}\" y=\"418\">{slots}</text><text class=\"e s\" x=\"78\" y=\"{y}\" dy=\"4\">{slots}</text>"
    )
}

/// What the lengths are counted in, and how long one is, where that is known.
fn put_unit(text: &mut Vec<u8>, slot_us: Option<u32>) -> io::Result<()> {
    write!(
        text,
        "<text class=\"m s\" x=\"434\" y=\"440\">length of the interval, in slots"
    )?;
    if let Some(us) = slot_us {
        let slot = Time { us: u128::from(us) };
        write!(text, " of {slot}")?;
    }
    writeln!(text, "</text>")
}

fn put_axes(text: &mut Vec<u8>, axes: Axes, slot_us: Option<u32>) -> io::Result<()> {
    let mark = axes.mark();
    let mut slots: u32 = 0;
    for _ in 0..11 {
        if slots > axes.end {
            break;
        }
        put_mark(text, axes, slots)?;
        slots = slots.saturating_add(mark);
    }
    put_unit(text, slot_us)
}

/// The line of the slots that an interval has: as many as it is long.
fn put_there(text: &mut Vec<u8>, axes: Axes) -> io::Result<()> {
    let (x, y) = (axes.x(axes.end), axes.y(u64::from(axes.end)));
    writeln!(text, "<path class=\"there\" d=\"M84 400L{x} {y}\"/>")
}

/// What may be asked for: it stays, and then rises at a point.
fn put_asked(text: &mut Vec<u8>, axes: Axes, points: &[Point]) -> io::Result<()> {
    write!(text, "<path class=\"asked\" d=\"M84 400")?;
    let mut last: u64 = 0;
    for point in points {
        if point.demand != last {
            let (x, y) = (axes.x(point.slots), axes.y(point.demand));
            write!(text, "H{x}V{y}")?;
            last = point.demand;
        }
    }
    let x = axes.x(axes.end);
    writeln!(text, "H{x}V400\"/>")
}

/// `count` slots, with their time where it is known how long one is.
fn timed(count: u64, slot_us: Option<u32>) -> Slots {
    Slots { count, slot_us }
}

/// The interval that is marked, and what is said of it.
fn put_marked(
    text: &mut Vec<u8>,
    axes: Axes,
    marked: Marked,
    slot_us: Option<u32>,
) -> io::Result<()> {
    let (slots, demand) = (marked.slots(), marked.demand());
    let (x, y) = (axes.x(slots), axes.y(demand));
    writeln!(text, "<path class=\"mark\" d=\"M{x} 400V80\"/>")?;
    writeln!(
        text,
        "<circle class=\"dot\" cx=\"{x}\" cy=\"{y}\" r=\"4\"/>"
    )?;
    write!(text, "<text x=\"84\" y=\"462\">")?;
    let slots = timed(u64::from(slots), slot_us);
    let demand = timed(demand, slot_us);
    match marked {
        Marked::Tightest { slack, .. } => {
            let slack = timed(u64::from(slack), slot_us);
            write!(
                text,
                "The tightest interval has {slots} slots, of which {demand} may be asked for: {slack} to spare."
            )?;
        }
        Marked::Overfull { excess, .. } => {
            let excess = timed(excess, slot_us);
            write!(
                text,
                "An interval of {slots} slots may be asked for {demand}: {excess} missing; no shorter one is overfull."
            )?;
        }
    }
    writeln!(text, "</text>")
}

/// Adds the picture of a die.
pub(crate) fn put_picture(
    text: &mut Vec<u8>,
    die: u32,
    axes: Axes,
    points: &[Point],
    marked: Marked,
    slot_us: Option<u32>,
) -> io::Result<()> {
    put_head(text, die)?;
    put_legend(text)?;
    put_axes(text, axes, slot_us)?;
    put_asked(text, axes, points)?;
    put_there(text, axes)?;
    put_marked(text, axes, marked, slot_us)?;
    writeln!(text, "</svg>")
}
