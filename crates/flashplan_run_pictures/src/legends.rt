//! The head of a picture: its styles, what it is of, and what its colours and marks mean.

use crate::kinds::{KINDS, class_of, name_of};
use crate::levels::put_class;
use crate::pictures::Scene;
use crate::sentences::{put_counts, put_title, put_worst_of};
use std::io;
use std::io::Write;

/// The styles and the marks. The colours differ in brightness too, for prints without colour and for eyes that see less
/// of it. Of the curves of tokens each has longer gaps than those that are drawn before it, in a pattern of 40, and those of
/// the tasks from 8 on are thinner: so those that lie on each other can be told apart. On paper a picture is as wide as the
/// page; on a screen that is dark, the picture is too.
const STYLES: &str = "<style>
@media print{svg{width:100%;height:auto}}
svg{background:#fff;print-color-adjust:exact;-webkit-print-color-adjust:exact}
.back{fill:#fff}
text{font:11px sans-serif;fill:#222}
.h{font-size:16px;font-weight:bold}
.l{text-anchor:end}
.n{text-anchor:middle;font-size:9px;fill:#666}
.e{text-anchor:end}
.p{text-anchor:middle;font-size:9px;fill:#222;pointer-events:none}
.late{fill:#b00020;font-weight:bold}
.lane{fill:#f5f5f5}
.tick{stroke:#ddd}
.wait{stroke:#aaa;stroke-width:2}
.gap{stroke:#8a4f9e;stroke-width:2;stroke-dasharray:3 2}
.busy_interval{fill:#ffd9b3;fill-opacity:.6}
.read{fill:#9fd3f5}
.write{fill:#0b62a4}
.trim{fill:#7a7a7a}
.out{fill:#f7dc6f}
.in{fill:#d98200}
.erase{fill:#8a4f9e}
.end{fill:#000}
.w{fill:#fff}
.spare{fill:none;stroke:#aaa;stroke-width:6}
.tokens{fill:none;stroke-width:3}
.t0{stroke:#0b62a4}
.t1{stroke:#b26a00;stroke-dasharray:35 5}
.t2{stroke:#1b7837;stroke-dasharray:30 10}
.t3{stroke:#8a4f9e;stroke-dasharray:25 15}
.t4{stroke:#b00020;stroke-dasharray:20 20}
.t5{stroke:#00808a;stroke-dasharray:15 25}
.t6{stroke:#7a6a00;stroke-dasharray:10 30}
.t7{stroke:#c2408f;stroke-dasharray:5 35}
.thin{stroke-width:1.4}
.failed{fill:none;stroke:#b00020;stroke-width:2}
.release{stroke:#1b7837}
.due{stroke:#b00020}
@media screen and (prefers-color-scheme:dark){
svg{background:#16181d}
.back{fill:#16181d}
text{fill:#ddd}
.n{fill:#aaa}
.p{fill:#222}
.w{fill:#fff}
.late{fill:#ff8a96}
.lane{fill:#20242b}
.tick{stroke:#3a3f48}
.busy_interval{fill:#a35a00}
.write{fill:#2f8fd8}
.end{fill:#fff}
.spare{stroke:#777}
.t0{stroke:#5db0f0}
.t1{stroke:#f0b050}
.t2{stroke:#6bd08a}
.t3{stroke:#c99adb}
.t4,.failed{stroke:#ff8a96}
.t5{stroke:#4fd0d8}
.t6{stroke:#d8c860}
.t7{stroke:#f090c8}
.release{stroke:#6bd08a}
.due{stroke:#ff8a96}
}
</style>
<defs>
<path id=\"release\" d=\"M0,17V2M-3,6L0,1L3,6\" fill=\"none\" stroke-width=\"1.5\"/>
<path id=\"due\" d=\"M0,1V16M-3,12L0,17L3,12\" fill=\"none\" stroke-width=\"1.5\"/>
<path id=\"waiver\" d=\"M0,3L5,9L0,15L-5,9Z\" fill=\"#fff\" stroke=\"#222\" stroke-width=\"1.5\"/>
</defs>";

/// Adds the styles and the marks, and a background: not each program that shows pictures has one of its own.
pub fn put_styles(text: &mut Vec<u8>) -> io::Result<()> {
    writeln!(text, "{STYLES}")?;
    writeln!(
        text,
        "<rect class=\"back\" width=\"100%\" height=\"100%\"/>"
    )
}

/// Adds what the picture is of, and the counts of the whole run.
pub fn put_head(text: &mut Vec<u8>, scene: &Scene<'_>) -> io::Result<()> {
    write!(text, "<title>")?;
    put_title(text, scene)?;
    writeln!(text, "</title>")?;
    write!(text, "<text class=\"h\" x=\"10\" y=\"24\">")?;
    put_title(text, scene)?;
    writeln!(text, "</text>")?;
    write!(text, "<text x=\"10\" y=\"44\">")?;
    put_counts(text, scene)?;
    writeln!(
        text,
        " A number in a cell is its page, in an erase its block.</text>"
    )?;
    write!(text, "<text x=\"10\" y=\"62\">")?;
    put_worst_of(text, scene)?;
    writeln!(text, "</text>")
}

/// Adds an item of the legend whose sample is a mark.
fn put_mark(text: &mut Vec<u8>, x: u64, mark: &str, name: &str) -> io::Result<()> {
    let after = x.saturating_add(10);
    writeln!(
        text,
        "<use class=\"{mark}\" href=\"#{mark}\" x=\"{x}\" y=\"74\"/><text x=\"{after}\" y=\"87\">{name}</text>"
    )
}

/// Adds an item of the legend whose sample is a cell.
fn put_sample(text: &mut Vec<u8>, x: u64, class: &str, name: &str) -> io::Result<()> {
    let after = x.saturating_add(18);
    writeln!(
        text,
        "<rect class=\"{class}\" x=\"{x}\" y=\"77\" width=\"13\" height=\"12\"/><text x=\"{after}\" y=\"87\">{name}</text>"
    )
}

/// Adds what the colours of the cells mean, and answers how far the legend goes.
fn put_kinds(text: &mut Vec<u8>) -> io::Result<u64> {
    let mut x: u64 = 10;
    for kind in KINDS {
        let name = name_of(kind);
        put_sample(text, x, class_of(kind), name)?;
        x = x
            .saturating_add(36)
            .saturating_add((name.len() as u64).saturating_mul(6));
    }
    Ok(x)
}

/// Adds what the colours and the marks mean.
pub fn put_legend(text: &mut Vec<u8>) -> io::Result<()> {
    let kinds = put_kinds(text)?;
    put_sample(text, kinds, "busy_interval", "busy interval of the worst")?;
    writeln!(
        text,
        "<path class=\"gap\" d=\"M684,83h16\"/><text x=\"706\" y=\"87\">suspended erase</text>"
    )?;
    put_mark(text, 822, "release", "release")?;
    put_mark(text, 896, "due", "due")?;
    put_mark(text, 950, "waiver", "waived")?;
    writeln!(
        text,
        "<path class=\"wait\" d=\"M1018,83h14\"/><text x=\"1038\" y=\"87\">waits</text>"
    )?;
    put_sample(text, 1088, "end", "done")
}

/// Adds an item of the legend whose sample is the curve of a series.
fn put_curve(text: &mut Vec<u8>, x: u64, series: usize) -> io::Result<()> {
    let after = x.saturating_add(27);
    write!(text, "<path class=\"")?;
    put_class(text, series)?;
    write!(text, "\" d=\"M{x},103h23\"/><text x=\"{after}\" y=\"107\">")?;
    match series.checked_sub(1) {
        Some(task) => write!(text, "{task}")?,
        None => write!(text, "spare pages")?,
    }
    writeln!(text, "</text>")
}

/// Adds what the window's `series` curves are.
pub fn put_curves(text: &mut Vec<u8>, series: usize) -> io::Result<()> {
    if series == 0 {
        return Ok(());
    }
    put_curve(text, 10, 0)?;
    writeln!(text, "<text x=\"119\" y=\"107\">tokens of task</text>")?;
    let mut x: u64 = 203;
    for task in 1..series {
        put_curve(text, x, task)?;
        x = x.saturating_add(55);
    }
    Ok(())
}
