//! How a page begins and ends.

use crate::facts::put;
use crate::numbers::Count;
use std::io;
use std::io::Write;

/// What is before the title.
const BEGIN: &str = "<!DOCTYPE html>
<html lang=\"en\" xmlns=\"http://www.w3.org/1999/xhtml\">
<head>
<meta charset=\"utf-8\"/>
<meta name=\"viewport\" content=\"width=device-width, initial-scale=1\"/>
";

/// The styles: dark on light, and the other way on a screen that is dark; on paper black on white, on A4.
const STYLES: &str = "<style>
:root{color-scheme:light dark;--back:#fff;--ink:#222;--soft:#555;--line:#d8d8d8;--field:#f5f5f5;--good:#1b7837}
body{margin:0;background:var(--back);color:var(--ink);font:15px/1.5 sans-serif}
main{max-width:1100px;margin:0 auto;padding:24px 20px 48px}
h1{font-size:26px;line-height:1.25;margin:0 0 12px}
h2{font-size:19px;margin:36px 0 8px;padding-top:8px;border-top:1px solid var(--line)}
p{margin:8px 0;max-width:76ch}
.verdict{border-left:5px solid var(--good);padding:4px 0 4px 14px;font-size:17px}
.note{color:var(--soft)}
.table{overflow-x:auto}
table{border-collapse:collapse;margin:10px 0;font-variant-numeric:tabular-nums}
th,td{padding:4px 14px 4px 0;text-align:left;vertical-align:top;border-bottom:1px solid var(--line)}
thead th{font-weight:normal;color:var(--soft);vertical-align:bottom}
tbody th{font-weight:normal;white-space:nowrap}
.wide td{text-align:right}
.wide thead th{text-align:right}
.wide thead th:first-child{text-align:left}
.asks td:nth-child(2),.asks th:nth-child(2){text-align:left}
.wide td{white-space:nowrap}
.asks td:nth-child(2){white-space:normal}
pre{background:var(--field);padding:12px 14px;overflow-x:auto;font-size:13px;line-height:1.4}
figure{margin:14px 0;overflow-x:auto}
figure svg{max-width:100%;height:auto;display:block}
figcaption{color:var(--soft);max-width:76ch;margin-top:6px}
code{font-size:.92em}
summary{cursor:pointer}
";

/// The styles of dark screens and of paper.
const MEDIA: &str = "@media screen and (prefers-color-scheme:dark){
:root{--back:#16181d;--ink:#ddd;--soft:#aaa;--line:#3a3f48;--field:#20242b;--good:#6bd08a}
}
@page{size:A4;margin:14mm}
@media print{
:root{color-scheme:light}
body{font-size:10pt}
main{max-width:none;padding:0}
h1{font-size:16pt}
h2{font-size:12.5pt;margin-top:18pt;break-after:avoid}
pre{font-size:8pt;white-space:pre-wrap}
table{font-size:8pt}
.wide td{white-space:normal}
th,td{padding:2pt 6pt 2pt 0}
figcaption{font-size:9pt}
tr,figure{break-inside:avoid}
.verdict{font-size:11pt}
details{display:none}
}
</style>
</head>
<body>
<main>
";

/// What a page ends with.
const END: &str = "</main>
</body>
</html>
";

/// Adds the title.
fn put_title(text: &mut Vec<u8>, tasks: Count, blocks: Count, pages: Count) -> io::Result<()> {
    put(text, "<title>Design: ")?;
    write!(text, "{tasks} tasks on {blocks} blocks of {pages} pages")?;
    put(text, "</title>\n")
}

/// Adds all that is before the first heading: a page of `tasks` tasks, `blocks` blocks, and `pages` pages of a block.
pub(crate) fn put_begin(text: &mut Vec<u8>, tasks: u64, blocks: u32, pages: u32) -> io::Result<()> {
    put(text, BEGIN)?;
    put_title(
        text,
        Count(tasks),
        Count(u64::from(blocks)),
        Count(u64::from(pages)),
    )?;
    put(text, STYLES)?;
    put(text, MEDIA)
}

/// Adds the end of a page.
pub(crate) fn put_end(text: &mut Vec<u8>) -> io::Result<()> {
    put(text, END)
}
