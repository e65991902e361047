//! Pictures of other crates in a page. Each has styles of its own; here they hold of it alone.

use crate::facts::put;
use std::io::Write;
use std::{io, str};

/// Adds selectors, each under that of a figure.
fn put_selectors(text: &mut Vec<u8>, id: &str, selectors: &str) -> io::Result<()> {
    let mut is_first = true;
    for selector in selectors.split(',') {
        if !is_first {
            put(text, ",")?;
        }
        is_first = false;
        write!(text, "#{id} {selector}")?;
    }
    Ok(())
}

/// Adds a rule, whose selectors are under that of a figure.
fn put_rule(text: &mut Vec<u8>, id: &str, rule: &str) -> io::Result<()> {
    match rule.split_once('{') {
        Some((selectors, body)) => {
            put_selectors(text, id, selectors)?;
            put(text, "{")?;
            put(text, body)
        }
        None => put(text, rule),
    }
}

/// Adds a line of styles: a rule, the begin of a group of rules, which may have the first of them, or its end.
fn put_line(text: &mut Vec<u8>, id: &str, line: &str) -> io::Result<()> {
    match line.split_once('{') {
        Some((group, rules)) if line.starts_with('@') => {
            put(text, group)?;
            put(text, "{")?;
            put_rule(text, id, rules)?;
        }
        _ => put_rule(text, id, line)?,
    }
    put(text, "\n")
}

/// Adds styles, a line a rule.
fn put_styles(text: &mut Vec<u8>, id: &str, styles: &str) -> io::Result<()> {
    for line in styles.lines() {
        put_line(text, id, line)?;
    }
    Ok(())
}

/// Adds a picture whose styles hold of the figure of this name alone.
fn put_picture(text: &mut Vec<u8>, id: &str, picture: &str) -> io::Result<()> {
    let Some((front, rest)) = picture.split_once("<style>\n") else {
        return put(text, picture);
    };
    let Some((styles, back)) = rest.split_once("</style>") else {
        return put(text, picture);
    };
    put(text, front)?;
    put(text, "<style>\n")?;
    put_styles(text, id, styles)?;
    put(text, "</style>")?;
    put(text, back)
}

/// Adds a figure with a picture, which is a text of SVG, and what stands under it.
pub(crate) fn put_figure(
    text: &mut Vec<u8>,
    id: &str,
    picture: &[u8],
    caption: &str,
) -> io::Result<()> {
    writeln!(text, "<figure id=\"{id}\">")?;
    if let Ok(picture) = str::from_utf8(picture) {
        put_picture(text, id, picture)?;
    }
    writeln!(text, "<figcaption>{caption}</figcaption>")?;
    put(text, "</figure>\n")
}
