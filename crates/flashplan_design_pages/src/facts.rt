//! The pieces of which a page's tables are made.

use std::fmt::Display;
use std::io;
use std::io::Write;

/// Adds a piece as it is.
pub(crate) fn put(text: &mut Vec<u8>, piece: &str) -> io::Result<()> {
    text.write_all(piece.as_bytes())
}

/// Adds a cell of a table.
pub(crate) fn put_cell<D: Display + Drop>(text: &mut Vec<u8>, value: D) -> io::Result<()> {
    writeln!(text, "<td>{value}</td>")
}

/// Adds the first cell of a row, which names it.
pub(crate) fn put_name<D: Display + Drop>(text: &mut Vec<u8>, name: D) -> io::Result<()> {
    writeln!(text, "<tr><th scope=\"row\">{name}</th>")
}

/// Adds a row of a name and a value.
pub(crate) fn put_fact<D: Display + Drop>(
    text: &mut Vec<u8>,
    name: &str,
    value: D,
) -> io::Result<()> {
    put_name(text, name)?;
    put_cell(text, value)?;
    put(text, "</tr>\n")
}

/// Adds a heading.
pub(crate) fn put_heading(text: &mut Vec<u8>, heading: &str) -> io::Result<()> {
    writeln!(text, "<h2>{heading}</h2>")
}

/// Adds the head of a table: what its columns have.
pub(crate) fn put_columns(text: &mut Vec<u8>, columns: &[&str]) -> io::Result<()> {
    put(text, "<table class=\"wide\">\n<thead><tr>")?;
    for column in columns {
        write!(text, "<th scope=\"col\">{column}</th>")?;
    }
    put(text, "</tr></thead>\n<tbody>\n")
}

/// Adds the end of such a table.
pub(crate) fn put_table_end(text: &mut Vec<u8>) -> io::Result<()> {
    put(text, "</tbody>\n</table>\n")
}
