//! Text that isn't a page's own.

ghost use Rattle.std.specs.Prelude.{◌≡◌, ◌++◌, OnOk};
ghost use Rattle.flashplan_design_pages.specs.Pages.{escape, escaped};

use std::io;
use std::io::Write;

/// Adds a byte of a text, as it stands in a page.
fn put_byte(text: &mut Vec<u8>, byte: u8) -> io::Result<()>
    ensures { OnOk result (text.new.items ≡ text.old.items ++ escape byte) }
{
    match byte {
        b'&' => text.write_all(b"&amp;"),
        b'<' => text.write_all(b"&lt;"),
        b'>' => text.write_all(b"&gt;"),
        b'"' => text.write_all(b"&quot;"),
        _ => {
            text.push(byte)?;
            Ok(())
        }
    }
}

/// Adds a text, as it stands in a page: none of its bytes is taken for a mark.
pub(crate) fn put_escaped(text: &mut Vec<u8>, other: &[u8]) -> io::Result<()>
    ensures { OnOk result (text.new.items ≡ text.old.items ++ escaped other.now) }
{
    for place in 0..other.len() {
        put_byte(text, other[place])?;
    }
    Ok(())
}
