//! What comes after the number in the line marks of each file.
ghost use Rattle.std.specs.Prelude.{◌≡◌, ◌++◌, map, IfOk, OnOk};
ghost use Rattle.tangle_expansion.specs.Numbers.{escaped_byte, mark_end};

use std::alloc::Global;
use tangle_lines::{NoMemory, Origin};
use tangle_scan::Web;

/// Adds a byte of a file name, with a backslash before a backslash and before a double quote.
fn push_escaped(bytes: &mut Vec<u8>, byte: u8) -> Result<(), NoMemory>
    ensures { OnOk result (bytes.new.items ≡ bytes.old.items ++ escaped_byte byte) }
{
    if byte == b'\\' || byte == b'"' {
        bytes.push(b'\\')?;
    }
    bytes.push(byte)?;
    Ok(())
}

/// What comes after the number in the line marks of a file: its name in quotes, with backslashes
/// and double quotes escaped, and the line feed.
fn mark_end(alloc: Global, name: &[u8]) -> Result<Vec<u8>, NoMemory>
    ensures { IfOk result (λ bytes. bytes.items ≡ mark_end name.now) }
{
    let mut bytes = Vec::with_capacity(alloc, name.len().saturating_add(4))?;
    bytes.extend_from_slice(b" \"")?;
    for byte in name {
        push_escaped(&mut bytes, *byte)?;
    }
    bytes.extend_from_slice(b"\"\n")?;
    Ok(bytes)
}

/// What comes after the number in the line marks of each file of the web.
pub(crate) fn mark_ends(alloc: Global, web: &Web) -> Result<Vec<Vec<u8>>, NoMemory>
    ensures { IfOk result
        (λ ends. map (λ e. e.items) ends.items ≡ map mark_end web.now.file_names) }
{
    let mut ends = Vec::new(alloc);
    for number in 0..web.file_count() {
        let origin = Origin {
            file: number as u16,
            line: 0,
        };
        ends.push(mark_end(alloc, web.file_name(origin))?)?;
    }
    Ok(ends)
}
