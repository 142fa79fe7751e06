//! Passes tags of a node that is being written.
ghost use Rattle.std.specs.Prelude.{◌≡◌, ◌≤◌, ◌+◌, ◌<◌, ◌^◌, ◌++◌, List};
ghost use Rattle.tangle_bodies.specs.Flat.{Symbol};
ghost use Rattle.tangle_bodies.specs.Shapes.{Title};
ghost use Rattle.tangle_expansion.specs.Numbers.{NumbersRead};
ghost use Rattle.tangle_expansion.specs.Writing.{IsAfterTag, bytes_between, bytes_from};

use crate::cursor::Cursor;
use tangle_bodies::{ItemKind, ItemTag, NodeItems, symbols_of_kind};

/// The cursor after the next tags that have no symbols besides their bytes.
pub(crate) fn after_bytes(items: &NodeItems, from: Cursor) -> Cursor
    ensures tag { from.tag ≤ result.tag }
    ensures start { from.start ≤ result.start }
    ensures text { (title : Title) (numbers : NumbersRead) (used : List (List Symbol))
        → bytes_from title items.now from numbers used
        ≡ bytes_between items.now.bytes.items from.start result.start
        ++ bytes_from title items.now result numbers used }
{
    let mut at = from;
    while at.tag < items.tags.len() {
        let tag = items.tags[at.tag];
        if symbols_of_kind(tag.kind) > 0 {
            return at;
        }
        at = cursor_after(at, tag);
    }
    at
}

/// The cursor after a tag.
pub(crate) fn cursor_after(at: Cursor, tag: ItemTag) -> Cursor
    requires { at.tag + 1 < 2 ^ 64 }
    ensures { IsAfterTag at tag result }
{
    let piece = match tag.kind {
        ItemKind::PieceEnd => at.piece + 1,
        _ => at.piece,
    };
    let marks = match tag.kind {
        ItemKind::PieceStart | ItemKind::PieceEnd => 0,
        ItemKind::Mark => at.marks + 1,
        _ => at.marks,
    };
    Cursor {
        tag: at.tag + 1,
        piece,
        marks,
        start: at.start.saturating_add(tag.size as usize),
    }
}
