//! Writing an expansion.
ghost use Rattle.std.specs.Prelude.{◌≡◌, ◌+◌, ◌^◌, ◌<◌, ◌≤◌, ◌++◌, ℕ, List, codes, decimal, length};
ghost use Rattle.tangle_streams.specs.Streams.{IsWritten, IsWrittenAfter};
ghost use Rattle.tangle_expansion.specs.Expanded.{symbols_of};
ghost use Rattle.tangle_expansion.specs.Limits.{heaviest};
ghost use Rattle.tangle_bodies.specs.Flat.{Symbol};
ghost use Rattle.tangle_bodies.specs.Flat.{own_symbols};
ghost use Rattle.tangle_bodies.specs.Nodes.{IsNodeOf, title_at};
ghost use Rattle.tangle_bodies.specs.Shapes.{Title};
ghost use Rattle.tangle_expansion.specs.Numbers.{expansion_bytes, mark_bytes_at, node_numbers, titles_used};
ghost use Rattle.tangle_expansion.specs.SymbolLimits.{SymbolsAreShort};
ghost use Rattle.tangle_expansion.specs.Writing.{Wrote, bytes_between, bytes_from, from_use};

use crate::cursor::{Cursor, first_cursor};
use crate::expansion::{Expansion, SharedExpansion};
use crate::node_numbers::NodeNumbers;
use crate::numbers::Numbers;
use crate::passing::{after_bytes, cursor_after};
use digraph::Node;
use itoa::Buffer;
use tangle_bodies::{ItemKind, NodeItems};
use tangle_lines::{MarkMode, Origin, Sink, WriteFault, write_after};

/// How many bytes the sink took so far, or a fault, after which nothing is written.
pub(crate) type Written = Result<u128, WriteFault>;

/// What the text of a node is written from: its items, the numbers of its web, and among those the
/// numbers of its own pieces.
#[derive(Drop)]
struct NodeParts<'n> {
    numbers: &'n Numbers,
    items: &'n NodeItems,
    pieces: NodeNumbers<'n>,
}

/// Writes these bytes and a number, unless `so_far` is an error.
#[inline(always)]
fn write_number<S: Sink>(before: &[u8], number: usize, sink: &mut S, so_far: Written) -> Written
    ensures { IsWrittenAfter (S.stream sink.old) (S.stream sink.new)
        so_far (before.now ++ decimal number) result }
{
    let mut digits = Buffer::new();
    let opened = write_after(sink, so_far, before);
    write_after(sink, opened, digits.format(number).as_bytes())
}

/// Writes a line mark after other bytes: in full, or as a line feed. `full` and `bare` are these
/// bytes with the beginning of such a mark, so that both are one write.
#[inline(always)]
fn write_mark<S: Sink>(
    numbers: &Numbers,
    origin: Origin,
    full: &[u8],
    bare: &[u8],
    sink: &mut S,
    so_far: Written,
) -> Written
    ensures { (before : List ℕ) → full.now ≡ before ++ codes "\n#line "
        → bare.now ≡ before ++ codes "\n" → IsWrittenAfter (S.stream sink.old) (S.stream sink.new)
        so_far (before ++ mark_bytes_at numbers.now origin) result }
{
    match numbers.marks() {
        MarkMode::Full => {
            let opened = write_number(full, origin.line as usize, sink, so_far);
            write_after(sink, opened, numbers.mark_end(origin))
        }
        MarkMode::Bare => write_after(sink, so_far, bare),
    }
}

/// The bytes from `start` up to `end`, or up to the last one if `end` is beyond it.
fn bytes_between(bytes: &[u8], start: usize, end: usize) -> &[u8]
    ensures { result.now ≡ bytes_between bytes.now start end }
{
    let end = if end < bytes.len() { end } else { bytes.len() };
    if start < end { &bytes[start..end] } else { &[] }
}

/// Writes the symbols of a tag of this kind, besides its bytes and those of a used name.
fn write_symbols<S: Sink>(
    text: &NodeParts,
    at: Cursor,
    kind: ItemKind,
    sink: &mut S,
    so_far: Written,
) -> Written
    requires { at.tag + 1 < 2 ^ 64 }
    ensures { (title : Title) → text.now.pieces ≡ node_numbers text.now.numbers.now title
        → IsWrittenAfter (S.stream sink.old) (S.stream sink.new) so_far
        (expansion_bytes text.now.numbers.now (own_symbols title at.piece at.marks kind)) result }
{
    match kind {
        ItemKind::PieceStart => {
            let opened = write_number(b"/*", text.pieces.section(at.piece), sink, so_far);
            let first = text.pieces.mark_origin(at.piece, 0);
            write_mark(text.numbers, first, b":*/\n#line ", b":*/\n", sink, opened)
        }
        ItemKind::Mark => {
            let origin = text.pieces.mark_origin(at.piece, at.marks + 1);
            write_mark(text.numbers, origin, b"\n#line ", b"\n", sink, so_far)
        }
        ItemKind::AllMacros => {
            let opened = write_after(sink, so_far, b"\n");
            write_after(sink, opened, text.numbers.macros())
        }
        ItemKind::Use | ItemKind::NoUse => write_after(sink, so_far, b" "),
        ItemKind::PieceEnd => {
            let closed = write_number(b"/*:", text.pieces.section(at.piece), sink, so_far);
            write_after(sink, closed, b"*/")
        }
        _ => so_far,
    }
}

/// Writes the text up to the next use, or to the end. Returns the cursor after the use.
fn write_to_use<S: Sink>(
    text: &NodeParts,
    from: Cursor,
    sink: &mut S,
    so_far: Written,
) -> (Cursor, Written)
    ensures { (title : Title) (used : List (List Symbol))
        → text.now.pieces ≡ node_numbers text.now.numbers.now title
        → Wrote (S.stream sink.old) (S.stream sink.new) so_far result.1
        (from_use text.now.numbers.now
        (bytes_from title text.now.items.now result.0 text.now.numbers.now) used)
        (bytes_from title text.now.items.now from text.now.numbers.now used) }
{
    let items = text.items;
    let mut at = from;
    let mut end = after_bytes(items, at);
    let mut so_far = so_far;
    while end.tag < items.tags.len() {
        let tag = items.tags[end.tag];
        let next = cursor_after(end, tag);
        let bytes = bytes_between(&items.bytes, at.start, next.start);
        so_far = write_after(sink, so_far, bytes);
        if let ItemKind::Use = tag.kind {
            return (next, so_far);
        }
        so_far = write_symbols(text, end, tag.kind, sink, so_far);
        at = next;
        end = after_bytes(items, at);
    }
    let rest = bytes_between(&items.bytes, at.start, end.start);
    (end, write_after(sink, so_far, rest))
}

impl Expansion {
    /// Writes the text of the expansion, which is that of this node, unless `so_far` is an error.
    /// Returns the number of bytes written in all, with those of `so_far`.
    ///
    /// # Errors
    ///
    /// `so_far` if it is an error, else `WriteFault(n)` where the sink failed, or took no byte,
    /// after `n` bytes in all.
    pub fn write_text_after<S: Sink>(
        &self,
        node: Node,
        numbers: &Numbers,
        sink: &mut S,
        so_far: Written,
    ) -> Written
        requires { IsNodeOf numbers.now.names node }
        ensures writes { IsWrittenAfter (S.stream sink.old) (S.stream sink.new) so_far
            (expansion_bytes numbers.now (symbols_of (titles_used numbers.now)
            (title_at numbers.now.names node) self.now)) result }
        ensures short { SymbolsAreShort numbers.now }
    {
        let shared: &SharedExpansion = &self.shared;
        let items: &NodeItems = &shared.items;
        let text = NodeParts {
            numbers,
            items,
            pieces: numbers.of_node(node),
        };
        let uses = numbers.uses(node);
        let mut at = first_cursor();
        let mut so_far = so_far;
        // A right expansion shares one entry for each use.
        for i in 0..uses.len().min(shared.used.len()) {
            let (next, before) = write_to_use(&text, at, sink, so_far);
            so_far = write_after(sink, before, b" ");
            if let Some(used) = &shared.used[i] {
                so_far = used.write_text_after(uses[i], numbers, sink, so_far);
            }
            at = next;
        }
        let (_, all) = write_to_use(&text, at, sink, so_far);
        all
    }
}

/// Writes the text of an expansion, which is that of this node. Returns its length in bytes.
///
/// # Errors
///
/// `WriteFault(n)` where the sink failed, or took no byte, after the first `n` bytes of the text.
pub fn write_text<S: Sink>(
    expansion: &Expansion,
    node: Node,
    numbers: &Numbers,
    sink: &mut S,
) -> Written
    requires inside { IsNodeOf numbers.now.names node }
    requires light { length (symbols_of (titles_used numbers.now)
        (title_at numbers.now.names node) expansion.now) ≤ heaviest }
    ensures { IsWritten (S.stream sink.old) (S.stream sink.new)
        (expansion_bytes numbers.now (symbols_of (titles_used numbers.now)
        (title_at numbers.now.names node) expansion.now)) result }
{
    expansion.write_text_after(node, numbers, sink, Ok(0))
}
