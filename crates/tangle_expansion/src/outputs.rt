//! Output files, and how they are written.
ghost use Rattle.std.specs.Prelude.{◌≡◌, [], if◌then◌else◌, length, IsSome, Some};
ghost use Rattle.tangle_streams.specs.Streams.{IsWritten};
ghost use Rattle.tangle_expansion.specs.Kept.{kept_at};
ghost use Rattle.tangle_expansion.specs.Outputs.{IsReady, kept_output_bytes};

use crate::expansion::Expansion;
use crate::kept::Kept;
use crate::numbers::Numbers;
use crate::writing::Written;
use digraph::Node;
use std::marker::Model;
use tangle_lines::{Discarding, Sink, write_after};

/// An output file of a web: the expansion of a node. Where the file is the main file and no C part
/// has `@h`, all macros come before it.
// It has a copy of its name, since the main file's is no section name.
#[derive(Drop)]
pub struct Output {
    name: Vec<u8>,
    node: Node,
    has_macros: bool,
    has_piece: bool,
}

impl Model for Output {
    ghost use Rattle.tangle_expansion.specs.Outputs.{OutputRead};

    ghost Value = { OutputRead };

    ghost view = { λ o. record {
      name = o.name.items;
      node = o.node;
      has_macros = o.has_macros;
      has_piece = o.has_piece;
    } };
}

impl Output {
    /// An output file with this name, which is written from a node. The flags say whether all
    /// macros begin the file, and whether the node has a piece.
    pub fn new(name: Vec<u8>, node: Node, has_macros: bool, has_piece: bool) -> Output
        ensures { result ≡ record {
          name = name.items;
          node = node;
          has_macros = has_macros;
          has_piece = has_piece;
        } }
    {
        Output {
            name,
            node,
            has_macros,
            has_piece,
        }
    }

    /// The node from which the file is written.
    pub fn node(&self) -> Node
        ensures { result ≡ self.now.node }
    {
        self.node
    }

    /// The name of the file.
    pub fn name(&self) -> &[u8]
        ensures { result.now ≡ self.now.name }
    {
        self.name.as_slice()
    }

    /// Whether all macros begin the file.
    pub fn has_macros(&self) -> bool
        ensures { result ≡ self.now.has_macros }
    {
        self.has_macros
    }

    /// Whether the node has a piece; without one, the file has nothing but the macros.
    pub fn has_piece(&self) -> bool
        ensures { result ≡ self.now.has_piece }
    {
        self.has_piece
    }
}

/// The bytes that come before those of the node: the macros, or nothing.
fn front_of<'a>(output: &Output, macros: &'a [u8]) -> &'a [u8]
    ensures { result.now ≡ (if output.now.has_macros then macros.now else []) }
{
    if output.has_macros() { macros } else { &[] }
}

fn kept_expansion(kept: &Kept, node: Node) -> &Expansion
    requires { IsSome (kept_at kept.now node) }
    ensures { kept_at kept.now node ≡ Some result.now }
{
    kept.get(node).unwrap()
}

/// Writes an output file: the macros, if they begin it, and the expansion of its node and a line
/// feed, if the node has a piece. Returns the size of the file in bytes.
///
/// # Errors
///
/// `WriteFault(n)` where the sink failed, or took no byte, after the first `n` bytes of the file.
pub fn write_file<S: Sink>(output: &Output, kept: &Kept, numbers: &Numbers, sink: &mut S) -> Written
    requires { IsReady numbers.now kept.now output.now }
    ensures { IsWritten (S.stream sink.old) (S.stream sink.new)
        (kept_output_bytes numbers.now kept.now output.now) result }
{
    let begun = write_after(sink, Ok(0), front_of(output, numbers.macros()));
    if !output.has_piece() {
        return begun;
    }
    let node = output.node();
    let written = kept_expansion(kept, node).write_text_after(node, numbers, sink, begun);
    write_after(sink, written, b"\n")
}

/// The size of an output file in bytes. Nothing is allocated.
pub fn file_size(output: &Output, kept: &Kept, numbers: &Numbers) -> u128
    requires { IsReady numbers.now kept.now output.now }
    ensures { result ≡ length (kept_output_bytes numbers.now kept.now output.now) }
{
    write_file(output, kept, numbers, &mut Discarding).unwrap_or(0)
}
