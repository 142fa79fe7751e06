//! The output files.
ghost use Rattle.std.specs.List.{All};
ghost use Rattle.tangle_expansion.specs.Outputs.{IsReady};

use crate::graph::add_node;
use crate::listing::Listing;
use crate::text_lines::{LineFeeds, TextLines};
use tangle_expansion::{Kept, Numbers, Output, file_size, write_file};
use tangle_lines::{Discarding, Sink, WriteFault};

// The number of bytes that writing the file returns.
fn written_size(output: &Output, kept: &Kept, numbers: &Numbers) -> u128
    requires { IsReady numbers.now kept.now output.now }
{
    match write_file(output, kept, numbers, &mut Discarding) {
        Ok(size) | Err(WriteFault(size)) => size,
    }
}

fn list_output<S: Sink>(
    out: &mut Listing<S>,
    number: usize,
    output: &Output,
    kept: &Kept,
    numbers: &Numbers,
)
    requires { IsReady numbers.now kept.now output.now }
{
    out.begin(b"output");
    out.number(number);
    out.text(output.name());
    add_node(out, output.node());
    out.word_if(output.has_macros(), b"macros");
    out.word_if(output.has_piece(), b"piece");
    out.word(b"size");
    out.number(file_size(output, kept, numbers));
    out.word(b"written");
    out.number(written_size(output, kept, numbers));
    out.end();
    let mut lines = TextLines::new(out, LineFeeds::Shown);
    let _ = write_file(output, kept, numbers, &mut lines);
    lines.close();
}

/// Lists the output files, and what is written of each.
pub fn list_outputs<S: Sink>(
    out: &mut Listing<S>,
    outputs: &[Output],
    kept: &Kept,
    numbers: &Numbers,
)
    requires { All (IsReady numbers.now kept.now) outputs.now }
{
    for (number, output) in outputs.iter().enumerate() {
        list_output(out, number, output, kept, numbers);
    }
}
