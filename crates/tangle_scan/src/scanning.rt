//! The scanner's run over a source.
ghost use Rattle.std.specs.Prelude.{◌≡◌, map, IfOk};
ghost use Rattle.tangle_lexer.specs.Steps.{all_tokens, all_occurrences};
ghost use Rattle.tangle_scan.specs.Web.{web_of};
ghost use Rattle.tangle_lexer.specs.Occurrences.{occurrence_of};
ghost use Rattle.tangle_scan.specs.LineTruth.{PiecesAreAtTheirLines};
ghost use Rattle.tangle_scan.specs.ReadAsMeant.{ItemsAreReadAsMeant};
ghost use Rattle.tangle_scan.specs.WellFormed.{IsWellFormed};
ghost use Rattle.tangle_scan.specs.WebBuilder.{IsGathered};

use crate::web_builder::WebBuilder;
use crate::webs::Web;
use std::alloc::Global;
use tangle_lexer::{LexerBuffers, Occurrence, first_state, next_block};
use tangle_lines::{NoMemory, Source};
use tangle_text::Reader;

/// Gathers the pieces, macros and faults of a source, and the occurrences of its names.
fn gather(alloc: Global, source: &Source) -> Result<(WebBuilder, Vec<Occurrence>), NoMemory>
    ensures builder { IfOk result
        (λ r. IsGathered source.now (all_tokens source.now.lines) r.0) }
    ensures occurrences { IfOk result
        (λ r. r.1.items ≡ map (occurrence_of source.now.lines) (all_occurrences source.now.lines)) }
{
    let mut builder = WebBuilder::new(alloc);
    let mut buffers = LexerBuffers {
        tokens: Vec::new(alloc),
        occurrences: Vec::new(alloc),
    };
    // The count of sections cannot overflow: each has a byte of the text, which is short.
    let mut reader = Reader::new(source);
    let first = first_state(source);
    let (mut state, mut next_head) = next_block(source, &mut buffers, &mut reader, first)?;
    builder.add_front(alloc, source, &buffers.tokens)?;
    // One block of tokens is held at a time, in buffers that each block uses again.
    while let Some(head) = next_head {
        (state, next_head) = next_block(source, &mut buffers, &mut reader, state)?;
        builder.add_block(alloc, source, head, &buffers.tokens)?;
    }
    Ok((builder, buffers.occurrences))
}

/// Scans the lines of a source: finds its sections, C parts, macros and section names, by the rules
/// of `docs/scanning.md`. No source is refused: what breaks a rule is a fault of the web.
///
/// The web borrows the source, and has copies of what its pieces and macros write.
///
/// A C compiler that counts by the marks and line ends of a piece counts for each text the line
/// that the text is on, except in stretches. A stretch begins at a line end inside a quoted text or
/// inside a comment or a control text of a directive, where a join removed line ends, and at the end
/// of a continued line if the count does not expect the next source line. It ends at the next mark,
/// or at the next other line end.
///
/// A C compiler, which joins lines that end in a backslash, reads together the items that stand
/// together in the source, and apart those that it keeps apart.
///
/// # Errors
///
/// `NoMemory`, if an allocation failed.
pub fn scan<'s, 'a>(alloc: Global, source: &'s Source<'a>) -> Result<Web<'s, 'a>, NoMemory>
    ensures web { IfOk result (λ web. web ≡ web_of source.now) }
    ensures well_formed { IfOk result (λ web. IsWellFormed web) }
    ensures line_truth { IfOk result (λ web. PiecesAreAtTheirLines source.now web) }
    ensures as_meant { IfOk result (λ web. ItemsAreReadAsMeant source.now web) }
{
    let (builder, occurrences) = gather(alloc, source)?;
    Ok(Web::new(source, builder, occurrences))
}
