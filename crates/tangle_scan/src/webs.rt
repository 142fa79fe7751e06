//! The scanned web.
ghost use Rattle.std.specs.Prelude.{◌≡◌, ◌≤◌, ◌<◌, [], flat_map, get_or, length, map, slice_index_or};
ghost use Rattle.std.specs.List.{All};
ghost use Rattle.tangle_files.specs.Adding.{most_files};
ghost use Rattle.tangle_lexer.specs.Steps.{all_tokens};
ghost use Rattle.tangle_scan.specs.MacroBytes.{macro_bytes};
ghost use Rattle.tangle_scan.specs.Texts.{IsTextOf, text_of};
ghost use Rattle.tangle_scan.specs.Web.{no_piece, stored_piece, web_of};
ghost use Rattle.tangle_scan.specs.WebBuilder.{IsGathered};
ghost use Rattle.tangle_scan.specs.WellFormed.{IsWellFormed};

use crate::pieces::Piece;
use crate::texts::PieceText;
use crate::web_builder::WebBuilder;
use std::marker::Model;
use tangle_lexer::Occurrence;
use tangle_lines::{Fault, Origin, Source};

/// A scanned web. It borrows the source, for the names of the files. Every web is well formed: the
/// numbers of occurrences in its uses and pieces are below the count of its occurrences.
#[derive(Drop)]
pub struct Web<'s, 'a> {
    source: &'s Source<'a>,
    builder: WebBuilder,
    occurrences: Vec<Occurrence>,
}

impl<'s, 'a> Model for Web<'s, 'a> {
    ghost use Rattle.tangle_lexer.specs.Steps.{all_tokens};
    ghost use Rattle.tangle_scan.specs.Web.{WebRead, web_of};
    ghost use Rattle.tangle_scan.specs.WebBuilder.{IsGathered};
    ghost use Rattle.tangle_scan.specs.WellFormed.{IsWellFormed};
    ghost use Rattle.std.specs.Prelude.{◌≡◌};

    ghost Value = { WebRead };

    ghost view = { λ w. web_of w.source.now };

    ghost invariant = { λ w. record {
      gathered : IsGathered w.source.now (all_tokens w.source.now.lines) w.builder;
      occurrences : w.occurrences.items ≡ (web_of w.source.now).occurrences;
      well_formed : IsWellFormed (web_of w.source.now);
    } };
}

impl<'s, 'a> Web<'s, 'a> {
    /// The web of a source, from what was gathered of the source and from its occurrences.
    pub(crate) fn new(
        source: &'s Source<'a>,
        builder: WebBuilder,
        occurrences: Vec<Occurrence>,
    ) -> Self
        requires gathered { IsGathered source.now (all_tokens source.now.lines) builder }
        requires occurrences { occurrences.items ≡ (web_of source.now).occurrences }
        requires well_formed { IsWellFormed (web_of source.now) }
        ensures { result ≡ web_of source.now }
    {
        Web {
            source,
            builder,
            occurrences,
        }
    }

    /// The number of sections of the web.
    pub fn section_count(&self) -> usize
        ensures { result ≡ self.now.sections }
    {
        self.builder.sections
    }

    /// The pieces, in the order of the source. A use in a piece has the number of an occurrence,
    /// which is its position in `occurrences`.
    pub fn pieces(&self) -> &[Piece]
        ensures pieces { result.now ≡ map stored_piece self.now.pieces }
        ensures well_formed { IsWellFormed self.now }
    {
        self.builder.pieces.as_slice()
    }

    /// The text of the piece with this number, from 0; an empty text if there is none.
    pub fn piece_text(&self, number: usize) -> PieceText<'_>
        ensures text { IsTextOf self.now.texts (slice_index_or self.now.pieces number no_piece).items
            (text_of result) }
        ensures uses { All (λ n. n < length self.now.occurrences) (text_of result).uses }
    {
        self.builder.texts.at(number)
    }

    /// The bytes of all macros, in the order of the source, without those macros that are dropped
    /// since they do not begin with an identifier. Each `@h` of the web is replaced by these bytes.
    pub fn macro_bytes(&self) -> &[u8]
        ensures { result.now ≡ flat_map (macro_bytes self.now.texts) self.now.macros }
    {
        self.builder.macros.as_slice()
    }

    /// The occurrences of section names, in the order of the source.
    pub fn occurrences(&self) -> &[Occurrence]
        ensures occurrences { result.now ≡ self.now.occurrences }
        ensures well_formed { IsWellFormed self.now }
    {
        self.occurrences.as_slice()
    }

    /// Whether some C part has `@h`.
    pub fn has_all_macros(&self) -> bool
        ensures { result ≡ self.now.has_all_macros }
    {
        self.builder.has_all_macros
    }

    /// The faults of scanning, in the order of the text.
    pub fn faults(&self) -> &[Fault]
        ensures { result.now ≡ self.now.faults }
    {
        self.builder.faults.as_slice()
    }

    /// Consumes the web and returns its occurrences and its faults.
    pub fn into_occurrences_and_faults(self) -> (Vec<Occurrence>, Vec<Fault>)
        ensures occurrences { result.0.items ≡ self.entry.occurrences }
        ensures faults { result.1.items ≡ self.entry.faults }
    {
        let builder = self.builder;
        (self.occurrences, builder.faults)
    }

    /// The number of files of the source, at most 256. The file of each origin has a lower number.
    pub fn file_count(&self) -> usize
        ensures count { result ≡ length self.now.file_names }
        ensures limit { result ≤ most_files }
    {
        self.source.file_count()
    }

    /// The name of the file of an origin of this web; no bytes if the web has no such file.
    pub fn file_name(&self, origin: Origin) -> &[u8]
        ensures { result.now ≡ get_or self.now.file_names origin.file [] }
    {
        self.source.file_name(origin)
    }
}
