//! The section numbers of the pieces of a web, and the origins of their marks.
ghost use Rattle.std.specs.Prelude.{◌≡◌, ◌<◌, ◌^◌, ◌++◌, ◌∷◌, [], IfOk, OnOk, length, map, slice_index_or};
ghost use Rattle.std.specs.List.{All};
ghost use Rattle.tangle_scan.specs.Web.{no_piece};
ghost use Rattle.tangle_expansion.specs.Numbers.{numbers_of_piece};
ghost use Rattle.tangle_expansion.specs.SymbolLimits.{IsLow};

use digraph::Rows;
use std::alloc::Global;
use tangle_lines::{NoMemory, Origin};
use tangle_scan::Web;

/// For each piece of a web its section number, and a row with the origins of its opening mark and
/// of the marks in it.
#[derive(Drop)]
pub(crate) struct PieceNumbers {
    pub(crate) sections: Vec<usize>,
    pub(crate) origins: Rows<Origin>,
    ghost sections_low: { All (λ s. s < 2 ^ 64) sections.items },
    ghost origins_low: { All (All IsLow) origins },
}

fn push_origin(origins: &mut Vec<Origin>, origin: Origin) -> Result<(), NoMemory>
    requires { All IsLow origins.old.items }
    ensures pushed { OnOk result (origins.new.items ≡ origins.old.items ++ origin ∷ []) }
    ensures low { OnOk result (All IsLow origins.new.items) }
{
    origins.push(origin)?;
    Ok(())
}

/// Replaces these origins by those of the piece with this number: of its opening mark, and of the
/// marks in it.
fn read_origins(origins: &mut Vec<Origin>, web: &Web, number: usize) -> Result<(), NoMemory>
    requires { number < length web.now.pieces }
    ensures read { OnOk result (origins.new.items
        ≡ (numbers_of_piece (slice_index_or web.now.pieces number no_piece)).origins) }
    ensures low { OnOk result (All IsLow origins.new.items) }
{
    let pieces = web.pieces();
    origins.clear();
    push_origin(origins, pieces[number].origin)?;
    for origin in web.piece_text(number).marks {
        push_origin(origins, *origin)?;
    }
    Ok(())
}

impl PieceNumbers {
    /// Reads the numbers of the pieces of a web.
    pub(crate) fn read(alloc: Global, web: &Web) -> Result<PieceNumbers, NoMemory>
        ensures sections { IfOk result
            (λ numbers. numbers.sections.items ≡ map (λ p. p.section) web.now.pieces) }
        ensures origins { IfOk result
            (λ numbers. numbers.origins ≡ map (λ p. (numbers_of_piece p).origins) web.now.pieces) }
    {
        let pieces = web.pieces();
        let mut sections = Vec::with_capacity(alloc, pieces.len())?;
        let mut origins = Rows::new(alloc);
        let mut row = Vec::new(alloc);
        for i in 0..pieces.len() {
            sections.push(pieces[i].section)?;
            read_origins(&mut row, web, i)?;
            origins.push_row(&row)?;
        }
        Ok(PieceNumbers { sections, origins })
    }
}
