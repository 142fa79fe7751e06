//! White space of C text that ends on its line and without a fault, as a head may have it.
#![tactic(auto, using(crate::proofs::lemmas::WhiteLemmas::white_steps))]

ghost use Rattle.std.specs.Prelude.{◌≡◌, drop, true, IsSome};
ghost use Rattle.tangle_text.specs.Text.{byte_at};
ghost use Rattle.tangle_text.specs.Regions.{region_end};
ghost use Rattle.tangle_lexer.specs.Comments.{ends_on_line};
ghost use Rattle.tangle_lexer.specs.White.{is_white_alone, lexeme_but_name, white_end};
ghost use Rattle.tangle_lexer.specs.declared.lexeme_kinds.LexemeKind.TheVariants as lexeme_kinds;

use crate::comments::{pass_end, starts_section};
use crate::lexeme_kinds::{ControlCode, LexemeKind, kind_by};
use crate::modes::IncludeState;
use tangle_text::{Reader, Region, Unit, unit_of};

/// Advances past a region and its end, if it ends on its first line. Returns whether it does; if
/// not, the position is somewhere in the region.
fn passes_region(reader: &mut Reader, region: Region) -> bool
    ensures ends { result ≡ ends_on_line region reader.old }
    ensures ahead { result ≡ true → reader.new ≡ drop 2 (region_end region reader.old) }
{
    while let Some(front) = reader.front() {
        let unit = unit_of(region, front.byte, front.next);
        if let Unit::Stop = unit {
            return pass_end(region, reader);
        }
        if front.byte.is_none() {
            return false;
        }
        reader.pass(unit);
    }
    false
}

/// Advances past a lexeme of this kind, if it is white space alone. Returns whether it is; if not,
/// the position is somewhere in the lexeme.
fn passes_white(reader: &mut Reader, lexeme_kind: LexemeKind) -> bool
    requires byte { (lexeme_kind ≡ lexeme_kinds.LineEnd → ⊥) → IsSome (byte_at 0 reader.old) }
    ensures white { result ≡ is_white_alone (lexeme_but_name lexeme_kind reader.old).tokens }
    ensures ahead { result ≡ true
        → reader.new ≡ drop (lexeme_but_name lexeme_kind reader.old).more (drop 1 reader.old) }
{
    match lexeme_kind {
        LexemeKind::White => {
            reader.skip_white();
            true
        }
        LexemeKind::BlockComment => {
            reader.pass(Unit::Two);
            passes_region(reader, Region::BlockComment)
        }
        LexemeKind::LineComment => {
            reader.pass(Unit::Two);
            reader.skip_to_end(Region::LineComment);
            !starts_section(reader)
        }
        LexemeKind::Control(code) => {
            reader.pass(Unit::Two);
            match code {
                ControlCode::ControlText => passes_region(reader, Region::ControlText),
                ControlCode::Other => true,
                _ => false,
            }
        }
        _ => false,
    }
}

/// Advances over the white space at the position, up to the first lexeme that is not white space
/// alone.
pub fn skip_white(reader: &mut Reader)
    ensures { reader.new ≡ white_end reader.old }
{
    while let Some(front) = reader.front() {
        let lexeme_kind = kind_by(IncludeState::Elsewhere, front.byte, front.next);
        let mut further = reader.copy();
        if !passes_white(&mut further, lexeme_kind) {
            return;
        }
        *reader = further;
    }
}
