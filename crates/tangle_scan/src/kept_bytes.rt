//! A law of webs: no byte of a C part is lost, and texts stand in the order of the source.
ghost use Rattle.tangle_lines.specs.Reading.{SourceRead};
ghost use Rattle.tangle_scan.specs.KeptBytes.{KeepsEachByte};
ghost use Rattle.tangle_scan.specs.Web.{web_of};

/// In the web of each source, each byte of a C part is in exactly one span of the pieces, except
/// white space, comments, control texts, control codes, section names, ASCII constants and the
/// second `@` of each `@@`. No other byte of the source is in one. A control text and a section
/// name reach to their `@>` at most, a comment to its end, and a constant to its apostrophe.
///
/// The spans of all pieces, one after another, are in the order of the source: each begins where the
/// one before ends, or after. So are those of all macros. Between a piece and a macro no order is
/// said, since a macro may stand before or after any piece.
pub fn no_byte_is_lost()
    ensures { (source : SourceRead) → KeepsEachByte source (web_of source) }
{}
