//! A law of webs: the items of pieces are at their lines.
ghost use Rattle.tangle_lines.specs.Reading.{SourceRead};
ghost use Rattle.tangle_scan.specs.LineTruth.{PiecesAreAtTheirLines};
ghost use Rattle.tangle_scan.specs.Web.{web_of};

/// In the web of each source, a C compiler that counts by the marks and line ends of a piece counts
/// for each word, sign, quoted text, verbatim text and ASCII constant the origin of its source
/// line, except for those in stretches.
pub fn pieces_are_at_their_lines()
    ensures { (source : SourceRead) → PiecesAreAtTheirLines source (web_of source) }
{}
