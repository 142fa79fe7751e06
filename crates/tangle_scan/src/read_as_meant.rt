//! A law of webs: a C compiler reads the items of macros and pieces as the author means them.
ghost use Rattle.tangle_lines.specs.Reading.{SourceRead};
ghost use Rattle.tangle_scan.specs.ReadAsMeant.{ItemsAreReadAsMeant};
ghost use Rattle.tangle_scan.specs.Web.{web_of};

/// In the macros and pieces of the web of each source, a C compiler reads nothing between two items
/// that stand together. Between two that the source keeps apart, it reads white space alone, or
/// nothing if the two may touch and the first does not end the name of a macro. Each line end of a
/// C part is read as one, and none of a macro is: the compiler takes out each backslash with a line
/// feed after it. It reads the line feed that ends a macro. At the end of a piece it reads white
/// space where the closing mark would be read otherwise.
///
/// In a piece this holds whatever bytes are written for its uses, after a space, and for its line
/// marks and all macros, after a line feed. The law does not say how a compiler reads those bytes
/// themselves, and nothing of the first three places that `docs/DECISIONS.md` lists.
pub fn items_are_read_as_meant()
    ensures { (source : SourceRead) → ItemsAreReadAsMeant source (web_of source) }
{}
