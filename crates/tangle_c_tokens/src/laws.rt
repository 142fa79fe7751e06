//! The tokens that a C compiler reads of macros and files are those of their groups of items.
ghost use Rattle.tangle_files.specs.declared.marks.MarkMode.{MarkMode};
ghost use Rattle.tangle_lines.specs.Reading.{SourceRead};
ghost use Rattle.tangle_scan.specs.Web.{web_of};
ghost use Rattle.tangle_c_tokens.specs.Macros.{MacrosAreReadByGroups};
ghost use Rattle.tangle_c_tokens.specs.Files.{SourceHasNoLineFeed, NodesAreReadByParts};
ghost use Rattle.tangle_c_tokens.specs.Files.{FilesAreReadByParts};

/// Of each macro a C compiler reads `#define`, and then the tokens of its groups of items, one group
/// after another. No comment and no quoted text of it goes over the end of a line of C.
#[tactic(auto, using(crate::proofs::WebLemmas::macros_by_groups))]
pub fn macros_are_read_by_groups()
    ensures { (source : SourceRead) → MacrosAreReadByGroups source (web_of source) }
{}

/// Of what a node expands to a C compiler reads the tokens of its row, one text after another: of
/// its groups of items, of what is written for its uses, and of line marks (`names`). The premise
/// is that the groups of items of the pieces that the node reaches are whole. Then no comment and no
/// quoted text goes over the end of a line of C. The same of a file, which may begin with all macros
/// (`files`).
pub fn files_are_read_by_parts()
    ensures names { (source : SourceRead) (marks : MarkMode) → SourceHasNoLineFeed source
        → NodesAreReadByParts source marks }
    ensures files { (source : SourceRead) (marks : MarkMode) → SourceHasNoLineFeed source
        → FilesAreReadByParts source marks }
{}
