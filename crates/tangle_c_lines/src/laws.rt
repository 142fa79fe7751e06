//! The law of lines.
ghost use Rattle.tangle_files.specs.Adding.{IsWithinLimits};
ghost use Rattle.tangle_files.specs.Lines.{FileTable};
ghost use Rattle.tangle_files.specs.Roles.{RolesRead};
ghost use Rattle.tangle_lines.specs.Reading.{SourceRead, source_of};
ghost use Rattle.tangle_c_tokens.specs.Files.{SourceHasNoLineFeed};
ghost use Rattle.tangle_c_lines.specs.CountedLines.{FilesAreCountedAsWritten, SourceLinesAreLow};

/// Each token that begins in a byte of an item is counted at the item's line of the source, if a C
/// compiler reads it, whichever groups of lines the compiler leaves out (`files`). The premises, but
/// for those of what is read, are that directives are seen, and that lines have numbers below
/// 2 ^ 32, as they have if the files are within the limits of tables (`low`).
#[tactic(auto, using(crate::proofs::LowSources::source_low))]
pub fn files_are_counted_as_written()
    ensures low { (files : FileTable) (roles : RolesRead) → IsWithinLimits files
        → SourceLinesAreLow (source_of files roles).lines }
    ensures files { (source : SourceRead) → SourceHasNoLineFeed source
        → SourceLinesAreLow source.lines → FilesAreCountedAsWritten source }
{}
