//! Laws of webs: the table of what may touch rests on C's grammar of tokens.
ghost use Rattle.std.specs.Prelude.{◌≡◌, ℕ, List, None};
ghost use Rattle.std.specs.List.{AllByRecursion};
ghost use Rattle.tangle_files.specs.Adding.{add_refusal, with_file};
ghost use Rattle.tangle_files.specs.Edited.{edited};
ghost use Rattle.tangle_files.specs.Edits.{edit_refusal};
ghost use Rattle.tangle_files.specs.Lines.{FileTable, cut};
ghost use Rattle.tangle_files.specs.Roles.{RolesRead};
ghost use Rattle.tangle_files.specs.declared.edits.Edit.{Edit};
ghost use Rattle.tangle_lines.specs.Reading.{SourceLine, source_of};
ghost use Rattle.tangle_text.specs.Text.{texts_of};
ghost use Rattle.tangle_lexer.specs.Steps.{all_tokens};
ghost use Rattle.tangle_lexer.specs.declared.tokens.Token.{Token};
ghost use Rattle.tangle_scan.specs.Rules.{without_faults, may_touch};
ghost use Rattle.tangle_scan.specs.ReadAsMeant.{all_piece_tokens, all_macro_tokens};
ghost use Rattle.c_tokens.specs.Touching.{kinds_may_touch};
ghost use Rattle.tangle_c_tokens.specs.Kinds.{item_kind, AreTexts};
ghost use Rattle.tangle_c_tokens.specs.LineFeeds.{TextHasNoLineFeed, SourceLinesHaveNoLineFeed};
ghost use Rattle.tangle_c_tokens.specs.LineFeeds.{FileLinesHaveNoLineFeed, FilesHaveNoLineFeed};

/// The table of what may touch is that of the kinds of texts of C's grammar (`table`). Each word
/// and each sign of a web is a text of its kind. So is each quoted text, with all its ranges,
/// except for `''`, for a header name, and for a text that does not end, which is a fault. A sign is
/// one byte, and the line feeds of a quoted text are directly after backslashes. This is true of the
/// tokens of the source, and so of the tokens of each piece and of each macro. The premise is that
/// no line has a line feed in it (`lines_have_no_line_feeds`).
#[tactic(auto, using(crate::proofs::kind_lemmas::WebTexts::are_of_kinds))]
pub fn items_are_of_their_kinds()
    ensures table { (texts : List (List ℕ)) (e f : Token)
        → may_touch texts e f ≡ kinds_may_touch (item_kind texts e) (item_kind texts f) }
    ensures source { (lines : List SourceLine) → SourceLinesHaveNoLineFeed lines
        → AreTexts (texts_of lines) (without_faults (all_tokens lines)) }
    ensures pieces { (lines : List SourceLine) → SourceLinesHaveNoLineFeed lines
        → AllByRecursion (AreTexts (texts_of lines)) (all_piece_tokens lines) }
    ensures macros { (lines : List SourceLine) → SourceLinesHaveNoLineFeed lines
        → AllByRecursion (AreTexts (texts_of lines)) (all_macro_tokens lines) }
{}

/// No line that bytes are cut into has a line feed in it. If no line of the files has one, then
/// none of the source has. A file that is added, and an edit that is not refused, bring no line
/// feed into a name or a line.
#[tactic(auto, using(crate::proofs::TableLemmas::have_no_feeds))]
pub fn lines_have_no_line_feeds()
    ensures cut { (bytes : List ℕ) → AllByRecursion TextHasNoLineFeed (cut bytes) }
    ensures source { (files : FileTable) (roles : RolesRead) → FileLinesHaveNoLineFeed files
        → SourceLinesHaveNoLineFeed (source_of files roles).lines }
    ensures added { (files : FileTable) (name bytes : List ℕ) → add_refusal files name bytes ≡ None
        → FilesHaveNoLineFeed files → FilesHaveNoLineFeed (with_file files name bytes) }
    ensures edited { (files : FileTable) (edit : Edit) → edit_refusal files edit ≡ None
        → FilesHaveNoLineFeed files → FilesHaveNoLineFeed (edited files edit) }
{}
