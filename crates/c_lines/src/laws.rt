//! Laws of the lines that a C compiler counts.
ghost use Rattle.std.specs.Prelude.{◌≡◌, ℕ, List, [], map};
ghost use Rattle.std.specs.List.{join_with_byte};
ghost use Rattle.c_tokens.specs.Bytes.{line_feed};
ghost use Rattle.c_tokens.specs.Reading.{tokens};
ghost use Rattle.c_lines.specs.Counting.{Place, c_reads, lines_from};
ghost use Rattle.c_lines.specs.JoinedLines.{joined_lines, LinesAreWhole, lines_of_each};

/// A compiler that leaves out no region counts each token, in order.
#[tactic(auto, using(crate::proofs::CountingLemmas::all_counted))]
pub fn each_token_is_counted()
    ensures { (file text : List ℕ) → map (λ read. read.token) (c_reads [] file text) ≡ tokens text }
{}

/// Where no comment and no quoted text goes over the end of a line, each line of C is read by
/// itself: it has the tokens that its bytes have alone, and ends where they end.
#[tactic(auto, using(crate::proofs::LineLemmas::each_alone))]
pub fn each_line_is_read_by_itself()
    ensures all { (text : List ℕ) → join_with_byte line_feed (joined_lines [] text) ≡ text }
    ensures read { (place : Place) (text : List ℕ) → LinesAreWhole text
        → lines_from place text ≡ lines_of_each place (joined_lines [] text) }
{}
