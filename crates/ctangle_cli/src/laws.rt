//! Laws of scripts, and of what a C compiler reads.
ghost use Rattle.std.specs.Prelude.{◌≡◌, ◌++◌, ℕ, List};
ghost use Rattle.tangle_files.specs.Adding.{IsWithinLimits};
ghost use Rattle.tangle_files.specs.Lines.{FileTable};
ghost use Rattle.tangle_files.specs.Roles.{RolesRead};
ghost use Rattle.tangle_script.specs.Requests.{Command};
ghost use Rattle.tangle_script.specs.Requests.Request.{Faults, Show};
ghost use Rattle.tangle_script.specs.Script.{Dialogue};
ghost use Rattle.tangle_session.specs.Headline.{Call, History, accepted, faults_at, files_after};
ghost use Rattle.tangle_session.specs.Headline.{output_at, roles_with};
ghost use Rattle.ctangle_cli.specs.Conversation.{SessionAndDraft, answers, calls_of, listed_faults};
ghost use Rattle.ctangle_cli.specs.Conversation.{shown};
ghost use Rattle.ctangle_cli.specs.WhatTheCompilerReads.{OutputsStayReadAsWritten};
ghost use Rattle.tangle_c_tokens.specs.LineFeeds.{FilesHaveNoLineFeed};

/// The commands of a script extend the history of the session by the calls of their answers: each
/// edit that is passed, and each list of edits, is one more call, with the answer that was written
/// (`IsReply`). Held edits and questions change nothing, nor does an edit for which memory ran out.
/// So the headline holds after each line of a script.
#[tactic(auto, using(crate::proofs::HistoryLemmas::goes_on))]
pub fn the_answers_of_a_script_are_a_history()
    ensures { (files : FileTable) (roles : RolesRead) (calls : List Call)
        (old new : SessionAndDraft) (commands : List Command) (output : List ℕ)
        → History files roles calls old.session
        → (dialogue : Dialogue answers old commands output new)
        → History files roles (calls ++ calls_of old new commands output dialogue) new.session }
{}

/// At the end of any history, as after any commands of a script, `show` and `faults` are answered
/// with what plain tangling gives for the files and the roles of the start in which the accepted
/// edits are made.
pub fn scripts_show_plain_tangling()
    ensures show { (files : FileTable) (roles : RolesRead) (calls : List Call)
        (s t : SessionAndDraft) (name output : List ℕ)
        → History files roles calls s.session → answers s (Show name) output t
        → output ≡ shown name (output_at (files_after files (accepted calls))
        (roles_with roles (accepted calls)) name) }
    ensures faults { (files : FileTable) (roles : RolesRead) (calls : List Call)
        (s t : SessionAndDraft) (output : List ℕ)
        → History files roles calls s.session → answers s Faults output t
        → output ≡ listed_faults (faults_at (files_after files (accepted calls))
        (roles_with roles (accepted calls))) }
{}

/// A C compiler reads each output file as the author wrote it
/// (`specs/WhatTheCompilerReads.antt`), in a session that is started with these files, and after any
/// calls, if no name and no line of the files has a line feed, and the files are within the limits of
/// tables. None has a line feed that is added or edited (`lines_have_no_line_feeds` of
/// `tangle_c_tokens`), and no such file is beyond the limits: so the runs of both programs promise
/// this without a premise.
pub fn outputs_are_read_as_written()
    ensures { (files : FileTable) (roles : RolesRead) → FilesHaveNoLineFeed files
        → IsWithinLimits files → OutputsStayReadAsWritten files roles }
{}
