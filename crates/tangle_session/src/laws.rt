//! Laws of tangling, which hold of all files.
ghost use Rattle.std.specs.Prelude.{◌≡◌, ℕ, List, [], ◌∷◌, Contains, Some, map};
ghost use Rattle.std.specs.List.{IsDistinct};
ghost use Rattle.std.specs.Option.{option_map};
ghost use Rattle.std.specs.Str.{bytes_eq};
ghost use Rattle.tangle_files.specs.Edited.{edited, edited_all, edited_roles, roles_after};
ghost use Rattle.tangle_files.specs.Lines.{FileTable};
ghost use Rattle.tangle_files.specs.Roles.{RolesRead};
ghost use Rattle.tangle_files.specs.declared.edits.Edit.{Edit};
ghost use Rattle.tangle_files.specs.declared.marks.MarkMode.{MarkMode};
ghost use Rattle.tangle_scan.specs.Web.{WebRead};
ghost use Rattle.digraph.specs.Nodes.{Node};
ghost use Rattle.tangle_graph.specs.PlainForms.{plain_form};
ghost use Rattle.tangle_session.specs.Edits.{list_refusal, of_first, session_refusal};
ghost use Rattle.tangle_session.specs.Headline.{Call, EachCycleIsReported, HasMade, History};
ghost use Rattle.tangle_session.specs.Headline.{NoOutputReachesACycle, accepted, faults_at};
ghost use Rattle.tangle_session.specs.Headline.{files_after, output_at, output_files, roles_with};
ghost use Rattle.tangle_session.specs.Headline.{web_at};
ghost use Rattle.tangle_session.specs.Moves.{HaveSameShapes, IsMoved};
ghost use Rattle.tangle_session.specs.Sessions.{ListsAffectedOfWebs, SessionRead};

/// At the end of any history, the files and the roles of the session are those of the start with
/// the accepted edits made, and its work is that of the last accepted call (`ends`). So the output
/// files and the faults that the session shows are those of plain tangling of these (`shown`).
/// Whatever they are, no output file reaches a name that contains itself, and each such name has its
/// fault.
pub fn histories_end_in_plain_tangling()
    ensures ends { (files : FileTable) (roles : RolesRead) (calls : List Call)
        (session : SessionRead) → History files roles calls session
        → HasMade files roles (accepted calls) session }
    ensures shown { (files : FileTable) (roles : RolesRead) (calls : List Call)
        (session : SessionRead) → History files roles calls session
        → let then_files = files_after files (accepted calls) in
        let then_roles = roles_with roles (accepted calls) in
        (output_files session.files session.roles ≡ output_files then_files then_roles)
        × (faults_at session.files session.roles ≡ faults_at then_files then_roles) }
    ensures no_cycle { (files : FileTable) (roles : RolesRead) → NoOutputReachesACycle files roles }
    ensures cycles { (files : FileTable) (roles : RolesRead) → EachCycleIsReported files roles }
{}

/// No two output files have names of the same plain form, so none is written over another one; and
/// each is found by its name.
pub fn outputs_are_found_by_their_names()
    ensures apart { (files : FileTable) (roles : RolesRead) → IsDistinct bytes_eq
        (map plain_form (map (λ file. file.0) (output_files files roles))) }
    ensures distinct { (files : FileTable) (roles : RolesRead)
        → IsDistinct bytes_eq (map (λ file. file.0) (output_files files roles)) }
    ensures found { (files : FileTable) (roles : RolesRead) (name bytes : List ℕ)
        → Contains (output_files files roles) (name, bytes)
        → output_at files roles name ≡ Some bytes }
{}

/// An edit that leaves each shape unchanged expands nothing. This holds where text only moves:
/// lines, files, section numbers and macros may change, while occurrences and pieces change nothing
/// but their origins.
pub fn moved_text_expands_nothing()
    ensures nothing { (old new : WebRead) (nodes : List Node) → HaveSameShapes old new
        → ListsAffectedOfWebs old new nodes → nodes ≡ [] }
    ensures moved { (old new : WebRead) → IsMoved old new → HaveSameShapes old new }
{}

/// A list of one edit has the same effect as the edit, and is refused where the edit is.
pub fn one_edit_is_a_list()
    ensures files { (files : FileTable) (edit : Edit)
        → edited_all files (edit ∷ []) ≡ edited files edit }
    ensures roles { (roles : RolesRead) (edit : Edit)
        → roles_after roles (edit ∷ []) ≡ edited_roles roles edit }
    ensures refused { (files : FileTable) (roles : RolesRead) (edit : Edit)
        → list_refusal files roles (edit ∷ [])
        ≡ option_map of_first (session_refusal files roles edit) }
{}

/// An edit that leaves the web unchanged expands nothing. The setting for line marks changes
/// neither the web nor why an edit is refused.
pub fn what_leaves_the_web_expands_nothing()
    ensures nothing { (web : WebRead) (nodes : List Node) → ListsAffectedOfWebs web web nodes
        → nodes ≡ [] }
    ensures marks { (files : FileTable) (roles : RolesRead) (marks : MarkMode)
        → web_at files (record roles { marks = marks }) ≡ web_at files roles }
    ensures refusals { (files : FileTable) (roles : RolesRead) (marks : MarkMode) (edit : Edit)
        → session_refusal files (record roles { marks = marks }) edit
        ≡ session_refusal files roles edit }
{}
