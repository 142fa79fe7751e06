//! The state of a session: files with what tangling makes of them.
ghost use Rattle.std.specs.Prelude.{◌≡◌, ◌⊎◌, None, Some, true, find, map, IfErr, IfOk, OnOk};
ghost use Rattle.std.specs.List.{IsDistinct};
ghost use Rattle.std.specs.Option.{option_copied};
ghost use Rattle.std.specs.Str.{bytes_eq};
ghost use Rattle.tangle_files.specs.Edited.{edited_all, roles_after};
ghost use Rattle.tangle_files.specs.Roles.{fits};
ghost use Rattle.tangle_session.specs.Edits.{list_memory, list_refusal};
ghost use Rattle.tangle_session.specs.Headline.{web_at};
ghost use Rattle.tangle_session.specs.Sessions.{ListsAffectedOfWebs};
ghost use Rattle.tangle_session.specs.States.{AgreesWithFiles};

use crate::analysis::Analysis;
use crate::refusing::{ListRefusal, refusal_to_apply};
use std::alloc::Global;
use tangle_expansion::{Kept, Output, Work};
use tangle_graph::expand_again;
use tangle_lines::{Edit, Files, MarkMode, NoMemory, Roles};

/// Files with what tangling makes of them: the analysis, the expansions, and the list of the nodes
/// that were expanded.
#[derive(Drop)]
pub(crate) struct SessionState {
    pub(crate) files: Files,
    pub(crate) analysis: Analysis,
    pub(crate) kept: Kept,
    pub(crate) work: Work,
}

impl SessionState {
    /// The output file of this name, if there is one.
    pub(crate) fn find_output(&self, name: &[u8]) -> Option<&Output>
        ensures { option_copied result
            ≡ find (λ output. bytes_eq name.now output.name) self.now.analysis.store.outputs }
    {
        let outputs = self.analysis.store.outputs();
        outputs.iter().find(|output| name == output.name())
    }

    /// The output file of this name, if there is one. The output at this index is compared first,
    /// so no two outputs may have the same name.
    pub(crate) fn find_output_at(&self, index: usize, name: &[u8]) -> Option<&Output>
        requires { IsDistinct bytes_eq
            (map (λ output. output.name) self.now.analysis.store.outputs) }
        ensures { option_copied result
            ≡ find (λ output. bytes_eq name.now output.name) self.now.analysis.store.outputs }
    {
        match self.analysis.store.outputs().get(index) {
            Some(output) if name == output.name() => Some(output),
            _ => self.find_output(name),
        }
    }
}

/// The setting for line marks after a list of edits: that of the last edit which sets it, if any
/// does.
pub(crate) fn mode_after(roles: &Roles, edits: &[Edit]) -> MarkMode
    ensures { record roles.now { marks = result } ≡ roles_after roles.now edits.now }
{
    let mut marks = roles.marks();
    for edit in edits {
        if let Edit::Marks { mode } = edit {
            marks = *mode;
        }
    }
    marks
}

/// Copies the files and makes the edits in the copy, each in what the earlier ones left.
fn edited_copy(files: &Files, roles: &Roles, edits: &[Edit]) -> Result<Files, ListRefusal>
    requires { fits files.now roles.now ≡ true }
    ensures made { IfOk result (λ copy. copy ≡ edited_all files.now edits.now) }
    ensures fits { IfOk result (λ copy. fits copy roles.now ≡ true) }
    ensures unrefused { OnOk result (list_refusal files.now roles.now edits.now ≡ None) }
    ensures refused { IfErr result (λ refused.
        (list_refusal files.now roles.now edits.now ≡ Some refused) ⊎ (refused ≡ list_memory)) }
{
    let mut copy = files.copy()?;
    for (at, edit) in edits.iter().enumerate() {
        if let Some(refusal) = refusal_to_apply(&copy, roles, edit) {
            return Err(ListRefusal { at, refusal });
        }
        if copy.edit(edit).is_err() {
            return Err(ListRefusal::from(NoMemory));
        }
    }
    Ok(copy)
}

/// The state after a list of edits, with this setting for line marks: the files are tangled again,
/// and the expansions of unaffected nodes are kept.
pub(crate) fn tangle_again(
    alloc: Global,
    old: &SessionState,
    roles: &Roles,
    edits: &[Edit],
    marks: MarkMode,
) -> Result<SessionState, ListRefusal>
    requires agrees { AgreesWithFiles old.now.files roles.now old.now }
    ensures files { IfOk result (λ new. new.files ≡ edited_all old.now.files edits.now) }
    ensures agrees { IfOk result (λ new.
        AgreesWithFiles new.files (record roles.now { marks = marks }) new) }
    ensures work { IfOk result (λ new. ListsAffectedOfWebs (web_at old.now.files roles.now)
        (web_at new.files (record roles.now { marks = marks })) new.work) }
    ensures unrefused { OnOk result (list_refusal old.now.files roles.now edits.now ≡ None) }
    ensures refused { IfErr result (λ refused.
        (list_refusal old.now.files roles.now edits.now ≡ Some refused)
        ⊎ (refused ≡ list_memory)) }
{
    let files = edited_copy(&old.files, roles, edits)?;
    let analysis = Analysis::build(alloc, &files, roles, marks, Some(&old.analysis))?;
    let mut work = Work::new(alloc);
    let kept = expand_again(
        alloc,
        &old.analysis.store,
        &old.kept,
        &analysis.store,
        &analysis.new_shapes,
        &mut work,
    )?;
    Ok(SessionState {
        files,
        analysis,
        kept,
        work,
    })
}
