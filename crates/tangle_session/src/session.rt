//! A session: a project in memory, which is tangled again after each accepted edit.
ghost use Rattle.std.specs.Prelude.{◌≡◌, length, map, IfOk, OnOk, IfSome, IfNone};
ghost use Rattle.std.specs.Prelude.{IsOkUnless, Err};
ghost use Rattle.std.specs.Option.{option_map};
ghost use Rattle.tangle_files.specs.declared.refusal.Refusal.TheVariants.{NoMemory as no_memory};
ghost use Rattle.tangle_files.specs.declared.marks.MarkMode.TheVariants.{Full};
ghost use Rattle.tangle_session.specs.Headline.{Apply, ApplyAll, IsAnswered, IsStarted, faults_at};
ghost use Rattle.tangle_session.specs.Headline.{output_at, output_files};
ghost use Rattle.tangle_session.specs.Sessions.{start_refusal};
ghost use Rattle.tangle_session.specs.Writes.{IsTrueFile, WritesOutput};

use crate::analysis::Analysis;
use crate::outputs::OutputNames;
use crate::refusing::{ListRefusal, refusal_to_apply};
use crate::tangling::{SessionState, mode_after, tangle_again};
use std::alloc::Global;
use std::marker::Model;
use tangle_expansion::{Work, file_size, write_file};
use tangle_graph::expand_all;
use tangle_lines::{Edit, Fault, Files, Refusal, Roles, Sink, WriteFault};

/// A tangled project: its files and roles, its output files and its faults. It stores no bytes of
/// outputs; these are made as they are written.
#[derive(Drop)]
pub struct Session {
    roles: Roles,
    state: SessionState,
    alloc: Global,
}

impl Model for Session {
    ghost use Rattle.tangle_session.specs.Sessions.{SessionRead};
    ghost use Rattle.tangle_session.specs.States.{AgreesWithFiles};

    ghost Value = { SessionRead };

    ghost view = { λ s. record { files = s.state.files; roles = s.roles; work = s.state.work } };

    ghost invariant = { λ s. AgreesWithFiles s.state.files s.roles s.state };
}

/// Why a session cannot start with these files and roles, other than out of memory.
pub(crate) fn refusal_to_start(files: &Files, roles: &Roles) -> Option<Refusal>
    ensures { result ≡ start_refusal files.now roles.now }
{
    if roles.fits(files) {
        return None;
    }
    if files.lines(roles.web()).is_some() {
        Some(Refusal::NoChange)
    } else {
        Some(Refusal::NoWeb)
    }
}

impl Session {
    /// Starts a session: reads, scans and tangles the web of these roles, with its change file.
    /// Each expandable node is expanded once.
    ///
    /// # Errors
    ///
    /// `NoWeb` where the web isn't among the files, else `NoChange` where a change file is named
    /// and isn't among them, else `NoMemory` where an allocation failed. The files and the roles
    /// are returned unchanged.
    pub fn start(
        alloc: Global,
        files: Files,
        roles: Roles,
    ) -> Result<Session, (Files, Roles, Refusal)>
        ensures started { IfOk result (IsStarted files roles) }
        ensures refused { IfSome (start_refusal files roles)
            (λ refusal. result ≡ Err (files, roles, refusal)) }
        ensures only { IfNone (start_refusal files roles)
            (IsOkUnless result (files, roles, no_memory)) }
    {
        if let Some(refusal) = refusal_to_start(&files, &roles) {
            return Err((files, roles, refusal));
        }
        let analysis = match Analysis::build(alloc, &files, &roles, roles.marks(), None) {
            Ok(analysis) => analysis,
            Err(_) => return Err((files, roles, Refusal::NoMemory)),
        };
        let mut work = Work::new(alloc);
        match expand_all(alloc, &analysis.store, &mut work) {
            Ok(kept) => Ok(Session {
                state: SessionState {
                    files,
                    analysis,
                    kept,
                    work,
                },
                roles,
                alloc,
            }),
            Err(_) => Err((files, roles, Refusal::NoMemory)),
        }
    }

    /// Makes an edit of the files, or sets how line marks are written, and tangles the project
    /// again. Exactly the affected nodes are expanded, each once; the expansions of the others are
    /// kept. The new state is built beside the old one, which it replaces when it is whole.
    /// [`Session::apply_all`] has the same effect for a list of this edit alone.
    ///
    /// # Errors
    ///
    /// That of [`Files::refusal_to_edit`] if there is one, else `RoleFile` where the web or the
    /// change file is to be discarded, else `NoMemory` where an allocation failed. On an error
    /// nothing changes.
    pub fn apply(&mut self, edit: &Edit) -> Result<(), Refusal>
        ensures { IsAnswered self.old (Apply edit.now result) self.new }
    {
        if let Some(refusal) = refusal_to_apply(&self.state.files, &self.roles, edit) {
            return Err(refusal);
        }
        match self.apply_all(std::slice::from_ref(edit)) {
            Ok(()) => Ok(()),
            Err(refused) => Err(refused.refusal),
        }
    }

    /// Makes a list of edits, each in the files that the earlier ones left, and then tangles the
    /// project once. Exactly the nodes that the whole list affects are expanded, each once; an
    /// empty list expands none.
    ///
    /// # Errors
    ///
    /// That of the first refused edit, with its number from 0; or `NoMemory` with the number 0
    /// where an allocation failed, which may happen before a refused edit is found. On an error
    /// nothing changes.
    pub fn apply_all(&mut self, edits: &[Edit]) -> Result<(), ListRefusal>
        ensures { IsAnswered self.old (ApplyAll edits.now result) self.new }
    {
        // The setting of line marks, on which neither the web nor a refusal depends, is changed
        // last: this cannot fail, and by then the new state is whole.
        let marks = mode_after(&self.roles, edits);
        let next = tangle_again(self.alloc, &self.state, &self.roles, edits, marks)?;
        self.roles.set_marks(marks);
        self.state = next;
        Ok(())
    }

    /// The names of the output files, in the order in which they are to be written: the main file
    /// first, if the program has no piece or is expandable, and then the named files in the order
    /// of their first occurrences with `@(`.
    pub fn output_names(&self) -> OutputNames<'_>
        ensures { result ≡ map (λ file. file.0) (output_files self.now.files self.now.roles) }
    {
        OutputNames::new(self.state.analysis.store.outputs())
    }

    /// The size in bytes of the output file of this name: `None` where no output file has the name.
    pub fn output_size(&self, name: &[u8]) -> Option<u128>
        ensures { result ≡ option_map length (output_at self.now.files self.now.roles name.now) }
    {
        match self.state.find_output(name) {
            Some(output) => Some(file_size(output, &self.state.kept, &self.state.analysis.numbers)),
            None => None,
        }
    }

    /// Writes the output file of this name, and returns its size in bytes. If all was written, and
    /// line marks are written in full, the counted origin at each byte of a word, a sign, a quoted
    /// or verbatim text or an ASCII constant is that of the byte's source line. This does not hold
    /// in macros and in stretches (`docs/scanning.md`).
    ///
    /// # Errors
    ///
    /// `NoOutput` where no output file has the name, and then nothing is written; `WriteFault(n)`
    /// where the sink failed, or took no byte, after the first `n` bytes of the file.
    pub fn write_output<S: Sink>(&self, name: &[u8], sink: &mut S) -> Result<u128, Refusal>
        ensures written { WritesOutput (output_at self.now.files self.now.roles name.now)
            (S.stream sink.old) (S.stream sink.new) result }
        ensures line_truth { self.now.roles.marks ≡ Full
            → OnOk result (IsTrueFile self.now.files self.now.roles name.now) }
    {
        self.write_output_at(0, name, sink)
    }

    /// Writes the output file of this name as [`Session::write_output`] does. The output at this
    /// index of [`Session::output_names`] is compared first, so that a caller that iterates over
    /// the names needs no search for each; the others are compared only where it has another name.
    ///
    /// # Errors
    ///
    /// Those of [`Session::write_output`].
    pub fn write_output_at<S: Sink>(
        &self,
        index: usize,
        name: &[u8],
        sink: &mut S,
    ) -> Result<u128, Refusal>
        ensures written { WritesOutput (output_at self.now.files self.now.roles name.now)
            (S.stream sink.old) (S.stream sink.new) result }
        ensures line_truth { self.now.roles.marks ≡ Full
            → OnOk result (IsTrueFile self.now.files self.now.roles name.now) }
    {
        match self.state.find_output_at(index, name) {
            Some(output) => {
                match write_file(output, &self.state.kept, &self.state.analysis.numbers, sink) {
                    Ok(size) => Ok(size),
                    Err(WriteFault(size)) => Err(Refusal::WriteFault(size)),
                }
            }
            None => Err(Refusal::NoOutput),
        }
    }

    /// The faults: those of reading the web and the change file, then those of scanning, of names,
    /// and of the graph of names, each kind in its own order.
    pub fn faults(&self) -> &[Fault]
        ensures { result.now ≡ faults_at self.now.files self.now.roles }
    {
        self.state.analysis.faults.as_slice()
    }

    /// The files with all accepted edits made.
    pub fn files(&self) -> &Files
        ensures { result.now ≡ self.now.files }
    {
        &self.state.files
    }

    /// The roles with all accepted edits made.
    pub fn roles(&self) -> &Roles
        ensures { result.now ≡ self.now.roles }
    {
        &self.roles
    }

    /// The number of nodes that were expanded in the start or, once an edit was accepted, in the
    /// last accepted one.
    pub fn last_work(&self) -> u64
        ensures { result ≡ length self.now.work }
    {
        self.state.work.made()
    }
}
