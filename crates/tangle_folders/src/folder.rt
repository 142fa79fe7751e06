//! The trait of folders, which programs read files from and create outputs in.
ghost use Rattle.std.specs.Prelude.{◌≡◌, ◌≢◌, ◌∷◌, ◌≤◌, [], IfErr, IfOk, OnErr, OnOk, vec_len};
ghost use Rattle.tangle_folders.specs.Folder.{AddsAsked, Begins, Closes, ClosesWithin, FolderRead};
ghost use Rattle.tangle_folders.specs.Folder.{IsFileAnswer, after_close, after_read, after_refusal};
ghost use Rattle.tangle_folders.specs.Folder.{file_limit, with_created, with_failed};
ghost use Rattle.tangle_folders.specs.declared.folder.FolderFault.TheVariants.{NoMemory};

use std::alloc::Global;
use tangle_streams::Sink;

/// The largest size of a file that a program reads, in bytes: 64 MiB.
pub const FILE_LIMIT: usize = 67_108_864;

/// Why a folder refuses a call.
#[derive(Clone, Copy, Debug, PartialEq, Eq)]
pub enum FolderFault {
    /// The folder has no file of this name.
    Missing,
    /// The folder failed for another reason.
    Failed,
    /// The file is larger than [`FILE_LIMIT`].
    TooBig,
    /// An allocation failed.
    NoMemory,
}

/// A folder, which a program reads files from and creates files in. If it reports these files to
/// contracts, the clauses about them apply.
pub trait Folder {
    /// The writer of a created file.
    type Out: Sink + Drop;

    // The files to read, the created files, the names passed to `read_file` and those at which it
    // failed, each if the folder reports them; and the count of failures.
    ghost state: { Self → FolderRead };

    /// Returns the bytes of the file of this name.
    ///
    /// # Errors
    ///
    /// `Missing` if there is no such file, `TooBig` if the file is larger than [`FILE_LIMIT`],
    /// `NoMemory` if an allocation fails, and `Failed` for any other failure, which is counted.
    fn read_file(&mut self, alloc: Global, name: &[u8]) -> Result<Vec<u8>, FolderFault>
        ensures answer { IsFileAnswer (state self.old).files name.now result }
        ensures small { IfOk result (λ bytes. vec_len bytes ≤ file_limit) }
        ensures counted { (state self.new).failures ≡ after_read result (state self.old).failures }
        ensures asks { AddsAsked (state self.old).asked (state self.new).asked name.now result }
        ensures fails { (state self.new).failed
            ≡ with_failed (state self.old).failed name.now result }
        ensures files_stay { (state self.new).files ≡ (state self.old).files }
        ensures created_stay { (state self.new).created ≡ (state self.old).created };

    /// Creates an empty file, and returns its writer. A refused call creates nothing.
    ///
    /// # Errors
    ///
    /// `NoMemory` if an allocation fails. Any other fault is a failure of the folder, and is
    /// counted.
    fn create(&mut self, alloc: Global, name: &[u8]) -> Result<Self::Out, FolderFault>
        ensures added { OnOk result ((state self.new).created
            ≡ with_created (state self.old).created ((name.now, []) ∷ [])) }
        ensures empty { IfOk result
            (λ out. Begins (state self.old).created (Self.Out.stream out).taken) }
        ensures unfailed { IfOk result (λ out. (Self.Out.stream out).failures ≡ 0) }
        ensures refused { OnErr result ((state self.new).created ≡ (state self.old).created) }
        ensures counted { (state self.new).failures
            ≡ after_refusal result (state self.old).failures }
        ensures asked_stay { (state self.new).asked ≡ (state self.old).asked }
        ensures failed_stay { (state self.new).failed ≡ (state self.old).failed }
        ensures files_stay { (state self.new).files ≡ (state self.old).files };

    /// Closes the writer of the file created last. The file then has all bytes of the writer; after
    /// an error it has a prefix of them.
    ///
    /// # Errors
    ///
    /// Any fault but `NoMemory`. The count of failures grows by one at an error, and also at `Ok`
    /// if the writer had failed before.
    fn close(&mut self, out: Self::Out) -> Result<(), FolderFault>
        ensures whole { OnOk result
            (Closes (state self.old).created (state self.new).created (Self.Out.stream out).taken) }
        ensures prefix { OnErr result (ClosesWithin (state self.old).created
            (state self.new).created (Self.Out.stream out).taken) }
        ensures needs_no_memory { IfErr result (λ fault. fault ≢ NoMemory) }
        ensures counted { (state self.new).failures
            ≡ after_close result ((Self.Out.stream out).failures) (state self.old).failures }
        ensures asked_stay { (state self.new).asked ≡ (state self.old).asked }
        ensures failed_stay { (state self.new).failed ≡ (state self.old).failed }
        ensures files_stay { (state self.new).files ≡ (state self.old).files };
}
