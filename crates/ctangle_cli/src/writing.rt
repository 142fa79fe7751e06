//! Writing the output files.
ghost use Rattle.std.specs.Prelude.{◌≡◌, ◌≢◌, ◌∷◌, [], IsSome, IfErr, OnErr, OnOk};
ghost use Rattle.tangle_streams.specs.Streams.{Failed};
ghost use Rattle.tangle_folders.specs.Folder.{with_created};
ghost use Rattle.tangle_folders.specs.declared.folder.FolderFault.TheVariants.{NoMemory};
ghost use Rattle.tangle_session.specs.Headline.{output_at, output_files};
ghost use Rattle.ctangle_cli.specs.Writing.{AddsPrefix, output_file};
ghost use Rattle.ctangle_cli.specs.Run.{StopsAt};

use std::alloc::Global;
use tangle_folders::{Folder, FolderFault};
use tangle_session::Session;

// Creates the output of this name, which is at this index among the names. Its writer is closed
// even where it failed.
fn create_output<F: Folder>(
    alloc: Global,
    session: &Session,
    folder: &mut F,
    index: usize,
    name: &[u8],
) -> Result<(), FolderFault>
    requires { IsSome (output_at session.now.files session.now.roles name.now) }
    ensures whole { OnOk result ((F.state folder.new).created
        ≡ with_created (F.state folder.old).created
        (output_file session.now.files session.now.roles name.now ∷ [])) }
    ensures unfailed { OnOk result ((F.state folder.new).failures ≡ (F.state folder.old).failures) }
    ensures prefix { OnErr result
        (AddsPrefix (F.state folder.old).created (F.state folder.new).created
        (output_file session.now.files session.now.roles name.now)) }
    ensures nothing { IfErr result
        (λ fault. fault ≡ NoMemory → (F.state folder.new).created ≡ (F.state folder.old).created) }
    ensures failed { IfErr result (λ fault. fault ≢ NoMemory
        → Failed (F.state folder.old).failures (F.state folder.new).failures) }
    ensures no_failure { IfErr result (λ fault. fault ≡ NoMemory
        → (F.state folder.new).failures ≡ (F.state folder.old).failures) }
    ensures asked_stay { (F.state folder.new).asked ≡ (F.state folder.old).asked }
    ensures failed_stay { (F.state folder.new).failed ≡ (F.state folder.old).failed }
    ensures files_stay { (F.state folder.new).files ≡ (F.state folder.old).files }
{
    let mut out = folder.create(alloc, name)?;
    let written = session.write_output_at(index, name, &mut out);
    let closed = folder.close(out);
    match written {
        Ok(_) => closed,
        Err(_) => Err(FolderFault::Failed),
    }
}

/// An output that was not written whole.
#[derive(Clone, Copy, Debug)]
pub struct UnwrittenOutput<'a> {
    pub name: &'a [u8],
    pub fault: FolderFault,
}

/// Creates the outputs in order, up to the first that can't be written. No two outputs have the
/// same name, so none is written over another, and each is found at the index of its name.
///
/// # Errors
///
/// The name of the output that can't be written, and the fault of the folder.
pub fn create_outputs<'a, F: Folder>(
    alloc: Global,
    session: &'a Session,
    folder: &mut F,
) -> Result<(), UnwrittenOutput<'a>>
    ensures whole { OnOk result ((F.state folder.new).created
        ≡ with_created (F.state folder.old).created
        (output_files session.now.files session.now.roles)) }
    ensures unfailed { OnOk result ((F.state folder.new).failures ≡ (F.state folder.old).failures) }
    ensures stopped { IfErr result (λ stop. StopsAt (output_files session.now.files session.now.roles)
        (F.state folder.old).created (F.state folder.new).created stop.name.now stop.fault) }
    ensures failed { IfErr result
        (λ stop. stop.fault ≢ NoMemory
        → Failed (F.state folder.old).failures (F.state folder.new).failures) }
    ensures no_failure { IfErr result
        (λ stop. stop.fault ≡ NoMemory
        → (F.state folder.new).failures ≡ (F.state folder.old).failures) }
    ensures asked_stay { (F.state folder.new).asked ≡ (F.state folder.old).asked }
    ensures failed_stay { (F.state folder.new).failed ≡ (F.state folder.old).failed }
{
    let names = session.output_names();
    for (index, name) in names.enumerate() {
        match create_output(alloc, session, folder, index, name) {
            Ok(()) => {}
            Err(fault) => return Err(UnwrittenOutput { name, fault }),
        }
    }
    Ok(())
}
