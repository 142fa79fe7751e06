//! Loading: the files that a run reads.
ghost use Rattle.std.specs.Prelude.{◌≡◌, ◌≤◌, ◌∷◌, ◌++◌, ℕ, List, [], length, map, true};
ghost use Rattle.std.specs.Prelude.{false, Err, IfErr, IfOk, None, Ok, OnOk};
ghost use Rattle.std.specs.List.{list_any};
ghost use Rattle.std.specs.Option.{option_copied};
ghost use Rattle.std.specs.Result.{result_map_both};
ghost use Rattle.std.specs.Str.{bytes_eq};
ghost use Rattle.tangle_folders.specs.Folder.{file_limit};
ghost use Rattle.tangle_files.specs.Roles.{fits};
ghost use Rattle.tangle_loading.specs.Endings.{IncludesNoMissing, IsGiven, LoadGives};
ghost use Rattle.tangle_loading.specs.Endings.{Step, ending_of, given, misses_file, refused_as};
ghost use Rattle.tangle_loading.specs.Loading.{add_bytes, bad_name, is_missed};
ghost use Rattle.tangle_loading.specs.Loading.{missed_in, missing_of, named_in, so_far};
ghost use Rattle.tangle_loading.specs.Loading.LoadEnd.{CannotRead};

use indexmap::IndexSet;
use std::alloc::Global;
use std::marker::Model;
use tangle_folders::{Folder, FolderFault};
use tangle_lines::{
    Fault, FaultKind, Files, Line, NoMemory, Refusal, Roles, Words, included_name, is_file_name,
    read_source,
};

/// Why the files of a run could not be loaded.
#[derive(Debug, Drop)]
pub enum LoadFault {
    /// The file of this name can't be read: it is a web or change file that is missing, a file over
    /// the limit, or one at which the folder failed.
    CannotRead(Vec<u8>),
    /// The table of files refuses this name or its file: `BadName`, `TooManyFiles`, `LineTooLong`
    /// or `TooManyLines`.
    Refused(Vec<u8>, Refusal),
    /// An allocation failed.
    NoMemory,
}

impl From<NoMemory> for LoadFault {
    ghost use Rattle.tangle_loading.specs.declared.loading.LoadFault.TheVariants.{NoMemory};

    ghost from_gives = { λ _ e. e ≡ NoMemory };

    fn from(_e: NoMemory) -> LoadFault {
        LoadFault::NoMemory
    }
}

// The names for which the folder was asked. They are kept so that each is asked for once.
#[derive(Drop)]
struct Asked {
    names: IndexSet<Vec<u8>>,
}

impl Model for Asked {
    ghost use Rattle.std.specs.Prelude.{List, ℕ, map};

    ghost Value = { List (List ℕ) };

    ghost view = { λ a. map (λ name. name.items) a.names.keys };
}

impl Asked {
    fn new(alloc: Global) -> Self
        ensures { result ≡ [] }
    {
        Asked {
            names: IndexSet::new(alloc),
        }
    }

    fn contains(&self, name: &[u8]) -> bool
        ensures { result ≡ list_any (bytes_eq name.now) self.now }
    {
        self.names.contains(name)
    }

    fn insert(&mut self, alloc: Global, name: &[u8]) -> Result<(), NoMemory>
        requires { list_any (bytes_eq name.now) self.old ≡ false }
        ensures { OnOk result (self.new ≡ self.old ++ name.now ∷ []) }
    {
        let name = Vec::from_slice(alloc, name)?;
        self.names.insert(name)?;
        Ok(())
    }
}

// `CannotRead` with a copy of this name, or `NoMemory` where the name could not be copied.
fn cannot_read(alloc: Global, name: &[u8]) -> LoadFault
    ensures { IsGiven (Err (CannotRead name.now)) (Err (ending_of result)) }
{
    match Vec::from_slice(alloc, name) {
        Ok(name) => LoadFault::CannotRead(name),
        Err(_) => LoadFault::NoMemory,
    }
}

// `Refused` with a copy of this name; `NoMemory` where that is the refusal, or the name could not
// be copied.
fn refused(alloc: Global, name: &[u8], refusal: Refusal) -> LoadFault
    ensures { IsGiven (Err (refused_as name.now refusal)) (Err (ending_of result)) }
{
    if refusal == Refusal::NoMemory {
        return LoadFault::NoMemory;
    }
    match Vec::from_slice(alloc, name) {
        Ok(name) => LoadFault::Refused(name, refusal),
        Err(_) => LoadFault::NoMemory,
    }
}

// Adds a file with these bytes to the table.
fn add_file(alloc: Global, files: &mut Files, name: &[u8], bytes: Vec<u8>) -> Result<(), LoadFault>
    requires { length bytes.items ≤ file_limit }
    ensures { IsGiven (add_bytes files.old name.now bytes.items) (given files.new result) }
{
    match files.add_owned(name, bytes) {
        Ok(()) => Ok(()),
        Err(refusal) => Err(refused(alloc, name, refusal)),
    }
}

// Asks for a file, unless it was asked for before, and adds it to the table. Where the folder does
// not have it, loading ends if it is needed.
#[tactic(auto, using(crate::proofs::StepLemmas::once))]
fn read_once<F: Folder>(
    alloc: Global,
    folder: &mut F,
    files: &mut Files,
    asked: &mut Asked,
    name: &[u8],
    needed: bool,
) -> Result<(), LoadFault>
    ensures { Step needed (name.now ∷ []) [] (F.state folder.old) (so_far asked.old (Ok files.old))
        (F.state folder.new) (so_far asked.new (given files.new result)) }
{
    if asked.contains(name) {
        return Ok(());
    }
    asked.insert(alloc, name)?;
    match folder.read_file(alloc, name) {
        Ok(bytes) => add_file(alloc, files, name, bytes),
        Err(FolderFault::Missing) if !needed => Ok(()),
        Err(FolderFault::Missing) => Err(cannot_read(alloc, name)),
        Err(FolderFault::TooBig) => Err(cannot_read(alloc, name)),
        Err(FolderFault::Failed) => Err(cannot_read(alloc, name)),
        Err(FolderFault::NoMemory) => Err(LoadFault::NoMemory),
    }
}

// Reads the web, and then the change file, if one is named. Without them loading ends.
fn read_needed<F: Folder>(
    alloc: Global,
    roles: &Roles,
    folder: &mut F,
    files: &mut Files,
    asked: &mut Asked,
) -> Result<(), LoadFault>
    ensures { Step true (roles.now.web ∷ named_in roles.now.change) [] (F.state folder.old)
        (so_far asked.old (Ok files.old)) (F.state folder.new)
        (so_far asked.new (given files.new result)) }
{
    read_once(alloc, folder, files, asked, roles.web(), true)?;
    match roles.change() {
        Some(name) => read_once(alloc, folder, files, asked, name, true),
        None => Ok(()),
    }
}

fn is_missed(fault: &Fault) -> bool
    ensures { result ≡ is_missed fault.now }
{
    fault.kind() == FaultKind::IncludeMissing && is_file_name(fault.subject())
}

// Reads the missing files that these faults of reading name. A file stays missing where the folder
// has none of that name, or the name is no file name.
#[tactic(auto, using(crate::proofs::StepLemmas::next_name))]
fn read_inclusions<F: Folder>(
    alloc: Global,
    folder: &mut F,
    files: &mut Files,
    asked: &mut Asked,
    faults: &[Fault],
) -> Result<(), LoadFault>
    ensures { Step false (missed_in faults.now) [] (F.state folder.old)
        (so_far asked.old (Ok files.old)) (F.state folder.new)
        (so_far asked.new (given files.new result)) }
{
    for fault in faults {
        if !is_missed(fault) {
            continue;
        }
        read_once(alloc, folder, files, asked, fault.subject(), false)?;
    }
    Ok(())
}

fn misses(files: &Files, line: &Line) -> bool
    ensures { result ≡ misses_file files.now line.now }
{
    match included_name(line.bytes()) {
        None => false,
        Some(name) => files.find(name).is_none(),
    }
}

fn any_misses(files: &Files, lines: &[Line]) -> bool
    ensures { result ≡ list_any (misses_file files.now) lines.now }
{
    lines.iter().any(|line| misses(files, line))
}

// Whether each file that a line includes is in the table.
fn includes_no_missing(files: &Files) -> bool
    ensures { result ≡ true → IncludesNoMissing files.now }
{
    for number in 0..files.count() {
        if any_misses(files, files.lines_at(number as u16)) {
            return false;
        }
    }
    true
}

// The faults of reading these files, or none where each included file is in the table: only the
// faults about missing files matter here, so the sources need not be read then.
#[tactic(auto, using(crate::proofs::NoMissingLemmas::missing_is_empty), unfolding(crate::specs::Loading::missing_of))]
fn faults_of(alloc: Global, files: &Files, roles: &Roles) -> Result<Vec<Fault>, NoMemory>
    requires { fits files.now roles.now ≡ true }
    ensures { IfOk result (λ faults. missed_in faults.items ≡ missing_of files.now roles.now) }
{
    if includes_no_missing(files) {
        return Ok(Vec::new(alloc));
    }
    let source = read_source(alloc, files, roles)?;
    Ok(source.into_faults())
}

// The first of the three names that is no file name.
fn first_bad(names: &Words) -> Option<&[u8]>
    ensures { option_copied result ≡ bad_name names.now }
{
    if !is_file_name(names.web()) {
        return Some(names.web());
    }
    match names.change() {
        Some(name) if !is_file_name(name) => return Some(name),
        _ => {}
    }
    if !is_file_name(names.out()) {
        return Some(names.out());
    }
    None
}

// Loads the files of roles whose three names are file names.
fn load_files<F: Folder>(alloc: Global, roles: &Roles, folder: &mut F) -> Result<Files, LoadFault>
    requires { bad_name roles.now ≡ None }
    ensures gives { LoadGives roles.now (F.state folder.old) (F.state folder.new)
        (result_map_both (λ files. files) ending_of result) }
    ensures fits { IfOk result (λ files. fits files roles.now ≡ true) }
{
    let mut files = Files::new(alloc);
    let mut asked = Asked::new(alloc);
    read_needed(alloc, roles, folder, &mut files, &mut asked)?;
    // A folder stays as it is during a run, so a round that adds no file is the last. A chain of
    // inclusions costs one reading of the sources for each link, and there are at most 256.
    loop {
        let count = files.count();
        let faults = faults_of(alloc, &files, roles)?;
        read_inclusions(alloc, folder, &mut files, &mut asked, faults.as_slice())?;
        if files.count() == count {
            return Ok(files);
        }
    }
}

/// Loads the files of a run: the web, then the change file, and then, in rounds, the files that
/// inclusions miss.
///
/// The names of the web, the change file and the main file are tested first, in this order. A round
/// reads the sources and loads each file that an inclusion misses, in the order of the faults; the
/// last round adds no file. A file that the folder does not have, or whose name is no file name,
/// stays missing and keeps its fault; the folder is asked once for each name. A missing web or
/// change file, and any other failure, is a fault of loading.
///
/// The names are those of `read_words`. Of CTANGLE's command line it keeps the three names, their
/// extensions and `-` for no change file; flags have no effect (`docs/programs.md`).
///
/// # Errors
///
/// `CannotRead` with the name of a web or change file that is missing, of a file over the limit, or
/// of one at which the folder failed. `Refused` with a name and `BadName` where one of the three
/// names is no file name, and with `TooManyFiles`, `LineTooLong` or `TooManyLines` where the table
/// of files refuses a file. `NoMemory` where an allocation failed.
#[tactic(auto, using(crate::proofs::LoadLemmas::unused))]
pub fn load<F: Folder>(
    alloc: Global,
    names: &Words,
    folder: &mut F,
) -> Result<(Files, Roles), LoadFault>
    ensures gives { LoadGives names.now (F.state folder.old) (F.state folder.new)
        (result_map_both (λ r. r.0) ending_of result) }
    ensures roles { IfOk result (λ r. r.1 ≡ names.now) }
    ensures fits { IfOk result (λ r. fits r.0 r.1 ≡ true) }
{
    if let Some(name) = first_bad(names) {
        return Err(refused(alloc, name, Refusal::BadName));
    }
    let Ok(mut roles) = Roles::new(alloc, names.web(), names.change(), names.out()) else {
        return Err(LoadFault::NoMemory);
    };
    roles.set_marks(names.marks());
    let files = load_files(alloc, &roles, folder)?;
    Ok((files, roles))
}
