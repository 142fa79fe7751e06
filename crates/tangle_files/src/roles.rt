//! The roles of files.
ghost use Rattle.std.specs.Prelude.{◌≡◌, IfOk, IfSome, IfNone, IsOkUnless, Err};
ghost use Rattle.std.specs.Option.{option_copied, option_map};
ghost use Rattle.tangle_files.specs.Roles.{roles_of, roles_refusal, is_name_if_any};
ghost use Rattle.tangle_files.specs.Roles.{fits as roles_fit, has_file_if_any};

use crate::files::{Files, is_file_name};
use crate::marks::MarkMode;
use crate::refusal::Refusal;
use crate::words::Words;
use std::alloc::Global;
use std::marker::Model;
use tangle_streams::NoMemory;

/// The names of the web, of the change file if there is one, and of the main output file, and how
/// line marks are written. CWEB's programs take the three names from the command line.
#[derive(Drop)]
pub struct Roles {
    names: Words,
}

impl Model for Roles {
    ghost use Rattle.tangle_files.specs.Roles.{RolesRead};

    ghost Value = { RolesRead };

    ghost view = { λ r. r.names };
}

impl Roles {
    /// Roles with these names. Line marks are written in full until [`Roles::set_marks`] changes
    /// the mode.
    ///
    /// # Errors
    ///
    /// `BadName` if one of the names is empty, longer than 255 bytes or has a line feed; else
    /// `NoMemory` if an allocation fails.
    pub fn new(
        alloc: Global,
        web: &[u8],
        change: Option<&[u8]>,
        out: &[u8],
    ) -> Result<Self, Refusal>
        ensures roles { IfOk result (λ r.
            r ≡ roles_of web.now (option_copied change.entry) out.now) }
        ensures refused { IfSome (roles_refusal
            (roles_of web.now (option_copied change.entry) out.now))
            (λ refusal. result ≡ Err refusal) }
        ensures only { IfNone (roles_refusal
            (roles_of web.now (option_copied change.entry) out.now))
            (IsOkUnless result Refusal.NoMemory) }
    {
        if !(is_file_name(web) && is_file_name_if_any(change) && is_file_name(out)) {
            return Err(Refusal::BadName);
        }
        let web = Vec::from_slice(alloc, web)?;
        let change = copy_if_any(alloc, change)?;
        let out = Vec::from_slice(alloc, out)?;
        Ok(Roles {
            names: Words::new(web, change, out),
        })
    }

    /// The name of the web.
    pub fn web(&self) -> &[u8]
        ensures { result.now ≡ self.now.web }
    {
        self.names.web()
    }

    /// The name of the change file: `None` if there is none.
    pub fn change(&self) -> Option<&[u8]>
        ensures { option_copied result ≡ self.now.change }
    {
        self.names.change()
    }

    /// The name of the main output file.
    pub fn out(&self) -> &[u8]
        ensures { result.now ≡ self.now.out }
    {
        self.names.out()
    }

    /// How line marks are written.
    pub fn marks(&self) -> MarkMode
        ensures { result ≡ self.now.marks }
    {
        self.names.marks()
    }

    /// Sets how line marks are written from now on.
    pub fn set_marks(&mut self, marks: MarkMode)
        ensures { self.new ≡ record self.old { marks = marks } }
    {
        self.names.set_marks(marks);
    }

    /// Whether the table has the web and, if one is named, the change file.
    pub fn fits(&self, files: &Files) -> bool
        ensures { result ≡ roles_fit files.now self.now }
    {
        files.has(self.web()) && is_in_if_any(files, self.change())
    }
}

/// Whether the name, if there is one, is a file name.
fn is_file_name_if_any(name: Option<&[u8]>) -> bool
    ensures { result ≡ is_name_if_any (option_copied name.entry) }
{
    match name {
        Some(name) => is_file_name(name),
        None => true,
    }
}

fn copy_if_any(alloc: Global, name: Option<&[u8]>) -> Result<Option<Vec<u8>>, NoMemory>
    ensures { IfOk result (λ copy. option_map (λ c. c.items) copy ≡ option_copied name.entry) }
{
    match name {
        Some(name) => Ok(Some(Vec::from_slice(alloc, name)?)),
        None => Ok(None),
    }
}

/// Whether the table has the file, if one is named.
fn is_in_if_any(files: &Files, name: Option<&[u8]>) -> bool
    ensures { result ≡ has_file_if_any files.now (option_copied name.entry) }
{
    match name {
        Some(name) => files.has(name),
        None => true,
    }
}
