//! The resolution of a web's names. It depends only on how the occurrences are written, and on no
//! origin.
ghost use Rattle.std.specs.Prelude.{◌≡◌, ◌↔◌, IfOk, IsTrue};
ghost use Rattle.tangle_names.specs.NameTable.{AreWrittenAlike, written_form};
ghost use Rattle.tangle_names.specs.Resolution.{IsResolutionOf};

use crate::Resolved;
use crate::beginnings::beginning_flags;
use crate::first_numbers::{Counted, first_numbers};
use crate::keys::NameSet;
use crate::numbers::resolve_all;
use crate::sorted::{meanings, sorted_names};
use indexmap::IndexSet;
use std::alloc::{AllocError, Global};
use tangle_scan::Occurrence;

/// The full names of a web, the resolution of each occurrence, and what the faults of names are
/// found from. An edit after which each occurrence is written the same changes
/// nothing of this.
#[derive(Drop)]
pub(crate) struct Resolution {
    pub(crate) names: NameSet,
    pub(crate) resolved: Vec<Resolved>,
    // The number of each name's first occurrence.
    pub(crate) first_occurrences: Vec<usize>,
    // The number of each name's first occurrence as a file; the number of all occurrences where it
    // has none.
    pub(crate) first_file_occurrences: Vec<usize>,
    // For each name whether it begins another.
    pub(crate) begins: Vec<bool>,
}

impl Resolution {
    /// The resolution of the names of a web with these occurrences.
    pub(crate) fn build(alloc: Global, occurrences: &[Occurrence]) -> Result<Resolution, AllocError>
        ensures { IfOk result (λ resolution. IsResolutionOf occurrences.now resolution) }
    {
        let sorted = sorted_names(alloc, occurrences)?;
        let mut names: NameSet = IndexSet::new(alloc);
        let meanings = meanings(alloc, &sorted, occurrences)?;
        let resolved = resolve_all(alloc, &mut names, &meanings)?;
        let count = names.len();
        let first_occurrences = first_numbers(alloc, occurrences, &resolved, count, Counted::All)?;
        let first_file_occurrences = first_numbers(
            alloc,
            occurrences,
            &resolved,
            count,
            Counted::Files,
        )?;
        let begins = beginning_flags(alloc, &sorted, &names)?;
        Ok(Resolution {
            names,
            resolved,
            first_occurrences,
            first_file_occurrences,
            begins,
        })
    }
}

/// Whether two occurrences are written the same: with the same text, both abbreviated or neither,
/// and both with `@(` or neither.
fn is_written_alike(old: &Occurrence, new: &Occurrence) -> bool
    ensures { IsTrue result ↔ (written_form old.now ≡ written_form new.now) }
{
    old.is_file() == new.is_file()
        && old.is_abbreviation() == new.is_abbreviation()
        && old.text() == new.text()
}

/// Whether the two lists of occurrences have the same length, and each old occurrence is written
/// the same as the new one with its number.
#[tactic(auto, using(crate::proofs::AlikeLemmas::alike_at))]
pub(crate) fn are_written_alike(old: &[Occurrence], new: &[Occurrence]) -> bool
    ensures { IsTrue result ↔ AreWrittenAlike old.now new.now }
{
    if old.len() != new.len() {
        return false;
    }
    for i in 0..old.len() {
        if !is_written_alike(&old[i], &new[i]) {
            return false;
        }
    }
    true
}
