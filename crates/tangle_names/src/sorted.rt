//! The full names of a web in the order of their bytes, and the meaning of an occurrence among
//! them.
ghost use Rattle.std.specs.Prelude.{◌≡◌, IfOk, map};
ghost use Rattle.std.specs.Ordering.{nat_cmp, is_lt};
ghost use Rattle.std.specs.Cmp.Lexicographic.{slice_cmp};
ghost use Rattle.tangle_names.specs.Names.{full_names, meaning, only_with, prefix};
ghost use Rattle.tangle_names.specs.Sorted.{IsInOrder, SameTexts, begins_at, meaning_of};
ghost use Rattle.tangle_names.specs.Sorted.{borrowed_names};

use std::alloc::{AllocError, Global};
use tangle_scan::Occurrence;

/// What an occurrence means: no full name, one, or several.
#[derive(Clone, Copy)]
pub(crate) enum Meaning<'a> {
    Nothing,
    One(&'a [u8]),
    Several,
}

/// The full names, each once, in the order of their bytes.
pub(crate) fn sorted_names(
    alloc: Global,
    occurrences: &[Occurrence],
) -> Result<Vec<&[u8]>, AllocError>
    ensures order { IfOk result (λ names. IsInOrder (borrowed_names names.items)) }
    ensures same { IfOk result
        (λ names. SameTexts (full_names occurrences.now) (borrowed_names names.items)) }
{
    let mut names = Vec::new(alloc);
    for occurrence in occurrences {
        if !occurrence.is_abbreviation() {
            names.push(occurrence.text())?;
        }
    }
    names.sort_unstable();
    names.dedup();
    Ok(names)
}

/// Whether the text comes before the prefix in the order of bytes.
fn is_below(text: &[u8], prefix: &[u8]) -> bool
    ensures { result ≡ is_lt (slice_cmp nat_cmp text.now prefix.now) }
{
    text.cmp(prefix).is_lt()
}

/// Whether the name at this position begins with the prefix.
pub(crate) fn begins_at(sorted: &[&[u8]], position: usize, prefix: &[u8]) -> bool
    ensures { result ≡ begins_at (borrowed_names sorted.now) prefix.now position }
{
    position < sorted.len() && sorted[position].starts_with(prefix)
}

/// The one full name that begins with the prefix.
// Names that begin with the prefix are next to each other, and none is below it: at most two are
// looked at.
fn only_with<'a>(sorted: &[&'a [u8]], prefix: &[u8]) -> Meaning<'a>
    requires { IsInOrder (borrowed_names sorted.now) }
    ensures { meaning_of result ≡ only_with (borrowed_names sorted.now) prefix.now }
{
    let first = sorted.partition_point(|text| is_below(text, prefix));
    if !begins_at(sorted, first, prefix) {
        Meaning::Nothing
    } else if begins_at(sorted, first + 1, prefix) {
        Meaning::Several
    } else {
        Meaning::One(sorted[first])
    }
}

/// The prefix of an abbreviation: its text before the three dots.
fn prefix(abbreviation: &[u8]) -> &[u8]
    ensures { result.now ≡ prefix abbreviation.now }
{
    &abbreviation[..abbreviation.len().saturating_sub(3)]
}

/// The meaning of the occurrence among these full names.
fn meaning_among<'a>(sorted: &[&'a [u8]], occurrence: &'a Occurrence) -> Meaning<'a>
    requires { IsInOrder (borrowed_names sorted.now) }
    ensures { meaning_of result ≡ meaning (borrowed_names sorted.now) occurrence.now }
{
    if occurrence.is_abbreviation() {
        only_with(sorted, prefix(occurrence.text()))
    } else {
        Meaning::One(occurrence.text())
    }
}

/// The meaning of each occurrence.
pub(crate) fn meanings<'a>(
    alloc: Global,
    sorted: &[&'a [u8]],
    occurrences: &'a [Occurrence],
) -> Result<Vec<Meaning<'a>>, AllocError>
    requires { IsInOrder (borrowed_names sorted.now) }
    ensures { IfOk result (λ v. map meaning_of v.items
        ≡ map (meaning (borrowed_names sorted.now)) occurrences.now) }
{
    let mut meanings = Vec::new(alloc);
    for occurrence in occurrences {
        meanings.push(meaning_among(sorted, occurrence))?;
    }
    Ok(meanings)
}
