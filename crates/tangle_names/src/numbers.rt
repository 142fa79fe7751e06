//! Numbers the full names, and resolves the occurrences.
ghost use Rattle.std.specs.Prelude.{◌≡◌, [], IfOk, OnOk, map};
ghost use Rattle.tangle_names.specs.Resolving.{names_of, resolved_meaning, with_name};
ghost use Rattle.tangle_names.specs.Sorted.{meaning_of};

use crate::Resolved;
use crate::keys::{KeyBytes, NameKey, NameSet, find};
use crate::sorted::Meaning;
use std::alloc::{AllocError, Global};

/// The resolution of a meaning; a new name is added.
fn resolve_meaning(
    alloc: Global,
    names: &mut NameSet,
    meaning: Meaning,
) -> Result<Resolved, AllocError>
    ensures names { OnOk result (names.new.keys
        ≡ with_name names.old.keys (meaning_of meaning.entry)) }
    ensures number { IfOk result (λ resolved. resolved
        ≡ resolved_meaning names.old.keys (meaning_of meaning.entry)) }
{
    let text = match meaning {
        Meaning::Nothing => return Ok(Resolved::NoFullName),
        Meaning::Several => return Ok(Resolved::Ambiguous),
        Meaning::One(text) => text,
    };
    if let Some(id) = find(names, text) {
        return Ok(Resolved::Name(id));
    }
    let id = names.len();
    names.insert(NameKey(KeyBytes::Own(Vec::from_slice(alloc, text)?)))?;
    Ok(Resolved::Name(id))
}

/// The resolution of each meaning. The full names are added to `names`, in the
/// order of the first meanings that are them.
pub(crate) fn resolve_all(
    alloc: Global,
    names: &mut NameSet,
    meanings: &[Meaning],
) -> Result<Vec<Resolved>, AllocError>
    requires { names.old.keys ≡ [] }
    ensures names { OnOk result (names.new.keys ≡ names_of (map meaning_of meanings.now)) }
    ensures resolved { let meant = map meaning_of meanings.now in
        IfOk result (λ resolved. resolved.items ≡ map (resolved_meaning (names_of meant)) meant) }
{
    let mut resolved = Vec::with_capacity(alloc, meanings.len())?;
    for meaning in meanings {
        resolved.push(resolve_meaning(alloc, names, *meaning)?)?;
    }
    Ok(resolved)
}
