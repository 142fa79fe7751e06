//! The faults of names.
ghost use Rattle.std.specs.Prelude.{◌≡◌, ◌++◌, ◌∷◌, [], IfOk, OnOk, if◌then◌else◌};
ghost use Rattle.tangle_faults.specs.Faults.{fault_about};
ghost use Rattle.tangle_names.specs.Faults.{name_faults, named_place_of, resolution_fault};
ghost use Rattle.tangle_names.specs.Numbers.{warning};
ghost use Rattle.tangle_names.specs.Resolution.{IsResolutionOf};

use crate::Resolved;
use crate::resolution::Resolution;
use std::alloc::Global;
use tangle_lines::{Fault, FaultKind, NoMemory, Origin};
use tangle_scan::{Occurrence, Web};

/// Adds a fault about a name.
fn add_fault(
    alloc: Global,
    faults: &mut Vec<Fault>,
    web: &Web,
    kind: FaultKind,
    origin: Origin,
    name: &[u8],
) -> Result<(), NoMemory>
    ensures { OnOk result (faults.new.items
        ≡ faults.old.items ++ fault_about kind (named_place_of web.now.file_names origin) name.now
        ∷ []) }
{
    faults.push(Fault::about(alloc, kind, web.file_name(origin), origin.line, name)?)?;
    Ok(())
}

/// Adds the fault of an occurrence that resolves to no name.
fn add_resolution_fault(
    alloc: Global,
    faults: &mut Vec<Fault>,
    web: &Web,
    occurrence: &Occurrence,
    resolved: Resolved,
) -> Result<(), NoMemory>
    ensures { OnOk result (faults.new.items
        ≡ faults.old.items ++ resolution_fault web.now.file_names resolved occurrence.now) }
{
    let origin = occurrence.origin();
    let text = occurrence.text();
    match resolved {
        Resolved::Name(_) => Ok(()),
        Resolved::NoFullName => add_fault(alloc, faults, web, FaultKind::NoFullName, origin, text),
        Resolved::Ambiguous => add_fault(alloc, faults, web, FaultKind::Ambiguous, origin, text),
    }
}

/// Adds the warning that a name begins another, if it does, at the occurrence with this number.
fn add_warning(
    alloc: Global,
    faults: &mut Vec<Fault>,
    web: &Web,
    begins: bool,
    first: usize,
    name: &[u8],
) -> Result<(), NoMemory>
    ensures { OnOk result (faults.new.items
        ≡ faults.old.items ++ (if begins then warning web.now first name.now else [])) }
{
    if !begins {
        return Ok(());
    }
    if let Some(occurrence) = web.occurrences().get(first) {
        let origin = occurrence.origin();
        add_fault(alloc, faults, web, FaultKind::PrefixName, origin, name)?;
    }
    Ok(())
}

/// The faults of names of a web, by its resolution: those of the occurrences, and then those of the
/// names.
pub(crate) fn faults(
    alloc: Global,
    web: &Web,
    resolution: &Resolution,
) -> Result<Vec<Fault>, NoMemory>
    requires { IsResolutionOf web.now.occurrences resolution.now }
    ensures { IfOk result (λ v. v.items ≡ name_faults web.now) }
{
    let mut faults = Vec::new(alloc);
    let occurrences = web.occurrences();
    for number in 0..occurrences.len() {
        let resolved = resolution.resolved[number];
        add_resolution_fault(alloc, &mut faults, web, &occurrences[number], resolved)?;
    }
    let names = resolution.names.as_slice();
    for id in 0..names.len() {
        let begins = resolution.begins[id];
        let first = resolution.first_occurrences[id];
        add_warning(alloc, &mut faults, web, begins, first, names[id].bytes())?;
    }
    Ok(faults)
}
