//! Finds the first counted occurrence of each name.
ghost use Rattle.std.specs.Prelude.{◌≡◌, ◌<◌, ℕ, IfOk, length, map, slice_index_or};
ghost use Rattle.tangle_lexer.specs.Occurrences.{OccurrenceRead};
ghost use Rattle.tangle_names.specs.declared.Resolved.{Resolved};
ghost use Rattle.tangle_names.specs.Numbers.{SetsNumber, first_by_number, is_counted};

use crate::Resolved;
use std::alloc::{AllocError, Global};
use tangle_scan::{Occurrence, OccurrenceRole};

/// Which occurrences count when the first one is searched.
#[derive(Clone, Copy, Debug, PartialEq, Eq)]
pub enum Counted {
    /// All occurrences: definitions, uses and mentions.
    All,
    /// Those with `@(`, which make their name a file.
    Files,
    /// The uses, which are in C parts.
    Uses,
}

/// For each name, the number of the first counted occurrence that resolves to it, or the number of
/// occurrences where there is none.
// It goes from the last occurrence to the first, so that an earlier number replaces a later one.
pub(crate) fn first_numbers(
    alloc: Global,
    occurrences: &[Occurrence],
    resolved: &[Resolved],
    count: usize,
    counted: Counted,
) -> Result<Vec<usize>, AllocError>
    requires { length resolved.now ≡ length occurrences.now }
    ensures size { IfOk result (λ v. length v.items ≡ count) }
    ensures numbers { IfOk result (λ v. (resolve : OccurrenceRead → Resolved)
        → resolved.now ≡ map resolve occurrences.now → (id : ℕ) → id < count
        → slice_index_or v.items id 0 ≡ first_by_number resolve counted occurrences.now id) }
{
    let mut numbers = vec![in alloc; occurrences.len(); count]?;
    let mut i = occurrences.len();
    while i > 0 {
        i -= 1;
        let is_included = is_counted(&occurrences[i], counted);
        set_number(&mut numbers, is_included, i, resolved[i]);
    }
    Ok(numbers)
}

fn is_counted(occurrence: &Occurrence, counted: Counted) -> bool
    ensures { result ≡ is_counted counted occurrence.now }
{
    match counted {
        Counted::All => true,
        Counted::Files => occurrence.is_file(),
        Counted::Uses => occurrence.role() == OccurrenceRole::Use,
    }
}

/// Sets the number of the name to which an occurrence resolves, if the occurrence is counted.
fn set_number(numbers: &mut Vec<usize>, is_included: bool, number: usize, resolved: Resolved)
    ensures { SetsNumber numbers.old.items numbers.new.items is_included number resolved }
{
    if let Resolved::Name(id) = resolved {
        if is_included && id < numbers.len() {
            numbers[id] = number;
        }
    }
}
