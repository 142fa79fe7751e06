//! Finds the names that begin another name.
ghost use Rattle.std.specs.Prelude.{◌≡◌, IfOk, length, map, slice_set, true};
ghost use Rattle.std.specs.List.{IsDistinct, position_or_len};
ghost use Rattle.std.specs.Str.{bytes_eq};
ghost use Rattle.tangle_names.specs.Faults.{begins_another};
ghost use Rattle.tangle_names.specs.Sorted.{IsInOrder, SameTexts, borrowed_names};

use crate::keys::{NameSet, find};
use crate::sorted::begins_at;
use std::alloc::{AllocError, Global};

/// Flags the name with this text.
fn flag(flags: &mut Vec<bool>, names: &NameSet, text: &[u8])
    requires { length flags.old.items ≡ length names.now.keys }
    ensures { flags.new.items
        ≡ slice_set flags.old.items (position_or_len (bytes_eq text.now) names.now.keys) true }
{
    if let Some(id) = find(names, text) {
        flags[id] = true;
    }
}

/// A flag for each name, by number: whether the name begins another one. In the order of bytes,
/// such a name begins the next one.
pub(crate) fn beginning_flags(
    alloc: Global,
    sorted: &[&[u8]],
    names: &NameSet,
) -> Result<Vec<bool>, AllocError>
    requires order { IsInOrder (borrowed_names sorted.now) }
    requires same { SameTexts names.now.keys (borrowed_names sorted.now) }
    requires distinct { IsDistinct bytes_eq names.now.keys }
    ensures { IfOk result (λ v. v.items ≡ map (begins_another names.now.keys) names.now.keys) }
{
    let mut begins = vec![in alloc; false; names.len()]?;
    for position in 0..sorted.len() {
        if begins_at(sorted, position + 1, sorted[position]) {
            flag(&mut begins, names, sorted[position]);
        }
    }
    Ok(begins)
}
