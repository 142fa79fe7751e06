//! Why an edit is refused in a session.
ghost use Rattle.std.specs.Prelude.{◌≡◌};
ghost use Rattle.tangle_session.specs.Edits.{has_role, session_refusal};

use tangle_lines::{Edit, Files, NoMemory, Refusal, Roles};

/// Why a list of edits is refused: the number of the first refused edit, from 0, and its refusal.
/// Out of memory has the number 0, whichever edit ran out of it.
#[derive(Clone, Copy, Debug, PartialEq, Eq)]
pub struct ListRefusal {
    /// The number of edits before the refused one.
    pub at: usize,
    /// Why this edit is refused.
    pub refusal: Refusal,
}

impl From<NoMemory> for ListRefusal {
    ghost use Rattle.std.specs.Prelude.{◌≡◌};
    ghost use Rattle.tangle_session.specs.Edits.{list_memory};

    ghost from_gives = { λ _ e. e ≡ list_memory };

    fn from(_: NoMemory) -> Self {
        ListRefusal {
            at: 0,
            refusal: Refusal::NoMemory,
        }
    }
}

/// Whether the name is that of the web or of the change file.
fn has_role(roles: &Roles, name: &[u8]) -> bool
    ensures { result ≡ has_role roles.now name.now }
{
    if name == roles.web() {
        return true;
    }
    match roles.change() {
        Some(change) => name == change,
        None => false,
    }
}

/// Why a session refuses an edit, other than out of memory. The role of a file counts only if the
/// file is there.
pub(crate) fn refusal_to_apply(files: &Files, roles: &Roles, edit: &Edit) -> Option<Refusal>
    ensures { result ≡ session_refusal files.now roles.now edit.now }
{
    if let Some(refusal) = files.refusal_to_edit(edit) {
        return Some(refusal);
    }
    match edit {
        Edit::Discard { file } if has_role(roles, file) => Some(Refusal::RoleFile),
        _ => None,
    }
}
