//! Laws of loading.
ghost use Rattle.std.specs.Prelude.{◌≡◌, ℕ, List, None, Ok, Contains};
ghost use Rattle.std.specs.Prelude.{false};
ghost use Rattle.std.specs.List.{IsDistinct};
ghost use Rattle.std.specs.Str.{bytes_eq};
ghost use Rattle.tangle_files.specs.Adding.{has_file};
ghost use Rattle.tangle_files.specs.Lines.{FileTable};
ghost use Rattle.tangle_files.specs.Roles.{RolesRead};
ghost use Rattle.tangle_loading.specs.Loading.{Contents, load_of, missing_of, round_after};

/// Loading goes on to its end: one more round asks for nothing.
#[tactic(auto, using(crate::proofs::RoundLemmas::one_more))]
pub fn one_more_round_changes_nothing()
    ensures { (contents : Contents) (roles : RolesRead)
        → round_after contents roles (load_of contents roles) ≡ load_of contents roles }
{}

/// No name is asked for twice.
#[tactic(auto, using(crate::proofs::RoundLemmas::load_once))]
pub fn each_name_is_asked_for_once()
    ensures { (contents : Contents) (roles : RolesRead)
        → IsDistinct bytes_eq (load_of contents roles).asked }
{}

/// If an included file is still missing after loading, and its name is a file name, the folder has
/// no file of that name.
#[tactic(auto, using(crate::proofs::RoundLemmas::none_missing))]
pub fn missing_names_are_not_there()
    ensures { (contents : Contents) (roles : RolesRead) (files : FileTable)
        → (load_of contents roles).loaded ≡ Ok files
        → (name : List ℕ) → Contains (missing_of files roles) name → has_file files name ≡ false
        → contents name ≡ None }
{}
