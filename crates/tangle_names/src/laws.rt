//! Laws of names, which hold for each web.
ghost use Rattle.std.specs.Prelude.{◌≡◌, ◌<◌, ◌↔◌, ℕ, List, [], true, false, length};
ghost use Rattle.std.specs.Prelude.{slice_index_or, Contains, IsSome};
ghost use Rattle.std.specs.List.{IsDistinct};
ghost use Rattle.std.specs.Str.{bytes_eq};
ghost use Rattle.tangle_lexer.specs.Occurrences.{OccurrenceRead};
ghost use Rattle.tangle_names.specs.Names.{full_names, prefix};
ghost use Rattle.tangle_names.specs.Resolving.{first_file_number, first_number, first_occurrence};
ghost use Rattle.tangle_names.specs.Resolving.{names_in_order, resolve};
ghost use Rattle.tangle_names.specs.Laws.{IsFirst, IsFirstIfAny, ResolvesFull};
ghost use Rattle.tangle_names.specs.Laws.{ResolvesPrefix, ResolvesTo, ResolvesToFile};

/// The names of the table are the full names of the web, each once, and some occurrence resolves to
/// each.
pub fn names_are_the_full_names()
    ensures same { (occurrences : List OccurrenceRead) (text : List ℕ)
        → Contains (names_in_order occurrences) text ↔ Contains (full_names occurrences) text }
    ensures once { (occurrences : List OccurrenceRead)
        → IsDistinct bytes_eq (names_in_order occurrences) }
    ensures occur { (occurrences : List OccurrenceRead) (text : List ℕ)
        → Contains (names_in_order occurrences) text
        → IsSome (first_occurrence occurrences text) }
{}

/// A full name resolves to itself. An abbreviation resolves to the one full name of the web that
/// begins with its prefix. It has no full name where none begins with the prefix, and is ambiguous
/// where several different ones do.
#[tactic(auto, using(crate::proofs::LawLemmas::full_law, crate::proofs::LawLemmas::prefix_law))]
pub fn occurrences_resolve_by_the_whole_web()
    ensures full { (occurrences : List OccurrenceRead) (occurrence : OccurrenceRead)
        → Contains occurrences occurrence → occurrence.is_abbreviation ≡ false
        → ResolvesFull (names_in_order occurrences) occurrence.text
        (resolve occurrences occurrence) }
    ensures abbreviated { (occurrences : List OccurrenceRead) (occurrence : OccurrenceRead)
        → Contains occurrences occurrence → occurrence.is_abbreviation ≡ true
        → ResolvesPrefix (names_in_order occurrences) (full_names occurrences)
        (prefix occurrence.text) (resolve occurrences occurrence) }
{}

/// The first occurrence of a name is the first that resolves to it. The first occurrence of a name
/// as a file is the first with `@(` that resolves to it, if there is one.
pub fn first_occurrences_resolve_to_their_names()
    ensures first { (occurrences : List OccurrenceRead) (id : ℕ)
        → id < length (names_in_order occurrences)
        → IsFirst (ResolvesTo occurrences id) occurrences
        (first_number occurrences (slice_index_or (names_in_order occurrences) id [])) }
    ensures file { (occurrences : List OccurrenceRead) (id : ℕ)
        → id < length (names_in_order occurrences)
        → IsFirstIfAny (ResolvesToFile occurrences id) occurrences
        (first_file_number occurrences (slice_index_or (names_in_order occurrences) id [])) }
{}
