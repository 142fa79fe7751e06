//! Laws of the tokens that a C compiler reads.
ghost use Rattle.std.specs.Prelude.{◌≡◌, ◌≤◌, ℕ, List, [], ◌∷◌, ◌++◌, true, length, take, flat_map};
ghost use Rattle.std.specs.List.{concat};
ghost use Rattle.c_tokens.specs.Grammar.{is_element};
ghost use Rattle.c_tokens.specs.Reading.{spliced, longest, elements, tokens};
ghost use Rattle.c_tokens.specs.Touching.{TextKind, IsOfKind, kinds_may_touch};
ghost use Rattle.c_tokens.specs.Borders.{are_apart, are_all_apart};

/// Each byte of a text, without the backslashes before line feeds, is in one white-space character,
/// comment or token, in order. At each place the longest one that there can be is taken.
#[tactic(auto, using(crate::proofs::LongestLemmas::are_longest))]
pub fn elements_are_the_longest()
    ensures all { (text : List ℕ) → concat (elements text) ≡ spliced text }
    ensures is_one { (b : ℕ) (rest : List ℕ)
        → is_element (take (longest is_element (b ∷ rest)) (b ∷ rest)) ≡ true }
    ensures longest { (text : List ℕ) (n : ℕ) → n ≤ length text
        → is_element (take n text) ≡ true → n ≤ longest is_element text }
{}

/// The tokens of two texts that may touch, written together, are those of the first and then those
/// of the second.
#[tactic(auto, using(crate::proofs::TouchingLemmas::touching_tokens))]
pub fn texts_that_may_touch_stay_apart()
    ensures { (k g : TextKind) (a b : List ℕ) → IsOfKind k a → IsOfKind g b
        → kinds_may_touch k g ≡ true → tokens (a ++ b) ≡ tokens a ++ tokens b }
{}

/// The same of two texts of several tokens, if the first is whole and a border is between both; and
/// of any number of such texts in a row.
#[tactic(auto, using(crate::proofs::BorderLemmas::all_apart))]
pub fn texts_with_borders_stay_apart()
    ensures two { (a b : List ℕ) → are_apart a b ≡ true → tokens (a ++ b) ≡ tokens a ++ tokens b }
    ensures row { (texts : List (List ℕ)) → are_all_apart texts ≡ true
        → tokens (concat texts) ≡ flat_map tokens texts }
{}
