//! Names as keys of a set: a name is hashed by one write of all its bytes.
ghost use Rattle.std.specs.Prelude.{◌≡◌, ◌∷◌, [], is_some, position};
ghost use Rattle.std.specs.List.{list_any};
ghost use Rattle.std.specs.Str.{bytes_eq};
ghost use Rattle.std.specs.Cmp.Rules.{comparing, hashing};
ghost use Rattle.std.proofs.Common.{rules};

use indexmap::IndexSet;
use std::hash::{Hash, Hasher};
use std::marker::Model;

/// The bytes of a key: a set owns those of its names, and a look-up lends those of its text.
#[derive(Drop)]
pub(crate) enum KeyBytes<'a> {
    Own(Vec<u8>),
    Lent(&'a [u8]),
}

/// A name of a set, or a text that is looked up in it.
#[derive(Drop)]
pub(crate) struct NameKey<'a>(pub(crate) KeyBytes<'a>);

impl<'a> Model for NameKey<'a> {
    ghost use Rattle.tangle_names.specs.Names.{NameText};
    ghost use Rattle.tangle_names.specs.Keys.{key_bytes};

    ghost Value = { NameText };

    ghost view = { λ key. key_bytes key.0 };
}

impl<'a> NameKey<'a> {
    pub(crate) fn bytes(&self) -> &[u8]
        ensures { result.now ≡ self.now }
    {
        match &self.0 {
            KeyBytes::Own(bytes) => bytes.as_slice(),
            KeyBytes::Lent(bytes) => bytes,
        }
    }
}

impl<'a> PartialEq for NameKey<'a> {
    ghost eq = { bytes_eq };

    ghost laws = { Prim.search (comparing, rules) };

    fn eq(&self, other: &NameKey<'a>) -> bool {
        self.bytes() == other.bytes()
    }
}

impl<'a> Eq for NameKey<'a> {
    ghost laws = { Prim.search (comparing, rules) };
}

impl<'a> Hash for NameKey<'a> {
    ghost hash_input = { λ key. key ∷ [] };

    ghost respects_eq = { Prim.search (hashing, rules) };

    fn hash<H: Hasher>(&self, state: &mut H) {
        state.write(self.bytes());
    }
}

/// The names of a web, in order.
pub(crate) type NameSet = IndexSet<NameKey<'static>>;

/// The number of the name with this text, if there is one.
pub(crate) fn find<'a>(names: &NameSet, text: &'a [u8]) -> Option<usize>
    ensures index { result ≡ position (bytes_eq text.now) names.now.keys }
    ensures found { is_some result ≡ list_any (bytes_eq text.now) names.now.keys }
{
    // The set is one of keys that may borrow, so that the text is not copied to be looked up.
    let names: &IndexSet<NameKey<'a>> = names;
    names.get_index_of(&NameKey(KeyBytes::Lent(text)))
}
