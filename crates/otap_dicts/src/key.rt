ghost use Rattle.std.specs.Prelude.{◌∷◌, [], bytes_eq};
ghost use Rattle.std.proofs.Common.{ap};
ghost use Rattle.std.specs.Cmp.{on_equiv, on_per, partial_equiv_from_equiv};
ghost use Rattle.std.specs.Cmp.Lexicographic.{bytes_decides, nat_list_eq_equiv};

use indexmap::Equivalent;
use std::hash::{Hash, Hasher};

/// A value of a dictionary. It feeds a hasher all its bytes at once, where a vector feeds one byte after the other.
#[derive(Debug, Drop)]
pub(crate) struct Key {
    pub(crate) bytes: Vec<u8>,
}

impl PartialEq for Key {
    ghost eq = { λ x y. bytes_eq x.bytes.items y.bytes.items };

    ghost laws = { on_per (λ x. x.bytes.items) (partial_equiv_from_equiv nat_list_eq_equiv) };

    fn eq(&self, other: &Key) -> bool {
        self.bytes == other.bytes
    }
}

impl Eq for Key {
    ghost laws = { on_equiv (λ x. x.bytes.items) nat_list_eq_equiv };
}

impl Hash for Key {
    ghost hash_input = { λ x. x.bytes.items ∷ [] };

    ghost respects_eq = { λ x y same. ap (λ bytes. bytes ∷ []) ((bytes_decides x.bytes.items y.bytes.items).0 same) };

    fn hash<H: Hasher>(&self, state: &mut H) {
        state.write(&self.bytes);
    }
}

/// A value that is looked up in a dictionary.
#[derive(Clone, Copy, Debug)]
pub(crate) struct Sought<'a> {
    pub(crate) bytes: &'a [u8],
}

impl PartialEq for Sought<'_> {
    ghost eq = { λ x y. bytes_eq x.bytes.now y.bytes.now };

    ghost laws = { on_per (λ x. x.bytes.now) (partial_equiv_from_equiv nat_list_eq_equiv) };

    fn eq(&self, other: &Sought<'_>) -> bool {
        self.bytes == other.bytes
    }
}

impl Eq for Sought<'_> {
    ghost laws = { on_equiv (λ x. x.bytes.now) nat_list_eq_equiv };
}

impl Hash for Sought<'_> {
    ghost hash_input = { λ x. x.bytes.now ∷ [] };

    ghost respects_eq = { λ x y same. ap (λ bytes. bytes ∷ []) ((bytes_decides x.bytes.now y.bytes.now).0 same) };

    fn hash<H: Hasher>(&self, state: &mut H) {
        state.write(self.bytes);
    }
}

impl Equivalent<Key> for Sought<'_> {
    ghost equivalent = { λ sought key. bytes_eq sought.bytes.now key.bytes.items };

    ghost respects_hash = { λ sought key same. ap (λ bytes. bytes ∷ []) ((bytes_decides sought.bytes.now key.bytes.items).0 same) };

    ghost respects_eq = { λ sought x y. nat_list_eq_equiv.congr sought.bytes.now x.bytes.items y.bytes.items };

    fn equivalent(&self, key: &Key) -> bool {
        self.bytes == key.bytes.as_slice()
    }
}
