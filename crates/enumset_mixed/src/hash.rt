//! What mixed sets feed to a hasher.

ghost use Rattle.std.proofs.Common.{ap};
ghost use Rattle.enumset_repr.specs.Laws.Members.{is_same_iff};

use crate::mixed_enum_set::MixedEnumSet;
use enumset_sets::EnumSetTypeWithRepr;
use std::hash::{Hash, Hasher};

/// A set feeds the hasher the same data as the value that represents it, so equal sets feed equal data.
impl<T: EnumSetTypeWithRepr> Hash for MixedEnumSet<T> {
    ghost hash_input = { λ s. T.Repr.Hash.hash_input (T.Repr.of_members s) };

    ghost respects_eq = { λ s t same. ap (λ u. T.Repr.Hash.hash_input (T.Repr.of_members u)) ((is_same_iff s t).0 same) };

    fn hash<H: Hasher>(&self, state: &mut H) {
        self.repr.hash(state);
    }
}
