//! Sets to vectors of words.

ghost use Rattle.std.specs.Prelude.{◌≡◌, IsOk, IfOk};
ghost use Rattle.enumset_repr.specs.Words.{words};

use crate::element::EnumSetType;
use crate::enum_set::EnumSet;
use enumset_repr::EnumSetTypeRepr;
use std::alloc::{AllocError, Global};

impl<T: EnumSetType> EnumSet<T> {
    /// Returns the words of the set, of 64 bits each, the lowest first, as many as its representation has. Their memory
    /// is allocated at once; a representation without words needs none. If there is no memory, the call returns
    /// `AllocError`: the contract says what is in the words, not when there is memory. Rust's call takes no allocator.
    pub fn to_vec(&self, alloc: Global) -> Result<Vec<u64>, AllocError>
        ensures succeeds { T.Repr.PREFERRED_ARRAY_LEN ≡ 0 → IsOk result }
        ensures words { IfOk result (λ v. v.items ≡ words self.now T.Repr.PREFERRED_ARRAY_LEN) }
    {
        let mut all = Vec::with_capacity(alloc, T::Repr::PREFERRED_ARRAY_LEN)?;
        all.resize(T::Repr::PREFERRED_ARRAY_LEN, 0)?;
        self.copy_into_slice_truncated(&mut all);
        Ok(all)
    }
}
