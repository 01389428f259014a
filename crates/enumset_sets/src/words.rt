//! Sets to and from words of 64 bits, by the table of [`EnumSet`](crate::EnumSet).

mod in_arrays;
mod in_slices;
mod in_vectors;
