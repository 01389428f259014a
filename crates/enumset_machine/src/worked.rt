//! The worked types.

/// A type whose sets, or mixed sets, the program runs commands over.
#[derive(Clone, Copy, Debug, PartialEq, Eq)]
pub enum Worked {
    /// `letters`: bits 0 to 6, in a `u8`.
    Letters,
    /// `four`: bits 0 to 3, in a `u8`.
    Four,
    /// `sparse`: bits 10, 20, 30 and 127, in a `u128`.
    Sparse,
    /// `marks`: bits 0, 1 and 2, in a `u8`.
    Marks,
    /// `wide`: bits 3, 64 and 130, in three words.
    Wide,
    /// `pair-words`: bits 0 and 64, in two words.
    PairWords,
    /// `pair-number`: bits 0 and 64, in a `u128`.
    PairNumber,
    /// `high`: bits 7, 6 and 5, in a `u8`.
    High,
    /// `masks`: bits 0, 4 and 6, in a `u8`.
    Masks,
    /// `single`: bit 0, in a `u8`.
    Single,
    /// `nothing`: no bit, in a `u8`.
    Nothing,
    /// `mixed-letters`: mixed sets of `letters`.
    MixedLetters,
    /// `mixed-four`: mixed sets of `four`.
    MixedFour,
    /// `mixed-sparse`: mixed sets of `sparse`.
    MixedSparse,
    /// `mixed-marks`: mixed sets of `marks`.
    MixedMarks,
    /// `mixed-pair-words`: mixed sets of `pair-words`.
    MixedPairWords,
    /// `mixed-pair-number`: mixed sets of `pair-number`.
    MixedPairNumber,
    /// `mixed-high`: mixed sets of `high`.
    MixedHigh,
    /// `mixed-masks`: mixed sets of `masks`.
    MixedMasks,
    /// `mixed-single`: mixed sets of `single`.
    MixedSingle,
    /// `mixed-nothing`: mixed sets of `nothing`.
    MixedNothing,
}
