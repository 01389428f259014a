//! `u8`, `u16`, `u32`, `u64` and `u128` as representations: a value represents the set of the numbers of its bits that
//! are 1, where the lowest bit has the number 0.

mod u128_repr;
mod u16_repr;
mod u32_repr;
mod u64_repr;
mod u8_repr;
