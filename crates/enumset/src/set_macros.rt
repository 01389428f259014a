//! The macros of sets: elements that are written out, and operations over many sets.
//!
//! Each macro mirrors the one of the same name of Rust's `enumset`, and is an expression in the body of a function.
//! Elements and sets are paths.

/// Returns the [`EnumSet`](crate::EnumSet) of elements joined by `|`, such as `enum_set!(Right::Read | Right::Share)`,
/// or the empty set if there are none. The elements are paths of one type. Any number of single `|` may follow. Rust's
/// macro also takes the names of sets, and works in constants.
#[macro_export]
macro_rules! enum_set {
    ($(|)*) => {
        $crate::EnumSet::empty()
    };
    ($first:path $(|)*) => {
        $crate::EnumSet::only($first)
    };
    ($first:path $(| $rest:path)+ $(|)*) => {
        $crate::EnumSet::only($first)$(.union($crate::EnumSet::only($rest)))+
    };
}

/// Returns the [`MixedEnumSet`](crate::set::MixedEnumSet) of elements joined by `|`, as [`enum_set!`] returns an
/// `EnumSet`.
#[macro_export]
macro_rules! mixed_enum_set {
    ($($elements:tt)*) => {
        $crate::internal::set::convert_mixed($crate::enum_set!($($elements)*))
    };
}

/// Returns the union of sets separated by commas: `a | b | c`. Each is a path, such as a variable. One comma may
/// follow. Rust's macro also takes elements, and works in constants.
#[macro_export]
macro_rules! enum_set_union {
    ($first:path $(, $rest:path)* $(,)?) => {
        $first$(.union($rest))*
    };
}

/// Returns the intersection of sets separated by commas: `a & b & c`. Each is a path, such as a variable. One comma may
/// follow. Rust's macro also takes elements, and works in constants.
#[macro_export]
macro_rules! enum_set_intersection {
    ($first:path $(, $rest:path)* $(,)?) => {
        $first$(.intersection($rest))*
    };
}

/// Returns the first of sets separated by commas, without the members of the others: `a & !b & !c`. Each is a path,
/// such as a variable. One comma may follow. Rust's macro also takes elements, and works in constants.
#[macro_export]
macro_rules! enum_set_difference {
    ($first:path $(, $rest:path)* $(,)?) => {
        $first$(.intersection($rest.complement()))*
    };
}

/// Returns the symmetric difference of sets separated by commas: `a ^ b ^ c`. Each is a path, such as a variable. One
/// comma may follow. Rust's macro also takes elements, and works in constants.
#[macro_export]
macro_rules! enum_set_symmetric_difference {
    ($first:path $(, $rest:path)* $(,)?) => {
        $first$(.symmetric_difference($rest))*
    };
}

/// Returns the complement of a set: `!a`. The set is a path, such as a variable. One comma may follow. Rust's macro
/// also takes an element, and works in constants.
#[macro_export]
macro_rules! enum_set_complement {
    ($set:path $(,)?) => {
        $set.complement()
    };
}
