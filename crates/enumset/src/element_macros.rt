//! The macros for element types: the body of `enum_from_u32`, and the table of names.

/// Returns the variant that has a bit.
///
/// `variant_of!(bit, Month: January February March)` names the enum and all its variants, at most sixteen, in the order
/// of their bits, which are 0, 1, 2 and so on. For other bits, each bit comes before its variant:
/// `variant_of!(bit, Sparse: 10 A 20 B 127 C)`. Then there may be as many variants as an enum can have, 256.
///
/// A variant must have the bit. The macro expands to a `match` over the bits. An enum without variants has no bit, so
/// for it the macro expands to `unreachable!()`.
///
/// Rust's derive writes such a match.
#[macro_export]
macro_rules! variant_of {
    ($bit:expr, $of:ident:) => {
        unreachable!()
    };
    ($bit:expr, $of:ident: $($variant:ident)+) => {
        $crate::variant_of!(@place $bit, $of [] [0 1 2 3 4 5 6 7 8 9 10 11 12 13 14 15] $($variant)+)
    };
    (@place $bit:expr, $of:ident [$($placed:tt)*] [$at:literal $($later:literal)*] $v:ident $($variant:ident)*) => {
        $crate::variant_of!(@place $bit, $of [$($placed)* $at $v] [$($later)*] $($variant)*)
    };
    (@place $bit:expr, $of:ident [$($placed:tt)+] [$($later:literal)*]) => {
        $crate::variant_of!($bit, $of: $($placed)+)
    };
    ($bit:expr, $of:ident: $($at:literal $variant:ident)+) => {{
        let bit: u32 = $bit;
        match bit {
            $($at => $of::$variant,)+
            _ => {
                $crate::variant_of!(@none bit $($at)+);
                $crate::variant_of!(@last $of $($variant)+)
            }
        }
    }};
    // No bit is left for the last arm. The proof learns this for 64 bits at a time, since it cannot handle many more
    // than 128 at once.
    (
        @none $bit:ident
        $a0:literal $a1:literal $a2:literal $a3:literal $a4:literal $a5:literal $a6:literal $a7:literal
        $a8:literal $a9:literal $a10:literal $a11:literal $a12:literal $a13:literal $a14:literal $a15:literal
        $a16:literal $a17:literal $a18:literal $a19:literal $a20:literal $a21:literal $a22:literal $a23:literal
        $a24:literal $a25:literal $a26:literal $a27:literal $a28:literal $a29:literal $a30:literal $a31:literal
        $a32:literal $a33:literal $a34:literal $a35:literal $a36:literal $a37:literal $a38:literal $a39:literal
        $a40:literal $a41:literal $a42:literal $a43:literal $a44:literal $a45:literal $a46:literal $a47:literal
        $a48:literal $a49:literal $a50:literal $a51:literal $a52:literal $a53:literal $a54:literal $a55:literal
        $a56:literal $a57:literal $a58:literal $a59:literal $a60:literal $a61:literal $a62:literal $a63:literal
        $($at:literal)+
    ) => {{
        $crate::variants::is_listed_later(
            $bit,
            &[
                $a0, $a1, $a2, $a3, $a4, $a5, $a6, $a7, $a8, $a9, $a10, $a11, $a12, $a13, $a14, $a15,
                $a16, $a17, $a18, $a19, $a20, $a21, $a22, $a23, $a24, $a25, $a26, $a27, $a28, $a29, $a30, $a31,
                $a32, $a33, $a34, $a35, $a36, $a37, $a38, $a39, $a40, $a41, $a42, $a43, $a44, $a45, $a46, $a47,
                $a48, $a49, $a50, $a51, $a52, $a53, $a54, $a55, $a56, $a57, $a58, $a59, $a60, $a61, $a62, $a63,
            ],
            &[$($at),+],
        );
        $crate::variant_of!(@none $bit $($at)+)
    }};
    (@none $bit:ident $($at:literal)+) => {
        $crate::variants::is_listed($bit, &[$($at),+])
    };
    // The last arm is never taken. With more than sixteen variants it names one of them, so that the match can compile
    // to a load from a table. With at most sixteen it is `unreachable!()`, so that the match can compile to the bit.
    (
        @last $of:ident $v0:ident $v1:ident $v2:ident $v3:ident $v4:ident $v5:ident $v6:ident $v7:ident
        $v8:ident $v9:ident $v10:ident $v11:ident $v12:ident $v13:ident $v14:ident $v15:ident $($variant:ident)+
    ) => {
        $of::$v0
    };
    (@last $of:ident $($variant:ident)+) => {
        unreachable!()
    };
}

/// Returns the table that [`EnumSetNames::names`](crate::EnumSetNames::names) has to return:
/// `names_of!(Right: Read Write Share)` lists all variants of the enum in the order of the list of bits, each under its
/// own name. If one has another name, a name follows each variant:
/// `names_of!(Right: Read "read" Write "write" Share "Share")`.
#[macro_export]
macro_rules! names_of {
    ($of:ident:) => {
        &[]
    };
    ($of:ident: $($variant:ident)+) => {
        &[$(($of::$variant, stringify!($variant))),+]
    };
    ($of:ident: $($variant:ident $name:literal)+) => {
        &[$(($of::$variant, $name)),+]
    };
}
