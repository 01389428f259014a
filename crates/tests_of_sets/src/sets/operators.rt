//! The operators on sets and on elements, as users write them.

use crate::sets::{expect_letters, expect_marks, marks, two_of};
use enumset_worked::{Letters, Marks};

/// The results of `&`, `|`, `^`, `-` and `!`, and the first operand after `&=`, `|=`, `^=` and `-=`. The first operand is
/// a set, the second a set or an element.
macro_rules! results {
    ($a:expr, $b:expr) => {{
        let (mut and, mut or, mut xor, mut sub) = ($a, $a, $a, $a);
        and &= $b;
        or |= $b;
        xor ^= $b;
        sub -= $b;
        [$a & $b, $a | $b, $a ^ $b, $a - $b, !$a, and, or, xor, sub]
    }};
}

/// The sets that the operators on elements make.
macro_rules! sets_of_elements {
    ($a:expr, $b:expr) => {{
        let both = $a | $b;
        [
            $a & $b, both, $a ^ $b, $a - $b, !$a, $a & both, $b | both, $a ^ both, $a - both,
        ]
    }};
}

#[test]
fn sets_have_operators(rt: HostRuntime) {
    let ab = two_of(Letters::A, Letters::B);
    let sets = results!(ab, two_of(Letters::B, Letters::C));
    let wanted = [2, 7, 5, 1, 124, 2, 7, 5, 1];
    expect_letters(&rt, "{A, B} and {B, C}", &sets, &wanted);
    let sets = results!(ab, Letters::C);
    let wanted = [0, 7, 7, 3, 124, 0, 7, 7, 3];
    expect_letters(&rt, "{A, B} and C", &sets, &wanted);
}

#[test]
fn mixed_sets_have_operators(rt: HostRuntime) {
    let nine = marks(9);
    let sets = results!(nine, marks(10));
    expect_marks(&rt, "9 and 10", &sets, &[8, 11, 3, 1, 6, 8, 11, 3, 1]);
    let sets = results!(nine, Marks::B);
    expect_marks(&rt, "9 and B", &sets, &[0, 11, 11, 9, 6, 0, 11, 11, 9]);
    let sets = results!(nine, two_of(Marks::A, Marks::B));
    let wanted = [1, 11, 10, 8, 6, 1, 11, 10, 8];
    expect_marks(&rt, "9 and {A, B}", &sets, &wanted);
}

#[test]
fn elements_have_operators(rt: HostRuntime) {
    let sets = sets_of_elements!(Letters::A, Letters::B);
    expect_letters(&rt, "A and B", &sets, &[0, 3, 3, 1, 126, 1, 3, 2, 0]);
}
