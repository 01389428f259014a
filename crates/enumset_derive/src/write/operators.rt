//! Writes the operators on elements.

use super::layout::{write_generic_head, write_head};
use super::{Subject, Writing};

/// A binary operator.
#[derive(Clone, Copy)]
struct Operator {
    trait_name: &'static str,
    function: &'static str,
    /// The name of the operation on sets, in the model and in code.
    operation: &'static str,
}

const OPERATORS: [Operator; 4] = [
    Operator {
        trait_name: "BitAnd",
        function: "bitand",
        operation: "intersection",
    },
    Operator {
        trait_name: "BitOr",
        function: "bitor",
        operation: "union",
    },
    Operator {
        trait_name: "BitXor",
        function: "bitxor",
        operation: "symmetric_difference",
    },
    Operator {
        trait_name: "Sub",
        function: "sub",
        operation: "difference",
    },
];

/// Writes the five operators.
pub(super) fn write_operators(out: &mut String, subject: &Subject) -> Writing {
    for operator in OPERATORS {
        write_operator(out, subject, operator)?;
    }
    write_not(out, subject)
}

/// The type parameter for the right operand, which must not hide the enum.
fn operand_of(name: &str) -> &'static str {
    match name {
        "O" => "P",
        _ => "O",
    }
}

/// Writes a binary operator. One implementation serves each right operand that becomes a set: an element, a set, an
/// array of elements, and types of users.
fn write_operator(out: &mut String, subject: &Subject, operator: Operator) -> Writing {
    let (alloc, name, library) = (subject.alloc, subject.name, subject.library.cited());
    let (function, operation) = (operator.function, operator.operation);
    let (words, operand) = (operation.replace(alloc, "_", " ")?, operand_of(name));
    let doc = format!(in alloc; "/// The {words} of `{{self}}` and the set that `rhs` becomes.\n")?;
    let bound = format!(in alloc; "<{operand}: std::convert::Into<EnumSet<{name}>>>")?;
    let form = format!(in alloc; "std::ops::{}<{operand}>", operator.trait_name)?;
    write_generic_head(out, subject, &doc, &bound, &form)?;
    write!(
        out,
        "    ghost use Rattle.std.specs.Prelude.{{◌≡◌}};
    ghost use Rattle.{library}.specs.Sets as set;\n
    type Output = EnumSet<{name}>;\n
    ghost {function}_gives = {{ λ a b r. (s t : set.BitSet)
        × (s ≡ set.only (⟦<{name} as EnumSetType>⟧.elements.bit a))
        × {operand}.converts b t × (r ≡ set.{operation} s t) }};\n
    fn {function}(self, rhs: {operand}) -> EnumSet<Self> {{
        EnumSet::only(self).{operation}(rhs.into())
    }}
}}"
    )
}

/// Writes `!`.
fn write_not(out: &mut String, subject: &Subject) -> Writing {
    let (name, library) = (subject.name, subject.library.cited());
    write_head(
        out,
        subject,
        "/// The set of all other elements.\n",
        "std::ops::Not",
    )?;
    write!(
        out,
        "    ghost use Rattle.std.specs.Prelude.{{◌≡◌}};
    ghost use Rattle.{library}.specs.Sets as set;
    ghost use Rattle.{library}.specs.Sets.{{valid_bits}};\n
    type Output = EnumSet<{name}>;\n
    ghost not_gives = {{ λ a r. r ≡ set.difference
        (valid_bits ⟦<{name} as EnumSetType>⟧.elements)
        (set.only (⟦<{name} as EnumSetType>⟧.elements.bit a)) }};\n
    fn not(self) -> EnumSet<Self> {{
        !EnumSet::only(self)
    }}
}}"
    )
}
