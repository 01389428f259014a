//! Writes how a variant is read from its name.

use super::layout::{guard_of, write_head};
use super::{Subject, Writing};
use enumset_source::tokens;

/// Writes the error of `FromStr`, and the implementation of `FromStr`.
pub(super) fn write_from_str(out: &mut String, subject: &Subject) -> Writing {
    write_error(out, subject)?;
    let name = subject.name;
    write_head(
        out,
        subject,
        "/// The variant that has this name, as `EnumSetNames::of_name`.\n",
        "std::str::FromStr",
    )?;
    write!(
        out,
        "    ghost use Rattle.std.specs.Prelude.{{◌≡◌, option_map}};
    ghost use Rattle.std.specs.Result.{{result_ok}};
    ghost use Rattle.enumset.specs.Names.{{names_of, bit_named}};\n
    type Err = Parse{name}Error;\n
    ghost from_str_gives = {{ λ text r. option_map ⟦<{name} as EnumSetType>⟧.elements.bit (result_ok r)
        ≡ bit_named (names_of ⟦<{name} as EnumSetType>⟧.elements ⟦<{name} as EnumSetNames>⟧.names) text }};\n
    fn from_str(s: &str) -> std::result::Result<Self, Parse{name}Error> {{
        Self::of_name(s).ok_or(Parse{name}Error)
    }}
}}"
    )
}

/// Writes the error.
fn write_error(out: &mut String, subject: &Subject) -> Writing {
    let (name, guard) = (subject.name, guard_of(subject));
    let head = &subject.element.declaration.head;
    write!(
        out,
        "\n\n/// The error of parsing a `{name}`: no variant has this name.
{guard}#[derive(Clone, Copy, PartialEq, Eq, Debug)]\n"
    )?;
    if !head.visibility.is_empty() {
        write!(out, "{} ", tokens::Written(head.visibility))?;
    }
    write!(
        out,
        "struct Parse{name}Error;\n
{guard}impl std::fmt::Display for Parse{name}Error {{
    ghost use Rattle.std.specs.Prelude.{{Some, codes}};\n
    ghost output = {{ λ _. Some (codes \"no {name} has this name\") }};\n
    fn fmt<W: std::fmt::Write>(&self, f: &mut std::fmt::Formatter<W>) -> std::fmt::Result {{
        f.write_str(\"no {name} has this name\")
    }}
}}\n
{guard}impl std::error::Error for Parse{name}Error {{}}"
    )
}
