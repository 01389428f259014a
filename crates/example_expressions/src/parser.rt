//! Parsing: whether tokens are an expression, and if not, which tokens were expected where.

ghost use Rattle.std.specs.Prelude.{◌≡◌, ◌≤◌, ◌<◌, ◌^◌, OnOk, IfErr};
ghost use Rattle.std.specs.Fmt.{WritesOnOk};
ghost use Rattle.example_expressions.specs.Grammar.{kinds_of, IsExpression, IsFault};
ghost use Rattle.example_expressions.specs.States.{next_kinds, Reads, Refuses};
ghost use Rattle.example_expressions.specs.Texts.{separator, kinds_text};

use crate::first::operand_kinds;
use crate::kind::Kind;
use crate::token::Token;
use enumset::EnumSet;
use std::fmt;

/// An unexpected token.
#[derive(Clone, Copy, Debug)]
pub struct Unexpected {
    /// Its index, or the number of tokens if they end too soon.
    pub place: usize,
    pub found: Kind,
    /// The kinds of tokens that were expected.
    pub expected: EnumSet<Kind>,
}

/// Checks that tokens are an expression. The fault is the first unexpected token, with all kinds that are expected.
pub fn check(tokens: &[Token]) -> Result<(), Unexpected>
    ensures accepted { OnOk result (IsExpression (kinds_of tokens.now)) }
    ensures refused { IfErr result (IsFault (kinds_of tokens.now)) }
{
    let mut reader = Reader {
        place: 0,
        last: Kind::Open,
        depth: 0,
    };
    for token in tokens {
        reader.read(token.kind)?;
    }
    reader.read(Kind::End)
}

/// How many tokens have been read, the last of them, and how many parentheses are open.
#[derive(Clone, Copy)]
struct Reader {
    place: usize,
    last: Kind,
    depth: usize,
}

impl Reader {
    /// Reads a token, if it is expected.
    // `closes_open`: if `)` is expected, a parenthesis is open.
    #[tactic(auto, using(crate::proofs::Reading::closes_open))]
    fn read(&mut self, kind: Kind) -> Result<(), Unexpected>
        requires place { self.old.place < 2 ^ 63 }
        requires depth { self.old.depth ≤ self.old.place }
        ensures read { OnOk result (Reads self.old kind self.new) }
        ensures depth { OnOk result (self.new.depth ≤ self.new.place) }
        ensures fault { IfErr result (Refuses self.old kind) }
    {
        let expected = self.expected();
        if !expected.contains(kind) {
            return Err(Unexpected {
                place: self.place,
                found: kind,
                expected,
            });
        }
        match kind {
            Kind::Open => self.depth += 1,
            Kind::Close => self.depth -= 1,
            _ => {}
        }
        self.last = kind;
        self.place += 1;
        Ok(())
    }

    /// The kinds of tokens that are expected.
    // `written_out`: the clause is a list, written out for each state.
    #[tactic(auto, using(enumset::specs::Sets::written_out))]
    fn expected(&self) -> EnumSet<Kind>
        ensures { result ≡ next_kinds self.now }
    {
        match self.last {
            Kind::Number | Kind::Close => {
                let closing = if self.depth == 0 {
                    Kind::End
                } else {
                    Kind::Close
                };
                EnumSet::from([Kind::Minus, Kind::Plus, Kind::Times, Kind::Divide, closing])
            }
            Kind::End => EnumSet::new(),
            _ => operand_kinds(),
        }
    }
}

impl fmt::Display for Kind {
    ghost use Rattle.std.specs.Prelude.{Some};
    ghost use Rattle.example_expressions.specs.Texts.{kind_text};

    ghost output = { λ kind. Some (kind_text kind) };

    fn fmt<W: fmt::Write>(&self, f: &mut fmt::Formatter<W>) -> fmt::Result {
        f.write_str(match self {
            Kind::Number => "number",
            Kind::Open => "(",
            Kind::Minus => "-",
            Kind::Plus => "+",
            Kind::Times => "*",
            Kind::Divide => "/",
            Kind::Close => ")",
            Kind::End => "end",
        })
    }
}

impl fmt::Display for Unexpected {
    ghost use Rattle.std.specs.Prelude.{Some};
    ghost use Rattle.example_expressions.specs.Texts.{unexpected_text};

    ghost output = { λ token. Some (unexpected_text token) };

    fn fmt<W: fmt::Write>(&self, f: &mut fmt::Formatter<W>) -> fmt::Result {
        write!(f, "found {}, expected ", self.found)?;
        write_kinds(self.expected, f)
    }
}

/// Writes kinds, with a comma and a space between them.
fn write_kinds<W: fmt::Write>(kinds: EnumSet<Kind>, f: &mut fmt::Formatter<W>) -> fmt::Result
    ensures { WritesOnOk W.write_str_gives f.old result (kinds_text kinds) f.new }
{
    let mut is_first = true;
    for kind in kinds {
        write_separator(is_first, f)?;
        write!(f, "{kind}")?;
        is_first = false;
    }
    Ok(())
}

/// Writes a comma and a space, but not before the first kind.
fn write_separator<W: fmt::Write>(is_first: bool, f: &mut fmt::Formatter<W>) -> fmt::Result
    ensures { WritesOnOk W.write_str_gives f.old result (separator is_first) f.new }
{
    if is_first {
        return Ok(());
    }
    f.write_str(", ")
}
