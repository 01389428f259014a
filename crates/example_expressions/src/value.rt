//! The value of an expression.

ghost use Rattle.std.specs.Prelude.{◌≡◌, ◌⊎◌, Ok, Err, IfOk, IfErr, OnOk};
ghost use Rattle.example_expressions.specs.Faults.{fault_at};
ghost use Rattle.example_expressions.specs.Values.{before_term, level_value, with_operand, start, seen, with_kind, value_from, value_of};

use crate::fault::{Fault, Reason};
use crate::kind::Kind;
use crate::token::Token;
use std::alloc::Global;

/// What was read between two parentheses: a sum, and a term that the next operand multiplies or divides.
#[derive(Clone, Copy)]
struct Level {
    sum: i64,
    term: i64,
    divides: bool,
    negates: bool,
}

impl Level {
    /// Before a term with a sign, 1 or -1.
    fn before_term(sum: i64, sign: i64) -> Level
        ensures { result ≡ before_term sum sign }
    {
        Level {
            sum,
            term: sign,
            divides: false,
            negates: false,
        }
    }

    fn value(self) -> Result<i64, Reason>
        ensures { result ≡ level_value self }
    {
        self.sum.checked_add(self.term).ok_or(Reason::LargeValue)
    }

    fn read_operand(&mut self, operand: i64) -> Result<(), Reason>
        ensures read { OnOk result (with_operand self.old operand ≡ Ok self.new) }
        ensures fault { IfErr result (λ reason. with_operand self.old operand ≡ Err reason) }
    {
        if self.divides && operand == 0 {
            return Err(Reason::ZeroDivisor);
        }
        let sign = if self.negates { -1 } else { 1 };
        let factor = operand.checked_mul(sign).ok_or(Reason::LargeValue)?;
        let term = if self.divides {
            self.term.checked_div(factor)
        } else {
            self.term.checked_mul(factor)
        };
        self.term = term.ok_or(Reason::LargeValue)?;
        self.negates = false;
        Ok(())
    }
}

/// What was read in each open pair of parentheses, the innermost last, and whether the last token was an operand.
#[derive(Drop)]
struct State {
    outer: Vec<Level>,
    level: Level,
    is_after_operand: bool,
}

impl State {
    /// Reads a token.
    fn read(&mut self, token: Token) -> Result<(), Reason>
        ensures read { OnOk result (with_kind token.kind token.number (seen self.old) ≡ Ok (seen self.new)) }
        ensures fault { IfErr result (λ reason. (reason ≡ Reason.OutOfMemory)
            ⊎ (with_kind token.kind token.number (seen self.old) ≡ Err reason)) }
    {
        match token.kind {
            Kind::Number => self.level.read_operand(token.number)?,
            Kind::Open => {
                let pushed = self.outer.push(self.level);
                pushed.map_err(|_| Reason::OutOfMemory)?;
                self.level = Level::before_term(0, 1);
            }
            Kind::Close => {
                let value = self.level.value()?;
                self.level = self.outer.pop().unwrap_or(Level::before_term(0, 1));
                self.level.read_operand(value)?;
            }
            Kind::Plus => self.level = Level::before_term(self.level.value()?, 1),
            Kind::Minus if self.is_after_operand => {
                self.level = Level::before_term(self.level.value()?, -1);
            }
            Kind::Minus => self.level.negates = !self.level.negates,
            Kind::Times | Kind::Divide => self.level.divides = token.kind == Kind::Divide,
            Kind::End => {}
        }
        self.is_after_operand = matches!(token.kind, Kind::Number | Kind::Close);
        Ok(())
    }
}

/// The value of an expression up to the column of the current token.
fn value_up_to(column: &mut usize, alloc: Global, tokens: &[Token]) -> Result<i64, Reason>
    ensures value { IfOk result (λ value. value_from column.old start tokens.now ≡ Ok value) }
    ensures fault { IfErr result (λ reason. (reason ≡ Reason.OutOfMemory)
        ⊎ (value_from column.old start tokens.now ≡ Err (fault_at column.new reason))) }
{
    let mut state = State {
        outer: Vec::new(alloc),
        level: Level::before_term(0, 1),
        is_after_operand: false,
    };
    for token in tokens {
        *column = token.column;
        state.read(*token)?;
    }
    state.level.value()
}

/// The value of tokens that are an expression, or the first fault on the way to it.
pub fn evaluate(alloc: Global, tokens: &[Token]) -> Result<i64, Fault>
    ensures value { IfOk result (λ value. value_of tokens.now ≡ Ok value) }
    ensures fault { IfErr result (λ fault. (fault.reason ≡ Reason.OutOfMemory)
        ⊎ (value_of tokens.now ≡ Err fault)) }
{
    let mut column = 1;
    let value = value_up_to(&mut column, alloc, tokens);
    value.map_err(|reason| reason.at(column))
}
