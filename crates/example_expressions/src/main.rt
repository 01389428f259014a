//! Answers arithmetic expressions.
//!
//! `example_expressions` reads expressions from standard input, one a line. For each it prints a line: the value, or
//! where the expression is wrong and which tokens were expected there. The exit status is 0 if each line has a value, 1
//! if some line has none, and 2 if reading or writing fails.
#![tactic(auto, using(enumset::specs::Sets::set_laws))]

ghost use Rattle.std.specs.Prelude.{◌≡◌, ◌⊎◌, if◌then◌else◌, is_ok, IfOk, IfErr};
ghost use Rattle.std.specs.Str.{chars};
ghost use Rattle.example_expressions.specs.Answers.{column_of, IsValueOf, IsFaultOf};

mod fault;
mod first;
mod kind;
mod parser;
mod part;
mod token;
mod value;

use fault::{Fault, Reason};
use std::alloc::Global;
use std::io;
use std::process::ExitCode;
use token::Token;

/// The value of an expression, or why there is none.
fn answer(alloc: Global, line: &str) -> Result<i64, Fault>
    ensures value { IfOk result (IsValueOf (chars line.now)) }
    ensures fault { IfErr result (λ fault. (fault.reason ≡ Reason.OutOfMemory)
        ⊎ IsFaultOf (chars line.now) fault) }
{
    let tokens = token::tokens(alloc, line)?;
    if let Err(unexpected) = parser::check(&tokens) {
        let column = column_at(line, &tokens, unexpected.place);
        return Err(Reason::Unexpected(unexpected).at(column));
    }
    value::evaluate(alloc, &tokens)
}

/// The column of the token at an index, or the column past the end of the line.
fn column_at(line: &str, tokens: &[Token], place: usize) -> usize
    ensures { result ≡ column_of (chars line.now) tokens.now place }
{
    match tokens.get(place) {
        Some(token) => token.column,
        None => line.chars().count() + 1,
    }
}

/// Answers each line in turn.
fn answer_all<R: Input + Print + AllocGlobal>(rt: &R) -> io::Result<ExitCode> {
    let mut status = 0;
    for line in rt.lines(rt.alloc()) {
        let answer = answer(rt.alloc(), line?.as_str());
        status = status_after(status, &answer);
        match answer {
            Ok(value) => println!(rt; "{value}")?,
            Err(fault) => println!(rt; "{fault}")?,
        }
    }
    Ok(ExitCode::from(status))
}

/// The exit status after one more line: 1 if it has no value, else what the status was.
fn status_after(status: u8, answer: &Result<i64, Fault>) -> u8
    ensures { result ≡ (if is_ok answer.now then status else 1) }
{
    match answer {
        Ok(_) => status,
        Err(_) => 1,
    }
}

fn main(rt: HostRuntime) -> ExitCode {
    match answer_all(&rt) {
        Ok(status) => status,
        Err(error) => {
            let _ = eprintln!(rt; "example_expressions: {error}");
            ExitCode::from(2)
        }
    }
}
