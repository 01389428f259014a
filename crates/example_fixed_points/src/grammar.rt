//! FIRST and FOLLOW of a grammar with fifteen nonterminals.
//!
//!     program      = statements
//!     statements   = [ statement statements ]
//!     statement    = binding | assignment | choice | loop | block
//!     binding      = "let" NAME "=" expression ";"
//!     assignment   = NAME "=" expression ";"
//!     choice       = "if" expression block otherwise
//!     otherwise    = [ "else" block ]
//!     loop         = "while" expression block
//!     block        = "{" statements "}"
//!     expression   = sum comparison
//!     comparison   = [ "<" sum ]
//!     sum          = product more_products
//!     more_products = [ "+" product more_products ]
//!     product      = "-" product | operand
//!     operand      = NUMBER | NAME | "(" expression ")"
//!
//! The tables below are read off these rules.

ghost use Rattle.std.specs.Prelude.{◌≡◌, ◌↔◌, ℕ, true};
ghost use Rattle.enumset.specs.Sets as set;
ghost use Rattle.enumset.specs.FixedPoints.{IsReachable, union_over};
ghost use Rattle.example_fixed_points.specs.Grammar.{nonterminal, leading_table, leading_tokens_table};
ghost use Rattle.example_fixed_points.specs.Grammar.{enclosing_table, following_tokens_table};

use crate::nonterminal::Nonterminal;
use crate::token::Token;
use enumset::EnumSet;
use enumset::fixed_points::reachable;

/// FIRST: the tokens with which a text of a nonterminal can begin. A rule of the nonterminal begins with such a token,
/// or with a nonterminal whose texts can begin with it.
pub fn first(of: Nonterminal) -> EnumSet<Token>
    ensures { (q : ℕ) → (set.contains result q ≡ true) ↔ ((n : ℕ)
        × IsReachable leading_table (set.only (nonterminal of)) n
        × (set.contains (leading_tokens_table n) q ≡ true)) }
{
    all_leading_tokens(&reachable(EnumSet::only(of), |n| leading(n)))
}

/// FOLLOW: the tokens that can stand after a text of a nonterminal. Such a token stands after it within a rule, or
/// after a nonterminal of which a rule ends with it.
pub fn follow(of: Nonterminal) -> EnumSet<Token>
    ensures { (q : ℕ) → (set.contains result q ≡ true) ↔ ((n : ℕ)
        × IsReachable enclosing_table (set.only (nonterminal of)) n
        × (set.contains (following_tokens_table n) q ≡ true)) }
{
    all_following_tokens(&reachable(EnumSet::only(of), |n| enclosing(n)))
}

/// The nonterminals that may stand first in a rule of a nonterminal.
pub fn leading(of: Nonterminal) -> EnumSet<Nonterminal>
    ensures { result ≡ leading_table (nonterminal of) }
{
    match of {
        Nonterminal::Program => EnumSet::only(Nonterminal::Statements),
        Nonterminal::Statements => EnumSet::only(Nonterminal::Statement),
        Nonterminal::Statement => EnumSet::from([
            Nonterminal::Binding,
            Nonterminal::Assignment,
            Nonterminal::Choice,
            Nonterminal::Loop,
            Nonterminal::Block,
        ]),
        Nonterminal::Binding
        | Nonterminal::Assignment
        | Nonterminal::Choice
        | Nonterminal::Otherwise
        | Nonterminal::Loop
        | Nonterminal::Block
        | Nonterminal::Comparison
        | Nonterminal::MoreProducts
        | Nonterminal::Operand => EnumSet::empty(),
        Nonterminal::Expression => EnumSet::only(Nonterminal::Sum),
        Nonterminal::Sum => EnumSet::only(Nonterminal::Product),
        Nonterminal::Product => EnumSet::only(Nonterminal::Operand),
    }
}

/// The tokens that may stand first in a rule of some nonterminals.
pub fn all_leading_tokens(of: &EnumSet<Nonterminal>) -> EnumSet<Token>
    ensures { result ≡ union_over leading_tokens_table of.now }
{
    let mut tokens = EnumSet::new();
    for nonterminal in of.iter() {
        tokens.insert_all(leading_tokens(nonterminal));
    }
    tokens
}

/// The tokens that may stand first in a rule of a nonterminal.
pub fn leading_tokens(of: Nonterminal) -> EnumSet<Token>
    ensures { result ≡ leading_tokens_table (nonterminal of) }
{
    match of {
        Nonterminal::Program
        | Nonterminal::Statements
        | Nonterminal::Statement
        | Nonterminal::Expression
        | Nonterminal::Sum => EnumSet::empty(),
        Nonterminal::Binding => EnumSet::only(Token::Let),
        Nonterminal::Assignment => EnumSet::only(Token::Name),
        Nonterminal::Choice => EnumSet::only(Token::If),
        Nonterminal::Otherwise => EnumSet::only(Token::Else),
        Nonterminal::Loop => EnumSet::only(Token::While),
        Nonterminal::Block => EnumSet::only(Token::OpenBrace),
        Nonterminal::Comparison => EnumSet::only(Token::Less),
        Nonterminal::MoreProducts => EnumSet::only(Token::Plus),
        Nonterminal::Product => EnumSet::only(Token::Minus),
        Nonterminal::Operand => EnumSet::from([Token::Number, Token::Name, Token::OpenParen]),
    }
}

/// The nonterminals of which a rule may end with a nonterminal.
pub fn enclosing(of: Nonterminal) -> EnumSet<Nonterminal>
    ensures { result ≡ enclosing_table (nonterminal of) }
{
    match of {
        Nonterminal::Program | Nonterminal::Expression => EnumSet::empty(),
        Nonterminal::Statements => EnumSet::from([Nonterminal::Program, Nonterminal::Statements]),
        Nonterminal::Statement => EnumSet::only(Nonterminal::Statements),
        Nonterminal::Binding | Nonterminal::Assignment | Nonterminal::Choice | Nonterminal::Loop =>
            EnumSet::only(Nonterminal::Statement),
        Nonterminal::Otherwise => EnumSet::only(Nonterminal::Choice),
        Nonterminal::Block => EnumSet::from([
            Nonterminal::Statement,
            Nonterminal::Choice,
            Nonterminal::Otherwise,
            Nonterminal::Loop,
        ]),
        Nonterminal::Comparison => EnumSet::only(Nonterminal::Expression),
        Nonterminal::Sum => EnumSet::from([Nonterminal::Expression, Nonterminal::Comparison]),
        Nonterminal::MoreProducts => EnumSet::from([Nonterminal::Sum, Nonterminal::MoreProducts]),
        Nonterminal::Product => EnumSet::from([
            Nonterminal::Sum,
            Nonterminal::MoreProducts,
            Nonterminal::Product,
        ]),
        Nonterminal::Operand => EnumSet::only(Nonterminal::Product),
    }
}

/// The tokens that may stand after some nonterminals within a rule.
pub fn all_following_tokens(of: &EnumSet<Nonterminal>) -> EnumSet<Token>
    ensures { result ≡ union_over following_tokens_table of.now }
{
    let mut tokens = EnumSet::new();
    for nonterminal in of.iter() {
        tokens.insert_all(following_tokens(nonterminal));
    }
    tokens
}

/// The tokens that may stand after a nonterminal within a rule.
pub fn following_tokens(of: Nonterminal) -> EnumSet<Token>
    ensures { result ≡ following_tokens_table (nonterminal of) }
{
    match of {
        Nonterminal::Program => EnumSet::only(Token::End),
        Nonterminal::Statements => EnumSet::only(Token::CloseBrace),
        Nonterminal::Statement => EnumSet::from([
            Token::Let,
            Token::Name,
            Token::If,
            Token::While,
            Token::OpenBrace,
        ]),
        Nonterminal::Binding
        | Nonterminal::Assignment
        | Nonterminal::Choice
        | Nonterminal::Otherwise
        | Nonterminal::Loop
        | Nonterminal::Comparison
        | Nonterminal::MoreProducts
        | Nonterminal::Operand => EnumSet::empty(),
        Nonterminal::Block => EnumSet::only(Token::Else),
        Nonterminal::Expression => EnumSet::from([
            Token::Semicolon,
            Token::OpenBrace,
            Token::CloseParen,
        ]),
        Nonterminal::Sum => EnumSet::only(Token::Less),
        Nonterminal::Product => EnumSet::only(Token::Plus),
    }
}
