//! Each function at values that are worked out by hand.

use crate::feature::Feature;
use crate::features::with_needs;
use crate::grammar::{first, follow};
use crate::grammar_in_passes::{Flow, add_flow, all_first, set_of};
use crate::nonterminal::Nonterminal;
use crate::nullable::{Rule, nullable};
use crate::state::State;
use crate::states::{to_come, to_come_by_comparison, to_come_in_rounds};
use crate::token::Token;
use enumset::{EnumSet, enum_set};

/// After each state of an article, those that can come directly. Nothing comes after `Archived`, which has no row.
fn table() -> [EnumSet<State>; 6] {
    [
        enum_set!(State::Review | State::Withdrawn),
        enum_set!(State::Approved | State::Rejected),
        enum_set!(State::Published),
        enum_set!(State::Draft),
        enum_set!(State::Archived),
        EnumSet::empty(),
    ]
}

#[test]
fn states_to_come(rt: HostRuntime) {
    let table = table();
    assert!(rt; to_come(&table, enum_set!(State::Draft)) == EnumSet::all());
    assert!(rt;
        to_come(&table, enum_set!(State::Approved))
            == enum_set!(State::Approved | State::Published | State::Archived)
    );
    assert!(rt;
        to_come(&table, enum_set!(State::Withdrawn | State::Archived))
            == enum_set!(State::Withdrawn | State::Archived)
    );
    assert!(rt; to_come(&table, EnumSet::empty()) == EnumSet::empty());
    assert!(rt; to_come_in_rounds(&table, enum_set!(State::Rejected)) == EnumSet::all());
    assert!(rt;
        to_come_in_rounds(&table, enum_set!(State::Published))
            == enum_set!(State::Published | State::Archived)
    );
    assert!(rt; to_come_by_comparison(&table, enum_set!(State::Rejected)) == EnumSet::all());
    assert!(rt;
        to_come_by_comparison(&table, enum_set!(State::Published))
            == enum_set!(State::Published | State::Archived)
    );
}

#[test]
fn features_with_needs(rt: HostRuntime) {
    assert!(rt;
        with_needs(enum_set!(Feature::Tls))
            == enum_set!(Feature::Tls | Feature::Net | Feature::Core)
    );
    assert!(rt;
        with_needs(enum_set!(Feature::Api))
            == enum_set!(
                Feature::Api | Feature::Http | Feature::Net | Feature::Json | Feature::Core
            )
    );
    assert!(rt; with_needs(EnumSet::empty()) == EnumSet::empty());
}

#[test]
fn first_and_follow(rt: HostRuntime) {
    let statement = enum_set!(
        Token::Let | Token::Name | Token::If | Token::While | Token::OpenBrace
    );
    assert!(rt; first(Nonterminal::Program) == statement);
    assert!(rt; first(Nonterminal::Otherwise) == enum_set!(Token::Else));
    assert!(rt;
        first(Nonterminal::Expression)
            == enum_set!(Token::Minus | Token::Number | Token::Name | Token::OpenParen)
    );
    let after_sum = enum_set!(
        Token::Less | Token::Semicolon | Token::OpenBrace | Token::CloseParen
    );
    assert!(rt; follow(Nonterminal::Sum) == after_sum);
    assert!(rt; follow(Nonterminal::Operand) == after_sum.union(enum_set!(Token::Plus)));
    assert!(rt;
        follow(Nonterminal::Block)
            == statement.union(enum_set!(Token::Else | Token::CloseBrace | Token::End))
    );
    assert!(rt; follow(Nonterminal::Program) == enum_set!(Token::End));
}

#[test]
fn first_in_passes(rt: HostRuntime) {
    let sets = all_first();
    for of in EnumSet::<Nonterminal>::all() {
        assert!(rt; set_of(&sets, of) == first(of));
    }
}

#[test]
fn tokens_flow(rt: HostRuntime) {
    let tokens = [
        enum_set!(Token::End),
        enum_set!(Token::CloseBrace),
        enum_set!(Token::Let),
    ];
    let sources = [
        EnumSet::empty(),
        enum_set!(Nonterminal::Program | Nonterminal::Statements),
        enum_set!(Nonterminal::Statements),
    ];
    let flow = Flow {
        tokens: &tokens,
        sources: &sources,
    };
    let mut sets = [EnumSet::empty(), EnumSet::empty(), EnumSet::empty()];
    add_flow(&flow, &mut sets);
    assert!(rt; set_of(&sets, Nonterminal::Program) == enum_set!(Token::End));
    assert!(rt;
        set_of(&sets, Nonterminal::Statements) == enum_set!(Token::CloseBrace | Token::End)
    );
    assert!(rt;
        set_of(&sets, Nonterminal::Statement)
            == enum_set!(Token::Let | Token::CloseBrace | Token::End)
    );
}

#[test]
fn nullable_nonterminals(rt: HostRuntime) {
    let rules = [
        rule(Nonterminal::Program, enum_set!(Nonterminal::Statements)),
        rule(Nonterminal::Statements, EnumSet::empty()),
        rule(
            Nonterminal::Statements,
            enum_set!(Nonterminal::Statement | Nonterminal::Statements),
        ),
        rule(Nonterminal::Statement, enum_set!(Nonterminal::Binding)),
        rule(Nonterminal::Otherwise, EnumSet::empty()),
        rule(
            Nonterminal::Expression,
            enum_set!(Nonterminal::Sum | Nonterminal::Comparison),
        ),
        rule(Nonterminal::Comparison, EnumSet::empty()),
        rule(
            Nonterminal::Sum,
            enum_set!(Nonterminal::Product | Nonterminal::MoreProducts),
        ),
        rule(Nonterminal::MoreProducts, EnumSet::empty()),
        rule(Nonterminal::Product, enum_set!(Nonterminal::Operand)),
    ];
    assert!(rt;
        nullable(&rules)
            == enum_set!(
                Nonterminal::Program
                    | Nonterminal::Statements
                    | Nonterminal::Otherwise
                    | Nonterminal::Comparison
                    | Nonterminal::MoreProducts
            )
    );
    assert!(rt; nullable(&[]) == EnumSet::empty());
}

fn rule(of: Nonterminal, parts: EnumSet<Nonterminal>) -> Rule {
    Rule { of, parts }
}
