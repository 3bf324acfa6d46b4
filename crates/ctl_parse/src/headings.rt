//! Headings of subprograms, and lists in parentheses (RM 6.1, 12.3).

ghost use Rattle.std.specs.Prelude.{◌≡◌, ◌&&◌, ◌∷◌, [], MatchOption, map, true, false};
ghost use Rattle.ctl_grammar.specs.Form.{none, at, pair, word, act, nest, ◌▸◌, Formals, Associations};
ghost use Rattle.ctl_grammar.specs.Grammar.{apart, expression, identifier, next_identifier, next_identifiers, identifiers, mode_behind_in, mode, formal, next_formal, formal_list, in_formals, optional_formals, procedure, function, specification, association, next_association, association_list, optional_associations, body};
ghost use Rattle.ctl_grammar.specs.Nodes.{alone, first, second, row_of, is_none, is_bare, bare_of};
ghost use Rattle.ctl_parse.specs.Parts.{association_node, formal_node, mode_label, placed_node, specification_node};
ghost use Rattle.ctl_parse.specs.Reads.{Reads, sees};
ghost use Rattle.ctl_parse.specs.View.{identifier_node, view};

use crate::cursor::{NOWHERE, Parser};
use ctl_syntax::expression::Expression;
use ctl_syntax::item::{Association, Formal, Indicator, Mode, Specification};
use ctl_syntax::name::{Identifier, Name};
use ctl_tree::span::Span;
use ctl_tree::token::Kind;
use sqlite_items::Items;

/// Gives the place of the first of these names.
fn first_place(names: &Items<Identifier>) -> Span
    ensures { is_none (row_of (map identifier_node names.now)) ≡ false → at result ≡ second (first (row_of (map identifier_node names.now))) }
{
    match names.as_slice().first() {
        Some(name) => name.span,
        None => NOWHERE,
    }
}

/// Tells whether an expression is an identifier alone.
fn is_bare_name(expression: &Expression<Identifier>) -> bool
    ensures { result ≡ is_bare (view expression.now) }
{
    match expression {
        Expression::Name(_, name) => name.suffixes.as_slice().is_empty(),
        _ => false,
    }
}

/// Gives the identifier that an expression is, where it is one alone.
fn bare_name(expression: Expression<Identifier>) -> Option<Identifier>
    ensures { MatchOption result (is_bare (view expression) ≡ false) (λ i. is_bare (view expression) ≡ true → identifier_node i ≡ bare_of (view expression)) }
{
    match expression {
        Expression::Name(_, Name { first, suffixes }) => {
            drop(suffixes);
            Some(first)
        }
        other => {
            drop(other);
            None
        }
    }
}

impl<'a> Parser<'a> {
    /// Reads `"," id`.
    fn next_identifier(&mut self) -> Identifier
        ensures { Reads next_identifier none self.old (identifier_node result) self.new }
    {
        self.skip(Kind::Comma);
        self.identifier()
    }

    /// Reads `id {"," id}`.
    fn identifier_list(&mut self) -> Items<Identifier>
        ensures { Reads (identifier ▸ next_identifiers) none self.old (row_of (map identifier_node result)) self.new }
    {
        let mut all = Items::new(self.alloc);
        let first = self.identifier();
        self.push(&mut all, first);
        'more: while self.next_is(Kind::Comma) {
            let next = self.next_identifier();
            self.push(&mut all, next);
        }
        all
    }

    /// Reads `id {"," id}`, with the place of the first.
    pub(crate) fn identifiers(&mut self) -> (Span, Items<Identifier>)
        ensures { Reads identifiers none self.old (placed_node result) self.new }
    {
        let names = self.identifier_list();
        let span = first_place(&names);
        (span, names)
    }

    /// Reads `["in"] ["out"]` (RM 6.2).
    fn mode(&mut self) -> Mode
        ensures { Reads mode none self.old (alone (mode_label result)) self.new }
    {
        if self.next_is(Kind::In) {
            self.skip(Kind::In);
            self.mode_behind_in()
        } else if self.next_is(Kind::Out) {
            self.skip(Kind::Out);
            Mode::Out
        } else {
            Mode::In
        }
    }

    /// Reads `["out"]` behind `in`.
    fn mode_behind_in(&mut self) -> Mode
        ensures { Reads mode_behind_in none self.old (alone (mode_label result)) self.new }
    {
        if self.next_is(Kind::Out) {
            self.skip(Kind::Out);
            Mode::InOut
        } else {
            Mode::In
        }
    }

    /// Reads `ids ":" ["in"] ["out"] dotted`.
    fn formal(&mut self) -> Formal<Identifier, Identifier>
        ensures { Reads formal none self.old (formal_node result) self.new }
    {
        let (_, names) = self.identifiers();
        self.skip(Kind::Colon);
        let mode = self.mode();
        let mark = self.dotted();
        Formal { names, mode, mark }
    }

    /// Reads `";" formal`.
    fn next_formal(&mut self) -> Formal<Identifier, Identifier>
        ensures { Reads next_formal none self.old (formal_node result) self.new }
    {
        self.skip(Kind::Semicolon);
        self.formal()
    }

    /// Reads `formal {";" formal}`.
    fn formal_list(&mut self) -> Items<Formal<Identifier, Identifier>>
        ensures { Reads formal_list none self.old (row_of (map formal_node result)) self.new }
    {
        let mut all = Items::new(self.alloc);
        let first = self.formal();
        self.push(&mut all, first);
        'more: while self.next_is(Kind::Semicolon) {
            let next = self.next_formal();
            self.push(&mut all, next);
        }
        all
    }

    /// Reads `"(" formal {";" formal} ")"`.
    pub(crate) fn in_formals(&mut self) -> Items<Formal<Identifier, Identifier>>
        ensures { Reads in_formals none self.old (row_of (map formal_node result)) self.new }
    {
        self.skip(Kind::LeftParenthesis);
        let formals = self.formal_list();
        self.skip(Kind::RightParenthesis);
        formals
    }

    /// Reads `"(" formal {";" formal} ")"`, a construct.
    pub(crate) fn formals(&mut self) -> Items<Formal<Identifier, Identifier>>
        ensures { Reads (nest Formals) none self.old (row_of (map formal_node result)) self.new }
    {
        let is_next = self.next_is(Kind::LeftParenthesis);
        if self.open(is_next) {
            let inside = self.in_formals();
            self.close();
            inside
        } else {
            Items::new(self.alloc)
        }
    }

    /// Reads `[formals]`.
    fn optional_formals(&mut self) -> Items<Formal<Identifier, Identifier>>
        ensures { Reads optional_formals none self.old (row_of (map formal_node result)) self.new }
    {
        if self.next_is(Kind::LeftParenthesis) {
            self.formals()
        } else {
            Items::new(self.alloc)
        }
    }

    /// Reads `"procedure" id [formals]`.
    fn procedure(&mut self) -> Specification<Identifier, Identifier>
        ensures { Reads procedure none self.old (specification_node result) self.new }
    {
        let span = self.mark(Kind::Procedure);
        let name = self.identifier();
        let formals = self.optional_formals();
        Specification {
            indicator: Indicator::Absent,
            span,
            name,
            formals,
            result: None,
        }
    }

    /// Reads `"function" id [formals] "return" dotted`.
    pub(crate) fn function(&mut self) -> Specification<Identifier, Identifier>
        ensures { Reads function none self.old (specification_node result) self.new }
    {
        let span = self.mark(Kind::Function);
        let name = self.identifier();
        let formals = self.optional_formals();
        self.skip(Kind::Return);
        let result = self.dotted();
        Specification {
            indicator: Indicator::Absent,
            span,
            name,
            formals,
            result: Some(result),
        }
    }

    /// Reads the heading of a subprogram.
    pub(crate) fn specification(&mut self) -> Specification<Identifier, Identifier>
        ensures { Reads specification none self.old (specification_node result) self.new }
    {
        if self.next_is(Kind::Function) {
            self.function()
        } else {
            self.procedure()
        }
    }

    /// Tells whether an arrow stands behind an identifier alone. An arrow behind another expression is left, and is unexpected to
    /// what follows.
    fn at_named(&self, value: &Expression<Identifier>) -> bool
        ensures { result ≡ (is_bare (view value.now) && sees (Kind.Arrow ∷ []) self.now) }
    {
        is_bare_name(value) && self.next_is(Kind::Arrow)
    }

    /// Reads `"=>" expr`.
    fn associated(&mut self) -> Expression<Identifier>
        ensures { Reads (act (λ v. pair none (second v)) (word Kind.Arrow ▸ apart expression)) none self.old (pair none (view result)) self.new }
    {
        self.skip(Kind::Arrow);
        self.expression()
    }

    /// Reads `[id "=>"] expr`, where what stands before the arrow is read as an expression.
    fn association(&mut self) -> Association<Identifier>
        ensures { Reads association none self.old (association_node result) self.new }
    {
        let value = self.expression();
        if self.at_named(&value) {
            let name = bare_name(value);
            let value = self.associated();
            Association { name, value }
        } else {
            Association { name: None, value }
        }
    }

    /// Reads `"," assoc`.
    fn next_association(&mut self) -> Association<Identifier>
        ensures { Reads next_association none self.old (association_node result) self.new }
    {
        self.skip(Kind::Comma);
        self.association()
    }

    /// Reads `assoc {"," assoc}`.
    fn association_list(&mut self) -> Items<Association<Identifier>>
        ensures { Reads association_list none self.old (row_of (map association_node result)) self.new }
    {
        let mut all = Items::new(self.alloc);
        let first = self.association();
        self.push(&mut all, first);
        'more: while self.next_is(Kind::Comma) {
            let next = self.next_association();
            self.push(&mut all, next);
        }
        all
    }

    /// Reads `"(" assoc {"," assoc} ")"`.
    fn in_associations(&mut self) -> Items<Association<Identifier>>
        ensures { Reads (body Associations) none self.old (row_of (map association_node result)) self.new }
    {
        self.skip(Kind::LeftParenthesis);
        let associations = self.association_list();
        self.skip(Kind::RightParenthesis);
        associations
    }

    /// Reads `"(" assoc {"," assoc} ")"`, a construct.
    pub(crate) fn associations(&mut self) -> Items<Association<Identifier>>
        ensures { Reads (nest Associations) none self.old (row_of (map association_node result)) self.new }
    {
        let is_next = self.next_is(Kind::LeftParenthesis);
        if self.open(is_next) {
            let inside = self.in_associations();
            self.close();
            inside
        } else {
            Items::new(self.alloc)
        }
    }

    /// Reads `[assocs]`.
    pub(crate) fn optional_associations(&mut self) -> Items<Association<Identifier>>
        ensures { Reads optional_associations none self.old (row_of (map association_node result)) self.new }
    {
        if self.next_is(Kind::LeftParenthesis) {
            self.associations()
        } else {
            Items::new(self.alloc)
        }
    }
}
