//! Operators, literals, and what stands behind names without a parenthesis (RM 4).

ghost use Rattle.std.specs.Prelude.{◌≡◌, MatchOption, Some, true, false, not};
ghost use Rattle.ctl_grammar.specs.Form.{none, starts, act, alt};
ghost use Rattle.ctl_grammar.specs.Grammar.{second_word, joiner, relational, sign, adding, multiplying, number, string, null, selection, spot, identifier, attribute, attributes, is_among, known, suffix};
ghost use Rattle.ctl_grammar.specs.Nodes.{alone, all_of_access, attribute_of, selector_of};
ghost use Rattle.ctl_syntax.specs.declared.name.Suffix.TheVariants as suffixes;
ghost use Rattle.ctl_parse.specs.Kept.{spelled_attribute};
ghost use Rattle.ctl_parse.specs.Reads.{Reads, sees};
ghost use Rattle.ctl_parse.specs.View.{arithmetic_label, attribute_label, is_adding, relational_label, sign_node, signs, suffix_node, view};

use crate::cursor::{NOWHERE, Parser};
use ctl_grammar::joining::{first_word, joins};
use ctl_grammar::kind::is_same_kind;
use ctl_grammar::refused::{Reason, Refused};
use ctl_grammar::spelling::is_same_name;
use ctl_syntax::expression::Expression;
use ctl_syntax::name::{Attribute, Identifier, Suffix};
use ctl_syntax::operators::{
    ArithmeticOperator, LogicalOperator, RelationalOperator, UnaryOperator,
};
use ctl_tree::span::Span;
use ctl_tree::token::Kind;

/// Gives the attribute of this name, of those that an identifier names. Case does not count.
fn attribute_named(name: &[u8]) -> Option<Attribute>
    ensures { MatchOption result (is_among attributes name.now ≡ false) (λ a. (is_among attributes name.now ≡ true) × (attribute_label a ≡ Some (spelled_attribute name.now))) }
{
    if is_same_name(b"image", name) {
        Some(Attribute::Image)
    } else if is_same_name(b"first", name) {
        Some(Attribute::First)
    } else if is_same_name(b"last", name) {
        Some(Attribute::Last)
    } else {
        None
    }
}

impl<'a> Parser<'a> {
    /// Reads the words of a logical operator (RM 4.5.1).
    pub(crate) fn joiner(&mut self, operator: LogicalOperator)
        ensures { Reads (joiner operator) none self.old none self.new }
    {
        self.skip(first_word(operator));
        self.second_word(operator);
    }

    /// Reads the second word of a logical operator, if it has one.
    #[tactic(auto, using(crate::proofs::Steps::staying))]
    fn second_word(&mut self, operator: LogicalOperator)
        ensures { Reads (second_word operator) none self.old none self.new }
    {
        match operator {
            LogicalOperator::And | LogicalOperator::Or | LogicalOperator::Xor => {}
            LogicalOperator::AndThen => self.skip(Kind::Then),
            LogicalOperator::OrElse => self.skip(Kind::Else),
        }
    }

    /// Says whether the words of a logical operator are next, by the first of them.
    #[tactic(auto, unfolding(ctl_grammar::specs::Grammar::joiner))]
    pub(crate) fn at_joiner(&self, operator: LogicalOperator) -> bool
        ensures { result ≡ sees (starts (joiner operator)) self.now }
    {
        match self.rest.first() {
            Some(token) => self.fault.is_none() && joins(operator, token.kind),
            None => false,
        }
    }

    /// Says whether a relational operator is next.
    #[tactic(auto, unfolding(ctl_grammar::specs::Grammar::relational))]
    pub(crate) fn at_relational(&self) -> bool
        ensures { result ≡ sees (starts relational) self.now }
    {
        self.next_is(Kind::Equal)
            || self.next_is(Kind::NotEqual)
            || self.next_is(Kind::Less)
            || self.next_is(Kind::LessEqual)
            || self.next_is(Kind::Greater)
            || self.next_is(Kind::GreaterEqual)
    }

    /// Says whether an operator that joins terms is next.
    #[tactic(auto, unfolding(ctl_grammar::specs::Grammar::adding))]
    pub(crate) fn at_adding(&self) -> bool
        ensures { result ≡ sees (starts adding) self.now }
    {
        self.next_is(Kind::Plus) || self.next_is(Kind::Minus) || self.next_is(Kind::Ampersand)
    }

    /// Says whether an operator that joins factors is next.
    #[tactic(auto, unfolding(ctl_grammar::specs::Grammar::multiplying))]
    pub(crate) fn at_multiplying(&self) -> bool
        ensures { result ≡ sees (starts multiplying) self.now }
    {
        self.next_is(Kind::Star)
            || self.next_is(Kind::Slash)
            || self.next_is(Kind::Mod)
            || self.next_is(Kind::Rem)
    }

    /// Says whether a name goes on.
    #[tactic(auto, unfolding(ctl_grammar::specs::Grammar::suffix, ctl_grammar::specs::Grammar::selection))]
    pub(crate) fn at_suffix(&self) -> bool
        ensures { result ≡ sees (starts suffix) self.now }
    {
        self.next_is(Kind::Dot)
            || self.next_is(Kind::Apostrophe)
            || self.next_is(Kind::LeftParenthesis)
    }

    /// Reads a relational operator (RM 4.5.2).
    pub(crate) fn relational(&mut self) -> RelationalOperator
        ensures { Reads relational none self.old (alone (relational_label result)) self.new }
    {
        if self.next_is(Kind::Equal) {
            self.skip(Kind::Equal);
            RelationalOperator::Equal
        } else if self.next_is(Kind::NotEqual) {
            self.skip(Kind::NotEqual);
            RelationalOperator::NotEqual
        } else if self.next_is(Kind::Less) {
            self.skip(Kind::Less);
            RelationalOperator::Less
        } else if self.next_is(Kind::LessEqual) {
            self.skip(Kind::LessEqual);
            RelationalOperator::LessEqual
        } else if self.next_is(Kind::Greater) {
            self.skip(Kind::Greater);
            RelationalOperator::Greater
        } else {
            self.skip(Kind::GreaterEqual);
            RelationalOperator::GreaterEqual
        }
    }

    /// Reads a sign, if there is one, with its place (RM 4.5.4).
    pub(crate) fn sign(&mut self) -> Option<(UnaryOperator, Span)>
        ensures given { Reads sign none self.old (sign_node result) self.new }
        ensures signs { signs result ≡ true }
    {
        if self.next_is(Kind::Plus) {
            let span = self.mark(Kind::Plus);
            Some((UnaryOperator::Plus, span))
        } else if self.next_is(Kind::Minus) {
            let span = self.mark(Kind::Minus);
            Some((UnaryOperator::Minus, span))
        } else {
            None
        }
    }

    /// Reads what joins terms (RM 4.5.3).
    pub(crate) fn adding(&mut self) -> ArithmeticOperator
        ensures given { Reads adding none self.old (alone (arithmetic_label result)) self.new }
        ensures level { is_adding result ≡ true }
    {
        if self.next_is(Kind::Plus) {
            self.skip(Kind::Plus);
            ArithmeticOperator::Plus
        } else if self.next_is(Kind::Minus) {
            self.skip(Kind::Minus);
            ArithmeticOperator::Minus
        } else {
            self.skip(Kind::Ampersand);
            ArithmeticOperator::Concatenate
        }
    }

    /// Reads what joins factors (RM 4.5.5).
    pub(crate) fn multiplying(&mut self) -> ArithmeticOperator
        ensures given { Reads multiplying none self.old (alone (arithmetic_label result)) self.new }
        ensures level { not (is_adding result) ≡ true }
    {
        if self.next_is(Kind::Star) {
            self.skip(Kind::Star);
            ArithmeticOperator::Times
        } else if self.next_is(Kind::Slash) {
            self.skip(Kind::Slash);
            ArithmeticOperator::Divide
        } else if self.next_is(Kind::Mod) {
            self.skip(Kind::Mod);
            ArithmeticOperator::Mod
        } else {
            self.skip(Kind::Rem);
            ArithmeticOperator::Rem
        }
    }

    /// Reads a number.
    pub(crate) fn number(&mut self) -> Expression<Identifier>
        ensures { Reads number none self.old (view result) self.new }
    {
        match self.take(Kind::Number) {
            Some(token) => Expression::Number(token.span, token.value),
            None => Expression::Null(NOWHERE),
        }
    }

    /// Reads a string.
    pub(crate) fn string(&mut self) -> Expression<Identifier>
        ensures { Reads string none self.old (view result) self.new }
    {
        match self.take(Kind::String) {
            Some(token) => self.quoted(token),
            None => Expression::Null(NOWHERE),
        }
    }

    /// Reads `null`.
    pub(crate) fn null(&mut self) -> Expression<Identifier>
        ensures { Reads null none self.old (view result) self.new }
    {
        let span = self.mark(Kind::Null);
        Expression::Null(span)
    }

    /// Reads `"." id | "." "all"`.
    pub(crate) fn selection(&mut self) -> Suffix<Expression<Identifier>>
        ensures { Reads selection none self.old (suffix_node view result) self.new }
    {
        self.skip(Kind::Dot);
        self.selected()
    }

    /// Reads `id | "all"`.
    fn selected(&mut self) -> Suffix<Expression<Identifier>>
        ensures { Reads (alt (act all_of_access (spot Kind.All)) (act selector_of identifier)) none self.old (suffix_node view result) self.new }
    {
        if self.next_is(Kind::All) {
            let span = self.mark(Kind::All);
            Suffix::All(span)
        } else {
            let selector = self.identifier();
            Suffix::Selector(selector)
        }
    }

    /// Reads `"access" | id`, where the identifier is that of an attribute of the subset.
    pub(crate) fn attribute(&mut self) -> Suffix<Expression<Identifier>>
        ensures { Reads attribute none self.old (suffix_node view result) self.new }
    {
        if self.next_is(Kind::Access) {
            let span = self.mark(Kind::Access);
            Suffix::Attribute(span, Attribute::Access)
        } else {
            self.named_attribute()
        }
    }

    /// Reads an identifier that is that of an attribute of the subset (RM 3.5).
    fn named_attribute(&mut self) -> Suffix<Expression<Identifier>>
        ensures { Reads (act attribute_of (known attributes)) none self.old (suffix_node view result) self.new }
    {
        let (span, attribute) = self.attribute_here();
        Suffix::Attribute(span, attribute)
    }

    /// Reads the identifier of an attribute, and answers its place and which it is.
    #[tactic(auto, unfolding(ctl_grammar::specs::Grammar::known), using(crate::proofs::Views::spelled))]
    fn attribute_here(&mut self) -> (Span, Attribute)
        ensures { Reads (act attribute_of (known attributes)) none self.old (suffix_node view (suffixes.Attribute result.0 result.1)) self.new }
    {
        let refused = (NOWHERE, Attribute::Access);
        if self.fault.is_some() {
            return refused;
        }
        match self.rest.split_first() {
            Some((token, rest)) if is_same_kind(Kind::Identifier, token.kind) => {
                match attribute_named(token.text.as_bytes()) {
                    Some(attribute) => {
                        self.rest = rest;
                        (token.span, attribute)
                    }
                    None => {
                        self.fault = Some(Refused::Token(Reason::LeftOut));
                        refused
                    }
                }
            }
            _ => {
                self.fault = Some(Refused::Token(Reason::Unexpected));
                refused
            }
        }
    }
}
