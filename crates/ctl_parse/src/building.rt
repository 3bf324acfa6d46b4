//! Expressions from their parts (RM 4.4).

ghost use Rattle.std.specs.Prelude.{◌≡◌, MatchOption, None, true, false};
ghost use Rattle.ctl_grammar.specs.Form.{none, num, at, pair, leaf};
ghost use Rattle.ctl_grammar.specs.Nodes.{first, row_of, identifier_of, string_of, name_of, parentheses_of, relation_of, logical_of, allocator_of};
ghost use Rattle.ctl_parse.specs.Reads.{Builds, Refuses};
ghost use Rattle.ctl_parse.specs.View.{view, identifier_node, mark_node, name_node, optional, compared_node, joint_node, chain_of, signed_node, signs, unary_node};

use crate::cursor::{NOWHERE, Parser};
use ctl_syntax::expression::Expression;
use ctl_syntax::name::{Identifier, Mark, Name};
use ctl_syntax::operators::{LogicalOperator, Operand, RelationalOperator, UnaryOperator};
use ctl_tree::span::Span;
use ctl_tree::text::Text;
use ctl_tree::token::Token;
use sqlite_items::{Boxed, Items};

/// Gives the place of an expression.
pub(crate) fn span_of(expression: &Expression<Identifier>) -> Span
    ensures { at result ≡ first (view expression.now) }
{
    match expression {
        Expression::Logical(span, _, _, _, _)
        | Expression::Relation(span, _, _, _)
        | Expression::Chain(span, _, _, _)
        | Expression::Unary(span, _, _)
        | Expression::Number(span, _)
        | Expression::String(span, _)
        | Expression::Null(span)
        | Expression::Name(span, _)
        | Expression::Parentheses(span, _)
        | Expression::New(span, _, _, _) => *span,
    }
}

/// Makes a name an expression, which stands where the name begins.
pub(crate) fn name_expression(
    name: Name<Identifier, Expression<Identifier>>,
) -> Expression<Identifier>
    ensures { view result ≡ name_of (name_node view name) }
{
    Expression::Name(name.first.span, name)
}

impl<'a> Parser<'a> {
    /// Puts a value into a box, unless memory is refused.
    pub(crate) fn boxed<T: Drop>(&mut self, value: T) -> Option<Boxed<T>>
        ensures left { self.new.left ≡ self.old.left }
        ensures rest { self.new.rest ≡ self.old.rest }
        ensures value { MatchOption result (Refuses self.old.fault self.new.fault) (λ b. (b ≡ value) × (self.new.fault ≡ self.old.fault)) }
    {
        match Boxed::new(self.alloc, value) {
            Ok(boxed) => Some(boxed),
            Err(_) => {
                self.refuse();
                None
            }
        }
    }

    /// Puts two values into boxes, unless memory is refused.
    fn both_boxed<A: Drop, B: Drop>(&mut self, first: A, second: B) -> Option<(Boxed<A>, Boxed<B>)>
        ensures left { self.new.left ≡ self.old.left }
        ensures rest { self.new.rest ≡ self.old.rest }
        ensures value { MatchOption result (Refuses self.old.fault self.new.fault) (λ b. (b.0 ≡ first) × (b.1 ≡ second) × (self.new.fault ≡ self.old.fault)) }
    {
        let first = self.boxed(first)?;
        let second = self.boxed(second)?;
        Some((first, second))
    }

    /// Puts a value, if there is one, into a box, unless memory is refused.
    fn boxed_option<T: Drop>(&mut self, value: Option<T>) -> Option<Option<Boxed<T>>>
        ensures left { self.new.left ≡ self.old.left }
        ensures rest { self.new.rest ≡ self.old.rest }
        ensures value { MatchOption result (Refuses self.old.fault self.new.fault) (λ b. (b ≡ value) × (self.new.fault ≡ self.old.fault)) }
    {
        match value {
            None => Some(None),
            Some(value) => {
                let boxed = self.boxed(value)?;
                Some(Some(boxed))
            }
        }
    }

    /// Puts two values, each if there is one, into boxes, unless memory is refused.
    fn both_boxed_options<A: Drop, B: Drop>(
        &mut self,
        first: Option<A>,
        second: Option<B>,
    ) -> Option<(Option<Boxed<A>>, Option<Boxed<B>>)>
        ensures left { self.new.left ≡ self.old.left }
        ensures rest { self.new.rest ≡ self.old.rest }
        ensures value { MatchOption result (Refuses self.old.fault self.new.fault) (λ b. (b.0 ≡ first) × (b.1 ≡ second) × (self.new.fault ≡ self.old.fault)) }
    {
        let first = self.boxed_option(first)?;
        let second = self.boxed_option(second)?;
        Some((first, second))
    }

    /// Makes an identifier of its token.
    #[tactic(auto, using(crate::proofs::Parts::built, crate::proofs::Parts::unbuilt))]
    pub(crate) fn identified(&mut self, token: &Token) -> Identifier
        ensures { Builds (identifier_of (leaf token.now)) self.old (identifier_node result) self.new }
    {
        let span = token.span;
        match token.text.copied(self.alloc) {
            Ok(text) => Identifier { text, span },
            Err(_) => {
                self.refuse();
                Identifier {
                    text: Text::new(self.alloc),
                    span,
                }
            }
        }
    }

    /// Makes a string of its token.
    #[tactic(auto, using(crate::proofs::Parts::built, crate::proofs::Parts::unbuilt))]
    pub(crate) fn quoted(&mut self, token: &Token) -> Expression<Identifier>
        ensures { Builds (string_of (leaf token.now)) self.old (view result) self.new }
    {
        match token.text.copied(self.alloc) {
            Ok(text) => Expression::String(token.span, text),
            Err(_) => {
                self.refuse();
                Expression::Null(NOWHERE)
            }
        }
    }

    /// Makes the relations one expression, or gives the first one alone.
    #[tactic(auto, using(crate::proofs::Parts::built, crate::proofs::Parts::unbuilt))]
    pub(crate) fn logical(
        &mut self,
        first: Expression<Identifier>,
        rest: Option<
            (
                LogicalOperator,
                Expression<Identifier>,
                Items<Expression<Identifier>>,
            ),
        >,
    ) -> Expression<Identifier>
        ensures { Builds (logical_of (view first) (joint_node rest)) self.old (view result) self.new }
    {
        let Some((operator, second, others)) = rest else {
            return first;
        };
        let span = span_of(&first);
        match self.both_boxed(first, second) {
            Some((first, second)) => Expression::Logical(span, operator, first, second, others),
            None => Expression::Null(NOWHERE),
        }
    }

    /// Makes the comparison, or gives its left side alone.
    #[tactic(auto, using(crate::proofs::Parts::built, crate::proofs::Parts::unbuilt))]
    pub(crate) fn comparison(
        &mut self,
        left: Expression<Identifier>,
        right: Option<(RelationalOperator, Expression<Identifier>)>,
    ) -> Expression<Identifier>
        ensures { Builds (relation_of (view left) (compared_node right)) self.old (view result) self.new }
    {
        let Some((operator, right)) = right else {
            return left;
        };
        let span = span_of(&left);
        match self.both_boxed(left, right) {
            Some((left, right)) => Expression::Relation(span, operator, left, right),
            None => Expression::Null(NOWHERE),
        }
    }

    /// Puts a sign before the first term of a sum, if there is one.
    #[tactic(auto, using(crate::proofs::Parts::built, crate::proofs::Parts::unbuilt))]
    pub(crate) fn signed(
        &mut self,
        sign: Option<(UnaryOperator, Span)>,
        first: Expression<Identifier>,
    ) -> Expression<Identifier>
        ensures { signs sign ≡ true → Builds (signed_node sign (view first)) self.old (view result) self.new }
    {
        match sign {
            Some((operator, span)) => self.unary(span, operator, first),
            None => first,
        }
    }

    /// Makes operands one expression, or gives the first one alone.
    #[tactic(auto, using(crate::proofs::Parts::built, crate::proofs::Parts::unbuilt))]
    pub(crate) fn chain(
        &mut self,
        first: Expression<Identifier>,
        rest: Option<
            (
                Operand<Expression<Identifier>>,
                Items<Operand<Expression<Identifier>>>,
            ),
        >,
    ) -> Expression<Identifier>
        ensures { Builds (chain_of (view first) rest) self.old (view result) self.new }
    {
        let Some((second, others)) = rest else {
            return first;
        };
        let span = span_of(&first);
        match self.both_boxed(first, second) {
            Some((first, second)) => Expression::Chain(span, first, second, others),
            None => Expression::Null(NOWHERE),
        }
    }

    /// Puts an operator before an operand.
    #[tactic(auto, using(crate::proofs::Parts::built, crate::proofs::Parts::unbuilt))]
    pub(crate) fn unary(
        &mut self,
        span: Span,
        operator: UnaryOperator,
        operand: Expression<Identifier>,
    ) -> Expression<Identifier>
        ensures { Builds (pair (at span) (unary_node operator (view operand))) self.old (view result) self.new }
    {
        match self.boxed(operand) {
            Some(operand) => Expression::Unary(span, operator, operand),
            None => Expression::Null(NOWHERE),
        }
    }

    /// Puts parentheses round an expression.
    #[tactic(auto, using(crate::proofs::Parts::built, crate::proofs::Parts::unbuilt))]
    pub(crate) fn parentheses(
        &mut self,
        span: Span,
        inside: Expression<Identifier>,
    ) -> Expression<Identifier>
        ensures { Builds (parentheses_of (pair (at span) (view inside))) self.old (view result) self.new }
    {
        match self.boxed(inside) {
            Some(inside) => Expression::Parentheses(span, inside),
            None => Expression::Null(NOWHERE),
        }
    }

    /// Makes an allocator of its parts.
    #[tactic(auto, using(crate::proofs::Parts::built, crate::proofs::Parts::unbuilt))]
    pub(crate) fn allocated(
        &mut self,
        span: Span,
        handle: Option<Name<Identifier, Expression<Identifier>>>,
        mark: Mark<Identifier>,
        value: Option<Expression<Identifier>>,
    ) -> Expression<Identifier>
        ensures { Builds (allocator_of (at span) (optional (name_node view) handle) (mark_node mark) (optional view value)) self.old (view result) self.new }
    {
        match self.both_boxed_options(handle, value) {
            Some((handle, value)) => Expression::New(span, handle, mark, value),
            None => Expression::Null(NOWHERE),
        }
    }
}
