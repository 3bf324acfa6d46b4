//! Expressions and names (RM 4).

ghost use Rattle.std.specs.Prelude.{◌≡◌, map, Some, not, true, false};
ghost use Rattle.ctl_grammar.specs.Form.{none, at, pair, many, nest, Enclosed, Arguments, Handle};
ghost use Rattle.ctl_grammar.specs.Grammar.{suffix, suffixes, name, handle, qualified, allocator, primary, factor, multiplicand, multiplicands, term, addend, addends, simple, compared, relation, next_relation, relations, behind_and, behind_or, joined, expression, next_expression, expressions, body};
ghost use Rattle.ctl_grammar.specs.Nodes.{row_of};
ghost use Rattle.ctl_parse.specs.Reads.{Reads};
ghost use Rattle.ctl_parse.specs.View.{optional, view, suffix_node, name_node, operand_node, further_node, compared_node, joint_node, expressions_node, is_adding, joins};

use crate::building::name_expression;
use crate::cursor::{NOWHERE, Parser};
use ctl_syntax::expression::Expression;
use ctl_syntax::name::{Attribute, Identifier, Name, Suffix};
use ctl_syntax::operators::{LogicalOperator, Operand, RelationalOperator, UnaryOperator};
use ctl_tree::span::Span;
use ctl_tree::text::Text;
use ctl_tree::token::Kind;
use sqlite_items::Items;

impl<'a> Parser<'a> {
    /// Reads `expr`: relations that one logical operator joins; a lone relation stands for itself.
    #[cycle(expressions)]
    pub(crate) fn expression(&mut self) -> Expression<Identifier>
        ensures { Reads expression none self.old (view result) self.new }
    {
        let first = self.relation();
        let rest = self.joined();
        self.logical(first, rest)
    }

    /// Reads a logical operator, and the relations behind the first one, if there is one.
    #[cycle(expressions)]
    fn joined(
        &mut self,
    ) -> Option<
        (
            LogicalOperator,
            Expression<Identifier>,
            Items<Expression<Identifier>>,
        ),
    >
        ensures { Reads joined none self.old (joint_node result) self.new }
    {
        if self.next_is(Kind::And) {
            self.skip(Kind::And);
            let rest = self.conjunction();
            Some(rest)
        } else if self.next_is(Kind::Or) {
            self.skip(Kind::Or);
            let rest = self.disjunction();
            Some(rest)
        } else if self.next_is(Kind::Xor) {
            self.skip(Kind::Xor);
            let (second, others) = self.relations(LogicalOperator::Xor);
            Some((LogicalOperator::Xor, second, others))
        } else {
            None
        }
    }

    /// Reads what stands behind the first `and`.
    #[cycle(expressions)]
    fn conjunction(
        &mut self,
    ) -> (
        LogicalOperator,
        Expression<Identifier>,
        Items<Expression<Identifier>>,
    )
        ensures { Reads behind_and none self.old (joint_node (Some result)) self.new }
    {
        if self.next_is(Kind::Then) {
            self.skip(Kind::Then);
            let (second, others) = self.relations(LogicalOperator::AndThen);
            (LogicalOperator::AndThen, second, others)
        } else {
            let (second, others) = self.relations(LogicalOperator::And);
            (LogicalOperator::And, second, others)
        }
    }

    /// Reads what stands behind the first `or`.
    #[cycle(expressions)]
    fn disjunction(
        &mut self,
    ) -> (
        LogicalOperator,
        Expression<Identifier>,
        Items<Expression<Identifier>>,
    )
        ensures { Reads behind_or none self.old (joint_node (Some result)) self.new }
    {
        if self.next_is(Kind::Else) {
            self.skip(Kind::Else);
            let (second, others) = self.relations(LogicalOperator::OrElse);
            (LogicalOperator::OrElse, second, others)
        } else {
            let (second, others) = self.relations(LogicalOperator::Or);
            (LogicalOperator::Or, second, others)
        }
    }

    /// Reads relations that this operator joins.
    #[cycle(expressions)]
    fn relations(
        &mut self,
        operator: LogicalOperator,
    ) -> (Expression<Identifier>, Items<Expression<Identifier>>)
        ensures { Reads (relations operator) none self.old (expressions_node result) self.new }
    {
        let second = self.relation();
        let others = self.next_relations(operator);
        (second, others)
    }

    /// Reads a relation behind a logical operator.
    #[cycle(expressions)]
    fn next_relation(&mut self, operator: LogicalOperator) -> Expression<Identifier>
        ensures { Reads (next_relation operator) none self.old (view result) self.new }
    {
        self.joiner(operator);
        self.relation()
    }

    /// Reads the relations that this operator joins to the one before.
    #[cycle(expressions)]
    fn next_relations(&mut self, operator: LogicalOperator) -> Items<Expression<Identifier>>
        ensures { Reads (many (next_relation operator)) none self.old (row_of (map view result)) self.new }
    {
        let mut all = Items::new(self.alloc);
        'more: while self.at_joiner(operator) {
            let next = self.next_relation(operator);
            self.push(&mut all, next);
        }
        all
    }

    /// Reads `simple [RELATIONAL simple]`.
    #[cycle(expressions)]
    fn relation(&mut self) -> Expression<Identifier>
        ensures { Reads relation none self.old (view result) self.new }
    {
        let left = self.simple();
        let right = self.compared();
        self.comparison(left, right)
    }

    /// Reads `[RELATIONAL simple]`.
    #[cycle(expressions)]
    fn compared(&mut self) -> Option<(RelationalOperator, Expression<Identifier>)>
        ensures { Reads compared none self.old (compared_node result) self.new }
    {
        if self.at_relational() {
            let operator = self.relational();
            let right = self.simple();
            Some((operator, right))
        } else {
            None
        }
    }

    /// Reads `[SIGN] term {ADDING term}`.
    #[cycle(expressions)]
    pub(crate) fn simple(&mut self) -> Expression<Identifier>
        ensures { Reads simple none self.old (view result) self.new }
    {
        let sign = self.sign();
        let first = self.term();
        let rest = self.addends();
        let signed = self.signed(sign, first);
        self.chain(signed, rest)
    }

    /// Reads `{ADDING term}`.
    #[cycle(expressions)]
    fn addends(
        &mut self,
    ) -> Option<
        (
            Operand<Expression<Identifier>>,
            Items<Operand<Expression<Identifier>>>,
        ),
    >
        ensures given { Reads addends none self.old (further_node result) self.new }
        ensures level { joins true result ≡ true }
    {
        if self.at_adding() {
            let second = self.addend();
            let others = self.next_addends();
            Some((second, others))
        } else {
            None
        }
    }

    /// Reads `ADDING term`.
    #[cycle(expressions)]
    fn addend(&mut self) -> Operand<Expression<Identifier>>
        ensures given { Reads addend none self.old (operand_node view result) self.new }
        ensures level { is_adding result.operator ≡ true }
    {
        let operator = self.adding();
        let operand = self.term();
        Operand { operator, operand }
    }

    /// Reads `{ADDING term}` behind the second term.
    #[cycle(expressions)]
    fn next_addends(&mut self) -> Items<Operand<Expression<Identifier>>>
        ensures { Reads addends none self.old (row_of (map (operand_node view) result)) self.new }
    {
        let mut all = Items::new(self.alloc);
        'more: while self.at_adding() {
            let next = self.addend();
            self.push(&mut all, next);
        }
        all
    }

    /// Reads `factor {MULTIPLYING factor}`.
    #[cycle(expressions)]
    fn term(&mut self) -> Expression<Identifier>
        ensures { Reads term none self.old (view result) self.new }
    {
        let first = self.factor();
        let rest = self.multiplicands();
        self.chain(first, rest)
    }

    /// Reads `{MULTIPLYING factor}`.
    #[cycle(expressions)]
    fn multiplicands(
        &mut self,
    ) -> Option<
        (
            Operand<Expression<Identifier>>,
            Items<Operand<Expression<Identifier>>>,
        ),
    >
        ensures given { Reads multiplicands none self.old (further_node result) self.new }
        ensures level { joins false result ≡ true }
    {
        if self.at_multiplying() {
            let second = self.multiplicand();
            let others = self.next_multiplicands();
            Some((second, others))
        } else {
            None
        }
    }

    /// Reads `MULTIPLYING factor`.
    #[cycle(expressions)]
    fn multiplicand(&mut self) -> Operand<Expression<Identifier>>
        ensures given { Reads multiplicand none self.old (operand_node view result) self.new }
        ensures level { not (is_adding result.operator) ≡ true }
    {
        let operator = self.multiplying();
        let operand = self.factor();
        Operand { operator, operand }
    }

    /// Reads `{MULTIPLYING factor}` behind the second factor.
    #[cycle(expressions)]
    fn next_multiplicands(&mut self) -> Items<Operand<Expression<Identifier>>>
        ensures { Reads multiplicands none self.old (row_of (map (operand_node view) result)) self.new }
    {
        let mut all = Items::new(self.alloc);
        'more: while self.at_multiplying() {
            let next = self.multiplicand();
            self.push(&mut all, next);
        }
        all
    }

    /// Reads `["abs" | "not"] primary`.
    #[cycle(expressions)]
    fn factor(&mut self) -> Expression<Identifier>
        ensures { Reads factor none self.old (view result) self.new }
    {
        if self.next_is(Kind::Abs) {
            let span = self.mark(Kind::Abs);
            let operand = self.primary();
            self.unary(span, UnaryOperator::Abs, operand)
        } else if self.next_is(Kind::Not) {
            let span = self.mark(Kind::Not);
            let operand = self.primary();
            self.unary(span, UnaryOperator::Not, operand)
        } else {
            self.primary()
        }
    }

    /// Reads `number | string | "null" | name | "(" expr ")" | allocator`.
    #[cycle(expressions)]
    fn primary(&mut self) -> Expression<Identifier>
        ensures { Reads primary none self.old (view result) self.new }
    {
        if self.next_is(Kind::Number) {
            self.number()
        } else if self.next_is(Kind::String) {
            self.string()
        } else if self.next_is(Kind::Null) {
            self.null()
        } else if self.next_is(Kind::Identifier) {
            let name = self.name();
            name_expression(name)
        } else if self.next_is(Kind::New) {
            self.allocator()
        } else {
            let (span, inside) = self.enclosed();
            self.parentheses(span, inside)
        }
    }

    /// Reads `"new" ["(" name ")"] dotted ["'" "(" expr ")"]`.
    #[cycle(expressions)]
    fn allocator(&mut self) -> Expression<Identifier>
        ensures { Reads allocator none self.old (view result) self.new }
    {
        let span = self.mark(Kind::New);
        let handle = self.handle();
        let mark = self.dotted();
        let value = self.qualified();
        self.allocated(span, handle, mark, value)
    }

    /// Reads `["(" name ")"]`.
    #[cycle(expressions)]
    fn handle(&mut self) -> Option<Name<Identifier, Expression<Identifier>>>
        ensures { Reads handle none self.old (optional (name_node view) result) self.new }
    {
        if self.next_is(Kind::LeftParenthesis) {
            let name = self.enclosed_name();
            Some(name)
        } else {
            None
        }
    }

    /// Reads `"(" name ")"`, a construct.
    #[cycle(expressions)]
    fn enclosed_name(&mut self) -> Name<Identifier, Expression<Identifier>>
        ensures { Reads (nest Handle) none self.old (name_node view result) self.new }
    {
        let is_next = self.next_is(Kind::LeftParenthesis);
        if self.open(is_next) {
            let inside = self.in_enclosed_name();
            self.close();
            inside
        } else {
            self.no_name()
        }
    }

    /// Reads `"(" name ")"`.
    #[cycle(expressions)]
    fn in_enclosed_name(&mut self) -> Name<Identifier, Expression<Identifier>>
        ensures { Reads (body Handle) none self.old (name_node view result) self.new }
    {
        self.skip(Kind::LeftParenthesis);
        let name = self.name();
        self.skip(Kind::RightParenthesis);
        name
    }

    /// Reads `["'" "(" expr ")"]`.
    #[cycle(expressions)]
    fn qualified(&mut self) -> Option<Expression<Identifier>>
        ensures { Reads qualified none self.old (optional view result) self.new }
    {
        if self.next_is(Kind::Apostrophe) {
            self.skip(Kind::Apostrophe);
            let (_, value) = self.enclosed();
            Some(value)
        } else {
            None
        }
    }

    /// Reads `"(" expr ")"`, a construct, with its place.
    #[cycle(expressions)]
    fn enclosed(&mut self) -> (Span, Expression<Identifier>)
        ensures { Reads (nest Enclosed) none self.old (pair (at result.0) (view result.1)) self.new }
    {
        let is_next = self.next_is(Kind::LeftParenthesis);
        if self.open(is_next) {
            let inside = self.in_enclosed();
            self.close();
            inside
        } else {
            (NOWHERE, Expression::Null(NOWHERE))
        }
    }

    /// Reads `"(" expr ")"`, with its place.
    #[cycle(expressions)]
    fn in_enclosed(&mut self) -> (Span, Expression<Identifier>)
        ensures { Reads (body Enclosed) none self.old (pair (at result.0) (view result.1)) self.new }
    {
        let span = self.mark(Kind::LeftParenthesis);
        let inside = self.expression();
        self.skip(Kind::RightParenthesis);
        (span, inside)
    }

    /// Reads `name`.
    #[cycle(expressions)]
    pub(crate) fn name(&mut self) -> Name<Identifier, Expression<Identifier>>
        ensures { Reads name none self.old (name_node view result) self.new }
    {
        let first = self.identifier();
        let suffixes = self.suffixes();
        Name { first, suffixes }
    }

    /// Reads what stands behind the first identifier of a name.
    #[cycle(expressions)]
    fn suffixes(&mut self) -> Items<Suffix<Expression<Identifier>>>
        ensures { Reads suffixes none self.old (row_of (map (suffix_node view) result)) self.new }
    {
        let mut all = Items::new(self.alloc);
        'more: while self.at_suffix() {
            let next = self.suffix();
            self.push(&mut all, next);
        }
        all
    }

    /// Reads `"." id | "." "all" | "'" attr | "(" expr {"," expr} ")"`.
    #[cycle(expressions)]
    fn suffix(&mut self) -> Suffix<Expression<Identifier>>
        ensures { Reads suffix none self.old (suffix_node view result) self.new }
    {
        if self.next_is(Kind::Dot) {
            self.selection()
        } else if self.next_is(Kind::Apostrophe) {
            self.skip(Kind::Apostrophe);
            self.attribute()
        } else {
            self.arguments()
        }
    }

    /// Reads `"(" expr {"," expr} ")"`, a construct.
    #[cycle(expressions)]
    fn arguments(&mut self) -> Suffix<Expression<Identifier>>
        ensures { Reads (nest Arguments) none self.old (suffix_node view result) self.new }
    {
        let is_next = self.next_is(Kind::LeftParenthesis);
        if self.open(is_next) {
            let inside = self.in_arguments();
            self.close();
            inside
        } else {
            Suffix::Attribute(NOWHERE, Attribute::Access)
        }
    }

    /// Reads `"(" expr {"," expr} ")"`.
    #[cycle(expressions)]
    fn in_arguments(&mut self) -> Suffix<Expression<Identifier>>
        ensures { Reads (body Arguments) none self.old (suffix_node view result) self.new }
    {
        let span = self.mark(Kind::LeftParenthesis);
        let (first, others) = self.expressions();
        self.skip(Kind::RightParenthesis);
        Suffix::Arguments(span, first, others)
    }

    /// Reads `expr {"," expr}`.
    #[cycle(expressions)]
    fn expressions(&mut self) -> (Expression<Identifier>, Items<Expression<Identifier>>)
        ensures { Reads expressions none self.old (expressions_node result) self.new }
    {
        let first = self.expression();
        let others = self.next_expressions();
        (first, others)
    }

    /// Reads `"," expr`.
    #[cycle(expressions)]
    fn next_expression(&mut self) -> Expression<Identifier>
        ensures { Reads next_expression none self.old (view result) self.new }
    {
        self.skip(Kind::Comma);
        self.expression()
    }

    /// Reads `{"," expr}`.
    #[cycle(expressions)]
    fn next_expressions(&mut self) -> Items<Expression<Identifier>>
        ensures { Reads (many next_expression) none self.old (row_of (map view result)) self.new }
    {
        let mut all = Items::new(self.alloc);
        'more: while self.next_is(Kind::Comma) {
            let next = self.next_expression();
            self.push(&mut all, next);
        }
        all
    }

    /// Gives a name that means nothing.
    fn no_name(&self) -> Name<Identifier, Expression<Identifier>> {
        Name {
            first: Identifier {
                text: Text::new(self.alloc),
                span: NOWHERE,
            },
            suffixes: Items::new(self.alloc),
        }
    }
}
