//! Statements that hold no other statement, and the parts of the others (RM 5).

ghost use Rattle.std.specs.Prelude.{◌≡◌, ◌∷◌, [], ◌++◌};
ghost use Rattle.ctl_grammar.specs.Form.{none, pair, starts, nest_starts, Conditional, Repetition, Block};
ghost use Rattle.ctl_grammar.specs.Grammar.{flag, expression, factor, primary, null_statement, named_statement, exit_condition, exit_statement, returned, return_statement, raised, raise_statement, while_scheme, for_scheme, scheme, choices, end_if, end_loop, simple_statement, statement};
ghost use Rattle.ctl_grammar.specs.Nodes.{assignment_of};
ghost use Rattle.ctl_parse.specs.Parts.{choices_node, direction_node, place_node, scheme_node, view_statement};
ghost use Rattle.ctl_parse.specs.Reads.{Reads, sees};
ghost use Rattle.ctl_parse.specs.View.{mark_node, name_node, optional, view};

use crate::cursor::Parser;
use ctl_syntax::expression::Expression;
use ctl_syntax::item::{Choices, Direction, Statement};
use ctl_syntax::name::{Identifier, Mark, Name};
use ctl_tree::span::Span;
use ctl_tree::token::Kind;

/// How a loop goes on (RM 5.5).
#[derive(Drop)]
pub(crate) enum Scheme {
    Endless,
    While(Expression<Identifier>),
    /// The parameter, the direction and the bounds.
    For(Identifier, Direction, Expression<Identifier>, Expression<Identifier>),
}

/// Makes an assignment of the value, or a call where there is none.
fn assignment(
    name: Name<Identifier, Expression<Identifier>>,
    value: Option<Expression<Identifier>>,
) -> Statement<Identifier, Identifier>
    ensures { view_statement result ≡ assignment_of (name_node view name) (optional view value) }
{
    let span = name.first.span;
    match value {
        Some(value) => Statement::Assignment(span, name, value),
        None => Statement::Call(span, name),
    }
}

impl<'a> Parser<'a> {
    /// Reads `"null" ";"`.
    fn null_statement(&mut self) -> Statement<Identifier, Identifier>
        ensures { Reads null_statement none self.old (view_statement result) self.new }
    {
        let span = self.mark(Kind::Null);
        self.skip(Kind::Semicolon);
        Statement::Null(span)
    }

    /// Reads `name ":=" expr ";" | name ";"` (RM 5.2, 6.4).
    fn named_statement(&mut self) -> Statement<Identifier, Identifier>
        ensures { Reads named_statement none self.old (view_statement result) self.new }
    {
        let name = self.name();
        let value = self.optional_value();
        self.skip(Kind::Semicolon);
        assignment(name, value)
    }

    /// Reads `["when" expr]`.
    fn exit_condition(&mut self) -> Option<Expression<Identifier>>
        ensures { Reads exit_condition none self.old (optional view result) self.new }
    {
        if self.next_is(Kind::When) {
            self.skip(Kind::When);
            let condition = self.expression();
            Some(condition)
        } else {
            None
        }
    }

    /// Reads `"exit" ["when" expr] ";"` (RM 5.7).
    fn exit_statement(&mut self) -> Statement<Identifier, Identifier>
        ensures { Reads exit_statement none self.old (view_statement result) self.new }
    {
        let span = self.mark(Kind::Exit);
        let condition = self.exit_condition();
        self.skip(Kind::Semicolon);
        Statement::Exit(span, condition)
    }

    /// Reads `[expr]` before a semicolon.
    fn returned(&mut self) -> Option<Expression<Identifier>>
        ensures { Reads returned none self.old (optional view result) self.new }
    {
        if self.at_expression() {
            let value = self.expression();
            Some(value)
        } else {
            None
        }
    }

    /// Reads `"return" [expr] ";"` (RM 6.5).
    fn return_statement(&mut self) -> Statement<Identifier, Identifier>
        ensures { Reads return_statement none self.old (view_statement result) self.new }
    {
        let span = self.mark(Kind::Return);
        let value = self.returned();
        self.skip(Kind::Semicolon);
        Statement::Return(span, value)
    }

    /// Reads `[dotted]` behind `raise`.
    fn raised(&mut self) -> Option<Mark<Identifier>>
        ensures { Reads raised none self.old (optional mark_node result) self.new }
    {
        if self.next_is(Kind::Identifier) {
            let mark = self.dotted();
            Some(mark)
        } else {
            None
        }
    }

    /// Reads `"raise" [dotted] ";"` (RM 11.3).
    fn raise_statement(&mut self) -> Statement<Identifier, Identifier>
        ensures { Reads raise_statement none self.old (view_statement result) self.new }
    {
        let span = self.mark(Kind::Raise);
        let raised = self.raised();
        self.skip(Kind::Semicolon);
        match raised {
            Some(mark) => Statement::Raise(span, mark),
            None => Statement::RaiseAgain(span),
        }
    }

    /// Reads `["reverse"]`.
    fn direction(&mut self) -> Direction
        ensures { Reads (flag Kind.Reverse) none self.old (direction_node result) self.new }
    {
        if self.next_is(Kind::Reverse) {
            self.skip(Kind::Reverse);
            Direction::Downward
        } else {
            Direction::Upward
        }
    }

    /// Reads `"while" expr`.
    fn while_scheme(&mut self) -> (Option<Span>, Scheme)
        ensures { Reads while_scheme none self.old (pair (place_node result.0) (scheme_node result.1)) self.new }
    {
        let span = self.mark(Kind::While);
        let condition = self.expression();
        (Some(span), Scheme::While(condition))
    }

    /// Reads `"for" id "in" ["reverse"] simple ".." simple`.
    fn for_scheme(&mut self) -> (Option<Span>, Scheme)
        ensures { Reads for_scheme none self.old (pair (place_node result.0) (scheme_node result.1)) self.new }
    {
        let span = self.mark(Kind::For);
        let parameter = self.identifier();
        self.skip(Kind::In);
        let direction = self.direction();
        let low = self.simple();
        self.skip(Kind::DoubleDot);
        let high = self.simple();
        (Some(span), Scheme::For(parameter, direction, low, high))
    }

    /// Reads how a loop goes on, with the place of its first word, if it has one (RM 5.5).
    pub(crate) fn scheme(&mut self) -> (Option<Span>, Scheme)
        ensures { Reads scheme none self.old (pair (place_node result.0) (scheme_node result.1)) self.new }
    {
        if self.next_is(Kind::While) {
            self.while_scheme()
        } else if self.next_is(Kind::For) {
            self.for_scheme()
        } else {
            (None, Scheme::Endless)
        }
    }

    /// Reads `"others" | dotted {"|" dotted}` (RM 11.2).
    pub(crate) fn choices(&mut self) -> Choices<Identifier>
        ensures { Reads choices none self.old (choices_node result) self.new }
    {
        if self.next_is(Kind::Others) {
            self.skip(Kind::Others);
            Choices::Others
        } else {
            let exceptions = self.dotted_list(Kind::Bar);
            Choices::Exceptions(exceptions)
        }
    }

    /// Reads `"end" "if" ";"`.
    pub(crate) fn end_if(&mut self)
        ensures { Reads end_if none self.old none self.new }
    {
        self.skip(Kind::End);
        self.skip(Kind::If);
        self.skip(Kind::Semicolon);
    }

    /// Reads `"end" "loop" ";"`.
    pub(crate) fn end_loop(&mut self)
        ensures { Reads end_loop none self.old none self.new }
    {
        self.skip(Kind::End);
        self.skip(Kind::Loop);
        self.skip(Kind::Semicolon);
    }

    /// Reads a statement that holds no other (RM 5.1).
    #[tactic(auto, using(crate::proofs::Steps::choosing, crate::proofs::Steps::passing), unfolding(ctl_grammar::specs::Grammar::simple_statement, ctl_grammar::specs::Grammar::name, ctl_grammar::specs::Grammar::identifier))]
    pub(crate) fn simple_statement(&mut self) -> Statement<Identifier, Identifier>
        ensures { Reads simple_statement none self.old (view_statement result) self.new }
    {
        if self.next_is(Kind::Null) {
            self.null_statement()
        } else if self.next_is(Kind::Identifier) {
            self.named_statement()
        } else if self.next_is(Kind::Exit) {
            self.exit_statement()
        } else if self.next_is(Kind::Return) {
            self.return_statement()
        } else {
            self.raise_statement()
        }
    }

    /// Tells whether a statement that holds no other is next.
    #[tactic(auto, unfolding(ctl_grammar::specs::Grammar::simple_statement, ctl_grammar::specs::Grammar::name, ctl_grammar::specs::Grammar::identifier))]
    pub(crate) fn at_simple_statement(&self) -> bool
        ensures { result ≡ sees (starts simple_statement) self.now }
    {
        self.next_is(Kind::Null)
            || self.next_is(Kind::Identifier)
            || self.next_is(Kind::Exit)
            || self.next_is(Kind::Return)
            || self.next_is(Kind::Raise)
    }

    /// Tells whether a statement is next.
    #[tactic(auto, unfolding(ctl_grammar::specs::Grammar::statement, ctl_grammar::specs::Grammar::simple_statement, ctl_grammar::specs::Grammar::name, ctl_grammar::specs::Grammar::identifier))]
    pub(crate) fn at_statement(&self) -> bool
        ensures { result ≡ sees (starts statement) self.now }
    {
        self.at_simple_statement() || self.at_compound_statement()
    }

    /// Tells whether a statement that holds others is next.
    fn at_compound_statement(&self) -> bool
        ensures { result ≡ sees (nest_starts Conditional ++ (nest_starts Repetition ++ nest_starts Block)) self.now }
    {
        self.next_is(Kind::If) || self.at_repetition() || self.at_block()
    }

    /// Tells whether a loop is next.
    pub(crate) fn at_repetition(&self) -> bool
        ensures { result ≡ sees (nest_starts Repetition) self.now }
    {
        self.next_is(Kind::While) || self.next_is(Kind::For) || self.next_is(Kind::Loop)
    }

    /// Tells whether a block is next.
    pub(crate) fn at_block(&self) -> bool
        ensures { result ≡ sees (nest_starts Block) self.now }
    {
        self.next_is(Kind::Declare) || self.next_is(Kind::Begin)
    }

    /// Tells whether an expression is next.
    #[tactic(auto, using(ctl_grammar::proofs::First::expression_begins))]
    fn at_expression(&self) -> bool
        ensures { result ≡ sees (starts expression) self.now }
    {
        self.next_is(Kind::Plus) || self.next_is(Kind::Minus) || self.at_factor()
    }

    /// Tells whether a factor is next.
    #[tactic(auto, unfolding(ctl_grammar::specs::Grammar::factor))]
    fn at_factor(&self) -> bool
        ensures { result ≡ sees (starts factor) self.now }
    {
        self.next_is(Kind::Abs) || self.next_is(Kind::Not) || self.at_primary()
    }

    /// Tells whether a primary is next.
    #[tactic(auto, unfolding(ctl_grammar::specs::Grammar::primary, ctl_grammar::specs::Grammar::number, ctl_grammar::specs::Grammar::string, ctl_grammar::specs::Grammar::null, ctl_grammar::specs::Grammar::name, ctl_grammar::specs::Grammar::identifier, ctl_grammar::specs::Grammar::allocator))]
    fn at_primary(&self) -> bool
        ensures { result ≡ sees (starts primary) self.now }
    {
        self.next_is(Kind::Number)
            || self.next_is(Kind::String)
            || self.next_is(Kind::Null)
            || self.next_is(Kind::Identifier)
            || self.next_is(Kind::New)
            || self.next_is(Kind::LeftParenthesis)
    }
}
