//! Statements that hold others, and handlers (RM 5, 11.2).

ghost use Rattle.std.specs.Prelude.{◌≡◌, map};
ghost use Rattle.ctl_grammar.specs.Form.{none, at, pair, tag, many, nest, Conditional, Repetition, Block};
ghost use Rattle.ctl_grammar.specs.Grammar.{statement, statements, branch, next_branch, otherwise, handler, handler_list, handlers, handled, declared, body};
ghost use Rattle.ctl_grammar.specs.Label as labels;
ghost use Rattle.ctl_grammar.specs.Nodes.{or_else, row_of};
ghost use Rattle.ctl_parse.specs.Parts.{branch_node, handler_node, place_node, scheme_node, view_body, view_item, view_statement};
ghost use Rattle.ctl_parse.specs.Reads.{Builds, Reads};

use crate::cursor::{NOWHERE, Parser};
use crate::simple_statements::Scheme;
use ctl_syntax::item::{Body, Branch, Handler, Item, Statement};
use ctl_syntax::name::Identifier;
use ctl_tree::span::Span;
use ctl_tree::token::Kind;
use sqlite_items::Items;

/// Gives the first place, if there is one, or else the second.
fn earlier(start: Option<Span>, word: Span) -> Span
    ensures { at result ≡ or_else (place_node start) (at word) }
{
    match start {
        Some(span) => span,
        None => word,
    }
}

/// Makes a loop of how it goes on and its statements.
fn looped(
    span: Span,
    scheme: Scheme,
    statements: Items<Statement<Identifier, Identifier>>,
) -> Statement<Identifier, Identifier>
    ensures { view_statement result ≡ pair (at span) (tag labels.Loop (pair (scheme_node scheme) (row_of (map view_statement statements)))) }
{
    match scheme {
        Scheme::Endless => Statement::Loop(span, statements),
        Scheme::While(condition) => Statement::While(span, condition, statements),
        Scheme::For(parameter, direction, low, high) => {
            Statement::For(span, parameter, direction, low, high, statements)
        }
    }
}

impl<'a> Parser<'a> {
    /// Makes a block of its body.
    #[tactic(auto, using(crate::proofs::Parts::built, crate::proofs::Parts::unbuilt))]
    fn blocked(
        &mut self,
        span: Span,
        body: Body<Identifier, Identifier>,
    ) -> Statement<Identifier, Identifier>
        ensures { Builds (pair (at span) (tag labels.Block (view_body body))) self.old (view_statement result) self.new }
    {
        match self.boxed(body) {
            Some(body) => Statement::Block(span, body),
            None => Statement::Null(NOWHERE),
        }
    }

    /// Reads `stmt {stmt}` (RM 5.1).
    #[cycle(statements)]
    fn statements(&mut self) -> Items<Statement<Identifier, Identifier>>
        ensures { Reads statements none self.old (row_of (map view_statement result)) self.new }
    {
        let mut all = Items::new(self.alloc);
        let first = self.statement();
        self.push(&mut all, first);
        'more: while self.at_statement() {
            let next = self.statement();
            self.push(&mut all, next);
        }
        all
    }

    /// Reads a statement.
    #[cycle(statements)]
    #[tactic(auto, using(crate::proofs::Steps::choosing, crate::proofs::Steps::passing), unfolding(ctl_grammar::specs::Grammar::statement))]
    fn statement(&mut self) -> Statement<Identifier, Identifier>
        ensures { Reads statement none self.old (view_statement result) self.new }
    {
        if self.at_simple_statement() {
            self.simple_statement()
        } else if self.next_is(Kind::If) {
            self.conditional()
        } else if self.at_repetition() {
            self.repetition()
        } else {
            self.block()
        }
    }

    /// Reads an if statement, a construct (RM 5.3).
    #[cycle(statements)]
    fn conditional(&mut self) -> Statement<Identifier, Identifier>
        ensures { Reads (nest Conditional) none self.old (view_statement result) self.new }
    {
        let is_next = self.next_is(Kind::If);
        if self.open(is_next) {
            let inside = self.in_conditional();
            self.close();
            inside
        } else {
            Statement::Null(NOWHERE)
        }
    }

    /// Reads `"if" expr "then" stmts {"elsif" expr "then" stmts} ["else" stmts] "end" "if" ";"`.
    #[cycle(statements)]
    fn in_conditional(&mut self) -> Statement<Identifier, Identifier>
        ensures { Reads (body Conditional) none self.old (view_statement result) self.new }
    {
        let span = self.mark(Kind::If);
        let first = self.branch();
        let more = self.next_branches();
        let others = self.otherwise();
        self.end_if();
        Statement::If(span, first, more, others)
    }

    /// Reads `expr "then" stmts`.
    #[cycle(statements)]
    fn branch(&mut self) -> Branch<Statement<Identifier, Identifier>, Identifier>
        ensures { Reads branch none self.old (branch_node view_statement result) self.new }
    {
        let condition = self.expression();
        self.skip(Kind::Then);
        let statements = self.statements();
        Branch {
            condition,
            statements,
        }
    }

    /// Reads `"elsif" expr "then" stmts`.
    #[cycle(statements)]
    fn next_branch(&mut self) -> Branch<Statement<Identifier, Identifier>, Identifier>
        ensures { Reads next_branch none self.old (branch_node view_statement result) self.new }
    {
        self.skip(Kind::Elsif);
        self.branch()
    }

    /// Reads the branches behind the first one.
    #[cycle(statements)]
    fn next_branches(&mut self) -> Items<Branch<Statement<Identifier, Identifier>, Identifier>>
        ensures { Reads (many next_branch) none self.old (row_of (map (branch_node view_statement) result)) self.new }
    {
        let mut all = Items::new(self.alloc);
        'more: while self.next_is(Kind::Elsif) {
            let next = self.next_branch();
            self.push(&mut all, next);
        }
        all
    }

    /// Reads `["else" stmts]`.
    #[cycle(statements)]
    fn otherwise(&mut self) -> Items<Statement<Identifier, Identifier>>
        ensures { Reads otherwise none self.old (row_of (map view_statement result)) self.new }
    {
        if self.next_is(Kind::Else) {
            self.skip(Kind::Else);
            self.statements()
        } else {
            Items::new(self.alloc)
        }
    }

    /// Reads a loop, a construct (RM 5.5).
    #[cycle(statements)]
    fn repetition(&mut self) -> Statement<Identifier, Identifier>
        ensures { Reads (nest Repetition) none self.old (view_statement result) self.new }
    {
        let is_next = self.at_repetition();
        if self.open(is_next) {
            let inside = self.in_repetition();
            self.close();
            inside
        } else {
            Statement::Null(NOWHERE)
        }
    }

    /// Reads how a loop goes on, and `"loop" stmts "end" "loop" ";"`.
    #[cycle(statements)]
    fn in_repetition(&mut self) -> Statement<Identifier, Identifier>
        ensures { Reads (body Repetition) none self.old (view_statement result) self.new }
    {
        let (start, scheme) = self.scheme();
        let word = self.mark(Kind::Loop);
        let statements = self.statements();
        self.end_loop();
        let span = earlier(start, word);
        looped(span, scheme, statements)
    }

    /// Reads a block, a construct (RM 5.6).
    #[cycle(statements)]
    fn block(&mut self) -> Statement<Identifier, Identifier>
        ensures { Reads (nest Block) none self.old (view_statement result) self.new }
    {
        let is_next = self.at_block();
        if self.open(is_next) {
            let inside = self.in_block();
            self.close();
            inside
        } else {
            Statement::Null(NOWHERE)
        }
    }

    /// Reads `["declare" part] "begin" handled "end" ";"`.
    #[cycle(statements)]
    fn in_block(&mut self) -> Statement<Identifier, Identifier>
        ensures { Reads (body Block) none self.old (view_statement result) self.new }
    {
        let (start, items) = self.declared();
        let word = self.mark(Kind::Begin);
        let (statements, handlers) = self.handled();
        self.skip(Kind::End);
        self.skip(Kind::Semicolon);
        let span = earlier(start, word);
        let inside = Body {
            items,
            statements,
            handlers,
        };
        self.blocked(span, inside)
    }

    /// Reads `["declare" part]`, with its place.
    #[cycle(statements)]
    fn declared(&mut self) -> (Option<Span>, Items<Item<Identifier, Identifier>>)
        ensures { Reads declared none self.old (pair (place_node result.0) (row_of (map view_item result.1))) self.new }
    {
        if self.next_is(Kind::Declare) {
            let span = self.mark(Kind::Declare);
            let items = self.part();
            (Some(span), items)
        } else {
            (None, Items::new(self.alloc))
        }
    }

    /// Reads `stmts ["exception" handler {handler}]` (RM 11.2).
    #[cycle(statements)]
    pub(crate) fn handled(
        &mut self,
    ) -> (
        Items<Statement<Identifier, Identifier>>,
        Items<Handler<Statement<Identifier, Identifier>, Identifier>>,
    )
        ensures { Reads handled none self.old (pair (row_of (map view_statement result.0)) (row_of (map (handler_node view_statement) result.1))) self.new }
    {
        let statements = self.statements();
        let handlers = self.handlers();
        (statements, handlers)
    }

    /// Reads `["exception" handler {handler}]`.
    #[cycle(statements)]
    fn handlers(&mut self) -> Items<Handler<Statement<Identifier, Identifier>, Identifier>>
        ensures { Reads handlers none self.old (row_of (map (handler_node view_statement) result)) self.new }
    {
        if self.next_is(Kind::Exception) {
            self.skip(Kind::Exception);
            self.handler_list()
        } else {
            Items::new(self.alloc)
        }
    }

    /// Reads `handler {handler}`.
    #[cycle(statements)]
    fn handler_list(&mut self) -> Items<Handler<Statement<Identifier, Identifier>, Identifier>>
        ensures { Reads handler_list none self.old (row_of (map (handler_node view_statement) result)) self.new }
    {
        let mut all = Items::new(self.alloc);
        let first = self.handler();
        self.push(&mut all, first);
        'more: while self.next_is(Kind::When) {
            let next = self.handler();
            self.push(&mut all, next);
        }
        all
    }

    /// Reads `"when" ("others" | dotted {"|" dotted}) "=>" stmts`.
    #[cycle(statements)]
    fn handler(&mut self) -> Handler<Statement<Identifier, Identifier>, Identifier>
        ensures { Reads handler none self.old (handler_node view_statement result) self.new }
    {
        let span = self.mark(Kind::When);
        let choices = self.choices();
        self.skip(Kind::Arrow);
        let statements = self.statements();
        Handler {
            span,
            choices,
            statements,
        }
    }
}
