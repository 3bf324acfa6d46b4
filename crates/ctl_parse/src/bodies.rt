//! Items of a declarative part, and bodies of subprograms (RM 3.11, 6.3).

ghost use Rattle.std.specs.Prelude.{◌≡◌, map};
ghost use Rattle.ctl_grammar.specs.Form.{Node, none, written, at, pair, tag, starts, nest, nest_starts};
ghost use Rattle.ctl_grammar.specs.Form as forms;
ghost use Rattle.ctl_grammar.specs.Grammar.{completed, completed_specification, completed_function, completed_procedure, overriding_item, function_item, behind_is, behind_name, procedure_item, item, part, completion, body};
ghost use Rattle.ctl_grammar.specs.Label as labels;
ghost use Rattle.ctl_grammar.specs.Nodes.{procedure_of, row_of};
ghost use Rattle.ctl_parse.specs.Kept.{kept_here};
ghost use Rattle.ctl_parse.specs.Parts.{completed_node, ended_node, indicator_node, item_kind_node, rest_node, specification_node, view_body, view_item};
ghost use Rattle.ctl_parse.specs.Reads.{Reads, sees};
ghost use Rattle.ctl_parse.specs.View.{identifier_node, optional};

use crate::cursor::Parser;
use crate::depth::Heading;
use ctl_syntax::item::{Association, Body, Formal, Indicator, Item, ItemKind, Specification};
use ctl_syntax::name::{Identifier, Mark};
use ctl_tree::span::Span;
use ctl_tree::token::Kind;
use sqlite_items::{Boxed, Items};

/// What stands behind the name of a procedure that does not say `overriding`.
#[derive(Drop)]
pub(crate) enum Rest {
    /// The generic procedure of an instance, and its actuals (RM 12.3).
    Instance(Mark<Identifier>, Items<Association<Identifier>>),
    /// The parameters, and the body, if there is one.
    Subprogram(Items<Formal<Identifier, Identifier>>, Option<Boxed<Body<Identifier, Identifier>>>),
}

/// Makes the declaration of a subprogram, or its body.
fn subprogram(
    indicator: Indicator,
    specification: Specification<Identifier, Identifier>,
    body: Option<Boxed<Body<Identifier, Identifier>>>,
) -> ItemKind<Identifier, Identifier, Boxed<Body<Identifier, Identifier>>>
    ensures { item_kind_node view_body result ≡ tag labels.Subprogram (pair (indicator_node indicator) (pair (specification_node specification) (optional view_body body))) }
{
    let mut specification = specification;
    specification.indicator = indicator;
    match body {
        None => ItemKind::Declaration(specification),
        Some(body) => ItemKind::Body(specification, body),
    }
}

/// Makes the item of a procedure that does not say `overriding`.
fn procedure_kind(
    span: Span,
    name: Identifier,
    rest: Rest,
) -> ItemKind<Identifier, Identifier, Boxed<Body<Identifier, Identifier>>>
    ensures { (end : Node) → item_kind_node view_body result ≡ kept_here (procedure_of (at span) (identifier_node name) (rest_node rest end)) }
{
    match rest {
        Rest::Instance(generic, actuals) => ItemKind::Instance(name, generic, actuals),
        Rest::Subprogram(formals, body) => {
            let specification = Specification {
                indicator: Indicator::Absent,
                span,
                name,
                formals,
                result: None,
            };
            subprogram(Indicator::Absent, specification, body)
        }
    }
}

impl<'a> Parser<'a> {
    /// Reads `{item}` (RM 3.11).
    #[cycle(statements)]
    pub(crate) fn part(&mut self) -> Items<Item<Identifier, Identifier>>
        ensures { Reads part none self.old (row_of (map view_item result)) self.new }
    {
        let mut all = Items::new(self.alloc);
        'more: while self.at_item() {
            let next = self.item();
            self.push(&mut all, next);
        }
        all
    }

    /// Reads an item of a declarative part.
    #[cycle(statements)]
    fn item(&mut self) -> Item<Identifier, Identifier>
        ensures { Reads item none self.old (view_item result) self.new }
    {
        if self.next_is(Kind::Overriding) {
            self.overriding_item()
        } else if self.next_is(Kind::Procedure) {
            self.procedure_item()
        } else if self.next_is(Kind::Function) {
            self.function_item()
        } else if self.next_is(Kind::Type) {
            self.type_item()
        } else if self.next_is(Kind::For) {
            self.clause()
        } else {
            self.named_item()
        }
    }

    /// Reads `"overriding" spec ";" | "overriding" body` (RM 8.3.1).
    #[cycle(statements)]
    fn overriding_item(&mut self) -> Item<Identifier, Identifier>
        ensures { Reads overriding_item none self.old (view_item result) self.new }
    {
        let span = self.mark(Kind::Overriding);
        let (specification, body) = self.completed_specification();
        let kind = subprogram(Indicator::Overriding, specification, body);
        Item { span, kind }
    }

    /// Reads a heading and what completes it, behind `overriding`.
    #[cycle(statements)]
    fn completed_specification(
        &mut self,
    ) -> (
        Specification<Identifier, Identifier>,
        Option<Boxed<Body<Identifier, Identifier>>>,
    )
        ensures { (end : Node) × Reads completed_specification none self.old (pair (specification_node result.0) (completed_node result.1 end)) self.new }
    {
        self.refuse_deep_body(Heading::Any);
        let specification = self.specification();
        let body = self.completed(&specification.name);
        (specification, body)
    }

    /// Reads the declaration of a function, or its body.
    #[cycle(statements)]
    fn function_item(&mut self) -> Item<Identifier, Identifier>
        ensures { Reads function_item none self.old (view_item result) self.new }
    {
        let (specification, body) = self.completed_function();
        let span = specification.span;
        let kind = subprogram(Indicator::Absent, specification, body);
        Item { span, kind }
    }

    /// Reads the heading of a function and what completes it.
    #[cycle(statements)]
    fn completed_function(
        &mut self,
    ) -> (
        Specification<Identifier, Identifier>,
        Option<Boxed<Body<Identifier, Identifier>>>,
    )
        ensures { (end : Node) × Reads completed_function none self.old (pair (specification_node result.0) (completed_node result.1 end)) self.new }
    {
        self.refuse_deep_body(Heading::Function);
        let specification = self.function();
        let body = self.completed(&specification.name);
        (specification, body)
    }

    /// Reads the declaration of a procedure, its body, or an instance.
    #[cycle(statements)]
    fn procedure_item(&mut self) -> Item<Identifier, Identifier>
        ensures { Reads procedure_item none self.old (view_item result) self.new }
    {
        self.refuse_deep_body(Heading::Procedure);
        let span = self.mark(Kind::Procedure);
        let name = self.identifier();
        let rest = self.behind_name(&name);
        let kind = procedure_kind(span, name, rest);
        Item { span, kind }
    }

    /// Reads what stands behind the name of a procedure that does not say `overriding`.
    #[cycle(statements)]
    fn behind_name(&mut self, name: &Identifier) -> Rest
        ensures { (end : Node) × Reads behind_name (written name.now.text) self.old (rest_node result end) self.new }
    {
        if self.next_is(Kind::LeftParenthesis) {
            let formals = self.formals();
            let body = self.completed(name);
            Rest::Subprogram(formals, body)
        } else if self.next_is(Kind::Is) {
            self.skip(Kind::Is);
            self.behind_is(name)
        } else {
            self.skip(Kind::Semicolon);
            Rest::Subprogram(Items::new(self.alloc), None)
        }
    }

    /// Reads an instance, or the body of a procedure without parameters, behind its `is`.
    #[cycle(statements)]
    fn behind_is(&mut self, name: &Identifier) -> Rest
        ensures { (end : Node) × Reads behind_is (written name.now.text) self.old (rest_node result end) self.new }
    {
        if self.next_is(Kind::New) {
            let (generic, actuals) = self.instance();
            Rest::Instance(generic, actuals)
        } else {
            let inside = self.bare_body(name);
            let body = self.boxed(inside);
            Rest::Subprogram(Items::new(self.alloc), body)
        }
    }

    /// Reads a semicolon, or a body, behind a heading.
    #[cycle(statements)]
    fn completed(&mut self, name: &Identifier) -> Option<Boxed<Body<Identifier, Identifier>>>
        ensures { (end : Node) × Reads completed (written name.now.text) self.old (completed_node result end) self.new }
    {
        if self.next_is(Kind::Semicolon) {
            self.skip(Kind::Semicolon);
            None
        } else {
            let inside = self.body(name);
            self.boxed(inside)
        }
    }

    /// Reads what stands behind the heading of a body, a construct (RM 6.3).
    #[cycle(statements)]
    pub(crate) fn body(&mut self, name: &Identifier) -> Body<Identifier, Identifier>
        ensures { (end : Node) × Reads (nest forms.Body) (written name.now.text) self.old (ended_node result end) self.new }
    {
        let is_next = self.next_is(Kind::Is);
        if self.open(is_next) {
            let inside = self.in_body(name);
            self.close();
            inside
        } else {
            self.no_body()
        }
    }

    /// Reads `"is" part "begin" handled "end" [id] ";"`.
    #[cycle(statements)]
    fn in_body(&mut self, name: &Identifier) -> Body<Identifier, Identifier>
        ensures { (end : Node) × Reads (body forms.Body) (written name.now.text) self.old (ended_node result end) self.new }
    {
        self.skip(Kind::Is);
        self.completion(name)
    }

    /// Reads what stands behind the `is` of a body, a construct (RM 6.3).
    #[cycle(statements)]
    fn bare_body(&mut self, name: &Identifier) -> Body<Identifier, Identifier>
        ensures { (end : Node) × Reads (nest forms.BareBody) (written name.now.text) self.old (ended_node result end) self.new }
    {
        let is_next = self.at_bare_body();
        if self.open(is_next) {
            let inside = self.completion(name);
            self.close();
            inside
        } else {
            self.no_body()
        }
    }

    /// Reads `part "begin" handled "end" [id] ";"`.
    #[cycle(statements)]
    fn completion(&mut self, name: &Identifier) -> Body<Identifier, Identifier>
        ensures { (end : Node) × Reads completion (written name.now.text) self.old (ended_node result end) self.new }
    {
        let items = self.part();
        self.skip(Kind::Begin);
        let (statements, handlers) = self.handled();
        self.skip(Kind::End);
        let _ = self.end_name(name);
        self.skip(Kind::Semicolon);
        Body {
            items,
            statements,
            handlers,
        }
    }

    /// Gives a body that means nothing.
    fn no_body(&self) -> Body<Identifier, Identifier> {
        Body {
            items: Items::new(self.alloc),
            statements: Items::new(self.alloc),
            handlers: Items::new(self.alloc),
        }
    }

    /// Tells whether an item is next.
    #[tactic(auto, unfolding(ctl_grammar::specs::Grammar::item, ctl_grammar::specs::Grammar::overriding_item, ctl_grammar::specs::Grammar::procedure_item, ctl_grammar::specs::Grammar::completed_procedure, ctl_grammar::specs::Grammar::function_item, ctl_grammar::specs::Grammar::completed_function, ctl_grammar::specs::Grammar::function, ctl_grammar::specs::Grammar::type_item, ctl_grammar::specs::Grammar::clause, ctl_grammar::specs::Grammar::named_item, ctl_grammar::specs::Grammar::identifiers, ctl_grammar::specs::Grammar::identifier))]
    fn at_item(&self) -> bool
        ensures { result ≡ sees (starts item) self.now }
    {
        self.next_is(Kind::Overriding)
            || self.next_is(Kind::Procedure)
            || self.next_is(Kind::Function)
            || self.next_is(Kind::Type)
            || self.next_is(Kind::For)
            || self.next_is(Kind::Identifier)
    }

    /// Tells whether what stands behind the `is` of a body is next.
    #[tactic(auto, using(ctl_grammar::proofs::First::bare_body_begins))]
    fn at_bare_body(&self) -> bool
        ensures { result ≡ sees (nest_starts forms.BareBody) self.now }
    {
        self.at_item() || self.next_is(Kind::Begin)
    }
}
