//! Objects, exceptions and instances (RM 3.3.1, 11.1, 12.3), and clauses of the context (RM 10.1.2, 8.4).

ghost use Rattle.std.specs.Prelude.{◌≡◌, ◌∷◌, [], map};
ghost use Rattle.ctl_grammar.specs.Form.{none, at, pair, tag, starts};
ghost use Rattle.ctl_grammar.specs.Grammar.{flag, context_kind, context, contexts, objects, named_kind, named_item, instance};
ghost use Rattle.ctl_grammar.specs.Label as labels;
ghost use Rattle.ctl_grammar.specs.Nodes.{alone, row_of};
ghost use Rattle.ctl_parse.specs.Parts.{aliasing_node, association_node, constancy_node, context_label, context_node, declared_node, item_kind_node, objects_node, view_body, view_item};
ghost use Rattle.ctl_parse.specs.Reads.{Reads, sees};
ghost use Rattle.ctl_parse.specs.View.{identifier_node, mark_node};

use crate::cursor::Parser;
use ctl_syntax::item::{
    Aliasing, Association, Body, Constancy, Context, ContextKind, Item, ItemKind, Objects,
};
use ctl_syntax::name::{Identifier, Mark};
use ctl_tree::span::Span;
use ctl_tree::token::Kind;
use sqlite_items::{Boxed, Items};

/// Makes the declaration of names of what stands behind them: exceptions, where that is nothing.
fn named_kind_of(
    names: Items<Identifier>,
    objects: Option<Objects<Identifier, Identifier>>,
) -> ItemKind<Identifier, Identifier, Boxed<Body<Identifier, Identifier>>>
    ensures { item_kind_node view_body result ≡ tag labels.NamedItem (pair (row_of (map identifier_node names)) (declared_node objects)) }
{
    match objects {
        None => ItemKind::Exceptions(names),
        Some(mut objects) => {
            objects.names = names;
            ItemKind::Objects(objects)
        }
    }
}

impl<'a> Parser<'a> {
    /// Reads `"with" | "use"`, with its place.
    fn context_kind(&mut self) -> (Span, ContextKind)
        ensures { Reads context_kind none self.old (pair (at result.0) (alone (context_label result.1))) self.new }
    {
        if self.next_is(Kind::With) {
            let span = self.mark(Kind::With);
            (span, ContextKind::With)
        } else {
            let span = self.mark(Kind::Use);
            (span, ContextKind::Use)
        }
    }

    /// Reads `("with" | "use") dotted {"," dotted} ";"` (RM 10.1.2, 8.4).
    fn context(&mut self) -> Context
        ensures { Reads context none self.old (context_node result) self.new }
    {
        let (span, kind) = self.context_kind();
        let units = self.dotted_list(Kind::Comma);
        self.skip(Kind::Semicolon);
        Context { span, kind, units }
    }

    /// Tells whether a clause of the context is next.
    #[tactic(auto, unfolding(ctl_grammar::specs::Grammar::context, ctl_grammar::specs::Grammar::context_kind))]
    fn at_context(&self) -> bool
        ensures { result ≡ sees (starts context) self.now }
    {
        self.next_is(Kind::With) || self.next_is(Kind::Use)
    }

    /// Reads `{context}`.
    pub(crate) fn contexts(&mut self) -> Items<Context>
        ensures { Reads contexts none self.old (row_of (map context_node result)) self.new }
    {
        let mut all = Items::new(self.alloc);
        'more: while self.at_context() {
            let next = self.context();
            self.push(&mut all, next);
        }
        all
    }

    /// Reads `["aliased"]`.
    fn aliasing(&mut self) -> Aliasing
        ensures { Reads (flag Kind.Aliased) none self.old (aliasing_node result) self.new }
    {
        if self.next_is(Kind::Aliased) {
            self.skip(Kind::Aliased);
            Aliasing::Aliased
        } else {
            Aliasing::Unaliased
        }
    }

    /// Reads `["constant"]`.
    fn constancy(&mut self) -> Constancy
        ensures { Reads (flag Kind.Constant) none self.old (constancy_node result) self.new }
    {
        if self.next_is(Kind::Constant) {
            self.skip(Kind::Constant);
            Constancy::Constant
        } else {
            Constancy::Variable
        }
    }

    /// Reads `["aliased"] ["constant"] dotted [assocs] [":=" expr]` (RM 3.3.1), of objects that have no names yet.
    fn objects(&mut self) -> Objects<Identifier, Identifier>
        ensures { Reads objects none self.old (objects_node result) self.new }
    {
        let aliasing = self.aliasing();
        let constancy = self.constancy();
        let mark = self.dotted();
        let discriminants = self.optional_associations();
        let value = self.optional_value();
        Objects {
            names: Items::new(self.alloc),
            aliasing,
            constancy,
            mark,
            discriminants,
            value,
        }
    }

    /// Reads what stands between the colon behind names and the semicolon: none where they are exceptions.
    fn named_kind(&mut self) -> Option<Objects<Identifier, Identifier>>
        ensures { Reads named_kind none self.old (declared_node result) self.new }
    {
        if self.next_is(Kind::Exception) {
            self.skip(Kind::Exception);
            None
        } else {
            let objects = self.objects();
            Some(objects)
        }
    }

    /// Reads `ids ":" "exception" ";"` (RM 11.1), or objects (RM 3.3.1).
    pub(crate) fn named_item(&mut self) -> Item<Identifier, Identifier>
        ensures { Reads named_item none self.old (view_item result) self.new }
    {
        let (span, names) = self.identifiers();
        self.skip(Kind::Colon);
        let objects = self.named_kind();
        self.skip(Kind::Semicolon);
        let kind = named_kind_of(names, objects);
        Item { span, kind }
    }

    /// Reads `"new" dotted assocs ";"` behind the `is` of an instance (RM 12.3).
    pub(crate) fn instance(&mut self) -> (Mark<Identifier>, Items<Association<Identifier>>)
        ensures { Reads instance none self.old (pair (mark_node result.0) (row_of (map association_node result.1))) self.new }
    {
        let generic = self.behind(Kind::New);
        let actuals = self.associations();
        self.skip(Kind::Semicolon);
        (generic, actuals)
    }
}
