//! Definitions of types (RM 3).

ghost use Rattle.std.specs.Prelude.{◌≡◌, ◌∷◌, [], map};
ghost use Rattle.ctl_grammar.specs.Form.{Node, none, pair, tag};
ghost use Rattle.ctl_grammar.specs.Grammar.{flag, optional_value, component, component_list, components, null_record, full_record, recorded, limited_record, extension, aspect, designated_attribute, access, definition, defined, type_kind, type_item, clause};
ghost use Rattle.ctl_grammar.specs.Label as labels;
ghost use Rattle.ctl_grammar.specs.Nodes.{row_of};
ghost use Rattle.ctl_parse.specs.Parts.{aspect_node, components_node, defined_node, definition_node, generality_node, item_kind_node, view_body, view_item};
ghost use Rattle.ctl_parse.specs.Reads.{Reads};
ghost use Rattle.ctl_parse.specs.View.{identifier_node, mark_node, optional, view};

use crate::cursor::Parser;
use ctl_syntax::expression::Expression;
use ctl_syntax::item::{
    Body, Components, Coverage, Definition, Generality, Item, ItemKind, Limitation, Taggedness,
};
use ctl_syntax::name::{Identifier, Mark};
use ctl_tree::token::Kind;
use sqlite_items::{Boxed, Items};

/// What stands behind the name of a type.
#[derive(Drop)]
pub(crate) enum Defined {
    /// An incomplete type (RM 3.10.1).
    Incomplete(Taggedness),
    /// A type with its definition (RM 3.2.1).
    Full(Definition<Identifier>),
}

/// Makes the declaration of a type of its name and what stands behind it.
fn type_kind_of(
    name: Identifier,
    defined: Defined,
) -> ItemKind<Identifier, Identifier, Boxed<Body<Identifier, Identifier>>>
    ensures { item_kind_node view_body result ≡ tag labels.TypeItem (pair (identifier_node name) (defined_node defined)) }
{
    match defined {
        Defined::Incomplete(taggedness) => ItemKind::Incomplete(name, taggedness),
        Defined::Full(definition) => ItemKind::Type(name, definition),
    }
}

impl<'a> Parser<'a> {
    /// Reads `[":=" expr]`.
    pub(crate) fn optional_value(&mut self) -> Option<Expression<Identifier>>
        ensures { Reads optional_value none self.old (optional view result) self.new }
    {
        if self.next_is(Kind::Becomes) {
            self.skip(Kind::Becomes);
            let value = self.expression();
            Some(value)
        } else {
            None
        }
    }

    /// Reads `ids ":" dotted [":=" expr] ";"` (RM 3.8).
    fn component(&mut self) -> Components<Identifier>
        ensures { Reads component none self.old (components_node result) self.new }
    {
        let (_, names) = self.identifiers();
        self.skip(Kind::Colon);
        let mark = self.dotted();
        let default = self.optional_value();
        self.skip(Kind::Semicolon);
        Components {
            names,
            mark,
            default,
        }
    }

    /// Reads `comp {comp}`.
    fn component_list(&mut self) -> Items<Components<Identifier>>
        ensures { Reads component_list none self.old (row_of (map components_node result)) self.new }
    {
        let mut all = Items::new(self.alloc);
        let first = self.component();
        self.push(&mut all, first);
        'more: while self.next_is(Kind::Identifier) {
            let next = self.component();
            self.push(&mut all, next);
        }
        all
    }

    /// Reads `"null" ";" | comp {comp}`.
    fn components(&mut self) -> Items<Components<Identifier>>
        ensures { Reads components none self.old (row_of (map components_node result)) self.new }
    {
        if self.next_is(Kind::Null) {
            self.skip(Kind::Null);
            self.skip(Kind::Semicolon);
            Items::new(self.alloc)
        } else {
            self.component_list()
        }
    }

    /// Reads `"null" "record"`.
    fn null_record(&mut self) -> Items<Components<Identifier>>
        ensures { Reads null_record none self.old (row_of (map components_node result)) self.new }
    {
        self.skip(Kind::Null);
        self.skip(Kind::Record);
        Items::new(self.alloc)
    }

    /// Reads `"record" ("null" ";" | comp {comp}) "end" "record"`.
    fn full_record(&mut self) -> Items<Components<Identifier>>
        ensures { Reads full_record none self.old (row_of (map components_node result)) self.new }
    {
        self.skip(Kind::Record);
        let components = self.components();
        self.skip(Kind::End);
        self.skip(Kind::Record);
        components
    }

    /// Reads the definition of a record (RM 3.8).
    fn recorded(&mut self) -> Items<Components<Identifier>>
        ensures { Reads recorded none self.old (row_of (map components_node result)) self.new }
    {
        if self.next_is(Kind::Null) {
            self.null_record()
        } else {
            self.full_record()
        }
    }

    /// Reads `"limited"` and the definition of a record (RM 7.5).
    fn limited_record(&mut self) -> Definition<Identifier>
        ensures { Reads limited_record none self.old (definition_node result) self.new }
    {
        self.skip(Kind::Limited);
        let components = self.recorded();
        Definition::Record(Limitation::Limited, components)
    }

    /// Reads `"new" dotted "with"` and the definition of a record (RM 3.9.1).
    fn extension(&mut self) -> Definition<Identifier>
        ensures { Reads extension none self.old (definition_node result) self.new }
    {
        let parent = self.behind(Kind::New);
        self.skip(Kind::With);
        let components = self.recorded();
        Definition::Extension(parent, components)
    }

    /// Reads `["'" id]` of an access type, where the subset has no attribute.
    fn designated_attribute(&mut self)
        ensures { Reads designated_attribute none self.old none self.new }
    {
        if self.next_is(Kind::Apostrophe) {
            self.skip(Kind::Apostrophe);
            self.unknown();
        }
    }

    /// Reads `["with" "Storage_Pool" "=>" dotted]` (RM 13.1.1, 13.11).
    fn aspect(&mut self) -> Option<Mark<Identifier>>
        ensures { (word : Node) × Reads aspect none self.old (aspect_node word result) self.new }
    {
        if self.next_is(Kind::With) {
            self.skip(Kind::With);
            let _ = self.storage_pool();
            self.skip(Kind::Arrow);
            let pool = self.dotted();
            Some(pool)
        } else {
            None
        }
    }

    /// Reads `["all"]`.
    fn generality(&mut self) -> Generality
        ensures { Reads (flag Kind.All) none self.old (generality_node result) self.new }
    {
        if self.next_is(Kind::All) {
            self.skip(Kind::All);
            Generality::General
        } else {
            Generality::PoolSpecific
        }
    }

    /// Reads `"access" ["all"] dotted ["'" id] [aspect]` (RM 3.10).
    fn access(&mut self) -> Definition<Identifier>
        ensures { Reads access none self.old (definition_node result) self.new }
    {
        self.skip(Kind::Access);
        let generality = self.generality();
        let designated = self.dotted();
        self.designated_attribute();
        let pool = self.aspect();
        Definition::Access(generality, designated, Coverage::Specific, pool)
    }

    /// Reads the definition of a type (RM 3.2.1).
    fn definition(&mut self) -> Definition<Identifier>
        ensures { Reads definition none self.old (definition_node result) self.new }
    {
        if self.next_is(Kind::Limited) {
            self.limited_record()
        } else if self.next_is(Kind::New) {
            self.extension()
        } else if self.next_is(Kind::Access) {
            self.access()
        } else {
            let components = self.recorded();
            Definition::Record(Limitation::Nonlimited, components)
        }
    }

    /// Reads what stands between the `is` of a type and its semicolon.
    fn defined(&mut self) -> Defined
        ensures { Reads defined none self.old (defined_node result) self.new }
    {
        if self.next_is(Kind::Tagged) {
            self.skip(Kind::Tagged);
            Defined::Incomplete(Taggedness::Tagged)
        } else {
            let definition = self.definition();
            Defined::Full(definition)
        }
    }

    /// Reads what stands between the name of a type and its semicolon.
    fn type_kind(&mut self) -> Defined
        ensures { Reads type_kind none self.old (defined_node result) self.new }
    {
        if self.next_is(Kind::Is) {
            self.skip(Kind::Is);
            self.defined()
        } else {
            Defined::Incomplete(Taggedness::Unsaid)
        }
    }

    /// Reads `"type" id ["is" "tagged"] ";" | "type" id "is" typedef ";"` (RM 3.2.1, 3.10.1).
    pub(crate) fn type_item(&mut self) -> Item<Identifier, Identifier>
        ensures { Reads type_item none self.old (view_item result) self.new }
    {
        let span = self.mark(Kind::Type);
        let name = self.identifier();
        let defined = self.type_kind();
        self.skip(Kind::Semicolon);
        let kind = type_kind_of(name, defined);
        Item { span, kind }
    }

    /// Reads `"for" id "'" "Storage_Pool" "use" dotted ";"` (RM 13.3, 13.11).
    pub(crate) fn clause(&mut self) -> Item<Identifier, Identifier>
        ensures { Reads clause none self.old (view_item result) self.new }
    {
        let span = self.mark(Kind::For);
        let name = self.identifier();
        self.skip(Kind::Apostrophe);
        let _ = self.storage_pool();
        let pool = self.behind(Kind::Use);
        self.skip(Kind::Semicolon);
        Item {
            span,
            kind: ItemKind::StoragePool(name, pool),
        }
    }
}
