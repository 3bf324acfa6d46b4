//! Identifiers, and names of identifiers alone.

ghost use Rattle.ctl_grammar.specs.Form.{none};
ghost use Rattle.ctl_grammar.specs.Grammar.{identifier, selector, selectors, dotted, next_dotted, dotted_list, behind};
ghost use Rattle.ctl_grammar.specs.Nodes.{row_of};
ghost use Rattle.ctl_parse.specs.Reads.{Reads};
ghost use Rattle.ctl_parse.specs.View.{identifier_node, mark_node};
ghost use Rattle.std.specs.Prelude.{map};

use crate::cursor::{NOWHERE, Parser};
use ctl_syntax::name::{Identifier, Mark};
use ctl_tree::text::Text;
use ctl_tree::token::Kind;
use sqlite_items::Items;

impl<'a> Parser<'a> {
    /// Reads `id`.
    pub(crate) fn identifier(&mut self) -> Identifier
        ensures { Reads identifier none self.old (identifier_node result) self.new }
    {
        match self.take(Kind::Identifier) {
            Some(token) => self.identified(token),
            None => Identifier {
                text: Text::new(self.alloc),
                span: NOWHERE,
            },
        }
    }

    /// Reads `"." id`.
    fn selector(&mut self) -> Identifier
        ensures { Reads selector none self.old (identifier_node result) self.new }
    {
        self.skip(Kind::Dot);
        self.identifier()
    }

    /// Reads `{"." id}`.
    fn selectors(&mut self) -> Items<Identifier>
        ensures { Reads selectors none self.old (row_of (map identifier_node result)) self.new }
    {
        let mut all = Items::new(self.alloc);
        'more: while self.next_is(Kind::Dot) {
            let next = self.selector();
            self.push(&mut all, next);
        }
        all
    }

    /// Reads `id {"." id}`.
    pub(crate) fn dotted(&mut self) -> Mark<Identifier>
        ensures { Reads dotted none self.old (mark_node result) self.new }
    {
        let first = self.identifier();
        let rest = self.selectors();
        Mark { first, rest }
    }

    /// Reads `SEPARATOR dotted`.
    fn next_dotted(&mut self, separator: Kind) -> Mark<Identifier>
        ensures { Reads (next_dotted separator) none self.old (mark_node result) self.new }
    {
        self.skip(separator);
        self.dotted()
    }

    /// Reads `dotted {SEPARATOR dotted}`.
    pub(crate) fn dotted_list(&mut self, separator: Kind) -> Items<Mark<Identifier>>
        ensures { Reads (dotted_list separator) none self.old (row_of (map mark_node result)) self.new }
    {
        let mut all = Items::new(self.alloc);
        let first = self.dotted();
        self.push(&mut all, first);
        'more: while self.next_is(separator) {
            let next = self.next_dotted(separator);
            self.push(&mut all, next);
        }
        all
    }

    /// Reads `WORD dotted`.
    pub(crate) fn behind(&mut self, word: Kind) -> Mark<Identifier>
        ensures { Reads (behind word) none self.old (mark_node result) self.new }
    {
        self.skip(word);
        self.dotted()
    }
}
