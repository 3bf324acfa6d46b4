//! The identifiers that the grammar knows at some places, and the name at an end.

ghost use Rattle.std.specs.Prelude.{[], MatchOption};
ghost use Rattle.ctl_grammar.specs.Form.{none, leaf, written};
ghost use Rattle.ctl_grammar.specs.Grammar.{end_name, known, storage_pool};
ghost use Rattle.ctl_grammar.specs.Nodes.{identifier_of};
ghost use Rattle.ctl_parse.specs.Reads.{Reads};

use crate::cursor::Parser;
use ctl_grammar::kind::is_same_kind;
use ctl_grammar::refused::{Reason, Refused};
use ctl_grammar::spelling::is_same_name;
use ctl_syntax::name::Identifier;
use ctl_tree::token::{Kind, Token};

impl<'a> Parser<'a> {
    /// Reads the word Storage_Pool, which an aspect or a clause sets (RM 13.11). The subset leaves others out.
    #[tactic(auto, unfolding(ctl_grammar::specs::Grammar::known))]
    pub(crate) fn storage_pool(&mut self) -> Option<&'a Token>
        ensures { MatchOption result (Reads (known storage_pool) none self.old none self.new) (λ t. Reads (known storage_pool) none self.old (identifier_of (leaf t.now)) self.new) }
    {
        if self.fault.is_some() {
            return None;
        }
        match self.rest.split_first() {
            Some((token, rest)) if is_same_kind(Kind::Identifier, token.kind) => {
                if is_same_name(b"storage_pool", token.text.as_bytes()) {
                    self.rest = rest;
                    Some(token)
                } else {
                    self.fault = Some(Refused::Token(Reason::LeftOut));
                    None
                }
            }
            _ => {
                self.fault = Some(Refused::Token(Reason::Unexpected));
                None
            }
        }
    }

    /// Refuses the attribute of a designated type: the subset has none there.
    #[tactic(auto, unfolding(ctl_grammar::specs::Grammar::known))]
    pub(crate) fn unknown(&mut self)
        ensures { Reads (known []) none self.old none self.new }
    {
        if self.fault.is_some() {
            return;
        }
        match self.rest.first() {
            Some(token) if is_same_kind(Kind::Identifier, token.kind) => {
                self.fault = Some(Refused::Token(Reason::LeftOut));
            }
            _ => self.fault = Some(Refused::Token(Reason::Unexpected)),
        }
    }

    /// Reads `[id]` behind the `end` of the body of this name (RM 6.3).
    #[tactic(auto, unfolding(ctl_grammar::specs::Grammar::end_name))]
    pub(crate) fn end_name(&mut self, name: &Identifier) -> Option<&'a Token>
        ensures { MatchOption result (Reads end_name (written name.now.text) self.old none self.new) (λ t. Reads end_name (written name.now.text) self.old (identifier_of (leaf t.now)) self.new) }
    {
        if self.fault.is_some() {
            return None;
        }
        match self.rest.split_first() {
            Some((token, rest)) if is_same_kind(Kind::Identifier, token.kind) => {
                if is_same_name(name.text.as_bytes(), token.text.as_bytes()) {
                    self.rest = rest;
                    Some(token)
                } else {
                    self.fault = Some(Refused::Token(Reason::EndName));
                    None
                }
            }
            _ => None,
        }
    }
}
