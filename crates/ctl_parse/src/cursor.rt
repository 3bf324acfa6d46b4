//! Where the parser stands, and the reading of single tokens.

ghost use Rattle.std.specs.Prelude.{◌≡◌, ◌+◌, ◌<◌, ◌^◌, ◌∷◌, [], IfOk, MatchOption, true, false};
ghost use Rattle.ctl_grammar.specs.Form.{Node, none, leaf, at, word, keep};
ghost use Rattle.ctl_grammar.specs.Grammar.{spot};
ghost use Rattle.ctl_parse.specs.Reads.{Appends, Opened, Reads, Refuses, Stops, Unopened, sees};

use ctl_grammar::kind::is_same_kind;
use ctl_grammar::refused::{Reason, Refused};
use ctl_tree::span::Span;
use ctl_tree::token::{Kind, Token};
use sqlite_items::Items;
use std::alloc::{AllocError, Global};

/// What is left of the tokens, how many more constructs may be opened, and the fault, once one is met.
///
/// A parser with a fault reads nothing more, and what its methods give then means nothing.
#[derive(Drop)]
pub(crate) struct Parser<'a> {
    pub(crate) rest: &'a [Token],
    pub(crate) left: u32,
    pub(crate) fault: Option<Refused>,
    pub(crate) alloc: Global,
}

/// The place that stands for none.
pub(crate) const NOWHERE: Span = Span { line: 0, column: 0 };

impl<'a> Parser<'a> {
    /// Says whether the parser goes on with a token of this kind.
    pub(crate) fn next_is(&self, kind: Kind) -> bool
        ensures { result ≡ sees (kind ∷ []) self.now }
    {
        match self.rest.first() {
            Some(token) => self.fault.is_none() && is_same_kind(kind, token.kind),
            None => false,
        }
    }

    /// Takes the next token, which is to be of this kind.
    pub(crate) fn take(&mut self, kind: Kind) -> Option<&'a Token>
        ensures { MatchOption result (Stops (keep kind) self.old self.new) (λ t. Reads (keep kind) none self.old (leaf t.now) self.new) }
    {
        if self.fault.is_some() {
            return None;
        }
        match self.rest.split_first() {
            Some((token, rest)) if is_same_kind(kind, token.kind) => {
                self.rest = rest;
                Some(token)
            }
            _ => {
                self.fault = Some(Refused::Token(Reason::Unexpected));
                None
            }
        }
    }

    /// Passes over a token of this kind.
    pub(crate) fn skip(&mut self, kind: Kind)
        ensures { Reads (word kind) none self.old none self.new }
    {
        if self.fault.is_some() {
            return;
        }
        match self.rest.split_first() {
            Some((token, rest)) if is_same_kind(kind, token.kind) => self.rest = rest,
            _ => self.fault = Some(Refused::Token(Reason::Unexpected)),
        }
    }

    /// Passes over a token of this kind, whose place it gives.
    pub(crate) fn mark(&mut self, kind: Kind) -> Span
        ensures { Reads (spot kind) none self.old (at result) self.new }
    {
        if self.fault.is_some() {
            return NOWHERE;
        }
        match self.rest.split_first() {
            Some((token, rest)) if is_same_kind(kind, token.kind) => {
                self.rest = rest;
                token.span
            }
            _ => {
                self.fault = Some(Refused::Token(Reason::Unexpected));
                NOWHERE
            }
        }
    }

    /// Opens a construct, if it is next and one more may be opened, and says whether it did.
    pub(crate) fn open(&mut self, is_next: bool) -> bool
        ensures opened { result ≡ true → Opened is_next self.old self.new }
        ensures unopened { result ≡ false → Unopened is_next self.old self.new }
        ensures closes { result ≡ true → self.new.left + 1 < 2 ^ 32 }
    {
        if self.fault.is_some() {
            return false;
        }
        if !is_next {
            self.fault = Some(Refused::Token(Reason::Unexpected));
            return false;
        }
        if self.left == 0 {
            self.fault = Some(Refused::Token(Reason::TooDeep));
            return false;
        }
        self.left -= 1;
        true
    }

    /// Closes the construct that was opened last.
    pub(crate) fn close(&mut self)
        requires { self.old.left + 1 < 2 ^ 32 }
        ensures left { self.new.left ≡ self.old.left + 1 }
        ensures rest { self.new.rest ≡ self.old.rest }
        ensures fault { self.new.fault ≡ self.old.fault }
    {
        self.left += 1;
    }

    /// Notes that memory is refused, unless a fault stands.
    pub(crate) fn refuse(&mut self)
        ensures left { self.new.left ≡ self.old.left }
        ensures rest { self.new.rest ≡ self.old.rest }
        ensures fault { Refuses self.old.fault self.new.fault }
    {
        if self.fault.is_none() {
            self.fault = Some(Refused::Memory);
        }
    }

    /// Puts an item behind a list, unless memory is refused.
    #[tactic(auto, using(crate::proofs::Parts::appended, crate::proofs::Parts::unappended))]
    pub(crate) fn push<T: Drop>(&mut self, all: &mut Items<T>, item: T)
        ensures { Appends all.old item all.new self.old self.new }
    {
        if all.is_empty() {
            match list_of(self.alloc, item) {
                Ok(list) => *all = list,
                Err(_) => self.refuse(),
            }
        } else if all.push(item).is_err() {
            self.refuse();
        }
    }
}

/// Makes a list of one item, with space for no more: most lists of a tree have one item, and items are large.
fn list_of<T: Drop>(alloc: Global, item: T) -> Result<Items<T>, AllocError>
    ensures { IfOk result (λ list. list ≡ item ∷ []) }
{
    let mut list = Items::from_vec(Vec::with_capacity(alloc, 1)?);
    list.push(item)?;
    Ok(list)
}
