//! The place of a body that is too deep.
//!
//! A body counts from the first token with which the tokens so far can be nothing but a body, but its own first token is
//! `procedure` or `function`. So where no more construct may be opened, the parser looks ahead before it reads a heading.

ghost use Rattle.std.specs.Prelude.{◌≡◌};
ghost use Rattle.ctl_grammar.specs.Form.{none, alt};
ghost use Rattle.ctl_grammar.specs.Grammar.{plain_formals, start_of_function, start_of_procedure, start_of_function_body, start_of_body, start_of_bare_body, behind_start, start_of_procedure_body};
ghost use Rattle.ctl_grammar.specs.Reading.{is_ahead};
ghost use Rattle.ctl_parse.specs.Heading.{head_of};
ghost use Rattle.ctl_parse.specs.Reads.{Bounds, Foreseen, Reads};

use crate::cursor::Parser;
use ctl_grammar::refused::{Reason, Refused};
use ctl_tree::token::Kind;

/// What begins an item that may be a body.
#[derive(Clone, Copy)]
pub(crate) enum Heading {
    /// `procedure` where an instance may stand too.
    Procedure,
    /// `function`.
    Function,
    /// What stands behind `overriding`.
    Any,
}

impl<'a> Parser<'a> {
    /// Notes that a body is too deep, where one is next and no more construct may be opened.
    pub(crate) fn refuse_deep_body(&mut self, heading: Heading)
        ensures { Bounds (head_of heading) self.old self.new }
    {
        if self.fault.is_none() && self.left == 0 {
            match self.foreseen(heading) {
                None => self.fault = Some(Refused::Token(Reason::TooDeep)),
                Some(Refused::Memory) => self.fault = Some(Refused::Memory),
                Some(Refused::Token(_)) => {}
            }
        }
    }

    /// Answers what stops the reading of what begins a body, if something does. The parser stays where it is.
    fn foreseen(&self, heading: Heading) -> Option<Refused>
        ensures { Foreseen (is_ahead (head_of heading) self.now.rest.now) result }
    {
        let mut ahead = Parser {
            rest: self.rest,
            left: self.left,
            fault: None,
            alloc: self.alloc,
        };
        ahead.start(heading);
        ahead.fault
    }

    /// Reads what begins a body.
    fn start(&mut self, heading: Heading)
        ensures { Reads (head_of heading) none self.old none self.new }
    {
        match heading {
            Heading::Procedure => self.start_of_procedure_body(),
            Heading::Function => self.start_of_function_body(),
            Heading::Any => self.start_of_body(),
        }
    }

    /// Reads `["(" formal {";" formal} ")"]`.
    fn plain_formals(&mut self)
        ensures { Reads plain_formals none self.old none self.new }
    {
        if self.next_is(Kind::LeftParenthesis) {
            let _ = self.in_formals();
        }
    }

    /// Reads `"function" id [formals] "return" dotted`.
    fn start_of_function(&mut self)
        ensures { Reads start_of_function none self.old none self.new }
    {
        self.skip(Kind::Function);
        let _ = self.identifier();
        self.plain_formals();
        self.skip(Kind::Return);
        let _ = self.dotted();
    }

    /// Reads `"procedure" id [formals]`.
    fn start_of_procedure(&mut self)
        ensures { Reads start_of_procedure none self.old none self.new }
    {
        self.skip(Kind::Procedure);
        let _ = self.identifier();
        self.plain_formals();
    }

    /// Reads `"function" id [formals] "return" dotted "is"`.
    fn start_of_function_body(&mut self)
        ensures { Reads start_of_function_body none self.old none self.new }
    {
        self.start_of_function();
        self.skip(Kind::Is);
    }

    /// Reads the heading of a body.
    fn start_of_any(&mut self)
        ensures { Reads (alt start_of_function start_of_procedure) none self.old none self.new }
    {
        if self.next_is(Kind::Function) {
            self.start_of_function()
        } else {
            self.start_of_procedure()
        }
    }

    /// Reads the heading of a body, and `"is"`.
    fn start_of_body(&mut self)
        ensures { Reads start_of_body none self.old none self.new }
    {
        self.start_of_any();
        self.skip(Kind::Is);
    }

    /// Reads a token that can stand behind the `is` of a body.
    fn start_of_bare_body(&mut self)
        ensures { Reads start_of_bare_body none self.old none self.new }
    {
        if self.next_is(Kind::Overriding) {
            self.skip(Kind::Overriding)
        } else if self.next_is(Kind::Procedure) {
            self.skip(Kind::Procedure)
        } else if self.next_is(Kind::Function) {
            self.skip(Kind::Function)
        } else if self.next_is(Kind::Type) {
            self.skip(Kind::Type)
        } else if self.next_is(Kind::For) {
            self.skip(Kind::For)
        } else if self.next_is(Kind::Identifier) {
            self.skip(Kind::Identifier)
        } else {
            self.skip(Kind::Begin)
        }
    }

    /// Reads `formals "is"`, or `"is"` and a token that can stand behind it in a body.
    fn behind_start(&mut self)
        ensures { Reads behind_start none self.old none self.new }
    {
        if self.next_is(Kind::LeftParenthesis) {
            let _ = self.in_formals();
            self.skip(Kind::Is)
        } else {
            self.skip(Kind::Is);
            self.start_of_bare_body()
        }
    }

    /// Reads `"procedure" id`, and what shows that a body follows.
    fn start_of_procedure_body(&mut self)
        ensures { Reads start_of_procedure_body none self.old none self.new }
    {
        self.skip(Kind::Procedure);
        let _ = self.identifier();
        self.behind_start();
    }
}
