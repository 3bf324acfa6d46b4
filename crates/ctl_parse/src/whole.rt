//! The whole of a source text.

ghost use Rattle.std.specs.Prelude.{◌≡◌, ◌⊎◌, IfOk, IfErr, MatchResult};
ghost use Rattle.ctl_tree.specs.declared.fault.Fault.{Fault};
ghost use Rattle.ctl_grammar.specs.Depth.{greatest_depth};
ghost use Rattle.ctl_grammar.specs.Form.{Node, none};
ghost use Rattle.ctl_grammar.specs.Grammar.{program};
ghost use Rattle.ctl_grammar.specs.Text.{IsProgram, answer};
ghost use Rattle.ctl_grammar.specs.Fault.{HasGrammarFault};
ghost use Rattle.ctl_parse.specs.Kept.{kept_program};
ghost use Rattle.ctl_parse.specs.Memory.{IsMemory, Tells};
ghost use Rattle.ctl_parse.specs.Parts.{program_node, tree_node};
ghost use Rattle.ctl_parse.specs.Reads.{Ends, Goes, Reads};

use crate::cursor::Parser;
use ctl_grammar::depth::greatest_depth;
use ctl_grammar::fault::fault_at;
use ctl_grammar::refused::{Reason, Refused};
use ctl_syntax::denoted::Written;
use ctl_syntax::item::Tree;
use ctl_tree::fault::Fault;
use ctl_tree::token::{Kind, Token};
use std::alloc::Global;

impl<'a> Parser<'a> {
    /// Reads `{context} "procedure" id "is" part "begin" handled "end" [id] ";"`, and the end mark (RM 10.1.1).
    fn program(&mut self) -> Written
        ensures { (end : Node) × Reads program none self.old (program_node result end) self.new }
    {
        let contexts = self.contexts();
        let span = self.mark(Kind::Procedure);
        let name = self.identifier();
        let body = self.body(&name);
        self.skip(Kind::Finish);
        Tree {
            contexts,
            span,
            name,
            body,
        }
    }

    /// Refuses a token behind the end.
    fn end(&mut self)
        ensures { Ends self.old self.new }
    {
        if self.fault.is_none() && !self.rest.is_empty() {
            self.fault = Some(Refused::Token(Reason::Unexpected));
        }
    }

    /// Reads the program, and no token behind it.
    fn whole(&mut self) -> Written
        ensures { (end : Node) × Goes self.old.fault self.old.rest.now (answer self.old.left self.old.rest.now) (program_node result end) self.new.fault self.new.rest.now }
    {
        let program = self.program();
        self.end();
        program
    }
}

/// Gives the fault where reading failed for this reason before these of the tokens.
fn fault_of(refused: Refused, rest: &[Token], tokens: &[Token]) -> Fault
    ensures { Tells refused rest.now tokens.now result }
{
    match refused {
        Refused::Memory => Fault::memory(),
        Refused::Token(reason) => fault_at(reason, rest, tokens),
    }
}

/// Answers the tree that the tokens spell, the last of which is the end mark, or the first fault of the grammar.
///
/// The tree keeps all of what the tokens stand for but how an attribute or the word Storage_Pool is spelled, and the names behind `end`.
///
/// `UNEXPECTED` stands at a token that the grammar does not allow there, and `LEFT_OUT` too if that is a reserved word
/// that the subset leaves out; `LEFT_OUT` also at an attribute or aspect that it leaves out. `TOO_DEEP` stands at the
/// first token of a construct where `greatest_depth()` are open, and `END_NAME` at a name behind `end` that is not the subprogram's (RM 6.3).
/// `MEMORY`: the host refused memory.
pub fn parse(alloc: Global, tokens: &[Token]) -> Result<Written, Fault>
    ensures found { IfOk result (λ tree. (v : Node) × IsProgram greatest_depth v tokens.now × (tree_node tree ≡ kept_program v)) }
    ensures refused { IfErr result (λ fault. HasGrammarFault greatest_depth tokens.now fault ⊎ IsMemory fault) }

    // A text that is a program is not refused for another reason, nor is one with a fault taken.
    ensures all_programs { (v : Node) → IsProgram greatest_depth v tokens.now → MatchResult result (λ tree. tree_node tree ≡ kept_program v) IsMemory }
    ensures all_faults { (fault : Fault) → HasGrammarFault greatest_depth tokens.now fault → MatchResult result (λ _. ⊥) (λ f. (f ≡ fault) ⊎ IsMemory f) }
{
    let mut parser = Parser {
        rest: tokens,
        left: greatest_depth(),
        fault: None,
        alloc,
    };
    let tree = parser.whole();
    match parser.fault {
        None => Ok(tree),
        Some(refused) => {
            drop(tree);
            Err(fault_of(refused, parser.rest, tokens))
        }
    }
}
