//! The instructions so far, and what all constructs use to add to them.

ghost use Rattle.std.specs.Prelude.{◌≡◌, ◌-◌, [], ◌∷◌, ◌++◌, ℕ, ◌≤◌, List, Some, OnOk, IfOk, length, option_map, slice_get};
ghost use Rattle.ctl_code.specs.declared.kinds.Kind.{Kind};
ghost use Rattle.ctl_code.specs.Kinds.{below_newest};
ghost use Rattle.ctl_code.specs.Windows as windows;
ghost use Rattle.ctl_layout.specs.Around as cells;
ghost use Rattle.ctl_emitter.specs.Emitted.{lined, none_emitted, one, set_at, standing, taking, without};
ghost use Rattle.ctl_layout.specs.Texts as texts;

use ctl_code::code::{Cell, Instr, Named};
use ctl_code::kinds::{Kind, KindNotes, Kinds};
use ctl_code::template::{Template, TextPart};
use ctl_program::statement::Piece;
use ctl_program::types::Var;
use std::alloc::{AllocError, Global};
use std::marker::Model;

/// The instructions so far, the texts that they print, and what stands in the window before each of them.
///
/// A contract sees the lists of these.
#[derive(Drop)]
pub struct Emitter {
    alloc: Global,
    instructions: Vec<Instr>,
    texts: Vec<Template>,
    notes: KindNotes,
}

impl Model for Emitter {
    ghost use Rattle.ctl_emitter.specs.Emitted.{Emitted};

    ghost Value = { Emitted };

    ghost view = { λ e. record { instructions = e.instructions.items; texts = e.texts.items; notes = e.notes } };
}

impl Emitter {
    /// Begins with no instruction.
    pub fn new(alloc: Global) -> Emitter
        ensures { result ≡ none_emitted }
    {
        Emitter {
            alloc,
            instructions: Vec::new(alloc),
            texts: Vec::new(alloc),
            notes: KindNotes::new(alloc),
        }
    }

    /// Tells where the next instruction will stand.
    pub fn place(&self) -> usize
        ensures { result ≡ length self.now.instructions }
    {
        self.instructions.len()
    }

    /// Counts the instructions from a place on.
    pub fn since(&self, place: usize) -> usize
        ensures { result ≡ length self.now.instructions - place }
    {
        self.place().saturating_sub(place)
    }

    /// Counts the instructions behind a place.
    pub fn behind(&self, place: usize) -> usize
        ensures { result ≡ length self.now.instructions - place - 1 }
    {
        self.since(place).saturating_sub(1)
    }

    /// Counts the cells of what stands there now.
    pub fn height(&self) -> usize
        ensures { result ≡ windows.height self.now.notes.standing }
    {
        self.notes.height()
    }

    /// Counts the cells that a window has at most.
    pub fn room(&self) -> usize
        ensures { (place : ℕ) (stack : List Kind) → slice_get self.now.notes.before place ≡ Some stack → windows.height stack ≤ result }
    {
        self.notes.room()
    }

    /// Adds an instruction, before which there stands what stands now.
    #[tactic(auto, unfolding(crate::specs::Emitted::appended), using(crate::proofs::Emission::no_text_more))]
    pub fn put(&mut self, instr: Instr) -> Result<(), AllocError>
        ensures { OnOk result (self.new ≡ lined (one instr) self.old) }
    {
        self.instructions.push(instr)?;
        self.notes.note()
    }

    /// Writes an instruction anew.
    #[tactic(auto, using(std::proofs::lemmas::List::set_past))]
    pub fn set(&mut self, place: usize, instr: Instr)
        ensures { self.new ≡ set_at place instr self.old }
    {
        if place < self.instructions.len() {
            self.instructions[place] = instr;
        }
    }

    /// Enters what stands on top from now on.
    #[tactic(auto, unfolding(crate::specs::Emitted::standing))]
    pub fn enter(&mut self, kind: Kind) -> Result<(), AllocError>
        ensures { OnOk result (self.new ≡ standing (kind ∷ self.old.notes.standing) self.old) }
    {
        self.notes.enter(kind)
    }

    /// Takes the newest off.
    #[tactic(auto, unfolding(crate::specs::Emitted::standing))]
    pub fn leave(&mut self)
        ensures { self.new ≡ standing (below_newest self.old.notes.standing) self.old }
    {
        self.notes.leave();
    }

    /// Takes the operand of a cell off, if it is one.
    #[tactic(auto, unfolding(crate::specs::Emitted::standing))]
    pub(crate) fn release(&mut self, cell: Cell)
        ensures { self.new ≡ standing (without cell.named self.old.notes.standing) self.old }
    {
        match cell.named {
            Named::Operand => self.leave(),
            Named::Variable { .. } => {}
        }
    }

    /// Adds an instruction that takes the value of a cell.
    pub fn take(&mut self, instr: Instr, from: Cell) -> Result<(), AllocError>
        ensures { OnOk result (self.new ≡ taking instr from self.old) }
    {
        self.put(instr)?;
        self.release(from);
        Ok(())
    }

    /// Answers the cell of a new operand.
    pub(crate) fn new_operand(&self) -> Cell
        ensures { result ≡ cells.new_operand self.now.notes.standing }
    {
        Cell {
            at: self.height(),
            named: Named::Operand,
        }
    }

    /// Counts how many masters further out than the newest a variable is declared; levels count from 1.
    pub fn out_to(&self, variable: Var) -> usize
        ensures { result ≡ cells.out_to self.now.notes.standing variable }
    {
        let depth = self.notes.depth();
        let level = variable.level.saturating_sub(1);
        if level < depth {
            depth - 1 - level
        } else {
            depth
        }
    }

    /// Answers the cell of a variable, where its master belongs to the body.
    pub fn local_cell(&self, variable: Var) -> Option<Cell>
        ensures { result ≡ option_map (cells.local_cell self.now.notes.standing variable) (cells.local_at self.now.notes.standing variable) }
    {
        let out = self.out_to(variable);
        let slot = variable.slot;
        match self.notes.variable_at(out, slot) {
            Some(at) => Some(Cell {
                at,
                named: Named::Variable { out, slot },
            }),
            None => None,
        }
    }

    /// Answers the cell of a slot of the newest master.
    pub fn newest_cell(&self, slot: usize) -> Option<Cell>
        ensures { result ≡ option_map (cells.newest_cell slot) (windows.variable_at self.now.notes.standing 0 slot) }
    {
        match self.notes.variable_at(0, slot) {
            Some(at) => Some(Cell {
                at,
                named: Named::Variable { out: 0, slot },
            }),
            None => None,
        }
    }

    /// Answers the number of the cell of a variable of the newest master.
    pub fn newest_at(&self, variable: Var) -> Option<usize>
        ensures { result ≡ cells.newest_at self.now.notes.standing variable }
    {
        if self.out_to(variable) == 0 {
            self.notes.variable_at(0, variable.slot)
        } else {
            None
        }
    }

    /// Keeps a text, and gives its number.
    pub fn text(&mut self, pieces: &[Piece]) -> Result<usize, AllocError>
        ensures text { OnOk result (self.new ≡ record self.old { texts = self.old.texts ++ texts.parts_of pieces.now ∷ [] }) }
        ensures number { IfOk result (λ n. n ≡ length self.old.texts) }
    {
        let number = self.texts.len();
        let template = template_of(self.alloc, pieces)?;
        self.texts.push(template)?;
        Ok(number)
    }

    /// Gives the instructions, the texts, and the table of kinds.
    pub fn finish(self) -> (Vec<Instr>, Vec<Template>, Kinds)
        ensures instructions { result.0.items ≡ self.instructions }
        ensures texts { result.1.items ≡ self.texts }
        ensures kinds { result.2 ≡ self.notes.before }
    {
        let Emitter {
            alloc: _,
            instructions,
            texts,
            notes,
        } = self;
        (instructions, texts, notes.finish())
    }
}

/// Gives the parts of a text, whose images take operands.
fn template_of(alloc: Global, pieces: &[Piece]) -> Result<Template, AllocError>
    ensures { IfOk result (λ t. t ≡ texts.parts_of pieces.now) }
{
    let mut template = Template::new(alloc);
    for piece in pieces {
        template.push(part_of(alloc, piece)?)?;
    }
    Ok(template)
}

/// Gives the part of a text that a piece is.
fn part_of(alloc: Global, piece: &Piece) -> Result<TextPart, AllocError>
    ensures { IfOk result (λ p. p ≡ texts.part_of piece.now) }
{
    Ok(match piece {
        Piece::Text(text) => TextPart::Literal(text.copied(alloc)?),
        Piece::IntegerImage(_) => TextPart::IntegerImage,
        Piece::BooleanImage(_) => TextPart::BooleanImage,
    })
}
