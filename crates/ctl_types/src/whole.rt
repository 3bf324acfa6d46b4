//! The whole text: from its resolved tree to the checked program (RM 10.1.1).

ghost use Rattle.std.specs.Prelude.{◌≡◌, IfOk, OnOk};
ghost use Rattle.ctl_types.specs.Elaboration as spec;
ghost use Rattle.ctl_typing.specs.Judgement.{Judges};

use crate::library::library;
use crate::masters::{enter_master, inside, leave_master};
use crate::parts::master;
use crate::programs::checked_of;
use crate::subprograms::{add_subprogram, put_body};
use ctl_declarations::own_names::keep_name;
use ctl_draft::draft::{Around, Draft, Giving, Handling, Looping};
use ctl_program::operators::SubprogramKind;
use ctl_program::program::Checked;
use ctl_program::statement::Master;
use ctl_syntax::denoted::{Definition, Named};
use ctl_tree::fault::{Fault, FaultCode};
use ctl_tree::span::Span;
use ctl_typing::table::{Entry, Profile};
use sqlite_items::Items;
use std::alloc::{AllocError, Global};

/// The number of the main procedure, which is the first subprogram.
const MAIN: usize = 0;

/// Answers what stands around the main procedure: nothing.
fn outside() -> Around
    ensures { result ≡ spec.outside }
{
    Around {
        level: 0,
        start: 0,
        first_subprogram: 0,
        first_record: 0,
        first_access: 0,
        looping: Looping::Outside,
        handling: Handling::Outside,
        giving: Giving::Nothing,
    }
}

/// Declares the main procedure, which is in view inside itself (RM 10.1.1).
fn declare_main(alloc: Global, name: &Definition, draft: &mut Draft) -> Result<(), AllocError>
    ensures { OnOk result (draft.new ≡ spec.main_declared name.now draft.old) }
{
    keep_name(name, draft);
    add_subprogram(outside(), SubprogramKind::Procedure, draft)?;
    draft.declare(Entry::Subprogram(Profile {
        subprogram: MAIN,
        formals: Items::new(alloc),
        names: Items::new(alloc),
        result: None,
    }))
}

/// Judges the declarations, statements and handlers of the main procedure.
fn main_judged(alloc: Global, tree: &Named, draft: &mut Draft) -> Result<Option<Master>, AllocError>
    ensures { Judges (spec.main_judged tree.now) draft.old result draft.new }
{
    let around = inside(outside(), Giving::Nothing, draft)?;
    let outer = enter_master(alloc, draft);
    let judged = master(alloc, &tree.body, tree.span, around, draft);
    leave_master(outer, draft);
    judged
}

/// Answers what is known before the text, and the first broken rule on names and the first use clause of what is no package, if there are
/// such.
fn begin(alloc: Global, names: Option<Fault>, uses: Option<Fault>) -> Result<Draft, AllocError>
    ensures { IfOk result (λ draft. draft ≡ spec.begun names uses) }
{
    let mut draft = library(alloc)?;
    draft.notes.early = names;
    draft.notes.fault = uses;
    Ok(draft)
}

/// Judges the whole text, as far as no rule is broken.
fn whole(
    alloc: Global,
    names: Option<Fault>,
    uses: Option<Fault>,
    tree: &Named,
) -> Result<Draft, AllocError>
    ensures { IfOk result (λ draft. draft ≡ spec.whole names uses tree.now) }
{
    let mut draft = begin(alloc, names, uses)?;
    declare_main(alloc, &tree.name, &mut draft)?;
    let judged = main_judged(alloc, tree, &mut draft)?;
    if let Some(body) = judged {
        put_body(Some(MAIN), body, &mut draft);
    }
    Ok(draft)
}

/// Answers the program, or the fault that is told: of names, order and completion before any other.
fn verdict(alloc: Global, place: Span, draft: Draft) -> Result<Result<Checked, Fault>, AllocError>
    ensures { IfOk result (λ verdict. verdict ≡ spec.verdict place draft) }
{
    if let Some(fault) = draft.notes.early {
        drop(draft);
        return Ok(Err(fault));
    }
    if let Some(fault) = draft.notes.fault {
        drop(draft);
        return Ok(Err(fault));
    }
    match checked_of(alloc, draft)? {
        Some(program) => Ok(Ok(program)),
        None => Ok(Err(Fault::at(FaultCode::Type, place))),
    }
}

/// Answers what the resolved tree of a text gives.
fn elaborated(
    alloc: Global,
    names: Option<Fault>,
    uses: Option<Fault>,
    tree: &Named,
) -> Result<Result<Checked, Fault>, AllocError>
    ensures { IfOk result (λ verdict. verdict ≡ spec.elaborate names uses tree.now) }
{
    let draft = whole(alloc, names, uses, tree)?;
    verdict(alloc, tree.span, draft)
}

/// Drops a checked program.
// What a drop of so large a value does is long to prove. Who calls this by name does not prove it again.
pub fn drop_program(program: Checked) {
    drop(program);
}

/// Answers the checked program of a resolved tree, or its first fault, where the resolver's first broken rules on names and on use clauses
/// are given; or that memory was refused.
pub fn check(
    alloc: Global,
    tree: &Named,
    names: Option<Fault>,
    uses: Option<Fault>,
) -> Result<Checked, Fault>
    ensures { spec.Elaborates names uses tree.now result }
{
    elaborated(alloc, names, uses, tree)?
}
