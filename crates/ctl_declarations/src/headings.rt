//! The headings of subprograms (RM 6.1).

ghost use Rattle.std.specs.Prelude.{◌≡◌, IfOk, map};
ghost use Rattle.ctl_declarations.specs.Declarations as spec;
ghost use Rattle.ctl_draft.specs.Marks as marks;
ghost use Rattle.ctl_draft.specs.Operations as operation_spec;
ghost use Rattle.ctl_typing.specs.Judgement.{Answers, Judges};

use ctl_draft::draft::Draft;
use ctl_draft::named_types::{is_root_pool, named_type};
use ctl_draft::operations::formal;
use ctl_draft::types::has_controlled;
use ctl_program::types::Ty;
use ctl_syntax::denoted::{Definition, Use};
use ctl_syntax::item::{Formal, Mode, Specification};
use ctl_syntax::name::Mark;
use ctl_tree::fault::FaultCode;
use ctl_tree::span::Span;
use ctl_typing::judging::{note, wrong};
use ctl_typing::lookup::is_limited;
use ctl_typing::notes::Notes;
use ctl_typing::table::{FormalEntry, Tables};
use sqlite_items::Items;
use std::alloc::{AllocError, Global};

/// What a heading says: the formals, and the type of a function's result.
pub type Heading = (Items<FormalEntry>, Option<Ty>);

/// Makes a formal of each of these names.
fn formals_of(
    alloc: Global,
    mode: Mode,
    ty: Ty,
    names: &[Definition],
) -> Result<Items<FormalEntry>, AllocError>
    ensures { IfOk result (λ formals. formals ≡ map (λ n. operation_spec.formal mode ty) names.now) }
{
    let mut formals = Items::new(alloc);
    for _ in names {
        formals.push(formal(mode, ty))?;
    }
    Ok(formals)
}

/// Judges formals of one mode and type (RM 6.1).
fn formal_type(
    alloc: Global,
    tables: &Tables,
    place: Span,
    of: &Formal<Definition, Use>,
    notes: &mut Notes,
) -> Result<Option<Items<FormalEntry>>, AllocError>
    ensures { Judges (spec.formal_type tables.now place of.now) notes.old result notes.new }
{
    match named_type(alloc, tables, place, &of.mark, notes)? {
        Some(ty) => Ok(Some(formals_of(alloc, of.mode, ty, of.names.as_slice())?)),
        None => Ok(None),
    }
}

/// Adds formals behind those so far, where all are known.
fn more_formals(
    before: Option<Items<FormalEntry>>,
    more: Option<Items<FormalEntry>>,
) -> Result<Option<Items<FormalEntry>>, AllocError>
    ensures { IfOk result (λ all. all ≡ spec.more_formals before more) }
{
    match before {
        None => Ok(None),
        Some(mut before) => match more {
            None => Ok(None),
            Some(more) => {
                before.append(more)?;
                Ok(Some(before))
            }
        },
    }
}

/// Judges the formals of a heading (RM 6.1).
fn formal_types(
    alloc: Global,
    tables: &Tables,
    place: Span,
    formals: &[Formal<Definition, Use>],
    notes: &mut Notes,
) -> Result<Option<Items<FormalEntry>>, AllocError>
    ensures { Judges (spec.formal_types place formals.now tables.now) notes.old result notes.new }
{
    let mut all = Some(Items::new(alloc));
    for one in formals {
        let judged = formal_type(alloc, tables, place, one, notes)?;
        all = more_formals(all, judged)?;
    }
    Ok(all)
}

/// Notes each of these names, where its mode is not `in`.
fn not_in(mode: Mode, names: &[Definition], draft: &mut Draft)
    ensures { draft.new ≡ spec.not_in mode names.now draft.old }
{
    for name in names {
        draft.fault_when(mode != Mode::In, FaultCode::Mode, name.identifier.span);
    }
}

/// Notes the formals that are not of mode `in`: a function has none (profile).
fn only_in(formals: &[Formal<Definition, Use>], draft: &mut Draft)
    ensures { draft.new ≡ spec.only_in formals.now draft.old }
{
    for one in formals {
        not_in(one.mode, one.names.as_slice(), draft);
    }
}

/// Notes a result that is limited or has controlled parts (profile); its type is known all the same.
fn returned(tables: &Tables, place: Span, ty: Ty, notes: &mut Notes) -> Option<Ty>
    ensures { Answers (spec.returned tables.now place ty) notes.old result notes.new }
{
    if is_limited(tables, ty) || has_controlled(tables, ty) {
        note(notes, FaultCode::Limited, place);
    }
    Some(ty)
}

/// Judges the mark of a function's result (RM 6.1).
fn returned_type(
    alloc: Global,
    tables: &Tables,
    place: Span,
    named: &Mark<Use>,
    notes: &mut Notes,
) -> Result<Option<Ty>, AllocError>
    ensures { Judges (spec.returned_type tables.now place named.now) notes.old result notes.new }
{
    if is_root_pool(named) {
        return Ok(wrong(FaultCode::Limited, named.first.span, notes));
    }
    match named_type(alloc, tables, place, named, notes)? {
        Some(ty) => Ok(returned(tables, named.first.span, ty, notes)),
        None => Ok(None),
    }
}

/// Judges the result of a heading: a procedure has none (RM 6.1).
fn result_type(
    alloc: Global,
    tables: &Tables,
    place: Span,
    named: &Option<Mark<Use>>,
    notes: &mut Notes,
) -> Result<Option<Option<Ty>>, AllocError>
    ensures { Judges (spec.result_type place named.now tables.now) notes.old result notes.new }
{
    match named {
        None => Ok(Some(None)),
        Some(named) => match returned_type(alloc, tables, place, named, notes)? {
            Some(ty) => Ok(Some(Some(ty))),
            None => Ok(None),
        },
    }
}

/// Judges the types of a subprogram's formals, and of its result (RM 6.1).
fn heading_types(
    alloc: Global,
    tables: &Tables,
    place: Span,
    specification: &Specification<Definition, Use>,
    notes: &mut Notes,
) -> Result<Option<Heading>, AllocError>
    ensures { Judges (spec.heading_types place specification.now tables.now) notes.old result notes.new }
{
    let formals = specification.formals.as_slice();
    let formals = formal_types(alloc, tables, place, formals, notes)?;
    let result_type = result_type(alloc, tables, place, &specification.result, notes)?;
    Ok(formals.zip(result_type))
}

/// Notes the modes that a heading may not have: only a procedure has formals that are not of mode `in` (profile).
fn keep_modes(specification: &Specification<Definition, Use>, draft: &mut Draft)
    ensures { draft.new ≡ spec.modes_kept specification.now.result specification.now.formals draft.old }
{
    if specification.result.is_some() {
        only_in(specification.formals.as_slice(), draft);
    }
}

/// Judges the heading of a subprogram (RM 6.1).
pub fn heading(
    alloc: Global,
    place: Span,
    specification: &Specification<Definition, Use>,
    draft: &mut Draft,
) -> Result<Option<Heading>, AllocError>
    ensures { Judges (spec.heading place specification.now) draft.old result draft.new }
{
    keep_modes(specification, draft);
    heading_types(alloc, &draft.tables, place, specification, &mut draft.notes)
}
