//! The formals of a subprogram in view inside its body (RM 6.1, 6.2).

ghost use Rattle.std.specs.Prelude.{◌≡◌, OnOk};
ghost use Rattle.ctl_declarations.specs.Declarations as spec;

use ctl_draft::draft::{Around, Draft};
use ctl_draft::named_types::named_type;
use ctl_program::types::Ty;
use ctl_syntax::denoted::{Definition, Use};
use ctl_syntax::item::{Aliasing, Formal, Mode};
use ctl_tree::span::Span;
use ctl_typing::table::{Entry, Mutability, Standing};
use std::alloc::{AllocError, Global};

/// Answers whether a formal may be assigned to (RM 6.2).
fn formal_mutability(mode: Mode) -> Mutability
    ensures { result ≡ spec.formal_mutability mode }
{
    match mode {
        Mode::In => Mutability::Constant,
        _ => Mutability::Variable,
    }
}

/// Puts a formal into view; nothing is known of it where its type is wrong.
fn enter_formal_as(
    around: Around,
    mode: Mode,
    ty: Option<Ty>,
    draft: &mut Draft,
) -> Result<(), AllocError>
    ensures { OnOk result (draft.new ≡ spec.enter_formal_as around mode ty draft.old) }
{
    match ty {
        None => draft.declare(Entry::Unknown),
        Some(ty) => {
            let mutability = formal_mutability(mode);
            draft.declare_object(
                around,
                ty,
                Standing::Formal,
                mutability,
                Aliasing::Unaliased,
            )
        }
    }
}

/// Puts a formal of each of these names into view.
fn enter_names(
    around: Around,
    mode: Mode,
    ty: Option<Ty>,
    names: &[Definition],
    draft: &mut Draft,
) -> Result<(), AllocError>
    ensures { OnOk result (draft.new ≡ spec.enter_names around mode ty names.now draft.old) }
{
    for _ in names {
        enter_formal_as(around, mode, ty, draft)?;
    }
    Ok(())
}

/// Puts formals of one mode and type into view (RM 6.1).
fn enter_formal(
    alloc: Global,
    around: Around,
    place: Span,
    formal: &Formal<Definition, Use>,
    draft: &mut Draft,
) -> Result<(), AllocError>
    ensures { OnOk result (draft.new ≡ spec.enter_formal around place formal.now draft.old) }
{
    let ty = named_type(alloc, &draft.tables, place, &formal.mark, &mut draft.notes)?;
    enter_names(around, formal.mode, ty, formal.names.as_slice(), draft)
}

/// Puts the formals of a subprogram into view inside its body (RM 6.1).
pub fn enter_formals(
    alloc: Global,
    around: Around,
    place: Span,
    formals: &[Formal<Definition, Use>],
    draft: &mut Draft,
) -> Result<(), AllocError>
    ensures { OnOk result (draft.new ≡ spec.enter_formals around place formals.now draft.old) }
{
    for formal in formals {
        enter_formal(alloc, around, place, formal, draft)?;
    }
    Ok(())
}
