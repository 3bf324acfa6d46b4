//! Default expressions of components that are no constants (RM 3.8): each is evaluated by the lines of a return statement with its value.

ghost use Rattle.std.specs.Prelude.{◌≡◌, ◌++◌, [], IfOk, OnOk, length};
ghost use Rattle.ctl_emitter.specs.Emitted.{appended};
ghost use Rattle.ctl_layout.specs.Layout as spec;
ghost use Rattle.ctl_layout.specs.Values.{value_code};

use ctl_code::code::Instr;
use ctl_code::kinds::Kind;
use ctl_emitter::emit::Emitter;
use ctl_layout::forms::computed;
use ctl_program::expression::Expr;
use ctl_program::types::{Component, RecordType, Ty};
use std::alloc::AllocError;

/// Emits the evaluation of a default expression of a component of this type, in the record type of a number, which is declared in so many
/// masters.
fn evaluation(
    emitter: &mut Emitter,
    level: usize,
    number: usize,
    default: &Expr,
    ty: Ty,
) -> Result<(), AllocError>
    requires { emitter.old.notes.standing ≡ [] }
    ensures { OnOk result (emitter.new ≡ appended (spec.evaluation level number (value_code default.now) ty) [] [] emitter.old) }
{
    emitter.enter(Kind::Default { level, number })?;
    let from = emitter.held(ty, default)?;
    emitter.take(Instr::Return { from, ty }, from)?;
    emitter.leave();
    Ok(())
}

/// Emits the evaluation of the default of a component of such a type, if it has one that is evaluated.
fn default(
    emitter: &mut Emitter,
    level: usize,
    number: usize,
    component: &Component,
) -> Result<(), AllocError>
    requires { emitter.old.notes.standing ≡ [] }
    ensures { OnOk result (emitter.new ≡ appended (spec.default_code level number component.now) [] [] emitter.old) }
{
    match computed(component) {
        Some(default) => evaluation(emitter, level, number, default, component.ty),
        None => Ok(()),
    }
}

/// Emits the evaluation of the defaults of the components that the record type of a number adds; answers their places, behind these.
pub fn defaults(
    emitter: &mut Emitter,
    number: usize,
    entry: &RecordType,
    inherited: Vec<usize>,
) -> Result<Vec<usize>, AllocError>
    requires { emitter.old.notes.standing ≡ [] }
    ensures emitted { OnOk result (emitter.new ≡ appended (spec.defaults_code entry.now.level number entry.now.own) [] [] emitter.old) }
    ensures places { IfOk result (λ all. all.items ≡ inherited.items ++ spec.places_from entry.now.level number (length emitter.old.instructions) entry.now.own) }
{
    let mut places = inherited;
    for component in entry.own.as_slice() {
        places.push(emitter.place())?;
        default(emitter, entry.level, number, component)?;
    }
    Ok(places)
}
