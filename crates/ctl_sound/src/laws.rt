//! What holds of all that the check makes of a resolved tree.

ghost use Rattle.ctl_sound.specs.Law.{DeclarationsKeepFaults, DeclarationsWellTyped, ExpressionKeepsFaults, ExpressionWellTyped, ProgramWellTyped, SimpleStatementsKeepFaults, SimpleStatementsWellTyped};
ghost use Rattle.ctl_sound.specs.Library.{BeginningSound};

use ctl_syntax::denoted::{Definition, Use};
use ctl_syntax::expression::Expression;
use ctl_syntax::item::{Objects, Specification, Tree};
use ctl_syntax::name::Name;

/// Says of an expression that its checked form is well typed, and has a type that its place asks, wherever the tables are sound (RM 4.1 to
/// 4.8).
pub fn expression_is_well_typed(expression: &Expression<Use>)
    ensures { ExpressionWellTyped expression.now }
{
    let _ = expression;
}

/// Says of an expression that its judgement takes no fault back that was noted before.
pub fn expression_keeps_faults(expression: &Expression<Use>)
    ensures { ExpressionKeepsFaults expression.now }
{
    let _ = expression;
}

/// Says of a name and an expression that the simple statements of them are well typed in their checked form, wherever the tables are sound,
/// and so is each raise, and the expression as a condition (RM 5.2, 5.3, 5.5, 5.7, 6.4, 6.5, 11.3).
pub fn simple_statements_are_well_typed(name: &Name<Use, Expression<Use>>, value: &Expression<Use>)
    ensures { SimpleStatementsWellTyped name.now value.now }
{
    let _ = name;
    let _ = value;
}

/// Says of declared objects and of a heading that the types that they name can be used where the tables are sound, and that the values and
/// discriminants of objects are well typed (RM 3.3.1, 3.7.1, 6.1).
pub fn declarations_are_well_typed(
    objects: &Objects<Definition, Use>,
    heading: &Specification<Definition, Use>,
)
    ensures { DeclarationsWellTyped objects.now heading.now }
{
    let _ = objects;
    let _ = heading;
}

/// Says that the tables before the text are sound, in each program that begins with the library's types and the main procedure (RM 10.2).
pub fn beginning_is_sound()
    ensures { BeginningSound }
{}

/// Says of a name and an expression that no simple statement of them takes a fault back that was noted before, nor a raise, nor the
/// expression as a condition.
pub fn simple_statements_keep_faults(name: &Name<Use, Expression<Use>>, value: &Expression<Use>)
    ensures { SimpleStatementsKeepFaults name.now value.now }
{
    let _ = name;
    let _ = value;
}

/// Says of declared objects and of a heading that nothing of what they name and hold takes a fault back that was noted before.
pub fn declarations_keep_faults(
    objects: &Objects<Definition, Use>,
    heading: &Specification<Definition, Use>,
)
    ensures { DeclarationsKeepFaults objects.now heading.now }
{
    let _ = objects;
    let _ = heading;
}

/// Says of a tree that the program which the check gives of it is well typed (RM 10.1.1).
pub fn every_program_is_well_typed(tree: &Tree<Definition, Use>)
    ensures { ProgramWellTyped tree.now }
{
    let _ = tree;
}
