//! Items and statements by themselves, without those that they hold.

ghost use Rattle.std.specs.Prelude.{◌≡◌, Some};
ghost use Rattle.ctl_slice.specs.Constructs as spec;

use ctl_grammar::spelling::is_same_name;
use ctl_syntax::denoted::{Definition, Denoted, LibraryName, Use};
use ctl_syntax::expression::Expression;
use ctl_syntax::item::{
    Association, Components, Coverage, Definition as TypeDefinition, Formal, Objects, Specification,
};
use ctl_syntax::name::Name;
use sqlite_items::Boxed;

/// Whether this version runs a construct.
#[derive(Clone, Copy)]
pub enum Support {
    Run,
    LeftOut,
}

/// Chooses by whether a construct is run.
fn support_when(is_run: bool) -> Support
    ensures { result ≡ spec.support_when is_run }
{
    if is_run {
        Support::Run
    } else {
        Support::LeftOut
    }
}

/// Tells whether a heading has the name of an operation of controlled types: Initialize, Adjust or Finalize (RM 7.6).
fn is_operation(heading: &Specification<Definition, Use>) -> bool
    ensures { result ≡ spec.is_operation heading.now }
{
    let name = heading.name.identifier.text.as_bytes();
    is_same_name(name, b"initialize")
        || is_same_name(name, b"adjust")
        || is_same_name(name, b"finalize")
}

/// Tells whether a formal is run: of a type of the text, or of a scalar one (RM 6.1, 6.2).
fn may_be_passed(formal: &Formal<Definition, Use>) -> bool
    ensures { result ≡ spec.may_be_passed formal.now }
{
    let mark = formal.mark.first.denoted;
    is_of_text(mark) || is_scalar(mark)
}

/// Tells whether all of these are.
fn may_all_be_passed(formals: &[Formal<Definition, Use>]) -> bool
    ensures { result ≡ spec.may_all_be_passed formals.now }
{
    for formal in formals {
        if !may_be_passed(formal) {
            return false;
        }
    }
    true
}

/// Tells whether a heading has no result, or one of a type of the text, or of a scalar one (RM 6.1).
fn may_be_given(heading: &Specification<Definition, Use>) -> bool
    ensures { result ≡ spec.may_be_given heading.now.result }
{
    match &heading.result {
        Some(mark) => {
            let mark = mark.first.denoted;
            is_of_text(mark) || is_scalar(mark)
        }
        None => true,
    }
}

/// Judges a heading: operations of controlled types are run (RM 7.6), and procedures and functions with such formals and results (RM 6.1).
pub(crate) fn of_heading(heading: &Specification<Definition, Use>) -> Support
    ensures { result ≡ spec.of_heading heading.now }
{
    let is_subprogram = may_be_given(heading) && may_all_be_passed(heading.formals.as_slice());
    support_when(is_operation(heading) || is_subprogram)
}

/// Tells whether this is True or False (RM 3.5.3).
fn is_truth(denoted: Denoted) -> bool
    ensures { result ≡ spec.is_truth denoted }
{
    matches!(
        denoted,
        Denoted::Library(LibraryName::True | LibraryName::False)
    )
}

/// Tells whether an expression is a numeric literal, True or False (RM 2.4, 3.5.3).
fn is_literal(expression: &Expression<Use>) -> bool
    ensures { result ≡ spec.is_literal expression.now }
{
    match expression {
        Expression::Number(..) => true,
        Expression::Name(_, name) => {
            is_truth(name.first.denoted) && name.suffixes.as_slice().is_empty()
        }
        _ => false,
    }
}

/// Tells whether components are run: of a scalar type, or of one of the text, whose default is no allocator with another value or with a handle
/// (RM 3.8, 4.8).
fn may_be_component(components: &Components<Use>) -> bool
    ensures { result ≡ spec.may_be_component components.now }
{
    let denoted = components.mark.first.denoted;
    (is_scalar(denoted) || is_of_text(denoted)) && !has_left_out_allocator(&components.default)
}

/// Tells whether all of these are.
fn may_all_be_components(all: &[Components<Use>]) -> bool
    ensures { result ≡ spec.may_all_be_components all.now }
{
    for components in all {
        if !may_be_component(components) {
            return false;
        }
    }
    true
}

/// Tells whether objects of an access type may have this type: one of the text, or a scalar one (RM 3.10).
fn may_be_designated(denoted: Denoted) -> bool
    ensures { result ≡ spec.may_be_designated denoted }
{
    is_of_text(denoted) || is_scalar(denoted)
}

/// Judges a type: a record with such components alone is run (RM 3.8), and so is one that extends Controlled, Limited_Controlled or a type of
/// the text by them (RM 3.9.1, 7.6), or Block_Pool (RM 13.11), and an access type for one type of the text or a scalar one (RM 3.10).
pub(crate) fn of_type(definition: &TypeDefinition<Use>) -> Support
    ensures { result ≡ spec.of_type definition.now }
{
    match definition {
        TypeDefinition::Record(_, components) => {
            support_when(may_all_be_components(components.as_slice()))
        }
        TypeDefinition::Extension(parent, added) => support_when(
            may_be_extended(parent.first.denoted) && may_all_be_components(added.as_slice()),
        ),
        TypeDefinition::Access(_, designated, coverage, _) => support_when(
            may_be_designated(designated.first.denoted) && matches!(coverage, Coverage::Specific),
        ),
    }
}

/// Tells whether this is Controlled, Limited_Controlled (RM 7.6) or Block_Pool (RM 13.11), or a type of the text, which is judged where it is
/// declared.
fn may_be_extended(denoted: Denoted) -> bool
    ensures { result ≡ spec.may_be_extended denoted }
{
    matches!(
        denoted,
        Denoted::Library(
            LibraryName::Controlled | LibraryName::LimitedControlled | LibraryName::BlockPool
        ) | Denoted::Declared(..)
    )
}

/// Tells whether this is Integer, Boolean (RM 3.5.3, 3.5.4), Address (RM 13.7) or Storage_Count (RM 13.7.1).
fn is_scalar(denoted: Denoted) -> bool
    ensures { result ≡ spec.is_scalar denoted }
{
    matches!(
        denoted,
        Denoted::Library(
            LibraryName::Integer
                | LibraryName::Boolean
                | LibraryName::Address
                | LibraryName::StorageCount
        )
    )
}

/// Tells whether an allocator for objects of this type has no value, that of what a name denotes, or one of a scalar type (RM 4.8).
fn is_value_run(mark: Denoted, value: &Option<Boxed<Expression<Use>>>) -> bool
    ensures { result ≡ spec.is_value_run mark value.now }
{
    match value {
        Some(value) => is_scalar(mark) || matches!(value.get(), Expression::Name(..)),
        None => true,
    }
}

/// Tells whether an expression is an allocator with another value, or with a handle (RM 4.8, 13.11.4).
fn is_left_out_allocator(expression: &Expression<Use>) -> bool
    ensures { result ≡ spec.is_left_out_allocator expression.now }
{
    match expression {
        Expression::New(_, handle, mark, value) => {
            handle.is_some() || !is_value_run(mark.first.denoted, value)
        }
        _ => false,
    }
}

/// Tells whether there is such an expression.
fn has_left_out_allocator(value: &Option<Expression<Use>>) -> bool
    ensures { result ≡ spec.has_left_out_allocator value.now }
{
    match value {
        Some(value) => is_left_out_allocator(value),
        None => false,
    }
}

/// Judges a value that is assigned: each but such an allocator is run (RM 4.8, 5.2).
pub(crate) fn of_assigned(value: &Expression<Use>) -> Support
    ensures { result ≡ spec.of_value (Some value.now) }
{
    support_when(!is_left_out_allocator(value))
}

/// Judges a value that is returned, if there is one, in the same way (RM 6.5).
pub(crate) fn of_returned(value: &Option<Expression<Use>>) -> Support
    ensures { result ≡ spec.of_value value.now }
{
    support_when(!has_left_out_allocator(value))
}

/// Tells whether discriminants are all such literals, if there are any (RM 13.11).
fn are_literals(discriminants: &[Association<Use>]) -> bool
    ensures { result ≡ spec.are_literals discriminants.now }
{
    for discriminant in discriminants {
        if !is_literal(&discriminant.value) {
            return false;
        }
    }
    true
}

/// Judges objects: scalar ones are run, and those of a declared type and of Block_Pool whose discriminants are literals, and none whose value
/// is such an allocator (RM 3.3.1, 4.8, 13.11).
pub(crate) fn of_objects(objects: &Objects<Definition, Use>) -> Support
    ensures { result ≡ spec.of_objects objects.now }
{
    let is_run = match objects.mark.first.denoted {
        Denoted::Declared(_, _) | Denoted::Library(LibraryName::BlockPool) => {
            are_literals(objects.discriminants.as_slice())
        }
        denoted => is_scalar(denoted),
    };
    support_when(is_run && !has_left_out_allocator(&objects.value))
}

/// Tells whether this is declared in the text, where it is judged.
fn is_of_text(denoted: Denoted) -> bool
    ensures { result ≡ spec.is_of_text denoted }
{
    matches!(denoted, Denoted::Declared(..))
}

/// Judges a call: those of Put, Put_Line and New_Line are run (RM A.10.7), those of a subprogram of the text (RM 6.4), and those of an
/// operation that a type may have of its own (RM 7.6, 13.11).
pub(crate) fn of_call(name: &Name<Use, Expression<Use>>) -> Support
    ensures { result ≡ spec.of_call name.now }
{
    let is_run = match name.first.denoted {
        Denoted::Library(LibraryName::Put | LibraryName::PutLine | LibraryName::NewLine)
        | Denoted::Operation(_) => true,
        denoted => is_of_text(denoted),
    };
    support_when(is_run)
}
