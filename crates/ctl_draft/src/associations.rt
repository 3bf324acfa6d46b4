//! What is given by position or by name, each once (RM 3.7.1, 12.3).

ghost use Rattle.std.specs.Prelude.{◌≡◌, IfOk, Some, []};
ghost use Rattle.ctl_draft.specs.Marks as spec;

use ctl_grammar::spelling::is_same_name;
use ctl_program::types::Root;
use ctl_syntax::denoted::Use;
use ctl_syntax::item::Association;
use ctl_tree::text::Text;
use ctl_typing::names::discriminant_named;
use sqlite_items::Items;
use std::alloc::{AllocError, Global};

/// What is given by position or by name (RM 3.7.1, 12.3).
#[derive(Clone, Copy)]
pub enum Associated {
    /// the discriminants of a pool type with this root; other types have none (profile)
    Discriminants(Root),
    /// the actuals of an instance of Ada.Unchecked_Deallocation (RM 13.11.2)
    Deallocation,
}

/// Answers where what is called so stands among what is given, from 0.
fn position_in(what: Associated, name: &Text) -> Option<usize>
    ensures { result ≡ spec.position_in what name.now }
{
    match what {
        Associated::Discriminants(root) => discriminant_named(root, name),
        Associated::Deallocation => {
            if is_same_name(name.as_bytes(), b"object") {
                Some(0)
            } else if is_same_name(name.as_bytes(), b"name") {
                Some(1)
            } else {
                None
            }
        }
    }
}

/// Answers how many have to be given.
fn count_in(what: Associated) -> usize
    ensures { result ≡ spec.count_in what }
{
    match what {
        Associated::Discriminants(Root::BlockPool) => 2,
        Associated::Discriminants(Root::MarkPool) => 1,
        Associated::Discriminants(_) => 0,
        Associated::Deallocation => 2,
    }
}

/// Tells whether all are given by position.
fn all_positional(associations: &[Association<Use>]) -> bool
    ensures { result ≡ spec.all_positional associations.now }
{
    for association in associations {
        if association.name.is_some() {
            return false;
        }
    }
    true
}

/// Answers so many numbers, from 0.
fn numbered(alloc: Global, count: usize) -> Result<Items<usize>, AllocError>
    ensures { IfOk result (λ numbers. numbers ≡ spec.numbers_on [] count 0) }
{
    let mut numbers = Items::new(alloc);
    for number in 0..count {
        numbers.push(number)?;
    }
    Ok(numbers)
}

/// Tells whether a number is among these.
fn is_among(number: usize, numbers: &[usize]) -> bool
    ensures { result ≡ spec.is_among number numbers.now }
{
    for other in numbers {
        if number == *other {
            return true;
        }
    }
    false
}

/// Answers the position of an association that is given by name, if nothing before has it.
fn new_position(what: Associated, association: &Association<Use>, before: &[usize]) -> Option<usize>
    ensures { spec.with_position before.now (spec.position_of what association.now.name) ≡ spec.added before.now result }
{
    match &association.name {
        None => None,
        Some(identifier) => {
            match position_in(what, &identifier.text) {
                Some(position) if !is_among(position, before) => Some(position),
                _ => None,
            }
        }
    }
}

/// Answers the positions of associations that are given by name, each once.
fn named(
    alloc: Global,
    what: Associated,
    associations: &[Association<Use>],
) -> Result<Option<Items<usize>>, AllocError>
    ensures { IfOk result (λ numbers. numbers ≡ spec.named_on what (Some []) associations.now) }
{
    let mut numbers = Items::new(alloc);
    for association in associations {
        match new_position(what, association, numbers.as_slice()) {
            None => return Ok(None),
            Some(position) => numbers.push(position)?,
        }
    }
    Ok(Some(numbers))
}

/// Answers the position of what each association gives; none where they are wrong in number, in name, or mixed.
pub fn positions(
    alloc: Global,
    what: Associated,
    associations: &[Association<Use>],
) -> Result<Option<Items<usize>>, AllocError>
    ensures { IfOk result (λ numbers. numbers ≡ spec.positions what associations.now) }
{
    if count_in(what) != associations.len() {
        return Ok(None);
    }
    if all_positional(associations) {
        return Ok(Some(numbered(alloc, associations.len())?));
    }
    named(alloc, what, associations)
}
