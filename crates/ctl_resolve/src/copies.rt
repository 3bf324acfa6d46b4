//! Copies of what stays as it is written.

ghost use Rattle.std.specs.Prelude.{◌≡◌, IfOk, drop};
ghost use Rattle.ctl_resolve.specs.Table as table;
ghost use Rattle.ctl_resolve.specs.Expressions as spec;

use crate::lists::{added, room_for};
use ctl_syntax::expression::Expression;
use ctl_syntax::name::{Identifier, Suffix};
use sqlite_items::Items;
use std::alloc::{AllocError, Global};

/// Answers an identifier in lower case, since case does not count (RM 2.3).
pub fn folded(alloc: Global, identifier: &Identifier) -> Result<Vec<u8>, AllocError>
    ensures { IfOk result (λ n. n.items ≡ table.folded identifier.now) }
{
    identifier.text.as_bytes().to_ascii_lowercase(alloc)
}

/// Copies an identifier.
pub fn identifier(alloc: Global, of: &Identifier) -> Result<Identifier, AllocError>
    ensures { IfOk result (λ id. id ≡ of.now) }
{
    Ok(Identifier {
        text: of.text.copied(alloc)?,
        span: of.span,
    })
}

/// Copies an identifier that may be absent.
pub fn identifier_or_none(
    alloc: Global,
    of: &Option<Identifier>,
) -> Result<Option<Identifier>, AllocError>
    ensures { IfOk result (λ id. id ≡ of.now) }
{
    match of {
        None => Ok(None),
        Some(of) => {
            let copy = identifier(alloc, of)?;
            Ok(Some(copy))
        }
    }
}

/// Copies identifiers.
pub fn identifiers(alloc: Global, all: &[Identifier]) -> Result<Items<Identifier>, AllocError>
    ensures { IfOk result (λ ids. ids ≡ all.now) }
{
    let mut copies = room_for(alloc, all.len())?;
    for one in all {
        copies = added(copies, identifier(alloc, one))?;
    }
    Ok(copies)
}

/// Copies the identifiers that are selected at the beginning of a name.
pub fn leading(
    alloc: Global,
    suffixes: &[Suffix<Expression<Identifier>>],
) -> Result<Items<Identifier>, AllocError>
    ensures { IfOk result (λ ids. ids ≡ spec.leading suffixes.now) }
{
    let mut copies = Items::new(alloc);
    for suffix in suffixes {
        match suffix {
            Suffix::Selector(id) => copies = added(copies, identifier(alloc, id))?,
            _ => return Ok(copies),
        }
    }
    Ok(copies)
}
