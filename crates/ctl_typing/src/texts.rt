//! What is put by Put and Put_Line (RM A.10.7).

ghost use Rattle.std.specs.Prelude.{◌≡◌, ◌∷◌, [], IfOk, map};
ghost use Rattle.ctl_program.specs.declared.statement.Piece.TheVariants as made;
ghost use Rattle.ctl_typing.specs.declared.notes.Notes.{Notes as Noted};
ghost use Rattle.ctl_typing.specs.Judgement.{Judges, known};
ghost use Rattle.ctl_typing.specs.Putting as putting;
ghost use Rattle.ctl_typing.specs.Senses as senses;
ghost use Rattle.ctl_typing.specs.Typing as spec;

use crate::adopting::{all_joining, place_of};
use crate::expressions::{expression, found};
use crate::found::{Asked, Found};
use crate::judging::{refused, wrong};
use crate::names::settled_known;
use crate::notes::Notes;
use crate::table::Tables;
use ctl_program::expression::Expr;
use ctl_program::statement::Piece;
use ctl_program::types::Ty;
use ctl_syntax::denoted::Use;
use ctl_syntax::expression::Expression;
use ctl_syntax::operators::Operand;
use ctl_tree::fault::FaultCode;
use ctl_tree::span::Span;
use ctl_tree::text::Text;
use sqlite_items::Items;
use std::alloc::{AllocError, Global};

/// Answers one piece alone.
fn alone(alloc: Global, piece: Piece) -> Result<Items<Piece>, AllocError>
    ensures { IfOk result (λ pieces. pieces ≡ piece ∷ []) }
{
    let mut pieces = Items::new(alloc);
    pieces.push(piece)?;
    Ok(pieces)
}

/// Makes the piece that is a string literal (RM 2.6).
fn literal(alloc: Global, text: &Text) -> Result<Option<Items<Piece>>, AllocError>
    ensures { (notes : Noted) → Judges (known (made.Text text.now ∷ [])) notes result notes }
{
    let text = Text::from_slice(alloc, text.as_bytes())?;
    Ok(Some(alone(alloc, Piece::Text(text))?))
}

/// Adds pieces behind those so far; unless both are known, nothing is.
fn lengthened(
    done: Option<Items<Piece>>,
    more: Option<Items<Piece>>,
) -> Result<Option<Items<Piece>>, AllocError>
    ensures { IfOk result (λ all. all ≡ putting.lengthened done more) }
{
    match (done, more) {
        (Some(mut pieces), Some(more)) => {
            pieces.append(more)?;
            Ok(Some(pieces))
        }
        _ => Ok(None),
    }
}

/// Adds pieces of what is judged after those so far, behind them; memory may be refused for that. Unless both are known, nothing is.
fn lengthened_with(
    done: Option<Items<Piece>>,
    more: Result<Option<Items<Piece>>, AllocError>,
) -> Result<Option<Items<Piece>>, AllocError>
    ensures { (q : _) (old new : Noted) → Judges q old more new → Judges (putting.strung (λ j. j) done (q ∷ [])) old result new }
{
    match more {
        Ok(more) => lengthened(done, more),
        Err(error) => {
            drop(done);
            Err(error)
        }
    }
}

/// Makes the piece that is the image of a value (RM 3.5).
fn image_piece(ty: Ty, value: Expr) -> Piece
    ensures { result ≡ spec.image_piece ty value }
{
    match ty {
        Ty::Boolean => Piece::BooleanImage(value),
        _ => Piece::IntegerImage(value),
    }
}

/// Judges what a name is as what is put: an image (RM 3.5, A.10.7).
fn text_found(
    alloc: Global,
    place: Span,
    found: Found,
    notes: &mut Notes,
) -> Result<Option<Items<Piece>>, AllocError>
    ensures { Judges (spec.text_found place found) notes.old result notes.new }
{
    let Found::Imaged(typed) = found else {
        return Ok(refused(found, FaultCode::Type, place, notes));
    };
    Ok(Some(alone(alloc, image_piece(typed.ty, typed.value))?))
}

/// Judges a name as what is put, where it is known what it is (RM 3.5, A.10.7).
fn name_put(
    alloc: Global,
    tables: &Tables,
    place: Span,
    found: Option<Found>,
    notes: &mut Notes,
) -> Result<Option<Items<Piece>>, AllocError>
    ensures { Judges (putting.name_put tables.now place found) notes.old result notes.new }
{
    match settled_known(alloc, tables, place, found, notes) {
        Some(found) => text_found(alloc, place, found, notes),
        None => Ok(None),
    }
}

/// Judges an expression that is no string: it is wrong itself, once nothing in it is (profile).
fn no_text(
    alloc: Global,
    tables: &Tables,
    x: &Expression<Use>,
    notes: &mut Notes,
) -> Result<Option<Items<Piece>>, AllocError>
    ensures { Judges (spec.no_text (spec.sense x.now).place (spec.sense x.now).judged tables.now) notes.old result notes.new }
{
    match expression(alloc, tables, x, Asked::Anything, notes)? {
        Some(typed) => {
            drop(typed);
            Ok(wrong(FaultCode::Type, place_of(x), notes))
        }
        None => Ok(None),
    }
}

/// Judges what is put: literals and images that `&` joins (RM 4.5.3, A.10.7).
#[cycle(texts)]
pub fn texts(
    alloc: Global,
    tables: &Tables,
    x: &Expression<Use>,
    notes: &mut Notes,
) -> Result<Option<Items<Piece>>, AllocError>
    ensures { Judges ((spec.sense x.now).texts tables.now) notes.old result notes.new }
{
    match x {
        Expression::String(_, text) => literal(alloc, text),
        Expression::Name(_, name) => {
            let found = found(alloc, tables, name, notes)?;
            name_put(alloc, tables, name.first.span, found, notes)
        }
        Expression::Parentheses(_, inner) => texts(alloc, tables, inner.get(), notes),
        Expression::Chain(_, first, second, rest) => {
            let (first, second, rest) = (first.get(), second.get(), rest.as_slice());
            if !all_joining(second, rest) {
                return no_text(alloc, tables, x, notes);
            }
            joined_texts(alloc, tables, first, second, rest, notes)
        }
        Expression::Logical(_, _, _, _, _)
        | Expression::Relation(_, _, _, _)
        | Expression::Unary(_, _, _)
        | Expression::Number(_, _)
        | Expression::Null(_)
        | Expression::New(_, _, _, _) => no_text(alloc, tables, x, notes),
    }
}

/// Judges operands that `&` joins (RM 4.5.3).
#[cycle(texts)]
fn joined_texts(
    alloc: Global,
    tables: &Tables,
    first: &Expression<Use>,
    second: &Operand<Expression<Use>>,
    rest: &[Operand<Expression<Use>>],
    notes: &mut Notes,
) -> Result<Option<Items<Piece>>, AllocError>
    ensures { Judges (putting.joined_texts tables.now (spec.sense first.now) (senses.operand_sense second.now ∷ map senses.operand_sense rest.now)) notes.old result notes.new }
{
    let first = texts(alloc, tables, first, notes)?;
    let second = texts(alloc, tables, &second.operand, notes);
    let so_far = lengthened_with(first, second)?;
    texts_behind(alloc, tables, rest, so_far, notes)
}

/// Judges operands that `&` joins, behind what is put so far (RM 4.5.3).
#[cycle(texts)]
fn texts_behind(
    alloc: Global,
    tables: &Tables,
    rest: &[Operand<Expression<Use>>],
    so_far: Option<Items<Piece>>,
    notes: &mut Notes,
) -> Result<Option<Items<Piece>>, AllocError>
    ensures { Judges (putting.texts_behind tables.now so_far (map senses.operand_sense rest.now)) notes.old result notes.new }
{
    let mut done = so_far;
    for operand in rest {
        let text = texts(alloc, tables, &operand.operand, notes);
        done = lengthened_with(done, text)?;
    }
    Ok(done)
}
