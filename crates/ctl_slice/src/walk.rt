//! The first construct of a text that is of a kind of which this version does not run all, in the order of the text.

ghost use Rattle.std.specs.Prelude.{◌≡◌, map};
ghost use Rattle.ctl_slice.specs.Places as spec;

use crate::construct::{
    Support, of_assigned, of_call, of_heading, of_objects, of_returned, of_type,
};
use ctl_syntax::denoted::{Definition, Named, Use};
use ctl_syntax::item::{Body, Branch, Handler, Item, ItemKind, Statement};
use ctl_tree::span::Span;

/// Answers the place of the first construct of a text that is of a kind of which this version does not run all, as what its names denote tells
/// it.
pub fn first_left_out(tree: &Named) -> Option<Span>
    ensures { result ≡ spec.first_left_out tree.now }
{
    body(&tree.body)
}

/// Answers the place of a construct, where it is left out.
fn where_left_out(support: Support, place: Span) -> Option<Span>
    ensures { result ≡ spec.where_left_out support place }
{
    match support {
        Support::Run => None,
        Support::LeftOut => Some(place),
    }
}

/// Answers the first of three places that stand in this order.
fn earliest(first: Option<Span>, second: Option<Span>, third: Option<Span>) -> Option<Span>
    ensures { result ≡ spec.earliest first second third }
{
    match (first, second) {
        (Some(place), _) => Some(place),
        (None, Some(place)) => Some(place),
        (None, None) => third,
    }
}

/// Finds the first place in a declarative part, its statements and its handlers.
#[cycle(part)]
fn body(body: &Body<Definition, Use>) -> Option<Span>
    ensures { result ≡ spec.body body.now }
{
    let declared = items(body.items.as_slice());
    let done = statements(body.statements.as_slice());
    let handled = handlers(body.handlers.as_slice());
    earliest(declared, done, handled)
}

/// Finds the first place in a handler (RM 11.2).
#[cycle(part)]
fn handler(handler: &Handler<Statement<Definition, Use>, Use>) -> Option<Span>
    ensures { result ≡ spec.handler (spec.handler_of handler.now) }
{
    statements(handler.statements.as_slice())
}

/// Finds the first place in handlers (RM 11.2).
#[cycle(part)]
fn handlers(handlers: &[Handler<Statement<Definition, Use>, Use>]) -> Option<Span>
    ensures { result ≡ spec.first_of (map spec.handler (map spec.handler_of handlers.now)) }
{
    for one in handlers {
        if let Some(place) = handler(one) {
            return Some(place);
        }
    }
    None
}

/// Finds the first place in the items of a part (RM 3.11).
#[cycle(part)]
fn items(items: &[Item<Definition, Use>]) -> Option<Span>
    ensures { result ≡ spec.first_of (map spec.item items.now) }
{
    for one in items {
        if let Some(place) = item(one) {
            return Some(place);
        }
    }
    None
}

/// Finds the first place in an item.
#[cycle(part)]
fn item(item: &Item<Definition, Use>) -> Option<Span>
    ensures { result ≡ spec.item item.now }
{
    match &item.kind {
        ItemKind::Declaration(heading) => where_left_out(of_heading(heading), item.span),
        ItemKind::Body(heading, inside) => match of_heading(heading) {
            Support::Run => body(inside.get()),
            Support::LeftOut => Some(item.span),
        },
        ItemKind::Type(_, definition) => where_left_out(of_type(definition), item.span),
        ItemKind::Objects(objects) => where_left_out(of_objects(objects), item.span),
        // Unchecked_Deallocation is the one generic of the language (RM 13.11.2).
        ItemKind::Exceptions(_) | ItemKind::Incomplete(..) | ItemKind::Instance(..) => None,
        // Its pool is judged where it is declared (RM 13.11).
        ItemKind::StoragePool(..) => None,
    }
}

/// Finds the first place in statements, one behind the other (RM 5.1).
#[cycle(part)]
fn statements(statements: &[Statement<Definition, Use>]) -> Option<Span>
    ensures { result ≡ spec.first_of (map spec.statement statements.now) }
{
    for one in statements {
        if let Some(place) = statement(one) {
            return Some(place);
        }
    }
    None
}

/// Finds the first place in a statement.
#[cycle(part)]
fn statement(statement: &Statement<Definition, Use>) -> Option<Span>
    ensures { result ≡ spec.statement statement.now }
{
    match statement {
        Statement::Assignment(place, _, value) => where_left_out(of_assigned(value), *place),
        Statement::Return(place, value) => where_left_out(of_returned(value), *place),
        Statement::Call(place, name) => where_left_out(of_call(name), *place),
        Statement::If(_, first, more, otherwise) => {
            let opening = branch(first);
            let between = branches(more.as_slice());
            let closing = statements(otherwise.as_slice());
            earliest(opening, between, closing)
        }
        Statement::Loop(_, inside) => statements(inside.as_slice()),
        Statement::While(_, _, inside) => statements(inside.as_slice()),
        Statement::For(_, _, _, _, _, inside) => statements(inside.as_slice()),
        Statement::Block(_, inside) => body(inside.get()),
        // A statement that holds none, of which no part tells whether it is run. Were one left out and forgotten here, then its program would be
        // refused all the same, by `is_run` of `ctl_layout`, and at the procedure.
        _ => None,
    }
}

/// Finds the first place in an arm (RM 5.3).
#[cycle(part)]
fn branch(branch: &Branch<Statement<Definition, Use>, Use>) -> Option<Span>
    ensures { result ≡ spec.branch (spec.branch_of branch.now) }
{
    statements(branch.statements.as_slice())
}

/// Finds the first place in arms behind the first (RM 5.3).
#[cycle(part)]
fn branches(branches: &[Branch<Statement<Definition, Use>, Use>]) -> Option<Span>
    ensures { result ≡ spec.first_of (map spec.branch (map spec.branch_of branches.now)) }
{
    for one in branches {
        if let Some(place) = branch(one) {
            return Some(place);
        }
    }
    None
}
