//! Items, statements, bodies and handlers (RM 3.11, 5.1, 6.3, 11.2).

ghost use Rattle.std.specs.Prelude.{[], ◌∷◌};
ghost use Rattle.ctl_resolve.specs.Naming.{Names, after, each};
ghost use Rattle.ctl_resolve.specs.Declarations as declarations;
ghost use Rattle.ctl_resolve.specs.Parts as spec;
ghost use Rattle.ctl_syntax.specs.declared.item.Statement.TheVariants as s;

use crate::declarations::{hide, new_name, new_names};
use crate::ends::{choices, note_choices, note_unfinished};
use crate::expressions::{expression, expression_or_none, name};
use crate::lists::{added, room_for};
use crate::names::mark;
use crate::notes::{behind_body, cut, enter_master, enter_region, leave, set_stage};
use crate::objects::{instance, objects, storage_pool};
use crate::pairs::paired;
use crate::subprograms::{begun, declaration, heading};
use crate::type_definitions::full_type;
use crate::types::{incomplete, note_order};
use crate::view::{Stage, Usage, View};
use ctl_syntax::denoted::{Definition, Use};
use ctl_syntax::expression::Expression;
use ctl_syntax::item::{
    Body, Branch, Direction, Handler, Item, ItemKind, Specification, Statement,
};
use ctl_syntax::name::Identifier;
use ctl_tree::span::Span;
use sqlite_items::{Boxed, Items};
use std::alloc::{AllocError, Global};

/// Resolves a declarative part with the statements and handlers behind it (RM 3.11, 11.2).
#[cycle(part)]
pub fn body(
    alloc: Global,
    view: &mut View,
    of: &Body<Identifier, Identifier>,
) -> Result<Body<Definition, Use>, AllocError>
    ensures { Names (spec.body_of of.now) view.old result view.new }
{
    let items = items(alloc, view, of.items.as_slice())?;
    note_unfinished(view);
    let parts = paired(items, statements(alloc, view, of.statements.as_slice()))?;
    let handlers = exception_part(alloc, view, of.handlers.as_slice());
    let (parts, handlers) = paired(parts, handlers)?;
    let (items, statements) = parts;
    Ok(Body {
        items,
        statements,
        handlers,
    })
}

/// Resolves items, each in turn.
#[cycle(part)]
fn items(
    alloc: Global,
    view: &mut View,
    all: &[Item<Identifier, Identifier>],
) -> Result<Items<Item<Definition, Use>>, AllocError>
    ensures { Names (each spec.item_of [] all.now) view.old result view.new }
{
    let mut resolved = room_for(alloc, all.len())?;
    for one in all {
        resolved = added(resolved, item(alloc, view, one))?;
    }
    Ok(resolved)
}

/// Resolves an item of a declarative part (RM 3.11).
#[cycle(part)]
fn item(
    alloc: Global,
    view: &mut View,
    of: &Item<Identifier, Identifier>,
) -> Result<Item<Definition, Use>, AllocError>
    ensures { Names (spec.item_of of.now) view.old result view.new }
{
    let kind = kind(alloc, view, of.span, &of.kind)?;
    Ok(Item {
        span: of.span,
        kind,
    })
}

/// Resolves what an item is, which stands here.
#[cycle(part)]
fn kind(
    alloc: Global,
    view: &mut View,
    at: Span,
    of: &ItemKind<Identifier, Identifier, Boxed<Body<Identifier, Identifier>>>,
) -> Result<ItemKind<Definition, Use, Boxed<Body<Definition, Use>>>, AllocError>
    ensures { Names (spec.named_kind at of.now) view.old result view.new }
{
    match of {
        ItemKind::Declaration(of) => {
            let heading = declaration(alloc, view, of)?;
            Ok(ItemKind::Declaration(heading))
        }
        ItemKind::Body(of, body) => body_item(alloc, view, of, body),
        ItemKind::Instance(id, unit, actuals) => {
            instance(alloc, view, id, unit, actuals.as_slice())
        }
        ItemKind::Incomplete(id, taggedness) => {
            note_order(view, at);
            let definition = incomplete(alloc, view, id)?;
            Ok(ItemKind::Incomplete(definition, *taggedness))
        }
        ItemKind::Type(id, of) => {
            note_order(view, at);
            let (definition, resolved) = full_type(alloc, view, id, of)?;
            Ok(ItemKind::Type(definition, resolved))
        }
        ItemKind::StoragePool(id, pool) => storage_pool(alloc, view, id, pool),
        ItemKind::Exceptions(ids) => {
            let definitions = new_names(alloc, view, ids.as_slice())?;
            Ok(ItemKind::Exceptions(definitions))
        }
        ItemKind::Objects(of) => {
            let resolved = objects(alloc, view, of)?;
            Ok(ItemKind::Objects(resolved))
        }
    }
}

/// Resolves the body of a subprogram, whose name is known from the word `is` on (RM 6.3, 8.3).
#[cycle(part)]
fn body_item(
    alloc: Global,
    view: &mut View,
    of: &Specification<Identifier, Identifier>,
    part: &Boxed<Body<Identifier, Identifier>>,
) -> Result<ItemKind<Definition, Use, Boxed<Body<Definition, Use>>>, AllocError>
    ensures { Names (spec.body_item of.now (spec.body_of part.now)) view.old result view.new }
{
    let definition = begun(alloc, view, of)?;
    let number = definition.number;
    let around = enter_master(view)?;
    let heading = heading(alloc, view, of, definition)?;
    set_stage(view, number, Stage::Complete);
    let both = paired(heading, boxed_body(alloc, view, part))?;
    leave(view, around);
    behind_body(view);
    let (heading, part) = both;
    Ok(ItemKind::Body(heading, part))
}

/// Resolves the body of a subprogram or of a block, which stands in a box.
#[cycle(part)]
fn boxed_body(
    alloc: Global,
    view: &mut View,
    of: &Boxed<Body<Identifier, Identifier>>,
) -> Result<Boxed<Body<Definition, Use>>, AllocError>
    ensures { Names (spec.body_of of.now) view.old result view.new }
{
    let resolved = body(alloc, view, of.get())?;
    Boxed::new(alloc, resolved)
}

/// Resolves statements, each in turn.
#[cycle(part)]
fn statements(
    alloc: Global,
    view: &mut View,
    all: &[Statement<Identifier, Identifier>],
) -> Result<Items<Statement<Definition, Use>>, AllocError>
    ensures { Names (each spec.statement [] all.now) view.old result view.new }
{
    let mut resolved = room_for(alloc, all.len())?;
    for one in all {
        resolved = added(resolved, statement(alloc, view, one))?;
    }
    Ok(resolved)
}

/// Resolves a statement (RM 5.1).
#[cycle(part)]
fn statement(
    alloc: Global,
    view: &mut View,
    of: &Statement<Identifier, Identifier>,
) -> Result<Statement<Definition, Use>, AllocError>
    ensures { Names (spec.statement of.now) view.old result view.new }
{
    match of {
        Statement::Null(at) => Ok(Statement::Null(*at)),
        Statement::Assignment(at, target, value) => {
            let target = name(alloc, view, target)?;
            let (target, value) = paired(target, expression(alloc, view, value))?;
            Ok(Statement::Assignment(*at, target, value))
        }
        Statement::Call(at, of) => {
            let called = name(alloc, view, of)?;
            Ok(Statement::Call(*at, called))
        }
        Statement::Exit(at, condition) => {
            let condition = expression_or_none(alloc, view, condition)?;
            Ok(Statement::Exit(*at, condition))
        }
        Statement::Return(at, value) => {
            let value = expression_or_none(alloc, view, value)?;
            Ok(Statement::Return(*at, value))
        }
        Statement::Raise(at, of) => {
            let exception = mark(alloc, view, Usage::Plain, of)?;
            Ok(Statement::Raise(*at, exception))
        }
        Statement::RaiseAgain(at) => Ok(Statement::RaiseAgain(*at)),
        Statement::If(at, first, more, others) => {
            conditional(alloc, view, *at, first, more, others)
        }
        Statement::Loop(at, all) => endless(alloc, view, *at, all),
        Statement::While(at, condition, all) => while_loop(alloc, view, *at, all, condition),
        Statement::For(at, id, direction, low, high, all) => {
            counting(alloc, view, *at, all, id, *direction, low, high)
        }
        Statement::Block(at, part) => block(alloc, view, *at, part),
    }
}

/// Resolves an if statement (RM 5.3).
#[cycle(part)]
fn conditional(
    alloc: Global,
    view: &mut View,
    at: Span,
    first: &Branch<Statement<Identifier, Identifier>, Identifier>,
    more: &Items<Branch<Statement<Identifier, Identifier>, Identifier>>,
    others: &Items<Statement<Identifier, Identifier>>,
) -> Result<Statement<Definition, Use>, AllocError>
    ensures { Names (spec.statement (s.If at first.now more.now others.now)) view.old result view.new }
{
    let first = guarded(alloc, view, first)?;
    let arms = paired(first, branches(alloc, view, more.as_slice()))?;
    let (arms, others) = paired(arms, statements(alloc, view, others.as_slice()))?;
    let (first, more) = arms;
    Ok(Statement::If(at, first, more, others))
}

/// Resolves a loop without an iteration scheme (RM 5.5).
#[cycle(part)]
fn endless(
    alloc: Global,
    view: &mut View,
    at: Span,
    all: &Items<Statement<Identifier, Identifier>>,
) -> Result<Statement<Definition, Use>, AllocError>
    ensures { Names (spec.statement (s.Loop at all.now)) view.old result view.new }
{
    let repeated = statements(alloc, view, all.as_slice())?;
    Ok(Statement::Loop(at, repeated))
}

/// Resolves a loop that goes on while a condition holds (RM 5.5).
#[cycle(part)]
fn while_loop(
    alloc: Global,
    view: &mut View,
    at: Span,
    all: &Items<Statement<Identifier, Identifier>>,
    condition: &Expression<Identifier>,
) -> Result<Statement<Definition, Use>, AllocError>
    ensures { Names (spec.statement (s.While at condition.now all.now)) view.old result view.new }
{
    let condition = expression(alloc, view, condition)?;
    let (condition, repeated) = paired(condition, statements(alloc, view, all.as_slice()))?;
    Ok(Statement::While(at, condition, repeated))
}

/// Resolves a loop whose parameter counts (RM 5.5).
#[cycle(part)]
fn counting(
    alloc: Global,
    view: &mut View,
    at: Span,
    all: &Items<Statement<Identifier, Identifier>>,
    id: &Identifier,
    direction: Direction,
    low: &Expression<Identifier>,
    high: &Expression<Identifier>,
) -> Result<Statement<Definition, Use>, AllocError>
    ensures { Names (spec.statement (s.For at id.now direction low.now high.now all.now)) view.old result view.new }
{
    let range = bounds(alloc, view, id, low, high)?;
    let (range, repeated) = paired(range, repeated(alloc, view, id, all.as_slice()))?;
    let (low, high) = range;
    let (parameter, statements) = repeated;
    Ok(Statement::For(at, parameter, direction, low, high, statements))
}

/// Resolves a block (RM 5.6).
#[cycle(part)]
fn block(
    alloc: Global,
    view: &mut View,
    at: Span,
    part: &Boxed<Body<Identifier, Identifier>>,
) -> Result<Statement<Definition, Use>, AllocError>
    ensures { Names (spec.statement (s.Block at part.now)) view.old result view.new }
{
    let around = enter_master(view)?;
    let part = boxed_body(alloc, view, part)?;
    leave(view, around);
    Ok(Statement::Block(at, part))
}

/// Resolves the bounds of a loop, where its parameter is hidden (RM 5.5, 8.3(17)).
fn bounds(
    alloc: Global,
    view: &mut View,
    id: &Identifier,
    low: &Expression<Identifier>,
    high: &Expression<Identifier>,
) -> Result<(Expression<Use>, Expression<Use>), AllocError>
    ensures { Names (declarations.hidden_in (id.now ∷ []) (spec.bounds low.now high.now)) view.old result view.new }
{
    let count = view.table.count();
    hide(alloc, view, id)?;
    let low = expression(alloc, view, low)?;
    let range = paired(low, expression(alloc, view, high))?;
    cut(view, count);
    Ok(range)
}

/// Declares the parameter of a loop, and resolves the statements that are repeated (RM 5.5).
#[cycle(part)]
fn repeated(
    alloc: Global,
    view: &mut View,
    id: &Identifier,
    all: &[Statement<Identifier, Identifier>],
) -> Result<(Definition, Items<Statement<Definition, Use>>), AllocError>
    ensures { Names (spec.named_loop id.now all.now) view.old result view.new }
{
    let around = enter_region(view);
    let parameter = new_name(alloc, view, Stage::Complete, id)?;
    let both = paired(parameter, statements(alloc, view, all))?;
    leave(view, around);
    Ok(both)
}

/// Resolves a condition and the statements that it guards (RM 5.3).
#[cycle(part)]
fn guarded(
    alloc: Global,
    view: &mut View,
    of: &Branch<Statement<Identifier, Identifier>, Identifier>,
) -> Result<Branch<Statement<Definition, Use>, Use>, AllocError>
    ensures { Names (spec.named_branch of.now) view.old result view.new }
{
    let condition = expression(alloc, view, &of.condition)?;
    let statements = statements(alloc, view, of.statements.as_slice());
    let (condition, statements) = paired(condition, statements)?;
    Ok(Branch {
        condition,
        statements,
    })
}

/// Resolves conditions with the statements that they guard, each in turn.
#[cycle(part)]
fn branches(
    alloc: Global,
    view: &mut View,
    all: &[Branch<Statement<Identifier, Identifier>, Identifier>],
) -> Result<Items<Branch<Statement<Definition, Use>, Use>>, AllocError>
    ensures { Names (each spec.named_branch [] all.now) view.old result view.new }
{
    let mut resolved = room_for(alloc, all.len())?;
    for one in all {
        resolved = added(resolved, guarded(alloc, view, one))?;
    }
    Ok(resolved)
}

/// Notes a second choice of one name among handlers, and resolves them (RM 11.2).
#[cycle(part)]
fn exception_part(
    alloc: Global,
    view: &mut View,
    all: &[Handler<Statement<Identifier, Identifier>, Identifier>],
) -> Result<Items<Handler<Statement<Definition, Use>, Use>>, AllocError>
    ensures { Names (after (spec.note_choices all.now) (each spec.named_handler [] all.now)) view.old result view.new }
{
    note_choices(alloc, view, all)?;
    handlers(alloc, view, all)
}

/// Resolves handlers, each in turn.
#[cycle(part)]
fn handlers(
    alloc: Global,
    view: &mut View,
    all: &[Handler<Statement<Identifier, Identifier>, Identifier>],
) -> Result<Items<Handler<Statement<Definition, Use>, Use>>, AllocError>
    ensures { Names (each spec.named_handler [] all.now) view.old result view.new }
{
    let mut resolved = room_for(alloc, all.len())?;
    for one in all {
        resolved = added(resolved, handler(alloc, view, one))?;
    }
    Ok(resolved)
}

/// Resolves an exception handler (RM 11.2).
#[cycle(part)]
fn handler(
    alloc: Global,
    view: &mut View,
    of: &Handler<Statement<Identifier, Identifier>, Identifier>,
) -> Result<Handler<Statement<Definition, Use>, Use>, AllocError>
    ensures { Names (spec.named_handler of.now) view.old result view.new }
{
    let choices = choices(alloc, view, &of.choices)?;
    let statements = statements(alloc, view, of.statements.as_slice());
    let (choices, statements) = paired(choices, statements)?;
    Ok(Handler {
        span: of.span,
        choices,
        statements,
    })
}
