//! Statements, items of declarative parts and bodies, each of which may hold the others (RM 3.11, 5.1, 6.3, 11.2).

ghost use Rattle.std.specs.Prelude.{◌≡◌, [], Some, false, map};
ghost use Rattle.ctl_draft.specs.Draft.{by_tables};
ghost use Rattle.ctl_draft.specs.declared.draft.Draft.{Draft as Drafted};
ghost use Rattle.ctl_types.specs.Elaboration as spec;
ghost use Rattle.ctl_types.specs.Parts as part;
ghost use Rattle.ctl_typing.specs.Judgement.{Judges, beside, each};
ghost use Rattle.ctl_typing.specs.Typing.{sense};

use crate::masters::{
    end_part, enter_master, inside, inside_block, leave_master, leave_returns, master_of,
    more_items,
};
use crate::subprograms::{body_put, declaration, opened};
use ctl_declarations::definitions::type_definition;
use ctl_declarations::exceptions::exceptions;
use ctl_declarations::formals::enter_formals;
use ctl_declarations::incomplete::incomplete;
use ctl_declarations::instances::instance;
use ctl_declarations::objects::objects;
use ctl_declarations::pool_clauses::pool_clause;
use ctl_draft::draft::{Around, Draft, Giving, Handling, Looping, Order, Returning};
use ctl_program::expression::Expr;
use ctl_program::operators::Direction as CheckedDirection;
use ctl_program::statement as checked;
use ctl_program::statement::{Arm, Master, Stmt};
use ctl_program::types::Ty;
use ctl_statements::assignments::assignment;
use ctl_statements::calls::call;
use ctl_statements::raises::{choices_of, raising, raising_again};
use ctl_statements::transfers::{exiting, returning};
use ctl_syntax::denoted::{Definition, Use};
use ctl_syntax::expression::Expression;
use ctl_syntax::item::{
    Aliasing, Body, Branch, Choices, Direction, Handler, Item, ItemKind, Specification, Statement,
};
use ctl_tree::fault::FaultCode;
use ctl_tree::span::Span;
use ctl_typing::expressions::{expression, truth};
use ctl_typing::found::Asked;
use ctl_typing::operators::appended;
use ctl_typing::table::{Mutability, Standing};
use sqlite_items::{Boxed, Items};
use std::alloc::{AllocError, Global};

/// Judges the condition of an arm or a loop (RM 5.3, 5.5).
fn condition(
    alloc: Global,
    x: &Expression<Use>,
    draft: &mut Draft,
) -> Result<Option<Expr>, AllocError>
    ensures { Judges (spec.condition (sense x.now)) draft.old result draft.new }
{
    truth(alloc, &draft.tables, x, &mut draft.notes)
}

/// Judges a bound of a range (RM 5.5).
fn bound(alloc: Global, x: &Expression<Use>, draft: &mut Draft) -> Result<Option<Expr>, AllocError>
    ensures { Judges (by_tables (spec.bound (sense x.now))) draft.old result draft.new }
{
    let asked = Asked::Exactly(Ty::Integer);
    match expression(alloc, &draft.tables, x, asked, &mut draft.notes)? {
        Some(typed) => Ok(Some(typed.value)),
        None => Ok(None),
    }
}

/// Pairs what is known of a part with what is known of another, which is judged after it; memory may be refused for that.
fn paired_with<A: Drop, B: Drop>(
    first: Option<A>,
    second: Result<Option<B>, AllocError>,
) -> Result<Option<(A, B)>, AllocError>
    ensures { (q : _) (old new : Drafted) → Judges q old second new → Judges (λ d. beside q (first, d)) old result new }
{
    Ok(first.zip(second?))
}

/// Answers what stands around the statements of a loop (RM 5.7).
fn in_loop(around: Around) -> Around
    ensures { result ≡ spec.in_loop around }
{
    Around {
        looping: Looping::Inside,
        ..around
    }
}

/// Answers which way a loop goes through its range (RM 5.5).
fn way_of(direction: Direction) -> CheckedDirection
    ensures { result ≡ spec.way_of direction }
{
    match direction {
        Direction::Upward => CheckedDirection::Upward,
        Direction::Downward => CheckedDirection::Downward,
    }
}

/// Answers what stands around the statements of a handler (RM 11.3).
fn in_handler(around: Around) -> Around
    ensures { result ≡ spec.in_handler around }
{
    Around {
        handling: Handling::Inside,
        ..around
    }
}

/// Tells whether a handler stands behind one of `others` (RM 11.2).
fn has_early_others(handlers: &[Handler<Statement<Definition, Use>, Use>]) -> bool
    ensures { result ≡ spec.others_early false (map part.handler_of handlers.now) }
{
    let mut is_behind = false;
    for handler in handlers {
        if is_behind {
            return true;
        }
        is_behind = matches!(handler.choices, Choices::Others);
    }
    false
}

/// Tells whether an item is a body.
fn is_body(item: &Item<Definition, Use>) -> bool
    ensures { result ≡ part.is_body item.now }
{
    matches!(item.kind, ItemKind::Body(_, _))
}

/// Counts the bodies of a part.
fn count_bodies(items: &[Item<Definition, Use>]) -> usize
    ensures { result ≡ part.bodies_on 0 items.now }
{
    let mut count = 0;
    for item in items {
        if is_body(item) {
            count += 1;
        }
    }
    count
}

/// Takes an item away from the bodies that are left, if it is one.
fn without_body(item: &Item<Definition, Use>, left: usize) -> usize
    ensures { result ≡ part.bodies_but item.now left }
{
    if is_body(item) {
        left.saturating_sub(1)
    } else {
        left
    }
}

/// Answers whether a body stands behind, of those that are left.
fn order_before(left: usize) -> Order
    ensures { result ≡ part.order_with left }
{
    if left > 0 {
        Order::BeforeBody
    } else {
        Order::BehindBodies
    }
}

/// Judges a statement.
#[cycle(part)]
pub fn statement(
    alloc: Global,
    statement: &Statement<Definition, Use>,
    around: Around,
    draft: &mut Draft,
) -> Result<Option<Stmt>, AllocError>
    ensures { Judges (spec.statement statement.now around) draft.old result draft.new }
{
    match statement {
        Statement::Null(_) => Ok(Some(Stmt::Null)),
        Statement::Assignment(_, to, value) => {
            assignment(alloc, &draft.tables, to, value, &mut draft.notes)
        }
        Statement::If(_, first, more, otherwise) => {
            let first = branch(alloc, first, around, draft)?;
            let first = appended(Some(Items::new(alloc)), first)?;
            let arms = branches(alloc, first, more.as_slice(), around, draft)?;
            let otherwise = sequence(alloc, otherwise.as_slice(), around, draft)?;
            Ok(conditional(arms, otherwise))
        }
        Statement::Loop(_, statements) => endless(alloc, statements.as_slice(), around, draft),
        Statement::While(_, test, statements) => {
            while_loop(alloc, statements.as_slice(), test, around, draft)
        }
        Statement::For(_, _, direction, low, high, statements) => {
            counting(
                alloc,
                statements.as_slice(),
                *direction,
                low,
                high,
                around,
                draft,
            )
        }
        Statement::Block(place, body) => block(alloc, body.get(), *place, around, draft),
        Statement::Call(place, name) => call(alloc, &draft.tables, *place, name, &mut draft.notes),
        Statement::Exit(place, condition) => {
            exiting(alloc, *place, around.looping, condition, draft)
        }
        Statement::Return(place, value) => returning(alloc, *place, around.giving, value, draft),
        Statement::Raise(place, mark) => {
            Ok(raising(&draft.tables, *place, mark, &mut draft.notes))
        }
        Statement::RaiseAgain(place) => Ok(raising_again(*place, around.handling, draft)),
    }
}

/// Judges statements, one after the other (RM 5.1).
#[cycle(part)]
fn sequence(
    alloc: Global,
    statements: &[Statement<Definition, Use>],
    around: Around,
    draft: &mut Draft,
) -> Result<Option<Items<Stmt>>, AllocError>
    ensures { Judges (spec.sequence (map spec.statement statements.now) around) draft.old result draft.new }
{
    let mut done = Some(Items::new(alloc));
    for one in statements {
        let judged = statement(alloc, one, around, draft)?;
        done = appended(done, judged)?;
    }
    Ok(done)
}

/// Judges an arm of a conditional statement (RM 5.3).
#[cycle(part)]
fn branch(
    alloc: Global,
    branch: &Branch<Statement<Definition, Use>, Use>,
    around: Around,
    draft: &mut Draft,
) -> Result<Option<Arm>, AllocError>
    ensures { Judges (spec.branch around (part.branch_of branch.now)) draft.old result draft.new }
{
    let test = condition(alloc, &branch.condition, draft)?;
    let statements = branch.statements.as_slice();
    match paired_with(test, sequence(alloc, statements, around, draft))? {
        Some((test, body)) => Ok(Some(Arm { test, body })),
        None => Ok(None),
    }
}

/// Judges the further arms of a conditional statement, behind those so far (RM 5.3).
#[cycle(part)]
fn branches(
    alloc: Global,
    before: Option<Items<Arm>>,
    more: &[Branch<Statement<Definition, Use>, Use>],
    around: Around,
    draft: &mut Draft,
) -> Result<Option<Items<Arm>>, AllocError>
    ensures { Judges (each (spec.branch around) before (map part.branch_of more.now)) draft.old result draft.new }
{
    let mut done = before;
    for one in more {
        let judged = branch(alloc, one, around, draft)?;
        done = appended(done, judged)?;
    }
    Ok(done)
}

/// Makes a conditional statement of its arms and of what stands behind `else`, where both are known.
fn conditional(arms: Option<Items<Arm>>, otherwise: Option<Items<Stmt>>) -> Option<Stmt>
    ensures { result ≡ part.conditional_of arms otherwise }
{
    match arms.zip(otherwise) {
        Some((arms, otherwise)) => Some(Stmt::If(arms, otherwise)),
        None => None,
    }
}

/// Judges a loop without an iteration scheme (RM 5.5).
#[cycle(part)]
fn endless(
    alloc: Global,
    statements: &[Statement<Definition, Use>],
    around: Around,
    draft: &mut Draft,
) -> Result<Option<Stmt>, AllocError>
    ensures { Judges (spec.endless (map spec.statement statements.now) around) draft.old result draft.new }
{
    match sequence(alloc, statements, in_loop(around), draft)? {
        Some(body) => Ok(Some(Stmt::Loop(body))),
        None => Ok(None),
    }
}

/// Judges a loop with a condition (RM 5.5).
#[cycle(part)]
fn while_loop(
    alloc: Global,
    statements: &[Statement<Definition, Use>],
    test: &Expression<Use>,
    around: Around,
    draft: &mut Draft,
) -> Result<Option<Stmt>, AllocError>
    ensures { Judges (spec.while (sense test.now) (map spec.statement statements.now) around) draft.old result draft.new }
{
    let test = condition(alloc, test, draft)?;
    match paired_with(test, sequence(alloc, statements, in_loop(around), draft))? {
        Some((test, body)) => Ok(Some(Stmt::While(test, body))),
        None => Ok(None),
    }
}

/// Judges the statements of a loop with a parameter, which is in view inside alone (RM 5.5).
#[cycle(part)]
fn with_parameter(
    alloc: Global,
    statements: &[Statement<Definition, Use>],
    around: Around,
    draft: &mut Draft,
) -> Result<Option<Items<Stmt>>, AllocError>
    ensures { Judges (spec.with_parameter (map spec.statement statements.now) around) draft.old result draft.new }
{
    let count = draft.tables.entries.len();
    draft.declare_object(
        around,
        Ty::Integer,
        Standing::LoopParameter,
        Mutability::Constant,
        Aliasing::Unaliased,
    )?;
    let body = sequence(alloc, statements, in_loop(around), draft)?;
    draft.leave_view(count);
    Ok(body)
}

/// Judges a loop with a parameter (RM 5.5).
#[cycle(part)]
fn counting(
    alloc: Global,
    statements: &[Statement<Definition, Use>],
    direction: Direction,
    low: &Expression<Use>,
    high: &Expression<Use>,
    around: Around,
    draft: &mut Draft,
) -> Result<Option<Stmt>, AllocError>
    ensures { Judges (spec.counting direction (sense low.now) (sense high.now) (map spec.statement statements.now) around) draft.old result draft.new }
{
    let var = draft.next_var(around);
    let low = bound(alloc, low, draft)?;
    let bounds = paired_with(low, bound(alloc, high, draft))?;
    match paired_with(bounds, with_parameter(alloc, statements, around, draft))? {
        Some(((low, high), body)) => Ok(Some(Stmt::For(var, way_of(direction), low, high, body))),
        None => Ok(None),
    }
}

/// Judges a block: its declarations are in view inside alone (RM 5.6).
#[cycle(part)]
fn block(
    alloc: Global,
    body: &Body<Definition, Use>,
    place: Span,
    around: Around,
    draft: &mut Draft,
) -> Result<Option<Stmt>, AllocError>
    ensures { Judges (spec.block place (spec.body body.now) around) draft.old result draft.new }
{
    let inside = inside_block(around, draft)?;
    let outer = enter_master(alloc, draft);
    let judged = master(alloc, body, place, inside, draft);
    leave_master(outer, draft);
    match judged? {
        Some(master) => Ok(Some(Stmt::Block(Boxed::new(alloc, master)?))),
        None => Ok(None),
    }
}

/// Judges a declarative part with its statements and handlers (RM 6.3, 11.2).
#[cycle(part)]
pub fn master(
    alloc: Global,
    body: &Body<Definition, Use>,
    place: Span,
    around: Around,
    draft: &mut Draft,
) -> Result<Option<Master>, AllocError>
    ensures { Judges (spec.body body.now place around) draft.old result draft.new }
{
    let items = declarative_part(alloc, body.items.as_slice(), around, draft)?;
    let statements = sequence(alloc, body.statements.as_slice(), around, draft)?;
    let handlers = handlers(alloc, body.handlers.as_slice(), place, around, draft)?;
    Ok(master_of(draft.slots.len(), items, statements, handlers))
}

/// Judges a declarative part: at its end all types that are declared in it are frozen (RM 3.11, 13.14).
#[cycle(part)]
fn declarative_part(
    alloc: Global,
    items: &[Item<Definition, Use>],
    around: Around,
    draft: &mut Draft,
) -> Result<Option<Items<checked::Item>>, AllocError>
    ensures { Judges (spec.part (map spec.item_judged items.now) around) draft.old result draft.new }
{
    let waiting = draft.waiting.len();
    let judged = items_in_order(alloc, items, around, draft)?;
    end_part(alloc, judged, waiting, around, draft)
}

/// Judges the items of a part, one after the other (RM 3.11).
#[cycle(part)]
fn items_in_order(
    alloc: Global,
    items: &[Item<Definition, Use>],
    around: Around,
    draft: &mut Draft,
) -> Result<Option<Items<checked::Item>>, AllocError>
    ensures { Judges (spec.items around (Some []) (map spec.item_judged items.now)) draft.old result draft.new }
{
    let mut left = count_bodies(items);
    let mut done = Some(Items::new(alloc));
    for one in items {
        left = without_body(one, left);
        let judged = item(alloc, one, order_before(left), around, draft)?;
        done = more_items(done, judged)?;
    }
    Ok(done)
}

/// Judges an item of a declarative part.
#[cycle(part)]
fn item(
    alloc: Global,
    item: &Item<Definition, Use>,
    order: Order,
    around: Around,
    draft: &mut Draft,
) -> Result<Option<Items<checked::Item>>, AllocError>
    ensures { Judges ((spec.item_judged item.now).declares order around) draft.old result draft.new }
{
    let place = item.span;
    match &item.kind {
        ItemKind::Declaration(specification) => {
            Ok(Some(declaration(alloc, place, specification, around, draft)?))
        }
        ItemKind::Body(specification, body) => {
            subprogram(alloc, body.get(), place, specification, around, draft)
        }
        ItemKind::Instance(name, mark, associations) => {
            instance(
                alloc,
                place,
                name,
                mark,
                associations.as_slice(),
                around,
                draft,
            )
        }
        ItemKind::Incomplete(name, taggedness) => {
            Ok(Some(incomplete(alloc, name, *taggedness, around, draft)?))
        }
        ItemKind::Type(name, definition) => {
            Ok(Some(type_definition(alloc, place, name, definition, around, draft)?))
        }
        ItemKind::StoragePool(of, pool) => {
            Ok(Some(pool_clause(alloc, place, *of, pool, around, draft)?))
        }
        ItemKind::Exceptions(names) => Ok(Some(exceptions(alloc, names.as_slice(), draft)?)),
        ItemKind::Objects(declared) => objects(alloc, place, declared, order, around, draft),
    }
}

/// Judges a body of a subprogram (RM 6.3).
#[cycle(part)]
fn subprogram(
    alloc: Global,
    body: &Body<Definition, Use>,
    place: Span,
    specification: &Specification<Definition, Use>,
    around: Around,
    draft: &mut Draft,
) -> Result<Option<Items<checked::Item>>, AllocError>
    ensures { (order : _) → Judges (spec.body_item place specification.now (spec.body body.now) order around) draft.old result draft.new }
{
    let opened = opened(alloc, place, specification, around, draft)?;
    let judged = subprogram_body(
        alloc,
        body,
        place,
        specification,
        around,
        opened.giving,
        draft,
    )?;
    body_put(opened.number, opened.layers, judged, draft)
}

/// Judges the declarations and statements of a subprogram's body, with its formals in view (RM 6.3).
#[cycle(part)]
fn subprogram_body(
    alloc: Global,
    body: &Body<Definition, Use>,
    place: Span,
    specification: &Specification<Definition, Use>,
    around: Around,
    giving: Giving,
    draft: &mut Draft,
) -> Result<Option<Master>, AllocError>
    ensures { Judges (spec.subprogram_body place specification.now (spec.body body.now) around giving) draft.old result draft.new }
{
    let inside = inside(around, giving, draft)?;
    let returning = draft.returning;
    let outer = enter_master(alloc, draft);
    draft.returning = Returning::Nowhere;
    enter_formals(
        alloc,
        inside,
        place,
        specification.formals.as_slice(),
        draft,
    )?;
    let judged = master(alloc, body, place, inside, draft);
    leave_returns(returning, specification.name.identifier.span, giving, draft);
    leave_master(outer, draft);
    judged
}

/// Judges the handlers of a body (RM 11.2).
#[cycle(part)]
fn handlers(
    alloc: Global,
    handlers: &[Handler<Statement<Definition, Use>, Use>],
    place: Span,
    around: Around,
    draft: &mut Draft,
) -> Result<Option<Items<checked::Handler>>, AllocError>
    ensures { Judges (spec.handlers place around (map part.handler_of handlers.now)) draft.old result draft.new }
{
    draft.fault_when(has_early_others(handlers), FaultCode::Type, place);
    handlers_in_order(alloc, handlers, place, around, draft)
}

/// Judges handlers, one after the other.
#[cycle(part)]
fn handlers_in_order(
    alloc: Global,
    handlers: &[Handler<Statement<Definition, Use>, Use>],
    place: Span,
    around: Around,
    draft: &mut Draft,
) -> Result<Option<Items<checked::Handler>>, AllocError>
    ensures { Judges (each (spec.handler place around) (Some []) (map part.handler_of handlers.now)) draft.old result draft.new }
{
    let mut done = Some(Items::new(alloc));
    for one in handlers {
        let judged = handler(alloc, one, place, around, draft)?;
        done = appended(done, judged)?;
    }
    Ok(done)
}

/// Judges a handler (RM 11.2).
#[cycle(part)]
fn handler(
    alloc: Global,
    handler: &Handler<Statement<Definition, Use>, Use>,
    place: Span,
    around: Around,
    draft: &mut Draft,
) -> Result<Option<checked::Handler>, AllocError>
    ensures { Judges (spec.handler place around (part.handler_of handler.now)) draft.old result draft.new }
{
    let choices = choices_of(alloc, place, &handler.choices, draft)?;
    let statements = handler.statements.as_slice();
    let body = sequence(alloc, statements, in_handler(around), draft);
    match paired_with(choices, body)? {
        Some((choices, body)) => Ok(Some(checked::Handler { choices, body })),
        None => Ok(None),
    }
}
