//! The whole text: the library procedure with its context (RM 10.1.1).

ghost use Rattle.std.specs.Prelude.{◌≡◌, IfOk};
ghost use Rattle.ctl_resolve.specs.Naming.{Names};
ghost use Rattle.ctl_resolve.specs.Whole as spec;

use crate::context::{Broken, brought, clauses, note_contexts, opened, uses_broken};
use crate::declarations::new_name;
use crate::notes::{enter_master, leave};
use crate::parts::body;
use crate::table::Table;
use crate::view::{Part, Progress, Stage, View};
use ctl_syntax::denoted::{Definition, Use};
use ctl_syntax::item::{Context, Tree};
use ctl_syntax::name::Identifier;
use std::alloc::{AllocError, Global};

/// Makes what is in view before the text, where nothing is declared yet.
fn outermost(alloc: Global, contexts: &[Context]) -> Result<View, AllocError>
    ensures { IfOk result (λ view. view ≡ spec.outermost contexts.now) }
{
    let brought = brought(alloc, contexts)?;
    let used = opened(alloc, contexts)?;
    Ok(View {
        table: Table::new(alloc),
        part: Part {
            start: 0,
            level: 0,
            progress: Progress::BeforeBodies,
        },
        brought,
        used,
        fault: None,
    })
}

/// Resolves the library procedure, whose clauses stay as they are written.
fn main(
    alloc: Global,
    view: &mut View,
    of: &Tree<Identifier, Identifier>,
) -> Result<Tree<Definition, Use>, AllocError>
    ensures { Names (spec.main of.now) view.old result view.new }
{
    let name = new_name(alloc, view, Stage::Complete, &of.name)?;
    let around = enter_master(view)?;
    let body = body(alloc, view, &of.body)?;
    leave(view, around);
    let contexts = clauses(alloc, of.contexts.as_slice())?;
    Ok(Tree {
        contexts,
        span: of.span,
        name,
        body,
    })
}

/// Answers a text with what its names denote, and its first broken rules by place (RM 8, 10.1).
pub fn named(
    alloc: Global,
    tree: &Tree<Identifier, Identifier>,
) -> Result<(Tree<Definition, Use>, Broken), AllocError>
    ensures { IfOk result (λ n. n ≡ spec.named tree.now) }
{
    let contexts = tree.contexts.as_slice();
    let mut view = outermost(alloc, contexts)?;
    note_contexts(&mut view, contexts);
    let resolved = main(alloc, &mut view, tree)?;
    let broken = Broken {
        names: view.fault,
        uses: uses_broken(contexts),
    };
    Ok((resolved, broken))
}
