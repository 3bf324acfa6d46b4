//! The names of the operations of types, which name nothing else (RM 7.6, 13.11, profile).

ghost use Rattle.std.specs.Prelude.{◌≡◌};
ghost use Rattle.ctl_declarations.specs.Declarations as spec;

use ctl_draft::draft::Draft;
use ctl_resolve::library::operation_named;
use ctl_syntax::denoted::Definition;
use ctl_tree::fault::FaultCode;

/// Notes a declaration that has the name of an operation and is no subprogram (profile).
pub fn keep_name(name: &Definition, draft: &mut Draft)
    ensures { draft.new ≡ spec.name_kept name.now draft.old }
{
    let is_broken = operation_named(name.identifier.text.as_bytes()).is_some();
    draft.fault_when(is_broken, FaultCode::Override, name.identifier.span);
}

/// Notes the declarations of these that have names of operations (profile).
pub fn keep_names(names: &[Definition], draft: &mut Draft)
    ensures { draft.new ≡ spec.names_kept names.now draft.old }
{
    for name in names {
        keep_name(name, draft);
    }
}
