//! Which record types this version lays out (RM 3.8, 3.9.1), and the objects of which it declares, copies and assigns to (RM 7.6): found once
//! for the whole table, from the first type to the last.

ghost use Rattle.std.specs.Prelude.{◌≡◌, List, IfOk, option_copied, slice_get};
ghost use Rattle.ctl_layout.specs.Layout as spec;
ghost use Rattle.ctl_layout.specs.Records as types;

use crate::right::constant;
use ctl_program::expression::Expr;
use ctl_program::types::{Component, RecordType, Root, Ty};
use std::alloc::{AllocError, Global};

/// What a record type consists of.
#[derive(Clone, Copy)]
pub enum Form {
    /// Its components are such, and its objects are declared.
    Declared,
    /// Its components, inherited ones too, are scalar, or of types whose objects are declared.
    Laid,
    Other,
}

/// Record types, each with its form.
#[derive(Drop)]
pub struct Table<'a> {
    pub records: &'a [RecordType],
    pub forms: Vec<Form>,
    ghost formed: { forms.items ≡ types.forms_of records.now },
}

/// Tells whether variables of a type are run.
pub(crate) fn is_run_type(ty: Ty) -> bool
    ensures { result ≡ types.is_run_type ty }
{
    matches!(
        ty,
        Ty::Integer | Ty::Count | Ty::Boolean | Ty::Address | Ty::Access(_)
    )
}

/// Tells whether a type is a number type, to which conversions are run (RM 4.6).
pub(crate) fn is_number(ty: Ty) -> bool
    ensures { result ≡ types.is_number ty }
{
    matches!(ty, Ty::Integer | Ty::Count)
}

/// Answers the default expression that a component takes the value of, where variables of its type are run (RM 3.8).
pub fn run_default(component: &Component) -> Option<&Expr>
    ensures { option_copied result ≡ types.run_default component.now }
{
    match &component.default {
        Some(default) if is_run_type(component.ty) => Some(default),
        _ => None,
    }
}

/// Answers that expression, if it is no constant: it is evaluated.
pub fn computed(component: &Component) -> Option<&Expr>
    ensures { option_copied result ≡ spec.computed component.now }
{
    match run_default(component) {
        Some(default) if constant(default).is_none() => Some(default),
        _ => None,
    }
}

/// Tells whether objects of a type with this root are run: of one that descends from Controlled, Limited_Controlled or Block_Pool (RM 7.6, 13.11),
/// or that is not tagged and has no Initialize and no Finalize.
fn is_root_run(entry: &RecordType) -> bool
    ensures { result ≡ types.is_root_run entry.now.root entry.now.operations }
{
    match entry.root {
        Root::Controlled | Root::BlockPool => true,
        Root::Untagged => {
            entry.operations.initialize.is_none() && entry.operations.finalize.is_none()
        }
        Root::MarkPool => false,
    }
}

/// Tells whether the components of the type of this number are run.
fn is_laid_form(forms: &[Form], number: usize) -> bool
    ensures { result ≡ types.is_laid_form (slice_get forms.now number) }
{
    match forms.get(number) {
        Some(form) => !matches!(form, Form::Other),
        None => false,
    }
}

/// Tells whether the objects of the type of this number are run.
fn is_plain_form(forms: &[Form], number: usize) -> bool
    ensures { result ≡ types.is_plain_form (slice_get forms.now number) }
{
    match forms.get(number) {
        Some(form) => matches!(form, Form::Declared),
        None => false,
    }
}

/// Tells whether a component of this type and with this default is run: of a scalar type, or of a record type that is declared, without a
/// default.
fn is_part(forms: &[Form], ty: Ty, default: &Option<Expr>) -> bool
    ensures { result ≡ types.is_part forms.now ty default.now }
{
    match ty {
        Ty::Record(number) => is_plain_form(forms, number) && default.is_none(),
        _ => is_run_type(ty),
    }
}

/// Tells whether components are run.
fn are_parts(forms: &[Form], components: &[Component]) -> bool
    ensures { result ≡ types.are_parts forms.now components.now }
{
    for component in components {
        if !is_part(forms, component.ty, &component.default) {
            return false;
        }
    }
    true
}

/// Tells whether the components of a type are run, where the types that stand before have these forms.
fn is_laid_by(forms: &[Form], entry: &RecordType) -> bool
    ensures { result ≡ types.is_laid_by forms.now entry.now }
{
    let is_parent_run = match entry.parent {
        Some(number) => is_laid_form(forms, number),
        None => true,
    };
    is_parent_run && are_parts(forms, entry.own.as_slice())
}

/// Tells whether the objects of a type are run, where the types that stand before have these forms.
fn is_plain_by(forms: &[Form], entry: &RecordType) -> bool
    ensures { result ≡ types.is_plain_by forms.now entry.now }
{
    let is_parent_run = match entry.parent {
        Some(number) => is_plain_form(forms, number),
        None => true,
    };
    is_root_run(entry) && is_parent_run && are_parts(forms, entry.own.as_slice())
}

/// Gives the form of a type, where the types that stand before have these.
fn form_by(forms: &[Form], entry: &RecordType) -> Form
    ensures { result ≡ types.form_by forms.now entry.now }
{
    if is_plain_by(forms, entry) {
        Form::Declared
    } else if is_laid_by(forms, entry) {
        Form::Laid
    } else {
        Form::Other
    }
}

/// Gives the forms of types.
fn forms_of(alloc: Global, records: &[RecordType]) -> Result<Vec<Form>, AllocError>
    ensures { IfOk result (λ forms. forms.items ≡ types.forms_of records.now) }
{
    let mut forms = Vec::new(alloc);
    for entry in records {
        let form = form_by(forms.as_slice(), entry);
        forms.push(form)?;
    }
    Ok(forms)
}

impl<'a> Table<'a> {
    /// Finds the form of each type.
    pub fn new(alloc: Global, records: &'a [RecordType]) -> Result<Table<'a>, AllocError>
        ensures { IfOk result (λ table. table.records.now ≡ records.now) }
    {
        let forms = forms_of(alloc, records)?;
        Ok(Table { records, forms })
    }

    /// Tells whether the record type of this number is laid out: its components, inherited ones too, are scalar, or of types whose objects
    /// are declared.
    pub fn is_laid(&self, number: usize) -> bool
        ensures { result ≡ types.is_laid self.now.records.now number }
    {
        is_laid_form(self.forms.as_slice(), number)
    }

    /// Tells whether objects of the record type of this number are declared.
    pub fn is_plain(&self, number: usize) -> bool
        ensures { result ≡ types.is_plain self.now.records.now number }
    {
        is_plain_form(self.forms.as_slice(), number)
    }

    /// Tells whether objects of the record type of this number are declared as block pools (RM 13.11).
    pub fn is_pool(&self, number: usize) -> bool
        ensures { result ≡ types.is_pool self.now.records.now number }
    {
        match self.records.get(number) {
            Some(entry) => self.is_plain(number) && matches!(entry.root, Root::BlockPool),
            None => false,
        }
    }
}
