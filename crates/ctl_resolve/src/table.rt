//! The declarations in view, found by key in constant time (RM 8.2, 8.3).

ghost use Rattle.std.specs.Prelude.{◌≡◌, ◌++◌, ◌∷◌, [], ◌-◌, OnOk, length, take, slice_get};
ghost use Rattle.ctl_resolve.specs.Places.{last_place};
ghost use Rattle.ctl_resolve.specs.Table as spec;

use crate::view::{Declaration, Known, Role, Sought, Stage};
use ctl_syntax::denoted::{Denoted, OperationName};
use ctl_tree::span::Span;
use ctl_tree::text::Text;
use indexmap::IndexMap;
use std::alloc::{AllocError, Global};
use std::marker::Model;

/// The declarations in view, the innermost last.
#[derive(Drop)]
pub struct Table {
    alloc: Global,
    declarations: Vec<Declaration>,
    /// for each declaration the place, from 1, of the one of its key that stands before it, or 0
    hides: Vec<usize>,
    /// for each key that was met the place, from 1, of its innermost declaration, or 0
    newest: IndexMap<Vec<u8>, usize>,
}

impl Model for Table {
    ghost use Rattle.std.specs.Prelude.{List};
    ghost use Rattle.ctl_resolve.specs.declared.view.Declaration.{Declaration};
    ghost use Rattle.ctl_resolve.specs.Places.{IsIndexed, places_of};

    ghost Value = { List Declaration };

    ghost view = { λ t. t.declarations.items };

    ghost invariant = { λ t. IsIndexed t.declarations.items t.hides.items (places_of t.newest) };
}

/// Tells whether both are one operation.
fn is_same_operation(a: OperationName, b: OperationName) -> bool
    ensures { result ≡ spec.is_same_operation a b }
{
    match (a, b) {
        (OperationName::Initialize, OperationName::Initialize) => true,
        (OperationName::Adjust, OperationName::Adjust) => true,
        (OperationName::Finalize, OperationName::Finalize) => true,
        (OperationName::Allocate, OperationName::Allocate) => true,
        (OperationName::Deallocate, OperationName::Deallocate) => true,
        _ => false,
    }
}

/// Tells whether two marks of one last word denote one thing, or one of them denotes nothing.
fn is_alike(a: Denoted, b: Denoted) -> bool
    ensures { result ≡ spec.is_alike a b }
{
    match (a, b) {
        (Denoted::Declared(n, _), Denoted::Declared(m, _)) => n == m,
        (Denoted::Library(_), Denoted::Library(_)) => true,
        (Denoted::Operation(_), Denoted::Operation(_)) => true,
        (Denoted::Unknown, _) | (_, Denoted::Unknown) => true,
        _ => false,
    }
}

/// Tells whether a declaration is known by its name.
fn is_direct(role: Role) -> bool
    ensures { result ≡ spec.is_direct role }
{
    match role {
        Role::Direct => true,
        Role::Override(_, _) | Role::Repeated => false,
    }
}

/// Tells whether a declaration overrides an operation, for whatever type.
fn overrides(operation: OperationName, role: Role) -> bool
    ensures { result ≡ spec.overrides operation role }
{
    match role {
        Role::Direct | Role::Repeated => false,
        Role::Override(other, _) => is_same_operation(operation, other),
    }
}

/// Tells whether a declaration overrides an operation for what a mark denotes.
fn overrides_for(operation: OperationName, denoted: Denoted, role: Role) -> bool
    ensures { result ≡ spec.overrides_for operation denoted role }
{
    match role {
        Role::Direct | Role::Repeated => false,
        Role::Override(other, of) => is_same_operation(operation, other) && is_alike(denoted, of),
    }
}

/// Tells whether a declaration of the key is sought.
fn passes(sought: Sought, declaration: &Declaration) -> bool
    ensures { result ≡ spec.passes sought declaration.now }
{
    let role = declaration.role;
    let stage = declaration.stage;
    match sought {
        Sought::Direct => is_direct(role),
        Sought::Bodiless => is_direct(role) && stage == Stage::Bodiless,
        Sought::Incomplete => is_direct(role) && stage == Stage::Incomplete,
        Sought::Override(operation, denoted) => overrides_for(operation, denoted, role),
        Sought::BodilessOverride(operation, denoted) => {
            overrides_for(operation, denoted, role) && stage == Stage::Bodiless
        }
    }
}

/// Answers what is known of a declaration of this number.
fn known_at(number: usize, declaration: &Declaration) -> Known
    ensures { result ≡ spec.known_at number declaration.now }
{
    Known {
        number,
        level: declaration.level,
        stage: declaration.stage,
    }
}

/// Tells whether one of these overrides an operation, for whatever type.
pub fn is_overridden(operation: OperationName, declarations: &[Declaration]) -> bool
    ensures { result ≡ spec.is_overridden operation declarations.now }
{
    declarations
        .iter()
        .any(|declaration| overrides(operation, declaration.role))
}

impl Table {
    /// Makes a table with nothing in view.
    pub fn new(alloc: Global) -> Table
        ensures { result ≡ [] }
    {
        Table {
            alloc,
            declarations: Vec::new(alloc),
            hides: Vec::new(alloc),
            newest: IndexMap::new(alloc),
        }
    }

    /// Counts the declarations in view.
    pub fn count(&self) -> usize
        ensures { result ≡ length self.now }
    {
        self.declarations.len()
    }

    /// Answers the declarations in view.
    pub fn declarations(&self) -> &[Declaration]
        ensures { result.now ≡ self.now }
    {
        self.declarations.as_slice()
    }

    /// Finds the innermost declaration of a key that is sought.
    pub fn find(&self, sought: Sought, key: &[u8]) -> Option<Known>
        ensures { result ≡ spec.find sought key.now self.now }
    {
        let mut place = self.newest_place(key);
        'chain: while place > 0 {
            let declaration = self.declarations.get(place - 1)?;
            if passes(sought, declaration) {
                return Some(known_at(place - 1, declaration));
            }
            place = *self.hides.get(place - 1)?;
        }
        None
    }

    /// Answers the place, from 1, of the innermost declaration of a key, or 0.
    fn newest_place(&self, key: &[u8]) -> usize
        ensures { result ≡ last_place self.now key.now }
    {
        match self.newest.get(key) {
            None => 0,
            Some(place) => *place,
        }
    }

    /// Declares one more.
    pub fn push(
        &mut self,
        key: Vec<u8>,
        role: Role,
        stage: Stage,
        level: usize,
        span: Span,
    ) -> Result<(), AllocError>
        ensures { OnOk result (self.new ≡ self.old ++ (record { key = key.items; role = role; stage = stage; level = level; span = span }) ∷ []) }
    {
        let text = Text::from_slice(self.alloc, key.as_slice())?;
        self.declarations.reserve(1)?;
        self.hides.reserve(1)?;
        let place = self.declarations.len() + 1;
        let hidden = self.newest.insert(key, place)?;
        self.declarations.push_reserved(Declaration {
            key: text,
            role,
            stage,
            level,
            span,
        });
        self.hides.push_reserved(hidden.unwrap_or(0));
        Ok(())
    }

    /// Sets how far the declaration of this number has come.
    pub fn set(&mut self, number: usize, stage: Stage)
        ensures { self.new ≡ spec.with_stage_at self.old number stage }
    {
        set_stage(&mut self.declarations, number, stage);
    }

    /// Leaves only so many declarations in view, the outermost.
    pub fn close(&mut self, count: usize)
        ensures { self.new ≡ take count self.old }
    {
        while self.declarations.len() > count {
            self.pop();
        }
    }

    /// Takes the last declaration out of view.
    fn pop(&mut self)
        ensures { self.new ≡ take (length self.old - 1) self.old }
    {
        if let Some(last) = self.declarations.pop() {
            if let Some(hidden) = self.hides.pop() {
                if let Some(place) = self.newest.get_mut(last.key.as_bytes()) {
                    *place = hidden;
                }
            }
        }
    }
}

/// Sets how far the declaration of this number has come.
fn set_stage(declarations: &mut Vec<Declaration>, number: usize, stage: Stage)
    ensures { declarations.new.items ≡ spec.with_stage_at declarations.old.items number stage }
{
    if number < declarations.len() {
        let declaration = &mut declarations[number];
        declaration.stage = stage;
    }
}
