//! The instructions that find parts of objects, by the selectors and dereferences of their names (RM 4.1, 4.1.3).

ghost use Rattle.std.specs.Prelude.{◌≡◌, ◌∷◌, [], map, OnOk, Some};
ghost use Rattle.ctl_program.specs.declared.types.Ty.TheVariants.{Record};
ghost use Rattle.ctl_code.specs.declared.code.Instr.TheVariants.{Dereference};
ghost use Rattle.ctl_code.specs.Windows.{height};
ghost use Rattle.ctl_layout.specs.Parts as spec;
ghost use Rattle.ctl_layout.specs.Parts.{OfVariable, seen};
ghost use Rattle.ctl_layout.specs.Values.{actual_code, begun_by, by_reference, denoted, function_call, given, value_code};
ghost use Rattle.ctl_emitter.specs.Emitted.{lined};

use crate::emit::Emitter;
use ctl_code::code::{Cell, Instr};
use ctl_layout::copies::{ANY_TYPE, FIRST_POSITION};
use ctl_layout::right::{Denoted, Reached, is_dereferenced};
use ctl_program::expression::{Actual, Expr, Name, Step};
use ctl_program::types::{Ty, Var};
use std::alloc::AllocError;

/// The type that an access value stands as which is dereferenced: whatever it is, its value is a number.
const ACCESS_VALUE: Ty = Ty::Integer;

impl Emitter {
    /// Emits the value that a name begins with, if it begins with one, as a new operand (RM 4.1).
    #[cycle(expressions)]
    pub(crate) fn begin(&mut self, name: &Name) -> Result<(), AllocError>
        ensures { OnOk result (self.new ≡ lined (spec.begun_code (begun_by name.now)) self.old) }
    {
        match name {
            Name::Variable(..) => Ok(()),
            Name::Given(value, _) => self.start(value.get()),
        }
    }

    /// Emits a value that a name begins with, as a new operand: that of a record, which a function gives, or an access value (RM 4.1, 6.4).
    #[cycle(expressions)]
    pub(crate) fn start(&mut self, value: &Expr) -> Result<(), AllocError>
        ensures { OnOk result (self.new ≡ lined (spec.begun_code (given (value_code value.now))) self.old) }
    {
        match value {
            Expr::Call(function, actuals, ty) => { self.called(*function, actuals.as_slice(), *ty) }
            _ => self.expression(self.new_operand(), ACCESS_VALUE, value),
        }
    }

    /// Emits the call of a function of this type that a name begins with, as a new operand (RM 6.4).
    #[cycle(expressions)]
    fn called(&mut self, function: usize, actuals: &[Actual], ty: Ty) -> Result<(), AllocError>
        ensures { OnOk result (self.new ≡ lined (spec.begun_code (given (function_call function (map actual_code actuals.now) ty))) self.old) }
    {
        match ty {
            Ty::Record(record) => self.record_call(function, actuals, record),
            Ty::Integer | Ty::Count | Ty::Boolean | Ty::Address | Ty::Handle | Ty::Access(_) => {
                self.function_call(function, actuals, self.new_operand(), ACCESS_VALUE)
            }
        }
    }

    /// Emits what finds the object in a variable, of this record type.
    pub fn locate(&mut self, of: Var, record: usize) -> Result<(), AllocError>
        ensures { OnOk result (self.new ≡ lined (spec.located_code (OfVariable of) [] «record») self.old) }
    {
        let at = self.height();
        self.put(Instr::Locate {
            variable: of,
            record,
            at,
        })
    }

    /// Emits what finds the object in a variable, of this record type, or reads its value, where a dereference follows (RM 4.1).
    fn find(&mut self, of: Var, steps: &[Step], record: usize) -> Result<(), AllocError>
        ensures { OnOk result (self.new ≡ lined (λ s. (spec.found of steps.now «record» s, s) ∷ []) self.old) }
    {
        if is_dereferenced(steps) {
            self.read_variable(of, self.new_operand(), ACCESS_VALUE)
        } else {
            self.locate(of, first_type(steps, record))
        }
    }

    /// Gives what puts a component in place of the part that stands over what stands there, or its value, where a dereference follows.
    fn selected(&self, of: usize, position: usize, steps: &[Step], record: usize) -> Instr
        ensures { result ≡ spec.selected of position steps.now «record» self.now.notes.standing }
    {
        if is_dereferenced(steps) {
            Instr::TakePart {
                record: of,
                position,
                ty: ACCESS_VALUE,
                to: self.new_operand(),
            }
        } else {
            Instr::Select {
                record: of,
                position,
                part: first_type(steps, record),
            }
        }
    }

    /// Gives what puts the object that an access value designates in its place, over what stands there (RM 4.1).
    fn dereference(&self, steps: &[Step], record: usize) -> Instr
        ensures { result ≡ Dereference (spec.first_type steps.now «record») (height self.now.notes.standing) }
    {
        Instr::Dereference {
            record: first_type(steps, record),
            at: self.height(),
        }
    }

    /// Emits what takes the value of the object on top, which stands over what stands there, where a dereference follows (RM 4.1).
    fn take_whole(&mut self, steps: &[Step]) -> Result<(), AllocError>
        ensures { OnOk result (self.new ≡ lined (spec.whole_code steps.now) self.old) }
    {
        if !is_dereferenced(steps) {
            return Ok(());
        }
        let to = self.new_operand();
        self.over_operand(
            Ty::Record(ANY_TYPE),
            Instr::TakePart {
                record: ANY_TYPE,
                position: FIRST_POSITION,
                ty: ACCESS_VALUE,
                to,
            },
        )
    }

    /// Emits what leads from the part or the value on top, which stands over what stands there, to the part behind these steps, of this record
    /// type.
    fn selects(&mut self, steps: &[Step], record: usize) -> Result<(), AllocError>
        ensures { OnOk result (self.new ≡ lined (spec.selects_code steps.now «record») self.old) }
    {
        for index in 0..steps.len() {
            let behind = &steps[index + 1..];
            match steps[index] {
                Step::Component(of, position) => {
                    let selected = self.selected(of, position, behind, record);
                    self.over_operand(Ty::Record(of), selected)?;
                }
                Step::Dereference => {
                    let dereference = self.dereference(behind, record);
                    self.over_operand(ACCESS_VALUE, dereference)?;
                    self.take_whole(behind)?;
                }
                Step::Narrow(_) => {
                    return self.over_operand(Ty::Record(record), Instr::Missing);
                }
            }
        }
        Ok(())
    }

    /// Emits what finds the object in a variable or reads its value, where a name begins with one.
    #[tactic(auto, using(ctl_layout::proofs::Layers::begun_variable, ctl_layout::proofs::Layers::begun_given))]
    fn find_first(&mut self, of: &Name, steps: &[Step], record: usize) -> Result<(), AllocError>
        ensures { OnOk result (self.new ≡ lined (spec.first_code (begun_by of.now) steps.now «record») self.old) }
    {
        match of {
            Name::Variable(variable, _) => self.find(*variable, steps, record),
            Name::Given(..) => Ok(()),
        }
    }

    /// Emits what finds the part behind these steps from what a name begins with, of this record type; a value that it begins with stands
    /// there.
    fn behind_start(&mut self, of: &Name, steps: &[Step], record: usize) -> Result<(), AllocError>
        ensures { OnOk result (self.new ≡ lined (spec.behind_code (begun_by of.now) steps.now «record») self.old) }
    {
        self.find_first(of, steps, record)?;
        self.selects(steps, record)
    }

    /// Emits what finds the part behind these steps from what a name begins with, of this record type.
    #[cycle(expressions)]
    pub fn located(&mut self, of: &Name, steps: &[Step], record: usize) -> Result<(), AllocError>
        ensures { OnOk result (self.new ≡ lined (spec.located_code (begun_by of.now) steps.now «record») self.old) }
    {
        self.begin(of)?;
        self.behind_start(of, steps, record)
    }

    /// Emits what finds a component at a position of the part behind these steps, of this record type; a value that the name begins with
    /// stands there.
    fn select(
        &mut self,
        of: &Name,
        steps: &[Step],
        whole: usize,
        position: usize,
        record: usize,
    ) -> Result<(), AllocError>
        ensures { OnOk result (self.new ≡ lined (spec.rest_code (spec.Part (begun_by of.now) steps.now whole position) «record») self.old) }
    {
        self.behind_start(of, steps, whole)?;
        self.over_operand(
            Ty::Record(whole),
            Instr::Select {
                record: whole,
                position,
                part: record,
            },
        )
    }

    /// Emits what finds the part that a name denotes, of this record type.
    #[cycle(expressions)]
    pub(crate) fn part(
        &mut self,
        of: &Name,
        part: Reached<'_>,
        record: usize,
    ) -> Result<(), AllocError>
        ensures { OnOk result (self.new ≡ lined ((by_reference (seen (begun_by of.now) (Some part.entry)) (Record «record»)).code 0) self.old) }
    {
        match part {
            Reached::Variable(variable) => self.locate(variable, record),
            Reached::Part {
                steps,
                record: whole,
                position,
            } => {
                self.begin(of)?;
                self.select(of, steps, whole, position, record)
            }
            Reached::Object { steps } => {
                self.begin(of)?;
                self.behind_start(of, steps, record)
            }
        }
    }

    /// Emits what finds the part of this record type that a name denotes, or the value of a call (RM 6.4).
    pub fn source(&mut self, part: Denoted<'_>, record: usize) -> Result<(), AllocError>
        ensures { OnOk result (self.new ≡ lined ((by_reference (denoted (Some part.entry)) (Record «record»)).code 0) self.old) }
    {
        match part {
            Denoted::Named { name, reached } => self.part(name, reached, record),
            Denoted::Called(call) => self.start(call),
        }
    }

    /// Emits the value of a component of the part that these steps lead to, which goes into a cell.
    fn taken(
        &mut self,
        of: &Name,
        steps: &[Step],
        record: usize,
        position: usize,
        ty: Ty,
        to: Cell,
    ) -> Result<(), AllocError>
        ensures { OnOk result (self.new ≡ lined (spec.rest_taken (begun_by of.now) steps.now «record» position ty to) self.old) }
    {
        self.behind_start(of, steps, record)?;
        self.over_operand(
            Ty::Record(record),
            Instr::TakePart {
                record,
                position,
                ty,
                to,
            },
        )
    }

    /// Emits the value of a component, which goes into a cell: of the object in a variable, or of another part; a value that the name begins
    /// with stands there.
    pub(crate) fn component(
        &mut self,
        of: &Name,
        steps: &[Step],
        record: usize,
        position: usize,
        ty: Ty,
        to: Cell,
    ) -> Result<(), AllocError>
        ensures { OnOk result (self.new ≡ lined (spec.rest_component (begun_by of.now) steps.now «record» position ty to) self.old) }
    {
        match of {
            Name::Variable(variable, _) => match steps {
                [] => self.put(Instr::FetchPart {
                    variable: *variable,
                    record,
                    position,
                    ty,
                    to,
                }),
                [..] => self.taken(of, steps, record, position, ty, to),
            },
            Name::Given(..) => self.taken(of, steps, record, position, ty, to),
        }
    }
}

/// Gives the record type of what stands before these steps, or this one, of what they lead to: of no account, where they begin with a
/// dereference.
fn first_type(steps: &[Step], record: usize) -> usize
    ensures { result ≡ spec.first_type steps.now «record» }
{
    match steps {
        [] => record,
        [Step::Component(first, _), ..] => *first,
        [Step::Dereference, ..] => ANY_TYPE,
        [Step::Narrow(_), ..] => record,
    }
}
