//! The instructions of calls, and of their actuals (RM 6.4).

ghost use Rattle.std.specs.Prelude.{◌≡◌, ◌+◌, ◌<◌, ◌^◌, ◌∷◌, [], drop, length, map, OnOk, None};
ghost use Rattle.ctl_program.specs.declared.types.Ty.TheVariants.{Record};
ghost use Rattle.ctl_code.specs.Valid.{over_numbers};
ghost use Rattle.ctl_emitter.specs.Emitted.{lined, passed, reserving, standing, stated, taking_actuals};
ghost use Rattle.ctl_layout.specs.Values as values;
ghost use Rattle.ctl_layout.specs.Layout as spec;

use crate::emit::Emitter;
use ctl_code::code::{Cell, Instr};
use ctl_code::kinds::Kind;
use ctl_layout::copies::{
    ANY_TYPE, Back, FIRST_POSITION, back_of, count_numbers, goes_back, numbers_of,
};
use ctl_layout::right::{Reached, reached_by};
use ctl_layout::typing::is_called_of;
use ctl_program::expression::{Actual, Expr, Name};
use ctl_program::operators::CopyStart;
use ctl_program::types::{Ty, Var};
use std::alloc::AllocError;

impl Emitter {
    /// Emits a call of a procedure: its actuals, the instruction that takes them all, and its copies (RM 6.4, 6.4.1).
    pub fn call(&mut self, procedure: usize, actuals: &[Actual]) -> Result<(), AllocError>
        ensures { OnOk result (self.new ≡ stated (spec.call procedure (map values.actual_code actuals.now)) None self.old) }
    {
        let count = actuals.len();
        let copies = count_copies(actuals);
        self.over_reserved(
            actuals,
            Instr::Call {
                procedure,
                actuals: count,
                copies,
            },
        )?;
        self.copies_behind(actuals)
    }

    /// Emits actuals over the numbers that keep where their copies go back to, and an instruction that takes them all (RM 6.4.1).
    fn over_reserved(&mut self, actuals: &[Actual], instr: Instr) -> Result<(), AllocError>
        ensures { OnOk result (self.new ≡ lined (reserving instr (map values.actual_code actuals.now)) self.old) }
    {
        let numbers = count_numbers(actuals);
        self.reserve(numbers)?;
        self.enter_numbers(numbers)?;
        self.over_actuals(actuals, instr)?;
        self.leave_operands(numbers);
        Ok(())
    }

    /// Emits what puts so many zeros below actuals, if any (RM 6.4.1).
    fn reserve(&mut self, numbers: usize) -> Result<(), AllocError>
        ensures { OnOk result (self.new ≡ lined (values.reserved_code numbers) self.old) }
    {
        if numbers == 0 {
            return Ok(());
        }
        let at = self.height();
        self.put(Instr::Reserve { count: numbers, at })
    }

    /// Emits a call of a function, whose value of this type goes into a cell (RM 6.4).
    #[cycle(expressions)]
    pub(crate) fn function_call(
        &mut self,
        function: usize,
        actuals: &[Actual],
        to: Cell,
        ty: Ty,
    ) -> Result<(), AllocError>
        ensures { OnOk result (self.new ≡ lined ((values.function_call function (map values.actual_code actuals.now) ty).code to ty) self.old) }
    {
        let (count, at) = (actuals.len(), self.height());
        self.over_actuals(
            actuals,
            Instr::Evaluate {
                function,
                actuals: count,
                ty,
                at,
            },
        )?;
        self.moved_to(to, ty)
    }

    /// Emits a call of a function that gives a record of this type, whose value is a new operand (RM 6.4).
    #[cycle(expressions)]
    pub(crate) fn record_call(
        &mut self,
        function: usize,
        actuals: &[Actual],
        record: usize,
    ) -> Result<(), AllocError>
        ensures { OnOk result (self.new ≡ lined (values.record_call_code function (map values.actual_code actuals.now) «record») self.old) }
    {
        let (count, at) = (actuals.len(), self.height());
        self.over_actuals(
            actuals,
            Instr::EvaluateRecord {
                function,
                actuals: count,
                record,
                at,
            },
        )
    }

    /// Emits actuals, from left to right, and an instruction that takes them all.
    #[cycle(expressions)]
    fn over_actuals(&mut self, actuals: &[Actual], instr: Instr) -> Result<(), AllocError>
        ensures { OnOk result (self.new ≡ lined (taking_actuals instr (map values.actual_code actuals.now)) self.old) }
    {
        self.actuals(actuals)?;
        self.put(instr)?;
        self.leave_actuals(actuals);
        Ok(())
    }

    /// Emits actuals, each in turn.
    #[cycle(expressions)]
    fn actuals(&mut self, actuals: &[Actual]) -> Result<(), AllocError>
        ensures { OnOk result (self.new ≡ passed 0 (map values.actual_code actuals.now) self.old) }
    {
        let mut over = 0;
        for actual in actuals {
            self.actual(actual, over)?;
            over += 1 + numbers_of(actual);
        }
        Ok(())
    }

    /// Emits an actual, which is a new operand, where so many stand over the numbers that are to keep where its copy goes back to
    /// (RM 6.4.1).
    #[cycle(expressions)]
    fn actual(&mut self, actual: &Actual, over: usize) -> Result<(), AllocError>
        requires { over + 3 < 2 ^ 64 }
        ensures { OnOk result (self.new ≡ passed over (values.actual_code actual.now ∷ []) self.old) }
    {
        match actual {
            Actual::ByValue(value, ty) => {
                self.value_actual(value, *ty)?;
                self.enter(Kind::Operand(*ty))
            }
            Actual::Part(name, ty) => {
                self.reference(name, *ty)?;
                self.enter(Kind::Operand(*ty))
            }
            Actual::Copied(name, ty, begins) => {
                self.copied_actual(name, *ty, *begins, over)?;
                self.enter(Kind::Operand(*ty))
            }
        }
    }

    /// Emits a value: of a scalar type, or that of a record, which a function gives (RM 6.4.1).
    #[cycle(expressions)]
    fn value_actual(&mut self, value: &Expr, ty: Ty) -> Result<(), AllocError>
        ensures { OnOk result (self.new ≡ lined ((values.by_value (values.value_code value.now) ty).code 0) self.old) }
    {
        match ty {
            Ty::Record(record) => self.record_actual(value, record),
            Ty::Integer | Ty::Count | Ty::Boolean | Ty::Address | Ty::Handle | Ty::Access(_) => {
                self.expression(self.new_operand(), ty, value)
            }
        }
    }

    /// Emits the value of a record of this type, which a function gives (RM 6.4).
    #[cycle(expressions)]
    pub(crate) fn record_actual(&mut self, value: &Expr, record: usize) -> Result<(), AllocError>
        ensures { OnOk result (self.new ≡ lined ((values.by_reference (values.result_of (values.copied «record» (values.value_code value.now))) (Record «record»)).code 0) self.old) }
    {
        if is_called_of(record, value) {
            self.start(value)
        } else {
            self.put(Instr::Missing)
        }
    }

    /// Emits what finds the part that a name denotes.
    #[cycle(expressions)]
    fn reference(&mut self, name: &Name, ty: Ty) -> Result<(), AllocError>
        ensures { OnOk result (self.new ≡ lined ((values.by_reference (values.reached_by name.now) ty).code 0) self.old) }
    {
        match (reached_by(name), ty) {
            (Some(part), Ty::Record(record)) => self.part(name, part, record),
            _ => self.put(Instr::Missing),
        }
    }

    /// Emits what a copy of a variable begins with (RM 6.4.1).
    fn begin_copy(&mut self, variable: Var, ty: Ty, begins: CopyStart) -> Result<(), AllocError>
        ensures { OnOk result (self.new ≡ lined (values.begins_code begins variable ty) self.old) }
    {
        let to = self.new_operand();
        match begins {
            CopyStart::Actual => self.read_variable(variable, to, ty),
            CopyStart::Beginning => self.put(Instr::Set { value: 0, ty, to }),
        }
    }

    /// Emits that the part on top, which stands over what stands there, is kept in two numbers under so many operands, and what the copy of
    /// its component begins with (RM 6.4.1).
    fn keep(
        &mut self,
        record: usize,
        position: usize,
        begins: CopyStart,
        ty: Ty,
        over: usize,
    ) -> Result<(), AllocError>
        requires { over + 3 < 2 ^ 64 }
        ensures { OnOk result (self.new ≡ lined (values.keeping_code «record» position begins ty over) self.old) }
    {
        let at = self.height();
        self.over_operand(
            Ty::Record(record),
            Instr::KeepPart {
                record,
                position,
                begins,
                ty,
                depth: over + 3,
                kept: at.saturating_sub(over + 2),
                at,
            },
        )
    }

    /// Emits a copy of what a name denotes.
    #[cycle(expressions)]
    fn copied_actual(
        &mut self,
        name: &Name,
        ty: Ty,
        begins: CopyStart,
        over: usize,
    ) -> Result<(), AllocError>
        requires { over + 3 < 2 ^ 64 }
        ensures { OnOk result (self.new ≡ lined ((values.by_copy (values.reached_by name.now) ty begins).code over) self.old) }
    {
        match reached_by(name) {
            Some(Reached::Variable(variable)) => self.begin_copy(variable, ty, begins),
            Some(
                Reached::Part {
                    steps,
                    record,
                    position,
                },
            ) => {
                self.located(name, steps, record)?;
                self.keep(record, position, begins, ty, over)
            }
            Some(Reached::Object { steps }) => {
                self.located(name, steps, ANY_TYPE)?;
                self.keep(ANY_TYPE, FIRST_POSITION, begins, ty, over)
            }
            None => self.put(Instr::Missing),
        }
    }

    /// Takes so many operands off.
    pub fn leave_operands(&mut self, count: usize)
        ensures { self.new ≡ standing (drop count self.old.notes.standing) self.old }
    {
        for _ in 0..count {
            self.leave();
        }
    }

    /// Takes actuals off.
    fn leave_actuals(&mut self, actuals: &[Actual])
        ensures { self.new ≡ standing (drop (length actuals.now) self.old.notes.standing) self.old }
    {
        self.leave_operands(actuals.len())
    }

    /// Enters so many numbers, which stand on top from now on.
    pub(crate) fn enter_numbers(&mut self, count: usize) -> Result<(), AllocError>
        ensures { OnOk result (self.new ≡ standing (over_numbers count self.old.notes.standing) self.old) }
    {
        for _ in 0..count {
            self.enter(Kind::Operand(Ty::Integer))?;
        }
        Ok(())
    }

    /// Emits that the copy of an actual goes back, if it does; it is the last of so many operands, in this cell, and what keeps a part stands
    /// under `below` of them (RM 6.4.1).
    fn copy_back(
        &mut self,
        actual: &Actual,
        depth: usize,
        at: usize,
        below: usize,
    ) -> Result<(), AllocError>
        requires { below + 2 < 2 ^ 64 }
        ensures { OnOk result (self.new ≡ lined (values.back_to (values.actual_code actual.now).back depth at below) self.old) }
    {
        match back_of(actual) {
            Some(Back::Variable(variable)) => {
                let (out, slot) = (self.out_to(variable), variable.slot);
                self.put(Instr::CopyBack {
                    depth,
                    at,
                    out,
                    slot,
                })
            }
            Some(Back::Part { record, position }) => {
                let below = below + 2;
                let kept = self.height().saturating_sub(below);
                self.put(Instr::CopyBackPart {
                    depth,
                    at,
                    below,
                    kept,
                    record,
                    position,
                })
            }
            None => Ok(()),
        }
    }

    /// Emits that copies go back, from left to right, the first of these actuals being in this cell (RM 6.4.1).
    fn copies_back(&mut self, actuals: &[Actual], at: usize) -> Result<(), AllocError>
        requires { at + length actuals.now < 2 ^ 64 }
        ensures { OnOk result (self.new ≡ lined (values.backs_code (map values.actual_code actuals.now) at (length actuals.now)) self.old) }
    {
        let mut at = at;
        let mut depth = actuals.len();
        let mut below = actuals.len();
        for one in actuals {
            self.copy_back(one, depth, at, below)?;
            at += 1;
            depth = depth.saturating_sub(1);
            below += numbers_of(one);
        }
        Ok(())
    }

    /// Emits that copies go back after a call, which left what its formals held as numbers over those that keep parts, and that all of them are
    /// dropped.
    fn all_copies_back(&mut self, actuals: &[Actual]) -> Result<(), AllocError>
        ensures { OnOk result (self.new ≡ lined (values.copied_back (map values.actual_code actuals.now) (values.numbers_in (map values.actual_code actuals.now) + length actuals.now)) self.old) }
    {
        let copies = actuals.len();
        let numbers = count_numbers(actuals) + copies;
        self.enter_numbers(numbers)?;
        let at = self.height().saturating_sub(copies);
        self.copies_back(actuals, at)?;
        self.put(Instr::Discard(numbers))?;
        self.leave_operands(numbers);
        Ok(())
    }

    /// Emits the copies of a call, if one goes back.
    fn copies_behind(&mut self, actuals: &[Actual]) -> Result<(), AllocError>
        ensures { OnOk result (self.new ≡ lined (values.copies_code (map values.actual_code actuals.now)) self.old) }
    {
        if goes_back(actuals) {
            self.all_copies_back(actuals)
        } else {
            Ok(())
        }
    }
}

/// Counts the formals that give back what they hold: all of them, where a copy goes back.
fn count_copies(actuals: &[Actual]) -> usize
    ensures { result ≡ values.copies_of (map values.actual_code actuals.now) }
{
    if goes_back(actuals) { actuals.len() } else { 0 }
}
