//! The instructions of expressions: each puts its value where it is wanted, and leaves what stands there as it is.

ghost use Rattle.std.specs.Prelude.{◌≡◌, ◌∷◌, [], List, map, OnOk, IfOk, Some, None, length, option_map};
ghost use Rattle.ctl_program.specs.declared.types.Ty.TheVariants.{Record};
ghost use Rattle.ctl_code.specs.declared.kinds.Kind.{Kind};
ghost use Rattle.ctl_code.specs.declared.kinds.Kind.TheVariants as KindOf;
ghost use Rattle.ctl_layout.specs.Parts as parts;
ghost use Rattle.ctl_layout.specs.Around as cells;
ghost use Rattle.ctl_emitter.specs.Emitted.{holding, imaged, kept, lined};
ghost use Rattle.ctl_layout.specs.Values as spec;

use crate::emit::Emitter;
use ctl_code::code::{Cell, Instr, Named, Operator, PoolDiscriminant};
use ctl_code::kinds::Kind;
use ctl_layout::copies::{ANY_TYPE, FIRST_POSITION};
use ctl_layout::right::{Reached, Right, reached_by, right_of};
use ctl_layout::typing::{copied, copied_from, first_type, value_type};
use ctl_program::expression::{Expr, Name, Operand};
use ctl_program::library::BLOCK_POOL;
use ctl_program::operators::{Shortcut, UnaryOp};
use ctl_program::statement::Piece;
use ctl_program::types::{Ty, Var};
use sqlite_items::Boxed;
use std::alloc::AllocError;

/// The position of Block_Size among the discriminants of a block pool; Block_Count has the next one.
const SIZE_POSITION: usize = 0;

impl Emitter {
    /// Emits an expression, whose value of this type goes into a cell.
    #[cycle(expressions)]
    pub fn expression(&mut self, to: Cell, ty: Ty, expression: &Expr) -> Result<(), AllocError>
        ensures { OnOk result (self.new ≡ lined ((spec.value_code expression.now).code to ty) self.old) }
    {
        match expression {
            Expr::Constant(value) => self.constant(*value, to, ty),
            Expr::Read(name, _) => self.read(name, to, ty),
            Expr::Unary(op, own, operand) => self.unary(*op, *own, operand.get(), to, *own),
            Expr::Convert(ty, operand) => {
                let own = value_type(operand.get());
                self.unary(UnaryOp::Plus, own, operand.get(), to, *ty)
            }
            Expr::Chain(first, second, more) => {
                let base = self.new_operand();
                let operands = first_type(first.get(), second.get());
                let left = self.left(right_of(&second.get().right), operands, first.get())?;
                let target = target(more.as_slice().len(), to, base);
                self.operator(left, operands, second.get(), target)?;
                self.release(left);
                self.operators(second.get().ty, more.as_slice(), to)
            }
            Expr::Short(form, first, second, more) => {
                self.expression(self.new_operand(), Ty::Boolean, first.get())?;
                self.other(*form, second.get())?;
                self.others(*form, more.as_slice())?;
                self.moved_to(to, Ty::Boolean)
            }
            Expr::Call(function, actuals, _) => {
                self.function_call(*function, actuals.as_slice(), to, ty)
            }
            Expr::New(access, designated, handle, value) => {
                self.allocator(*access, *designated, value, handle, to, ty)
            }
            Expr::Access(variable) => self.designating(*variable, to, ty),
            Expr::Discriminant(name, position) => self.discriminant(name, *position, to),
            Expr::Subpool(..) => self.put(Instr::Missing),
        }
    }

    /// Emits an operator with one operand, of the one type, whose value of the other goes into a cell (RM 4.5.4, 4.5.6, 4.6).
    #[cycle(expressions)]
    fn unary(
        &mut self,
        op: UnaryOp,
        operand: Ty,
        expression: &Expr,
        to: Cell,
        ty: Ty,
    ) -> Result<(), AllocError>
        ensures { OnOk result (self.new ≡ lined (λ s. spec.unary_code op operand ty to (spec.held (spec.value_code expression.now) operand s)) self.old) }
    {
        let from = self.held(operand, expression)?;
        self.take(
            Instr::Unary {
                op,
                operand,
                ty,
                from,
                to,
            },
            from,
        )
    }

    /// Emits a constant, which goes into a cell.
    fn constant(&mut self, value: u64, to: Cell, ty: Ty) -> Result<(), AllocError>
        ensures { OnOk result (self.new ≡ lined ((spec.constant value).code to ty) self.old) }
    {
        self.put(Instr::Set { value, ty, to })
    }

    /// Emits an access value of this type that designates the object in a variable, which goes into a cell (RM 3.10.2).
    fn designating(&mut self, variable: Var, to: Cell, ty: Ty) -> Result<(), AllocError>
        ensures { OnOk result (self.new ≡ lined ((spec.designating variable).code to ty) self.old) }
    {
        self.put(Instr::Designate { variable, ty, to })
    }

    /// Emits an allocator, whose access value of this type goes into a cell (RM 4.8).
    #[cycle(expressions)]
    fn allocator(
        &mut self,
        access: usize,
        designated: Ty,
        value: &Option<Boxed<Expr>>,
        handle: &Option<Boxed<Expr>>,
        to: Cell,
        ty: Ty,
    ) -> Result<(), AllocError>
        ensures { OnOk result (self.new ≡ lined ((spec.new access designated (option_map spec.value_code handle.now) (option_map spec.value_code value.now)).code to ty) self.old) }
    {
        match (handle, value) {
            (None, None) => self.new_object(access, designated, to, ty),
            (None, Some(value)) => self.new_with(access, designated, value.get(), to, ty),
            (Some(_), _) => self.put(Instr::Missing),
        }
    }

    /// Emits the creation of an object with a value, whose access value goes into a cell (RM 4.8).
    #[cycle(expressions)]
    fn new_with(
        &mut self,
        access: usize,
        designated: Ty,
        value: &Expr,
        to: Cell,
        ty: Ty,
    ) -> Result<(), AllocError>
        ensures { OnOk result (self.new ≡ lined ((spec.new access designated None (Some (spec.value_code value.now))).code to ty) self.old) }
    {
        match designated {
            Ty::Record(record) => self.new_copy(access, record, value, to, ty),
            Ty::Integer | Ty::Count | Ty::Boolean | Ty::Address | Ty::Handle | Ty::Access(_) => {
                self.new_given(access, designated, value, to, ty)
            }
        }
    }

    /// Emits the creation of an object of a record type with the value of a part, which is found first, or of a call; the access value goes
    /// into a cell (RM 4.8). The first instruction does nothing, and the last one is for what an Allocate gave (RM 13.11).
    #[cycle(expressions)]
    fn new_copy(
        &mut self,
        access: usize,
        record: usize,
        value: &Expr,
        to: Cell,
        ty: Ty,
    ) -> Result<(), AllocError>
        ensures { OnOk result (self.new ≡ lined ((spec.new_copy access «record» (spec.copied «record» (spec.value_code value.now))).code to ty) self.old) }
    {
        let Some(_part) = copied(record, value) else {
            return self.put(Instr::Missing);
        };
        let at = self.height();
        self.put(Instr::Skip(0))?;
        self.copied_value(record, value)?;
        self.over_operand(
            Ty::Record(record),
            Instr::NewCopy {
                access,
                record,
                ty,
                at,
            },
        )?;
        self.over_value_and_address(Instr::NewCopyIn { record, ty, at })?;
        self.moved_to(to, ty)
    }

    /// Emits what finds the part of a record type that a value is read from, or the value of a call (RM 3.3.1, 6.4).
    #[cycle(expressions)]
    fn copied_value(&mut self, record: usize, value: &Expr) -> Result<(), AllocError>
        ensures { OnOk result (self.new ≡ lined ((spec.by_reference (spec.copied «record» (spec.value_code value.now)) (Record «record»)).code 0) self.old) }
    {
        match value {
            Expr::Read(name, own) => self.copied_part(record, name, *own),
            _ => self.record_actual(value, record),
        }
    }

    /// Emits what finds the part of a record type that a name denotes, from which a value of this type is read (RM 3.3.1).
    #[cycle(expressions)]
    fn copied_part(&mut self, record: usize, name: &Name, own: Ty) -> Result<(), AllocError>
        ensures { OnOk result (self.new ≡ lined ((spec.by_reference (spec.copied «record» (spec.read (spec.reached_by name.now) own)) (Record «record»)).code 0) self.old) }
    {
        match copied_from(record, name, own) {
            Some(part) => self.part(name, part, record),
            None => self.put(Instr::Missing),
        }
    }

    /// Emits the creation of an object of an elementary type with a value, which is evaluated first, and given to the object; the access value
    /// goes into a cell (RM 4.8). The first instruction does nothing.
    #[cycle(expressions)]
    fn new_given(
        &mut self,
        access: usize,
        of: Ty,
        value: &Expr,
        to: Cell,
        ty: Ty,
    ) -> Result<(), AllocError>
        ensures { OnOk result (self.new ≡ lined ((spec.new_given access of (spec.value_code value.now)).code to ty) self.old) }
    {
        let at = self.height();
        self.put(Instr::Skip(0))?;
        let _value = self.evaluated(of, value)?;
        self.allocate(access, of, ty)?;
        self.over_operand(ty, Instr::GiveValue { of, ty, at })?;
        self.leave();
        self.moved_to(to, ty)
    }

    /// Emits the creation of an object without a value, whose access value goes into a cell (RM 4.8); the first instruction does nothing.
    fn new_object(&mut self, access: usize, of: Ty, to: Cell, ty: Ty) -> Result<(), AllocError>
        ensures { OnOk result (self.new ≡ lined ((spec.new access of None None).code to ty) self.old) }
    {
        self.put(Instr::Skip(0))?;
        self.allocate(access, of, ty)?;
        self.moved_to(to, ty)
    }

    /// Emits what makes an object of this type, whose access value is a new operand (RM 4.8); the second instruction is for what an Allocate
    /// gave (RM 13.11).
    fn allocate(&mut self, access: usize, of: Ty, ty: Ty) -> Result<(), AllocError>
        ensures { OnOk result (self.new ≡ lined (spec.allocator_code access of ty) self.old) }
    {
        let at = self.height();
        self.put(Instr::New { access, of, ty, at })?;
        self.over_address(Instr::NewIn { of, ty, at })
    }

    /// Emits the value of a variable.
    pub(crate) fn read_variable(
        &mut self,
        variable: Var,
        to: Cell,
        ty: Ty,
    ) -> Result<(), AllocError>
        ensures { OnOk result (self.new ≡ lined ((spec.read (Some (parts.Variable variable)) ty).code to ty) self.old) }
    {
        match self.local_cell(variable) {
            Some(from) => self.put(Instr::Move { from, ty, to }),
            None => self.put(Instr::Fetch { variable, ty, to }),
        }
    }

    /// Emits the value of what a name denotes.
    #[cycle(expressions)]
    fn read(&mut self, name: &Name, to: Cell, ty: Ty) -> Result<(), AllocError>
        ensures { OnOk result (self.new ≡ lined ((spec.read (spec.reached_by name.now) ty).code to ty) self.old) }
    {
        match reached_by(name) {
            Some(Reached::Variable(variable)) => self.read_variable(variable, to, ty),
            Some(
                Reached::Part {
                    steps,
                    record,
                    position,
                },
            ) => {
                self.begin(name)?;
                self.component(name, steps, record, position, ty, to)
            }
            Some(Reached::Object { steps }) => {
                self.begin(name)?;
                self.component(name, steps, ANY_TYPE, FIRST_POSITION, ty, to)
            }
            None => self.put(Instr::Missing),
        }
    }

    /// Emits the discriminant at a position of the block pool that a name denotes, which goes into a cell (RM 3.7, 13.11).
    #[cycle(expressions)]
    fn discriminant(&mut self, name: &Name, position: usize, to: Cell) -> Result<(), AllocError>
        ensures { OnOk result (self.new ≡ lined (spec.discriminant_code (spec.reached_by name.now) (spec.discriminant_at «position») to) self.old) }
    {
        let Some(part) = reached_by(name) else {
            return self.put(Instr::Missing);
        };
        let (record, which) = (BLOCK_POOL, discriminant_at(position));
        self.part(name, part, record)?;
        self.over_operand(
            Ty::Record(record),
            Instr::TakeDiscriminant { record, which, to },
        )
    }

    /// Emits an expression, whose value is a new operand of this type. Gives its cell.
    #[cycle(expressions)]
    pub fn evaluated(&mut self, ty: Ty, expression: &Expr) -> Result<Cell, AllocError>
        ensures held { OnOk result (self.new ≡ holding (spec.evaluated (spec.value_code expression.now) ty) self.old) }
        ensures cell { IfOk result (λ cell. cell ≡ cells.new_operand self.old.notes.standing) }
    {
        let to = self.new_operand();
        self.expression(to, ty, expression)?;
        self.enter(Kind::Operand(ty))?;
        Ok(to)
    }

    /// Answers the cell of an operand that stays where it is.
    fn kept(&self, right: Right) -> Option<Cell>
        ensures { result ≡ kept right self.now.notes.standing }
    {
        match right {
            Right::Variable(variable) => self.local_cell(variable),
            Right::Constant(_) | Right::Evaluated => None,
        }
    }

    /// Emits an operand of an operator, if it does not stay where it is. Gives its cell.
    #[cycle(expressions)]
    pub fn held(&mut self, ty: Ty, expression: &Expr) -> Result<Cell, AllocError>
        ensures held { OnOk result (self.new ≡ holding (spec.held (spec.value_code expression.now) ty) self.old) }
        ensures cell { IfOk result (λ cell. cell ≡ (spec.held (spec.value_code expression.now) ty self.old.notes.standing).cell) }
    {
        match self.kept(right_of(expression)) {
            Some(cell) => Ok(cell),
            None => self.evaluated(ty, expression),
        }
    }

    /// Emits the left operand of an operator that takes its right one so. Gives its cell.
    #[cycle(expressions)]
    fn left(&mut self, right: Right, ty: Ty, expression: &Expr) -> Result<Cell, AllocError>
        ensures held { OnOk result (self.new ≡ holding (spec.left_held right (spec.value_code expression.now) ty) self.old) }
        ensures cell { IfOk result (λ cell. cell ≡ (spec.left_held right (spec.value_code expression.now) ty self.old.notes.standing).cell) }
    {
        match right {
            Right::Constant(_) => self.held(ty, expression),
            Right::Variable(_) => self.held(ty, expression),
            Right::Evaluated => self.evaluated(ty, expression),
        }
    }

    /// Emits an operator whose left operand is in a cell, with its right operand.
    #[cycle(expressions)]
    fn operator(
        &mut self,
        left: Cell,
        ty: Ty,
        operand: &Operand,
        to: Cell,
    ) -> Result<(), AllocError>
        ensures { OnOk result (self.new ≡ lined (spec.operator_code (spec.operator_of operand.now) left ty to) self.old) }
    {
        let op = operator_for(operand, ty);
        match right_of(&operand.right) {
            Right::Constant(right) => self.put(Instr::BinaryConstant {
                op,
                left,
                right,
                to,
            }),
            Right::Variable(_) | Right::Evaluated => {
                let right = self.held(ty, &operand.right)?;
                self.take(
                    Instr::Binary {
                        op,
                        left,
                        right,
                        to,
                    },
                    right,
                )
            }
        }
    }

    /// Emits an operator over a new operand of this type, which it takes.
    #[cycle(expressions)]
    fn further(&mut self, ty: Ty, operand: &Operand, to: Cell) -> Result<(), AllocError>
        ensures { OnOk result (self.new ≡ lined (λ s. spec.operator_code (spec.operator_of operand.now) (cells.new_operand s) ty to (KindOf.Operand ty ∷ s)) self.old) }
    {
        let left = self.new_operand();
        self.enter(Kind::Operand(ty))?;
        self.operator(left, ty, operand, to)?;
        self.leave();
        Ok(())
    }

    /// Emits operators of one precedence over a new operand of this type; the last of them puts its value where it is wanted.
    #[cycle(expressions)]
    fn operators(&mut self, ty: Ty, operands: &[Operand], to: Cell) -> Result<(), AllocError>
        ensures { OnOk result (self.new ≡ lined (λ s. spec.operators_code s (cells.new_operand s) (KindOf.Operand ty ∷ s) ty (map spec.operator_of operands.now) to) self.old) }
    {
        let base = self.new_operand();
        let mut ty = ty;
        let mut following = operands.len();
        for operand in operands {
            following = following.saturating_sub(1);
            self.further(ty, operand, target(following, to, base))?;
            ty = operand.ty;
        }
        Ok(())
    }

    /// Adds an instruction over a new operand of this type, which it takes.
    pub fn over_operand(&mut self, ty: Ty, instr: Instr) -> Result<(), AllocError>
        ensures { OnOk result (self.new ≡ lined (λ s. (instr, KindOf.Operand ty ∷ s) ∷ []) self.old) }
    {
        self.enter(Kind::Operand(ty))?;
        self.put(instr)?;
        self.leave();
        Ok(())
    }

    /// Emits further operands of a short-circuit form.
    #[cycle(expressions)]
    fn others(&mut self, form: Shortcut, others: &[Expr]) -> Result<(), AllocError>
        ensures { OnOk result (self.new ≡ lined (spec.others_code form (map spec.value_code others.now)) self.old) }
    {
        for other in others {
            self.other(form, other)?;
        }
        Ok(())
    }

    /// Emits a further operand of a short-circuit form, which is skipped where the form is decided.
    #[cycle(expressions)]
    fn other(&mut self, form: Shortcut, operand: &Expr) -> Result<(), AllocError>
        ensures { OnOk result (self.new ≡ lined (spec.other_code form (spec.value_code operand.now)) self.old) }
    {
        let head = self.place();
        let to = self.new_operand();
        let (at, length) = (to.at, 0);
        self.over_operand(Ty::Boolean, Instr::Decide { form, at, length })?;
        self.expression(to, Ty::Boolean, operand)?;
        let length = self.behind(head);
        self.set(head, Instr::Decide { form, at, length });
        Ok(())
    }

    /// Moves a new operand of this type where it is wanted.
    pub(crate) fn moved_to(&mut self, to: Cell, ty: Ty) -> Result<(), AllocError>
        ensures { OnOk result (self.new ≡ lined (spec.moved_to to ty) self.old) }
    {
        match to.named {
            Named::Operand => Ok(()),
            Named::Variable { .. } => {
                let from = self.new_operand();
                self.over_operand(ty, Instr::Move { from, ty, to })
            }
        }
    }

    /// Emits the values that the images of a text take.
    pub fn pieces(&mut self, pieces: &[Piece]) -> Result<(), AllocError>
        ensures { OnOk result (self.new ≡ imaged pieces.now self.old) }
    {
        for piece in pieces {
            self.piece(piece)?;
        }
        Ok(())
    }

    /// Emits the value that a piece takes, if it is an image.
    fn piece(&mut self, piece: &Piece) -> Result<(), AllocError>
        ensures { OnOk result (self.new ≡ imaged (piece.now ∷ []) self.old) }
    {
        match piece {
            Piece::Text(_) => {}
            Piece::IntegerImage(value) => {
                let _image = self.evaluated(Ty::Integer, value)?;
            }
            Piece::BooleanImage(value) => {
                let _image = self.evaluated(Ty::Boolean, value)?;
            }
        }
        Ok(())
    }
}

/// Answers which discriminant of a block pool has this position, from 0.
fn discriminant_at(position: usize) -> PoolDiscriminant
    ensures { result ≡ spec.discriminant_at «position» }
{
    if position == SIZE_POSITION {
        PoolDiscriminant::BlockSize
    } else {
        PoolDiscriminant::BlockCount
    }
}

/// Answers where an operator puts its value: where it is wanted if none follows, else in a new operand.
fn target(following: usize, to: Cell, base: Cell) -> Cell
    ensures { (os : List spec.OperatorCode) (s : List Kind) → following ≡ length os → base ≡ cells.new_operand s → result ≡ spec.next_target os to s }
{
    if following == 0 { to } else { base }
}

/// Answers an operator with the types of its operands and of its result.
#[tactic(auto, using(ctl_layout::proofs::Layers::operator_is))]
fn operator_for(operand: &Operand, operands: Ty) -> Operator
    ensures { result ≡ spec.operator_for (spec.operator_of operand.now) operands }
{
    Operator {
        op: operand.op,
        operands,
        result: operand.ty,
    }
}
