//! Instructions that take the address that an Allocate of the user gave (RM 13.11).

ghost use Rattle.std.specs.Prelude.{◌≡◌, ◌∷◌, [], OnOk};
ghost use Rattle.ctl_code.specs.declared.kinds.Kind.TheVariants as KindOf;
ghost use Rattle.ctl_code.specs.Valid.{over_numbers};
ghost use Rattle.ctl_emitter.specs.Emitted.{lined};
ghost use Rattle.ctl_layout.specs.Values as values;

use crate::emit::Emitter;
use ctl_code::code::Instr;
use ctl_code::kinds::Kind;
use std::alloc::AllocError;

/// How many numbers stand after the call of an Allocate: those of the collection and of the pool, and what its first two formals hold
/// (RM 13.11).
const ADDRESS_NUMBERS: usize = 4;

impl Emitter {
    /// Adds an instruction over what an Allocate left, which it takes (RM 13.11).
    pub(crate) fn over_address(&mut self, instr: Instr) -> Result<(), AllocError>
        ensures { OnOk result (self.new ≡ lined (λ s. (instr, over_numbers values.address_numbers s) ∷ []) self.old) }
    {
        self.enter_numbers(ADDRESS_NUMBERS)?;
        self.put(instr)?;
        self.leave_operands(ADDRESS_NUMBERS);
        Ok(())
    }

    /// Adds an instruction over what an Allocate left and the value of a record below that, both of which it takes (RM 4.8, 13.11).
    pub(crate) fn over_value_and_address(&mut self, instr: Instr) -> Result<(), AllocError>
        ensures { OnOk result (self.new ≡ lined (λ s. (instr, over_numbers values.address_numbers (KindOf.RecordValue ∷ s)) ∷ []) self.old) }
    {
        self.enter(Kind::RecordValue)?;
        self.over_address(instr)?;
        self.leave();
        Ok(())
    }
}
