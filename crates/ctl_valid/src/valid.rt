//! Code that was validated.

ghost use Rattle.std.specs.Prelude.{◌≡◌, IfSome, IsNone};
ghost use Rattle.ctl_code.specs.Valid.{IsValid};

use ctl_code::code::Code;
use ctl_code::validate::is_valid;
use std::marker::Model;

/// Code that is well formed: each instruction finds what it takes on the stacks, and leads to places of the code before which there
/// stands what it leaves. Only `validate` makes it.
#[derive(Drop)]
pub struct ValidCode {
    code: Code,
}

impl Model for ValidCode {
    ghost use Rattle.ctl_code.specs.declared.code.Code.{Code};
    ghost use Rattle.ctl_code.specs.Valid.{IsValid};

    ghost Value = { Code };

    ghost view = { λ v. v.code };

    ghost invariant = { λ v. IsValid v.code };
}

impl ValidCode {
    /// Answers the instructions, and the tables that they name.
    pub fn code(&self) -> &Code
        ensures code { result.now ≡ self.now }
        ensures valid { IsValid self.now }
    {
        &self.code
    }
}

/// Answers the same code, where it is well formed; None where it is not.
pub fn validate(code: Code) -> Option<ValidCode>
    ensures same { IfSome result (λ valid. valid ≡ code) }
    ensures valid { IfSome result IsValid }
    ensures refused { IsNone result → IsValid code → ⊥ }
{
    if is_valid(&code) {
        Some(ValidCode { code })
    } else {
        None
    }
}
