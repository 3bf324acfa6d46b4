//! What holds of every run of valid code.

ghost use Rattle.ctl_code.specs.Fits.{KeepsToItsCode};

use crate::valid::ValidCode;

/// Says that valid code is never stuck: each instruction finds the operands, the place and the frame that it needs.
pub fn valid_code_keeps_to_its_code(code: &ValidCode)
    ensures { KeepsToItsCode code.now }
{
    let _ = code.code();
}
