//! The law of texts and runs. The function does nothing; its contract says the law.

ghost use Rattle.ctl_verdict.specs.Verdict.{HasOneVerdict, HasVerdict};

/// Says that each text has exactly one verdict: a program that is run and no fault, or one fault and no program.
pub fn a_text_has_one_verdict()
    ensures some { HasVerdict }
    ensures one { HasOneVerdict }
{}
