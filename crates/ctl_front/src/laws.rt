//! The law of texts. The function does nothing; its contract says the law.

ghost use Rattle.ctl_front.specs.Text.{HasAnswer, HasOneAnswer};

/// Says that each text has exactly one answer: a program and no fault, or one first fault and no program.
pub fn a_text_has_one_answer()
    ensures some { HasAnswer }
    ensures one { HasOneAnswer }
{}
