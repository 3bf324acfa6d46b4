//! The laws of the grammar. Each function does nothing: its contract is the law, over the definitions of `specs/Text.antt` and
//! `specs/Fault.antt`.

ghost use Rattle.ctl_grammar.specs.declared.refused.Reason.TheVariants.{EndName, LeftOut, TooDeep};
ghost use Rattle.ctl_grammar.specs.Fault.{BreaksAreFaults, FaultsAreFirst, OneOfBoth, ProgramOrFault};
ghost use Rattle.ctl_grammar.specs.Text.{DepthRefusesAlone, FindsTheEndName, FindsTheLeftOut, FindsTheTooDeep, FindsTheUnexpected, IsToldExactly, NamesRefuseAlone, PlacesDeepBodies, ReadsWhatIsSpelled, SpellsOneTree, SpellsWhatIsRead};

/// Says that a list of tokens spells at most one tree.
pub fn tokens_spell_one_tree()
    ensures { SpellsOneTree }
{}

/// Says that what is spelled is read, with the tree that it spells.
pub fn what_is_spelled_is_read()
    ensures { ReadsWhatIsSpelled }
{}

/// Says that what is read is spelled.
pub fn what_is_read_is_spelled()
    ensures { SpellsWhatIsRead }
{}

/// Says that a token is answered to be unexpected where it is the first one with which the tokens begin no program, whatever its depth and
/// its names.
pub fn first_unexpected_token()
    ensures { FindsTheUnexpected }
{}

/// Says that a name is answered to be left out where the tokens before it begin a program, but with it go on to none that keeps the rules.
pub fn first_name_left_out()
    ensures { FindsTheLeftOut }
{}

/// Says that a name at an end is refused where the tokens before it begin a program, but with it go on to none that keeps the rules.
pub fn first_wrong_end_name()
    ensures { FindsTheEndName }
{}

/// Says that, where the answer is that too many constructs are open, the tokens up to some token go on to no program of this depth.
pub fn first_construct_too_deep()
    ensures { FindsTheTooDeep }
{}

/// Says that the rule of names that is told to be broken, and no other, refuses the token: by the grammar alone the tokens go on with it,
/// where this one rule holds they do not, whatever the depth and the other names.
pub fn names_refuse_alone()
    ensures { NamesRefuseAlone }
{}

/// Says that, where the answer is that too many constructs are open, the depth refuses a token whatever the names.
pub fn depth_refuses_alone()
    ensures { DepthRefusesAlone }
{}

/// Says that a name is answered to be left out exactly where it is the first to break a rule, and no identifier that the grammar knows there.
pub fn left_out_name_exactly()
    ensures { IsToldExactly LeftOut }
{}

/// Says that a name at an end is refused exactly where it is the first to break a rule, and not that of its subprogram.
pub fn wrong_end_name_exactly()
    ensures { IsToldExactly EndName }
{}

/// Says that a construct is answered to be too deep exactly where it is the first to break a rule, and as many as may be are open around it.
pub fn too_deep_exactly()
    ensures { IsToldExactly TooDeep }
{}

/// Says that, where no more construct may be opened, an item that can be nothing but a body is answered to be too deep at its first token.
pub fn deep_body_at_its_first_token()
    ensures { PlacesDeepBodies }
{}

/// Says that the fault of tokens stands at a token that is the first to be wrong for its reason.
pub fn faults_are_first()
    ensures { FaultsAreFirst }
{}

/// Says that tokens that break a rule of names, or open one construct too many, have this fault.
pub fn breaks_are_faults()
    ensures { BreaksAreFaults }
{}

/// Says that tokens spell a program, or they have a fault.
pub fn program_or_fault()
    ensures { ProgramOrFault }
{}

/// Says that tokens that spell a program have no fault, and others have one fault alone.
pub fn one_of_both()
    ensures { OneOfBoth }
{}
