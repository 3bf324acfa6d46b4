//! The laws of the lexis: a text has exactly one answer. The functions do nothing; their contracts say the laws.

ghost use Rattle.std.specs.Prelude.{◌≡◌, ℕ, List, ◌⊎◌};
ghost use Rattle.ctl_tree.specs.declared.fault.Fault.{Fault};
ghost use Rattle.ctl_tree.specs.declared.token.Token.{Token};
ghost use Rattle.ctl_lexis.specs.Lexis.{HasTokens, HasFault};

/// Says that a text has at most one list of tokens.
pub fn one_list_of_tokens()
    ensures { (bytes : List ℕ) (a b : List Token) → HasTokens bytes a → HasTokens bytes b → a ≡ b }
{}

/// Says that a text has at most one first fault.
pub fn one_first_fault()
    ensures { (bytes : List ℕ) (a b : Fault) → HasFault bytes a → HasFault bytes b → a ≡ b }
{}

/// Says that no text has both tokens and a fault.
pub fn never_tokens_and_fault()
    ensures { (bytes : List ℕ) (tokens : List Token) (fault : Fault) → HasTokens bytes tokens → HasFault bytes fault → ⊥ }
{}

/// Says that every text has tokens or a fault.
pub fn always_tokens_or_fault()
    ensures { (bytes : List ℕ) → ((tokens : List Token) × HasTokens bytes tokens) ⊎ ((fault : Fault) × HasFault bytes fault) }
{}
