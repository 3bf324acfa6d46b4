//! The words by which logical operators begin, and what joins relations with one of them (RM 4.4).

ghost use Rattle.std.specs.Prelude.{◌≡◌};
ghost use Rattle.ctl_grammar.specs.Grammar.{first_word};
ghost use Rattle.ctl_grammar.specs.Kind.{same_kind};

use crate::kind::is_same_kind;
use ctl_syntax::operators::LogicalOperator;
use ctl_tree::token::Kind;

/// Gives the word by which a logical operator begins.
pub fn first_word(operator: LogicalOperator) -> Kind
    ensures { result ≡ first_word operator }
{
    match operator {
        LogicalOperator::And | LogicalOperator::AndThen => Kind::And,
        LogicalOperator::Or | LogicalOperator::OrElse => Kind::Or,
        LogicalOperator::Xor => Kind::Xor,
    }
}

/// Tells whether a token of this kind goes on with the relations that the operator joins: that of another operator does not.
pub fn joins(operator: LogicalOperator, kind: Kind) -> bool
    ensures { result ≡ same_kind (first_word operator) kind }
{
    is_same_kind(first_word(operator), kind)
}
