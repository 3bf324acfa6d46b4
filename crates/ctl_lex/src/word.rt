//! The reserved words (RM 2.9).

ghost use Rattle.std.specs.Prelude.{◌≡◌, length};
ghost use Rattle.ctl_lexis.specs.Spelling.{spelling};
ghost use Rattle.ctl_lexis.specs.Words.{words_of_length};
ghost use Rattle.ctl_lexis.specs.Reading.{word_of, has_spelling};

use ctl_tree::token::Kind;

/// Gives the reserved words of this many letters.
#[tactic(auto, unfolding(ctl_lexis::specs::Words::words_of_length))]
fn words_of_length(letters: usize) -> &'static [Kind]
    ensures { result.now ≡ words_of_length letters }
{
    match letters {
        2 => &[
            Kind::At,
            Kind::Do,
            Kind::If,
            Kind::In,
            Kind::Is,
            Kind::Of,
            Kind::Or,
        ],
        3 => &[
            Kind::Abs,
            Kind::All,
            Kind::And,
            Kind::End,
            Kind::For,
            Kind::Mod,
            Kind::New,
            Kind::Not,
            Kind::Out,
            Kind::Rem,
            Kind::Use,
            Kind::Xor,
        ],
        4 => &[
            Kind::Body,
            Kind::Case,
            Kind::Else,
            Kind::Exit,
            Kind::Goto,
            Kind::Loop,
            Kind::Null,
            Kind::Some,
            Kind::Task,
            Kind::Then,
            Kind::Type,
            Kind::When,
            Kind::With,
        ],
        5 => &[
            Kind::Abort,
            Kind::Array,
            Kind::Begin,
            Kind::Delay,
            Kind::Delta,
            Kind::Elsif,
            Kind::Entry,
            Kind::Raise,
            Kind::Range,
            Kind::Until,
            Kind::While,
        ],
        6 => &[
            Kind::Accept,
            Kind::Access,
            Kind::Digits,
            Kind::Others,
            Kind::Pragma,
            Kind::Record,
            Kind::Return,
            Kind::Select,
            Kind::Tagged,
        ],
        7 => &[
            Kind::Aliased,
            Kind::Declare,
            Kind::Generic,
            Kind::Limited,
            Kind::Package,
            Kind::Private,
            Kind::Renames,
            Kind::Requeue,
            Kind::Reverse,
            Kind::Subtype,
        ],
        8 => &[
            Kind::Abstract,
            Kind::Constant,
            Kind::Function,
            Kind::Separate,
        ],
        9 => &[
            Kind::Exception,
            Kind::Interface,
            Kind::Procedure,
            Kind::Protected,
            Kind::Terminate,
        ],
        10 => &[Kind::Overriding],
        12 => &[Kind::Synchronized],
        _ => &[],
    }
}

/// Gives the text that each token of this kind has: the characters of a delimiter, or a reserved word in small letters. It is empty
/// where tokens of the kind differ in their texts (identifiers, numbers, strings), and for the end mark.
fn letters_of(kind: Kind) -> &'static [u8]
    ensures { result.now ≡ spelling kind }
{
    match kind {
        Kind::Identifier => b"",
        Kind::Number => b"",
        Kind::String => b"",
        Kind::Ampersand => b"&",
        Kind::Apostrophe => b"'",
        Kind::LeftParenthesis => b"(",
        Kind::RightParenthesis => b")",
        Kind::Star => b"*",
        Kind::Plus => b"+",
        Kind::Comma => b",",
        Kind::Minus => b"-",
        Kind::Dot => b".",
        Kind::Slash => b"/",
        Kind::Colon => b":",
        Kind::Semicolon => b";",
        Kind::Less => b"<",
        Kind::Equal => b"=",
        Kind::Greater => b">",
        Kind::Bar => b"|",
        Kind::Arrow => b"=>",
        Kind::DoubleDot => b"..",
        Kind::Becomes => b":=",
        Kind::NotEqual => b"/=",
        Kind::GreaterEqual => b">=",
        Kind::LessEqual => b"<=",
        Kind::Abs => b"abs",
        Kind::Access => b"access",
        Kind::Aliased => b"aliased",
        Kind::All => b"all",
        Kind::And => b"and",
        Kind::Begin => b"begin",
        Kind::Constant => b"constant",
        Kind::Declare => b"declare",
        Kind::Else => b"else",
        Kind::Elsif => b"elsif",
        Kind::End => b"end",
        Kind::Exception => b"exception",
        Kind::Exit => b"exit",
        Kind::For => b"for",
        Kind::Function => b"function",
        Kind::If => b"if",
        Kind::In => b"in",
        Kind::Is => b"is",
        Kind::Limited => b"limited",
        Kind::Loop => b"loop",
        Kind::Mod => b"mod",
        Kind::New => b"new",
        Kind::Not => b"not",
        Kind::Null => b"null",
        Kind::Or => b"or",
        Kind::Others => b"others",
        Kind::Out => b"out",
        Kind::Overriding => b"overriding",
        Kind::Procedure => b"procedure",
        Kind::Raise => b"raise",
        Kind::Record => b"record",
        Kind::Rem => b"rem",
        Kind::Return => b"return",
        Kind::Reverse => b"reverse",
        Kind::Tagged => b"tagged",
        Kind::Then => b"then",
        Kind::Type => b"type",
        Kind::Use => b"use",
        Kind::When => b"when",
        Kind::While => b"while",
        Kind::With => b"with",
        Kind::Xor => b"xor",
        Kind::Abort => b"abort",
        Kind::Abstract => b"abstract",
        Kind::Accept => b"accept",
        Kind::Array => b"array",
        Kind::At => b"at",
        Kind::Body => b"body",
        Kind::Case => b"case",
        Kind::Delay => b"delay",
        Kind::Delta => b"delta",
        Kind::Digits => b"digits",
        Kind::Do => b"do",
        Kind::Entry => b"entry",
        Kind::Generic => b"generic",
        Kind::Goto => b"goto",
        Kind::Interface => b"interface",
        Kind::Of => b"of",
        Kind::Package => b"package",
        Kind::Pragma => b"pragma",
        Kind::Private => b"private",
        Kind::Protected => b"protected",
        Kind::Range => b"range",
        Kind::Renames => b"renames",
        Kind::Requeue => b"requeue",
        Kind::Select => b"select",
        Kind::Separate => b"separate",
        Kind::Some => b"some",
        Kind::Subtype => b"subtype",
        Kind::Synchronized => b"synchronized",
        Kind::Task => b"task",
        Kind::Terminate => b"terminate",
        Kind::Until => b"until",
        Kind::Finish => b"",
    }
}

/// Tells whether these bytes spell the word, in letters of either case.
#[tactic(auto, unfolding(ctl_lexis::specs::Reading::has_spelling))]
fn has_spelling(name: &[u8], kind: Kind) -> bool
    ensures { result ≡ has_spelling name.now kind }
{
    name.eq_ignore_ascii_case(letters_of(kind))
}

/// Gives the reserved word that these letters spell, if they do; case does not count.
#[tactic(auto, unfolding(ctl_lexis::specs::Reading::word_of))]
pub fn word_of(name: &[u8]) -> Option<Kind>
    ensures { result ≡ word_of name.now }
{
    for kind in words_of_length(name.len()) {
        if has_spelling(name, *kind) {
            return Some(*kind);
        }
    }
    None
}
