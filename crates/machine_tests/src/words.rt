//! The instructions that words stand for, each with its marks. A word is known by its first two letters, beside the count of its marks.
//!
//! A mark that is a cell, a type or a value with its type is named as such below; any other is a number. Where no type is named, it is Integer.

use crate::marks::{Mark, Word};
use ctl_code::code::{Instr, Operator, Way};
use ctl_program::operators::{BinaryOp, CopyStart, Direction, Shortcut, UnaryOp};
use ctl_program::types::{Ty, Var};

const ADD: Operator = Operator {
    op: BinaryOp::Add,
    operands: Ty::Integer,
    result: Ty::Integer,
};

/// The relation of two numbers.
const EQUAL: Operator = Operator {
    op: BinaryOp::Equal,
    operands: Ty::Integer,
    result: Ty::Boolean,
};

/// The logical operator.
const AND: Operator = Operator {
    op: BinaryOp::And,
    operands: Ty::Boolean,
    result: Ty::Boolean,
};

/// `leave`, `number`, `line` (`NewLine`), `again` (`RaiseAgain`), and the transfers `exit` and `return`.
fn alone(word: Word) -> Option<Instr> {
    Some(match word {
        [b'l', b'e'] => Instr::Leave,
        [b'n', b'u'] => Instr::Number,
        [b'l', b'i'] => Instr::NewLine,
        [b'a', b'g'] => Instr::RaiseAgain,
        [b'e', b'x'] => Instr::Transfer(Way::Exit),
        [b'r', b'e'] => Instr::Transfer(Way::Return),
        _ => return None,
    })
}

/// `discard COUNT`, `drop RECORD` (`DropPart`), `assign RECORD`, and what gives values: `return CELL`, `value VALUE` (a transfer), `give RECORD`
/// (`ReturnRecord`).
fn with_value(word: Word, mark: Mark) -> Option<Instr> {
    let number = mark.number;
    Some(match word {
        [b'd', b'i'] => Instr::Discard(number),
        [b'd', b'r'] => Instr::DropPart { record: number },
        [b'a', b's'] => Instr::Assign { record: number },
        [b'v', b'a'] => Instr::Transfer(Way::ReturnValue(number as u64)),
        [b'g', b'i'] => Instr::ReturnRecord { record: number },
        [b'r', b'e'] => Instr::Return {
            from: mark.cell(),
            ty: Ty::Integer,
        },
        _ => return None,
    })
}

/// `start BODY`, `skip`, `back`, `abandon`, `handle` and a LENGTH, and the transfer `raise EXCEPTION`.
fn with_number(word: Word, number: usize) -> Option<Instr> {
    Some(match word {
        [b's', b't'] => Instr::Start(number),
        [b's', b'k'] => Instr::Skip(number),
        [b'b', b'a'] => Instr::Back(number),
        [b'a', b'b'] => Instr::Abandon(number),
        [b'h', b'a'] => Instr::Handle(number),
        [b'r', b'a'] => Instr::Transfer(Way::Raise(number)),
        _ => return None,
    })
}

/// `set VALUE CELL`, where `b1` is True and `i1` a number, `move CELL CELL`, `minus CELL CELL`, `unless CELL LENGTH`.
fn with_cells(word: Word, from: Mark, to: Mark) -> Option<Instr> {
    Some(match word {
        [b's', b'e'] => Instr::Set {
            value: from.number as u64,
            ty: from.ty(),
            to: to.cell(),
        },
        [b'm', b'o'] => Instr::Move {
            from: from.cell(),
            ty: Ty::Integer,
            to: to.cell(),
        },
        [b'm', b'i'] => Instr::Unary {
            op: UnaryOp::Minus,
            operand: Ty::Integer,
            ty: Ty::Integer,
            from: from.cell(),
            to: to.cell(),
        },
        [b'u', b'n'] => Instr::Unless {
            from: from.cell(),
            length: to.number,
        },
        _ => return None,
    })
}

/// `inside TYPE AT` (`NewIn`), `fill TYPE AT` (`GiveValue`).
fn with_type(word: Word, of: Ty, at: usize) -> Option<Instr> {
    let ty = Ty::Integer;
    Some(match word {
        [b'i', b'n'] => Instr::NewIn { of, ty, at },
        [b'f', b'i'] => Instr::GiveValue { of, ty, at },
        _ => return None,
    })
}

/// `enter SLOTS LENGTH`, `declare SLOT RECORD`, `copy SLOT RECORD` (`DeclareCopy`), `gather ACCESS COUNT`, `catch EXCEPTION LENGTH`.
fn with_two(word: Word, first: usize, second: usize) -> Option<Instr> {
    Some(match word {
        [b'e', b'n'] => Instr::Enter {
            slots: first,
            length: second,
        },
        [b'd', b'e'] => Instr::Declare {
            slot: first,
            record: second,
        },
        [b'c', b'o'] => Instr::DeclareCopy {
            slot: first,
            record: second,
        },
        [b'g', b'a'] => Instr::Gather {
            access: first,
            count: second,
        },
        [b'c', b'a'] => Instr::Catch {
            exception: first,
            length: second,
        },
        _ => return None,
    })
}

/// `reserve COUNT AT`, `object RECORD AT` (`Dereference`), `put TEXT FIRST`, `print TEXT FIRST` (`PutLine`), `andthen LENGTH AT` (`Decide`).
fn with_place(word: Word, number: usize, at: usize) -> Option<Instr> {
    Some(match word {
        [b'r', b'e'] => Instr::Reserve { count: number, at },
        [b'o', b'b'] => Instr::Dereference { record: number, at },
        [b'p', b'u'] => Instr::Put {
            text: number,
            first: at,
        },
        [b'p', b'r'] => Instr::PutLine {
            text: number,
            first: at,
        },
        [b'a', b'n'] => Instr::Decide {
            form: Shortcut::AndThen,
            at,
            length: number,
        },
        _ => return None,
    })
}

/// Those with two marks.
fn with_pair(word: Word, first: Mark, second: Mark) -> Option<Instr> {
    with_cells(word, first, second)
        .or(with_type(word, first.ty(), second.number))
        .or(with_two(word, first.number, second.number))
        .or(with_place(word, first.number, second.number))
}

/// `sum`, `equal` and two CELLs, `plus`, `both` (`and`) and a CELL and a constant, each with the CELL of the result.
fn with_operator(word: Word, left: Mark, right: Mark, to: Mark) -> Option<Instr> {
    let (from, to) = (left.cell(), to.cell());
    Some(match word {
        [b's', b'u'] => Instr::Binary {
            op: ADD,
            left: from,
            right: right.cell(),
            to,
        },
        [b'e', b'q'] => Instr::Binary {
            op: EQUAL,
            left: from,
            right: right.cell(),
            to,
        },
        [b'p', b'l'] => Instr::BinaryConstant {
            op: ADD,
            left: from,
            right: right.number as u64,
            to,
        },
        [b'b', b'o'] => Instr::BinaryConstant {
            op: AND,
            left: from,
            right: right.number as u64,
            to,
        },
        _ => return None,
    })
}

/// `new ACCESS TYPE AT`, `fetch LEVEL SLOT CELL`, `store CELL OUT SLOT`, `take RECORD POSITION CELL` (`TakePart`), `into CELL RECORD POSITION`
/// (`StorePart`).
fn with_three(word: Word, first: Mark, second: Mark, third: Mark) -> Option<Instr> {
    let ty = Ty::Integer;
    Some(match word {
        [b'n', b'e'] => Instr::New {
            access: first.number,
            of: second.ty(),
            ty,
            at: third.number,
        },
        [b'f', b'e'] => Instr::Fetch {
            variable: Var {
                level: first.number,
                slot: second.number,
            },
            ty,
            to: third.cell(),
        },
        [b's', b't'] => Instr::Store {
            from: first.cell(),
            ty,
            out: second.number,
            slot: third.number,
        },
        [b't', b'a'] => Instr::TakePart {
            record: first.number,
            position: second.number,
            ty,
            to: third.cell(),
        },
        [b'i', b'n'] => Instr::StorePart {
            from: first.cell(),
            ty,
            record: second.number,
            position: third.number,
        },
        _ => return None,
    })
}

/// `call PROCEDURE ACTUALS COPIES`, `evaluate FUNCTION ACTUALS AT`, `select RECORD POSITION PART`.
fn with_numbers(word: Word, first: usize, second: usize, third: usize) -> Option<Instr> {
    Some(match word {
        [b'c', b'a'] => Instr::Call {
            procedure: first,
            actuals: second,
            copies: third,
        },
        [b'e', b'v'] => Instr::Evaluate {
            function: first,
            actuals: second,
            ty: Ty::Integer,
            at: third,
        },
        [b's', b'e'] => Instr::Select {
            record: first,
            position: second,
            part: third,
        },
        _ => return None,
    })
}

/// Those with three marks.
fn with_triple(word: Word, first: Mark, second: Mark, third: Mark) -> Option<Instr> {
    with_operator(word, first, second, third)
        .or(with_three(word, first, second, third))
        .or(with_numbers(word, first.number, second.number, third.number))
}

/// The turns of loops, LOW SLOT PARAMETER LENGTH: `down` (`For`) and `next` go downward, and `up` (`Next`) upward.
fn with_loop(word: Word, [low, slot, parameter, length]: [usize; 4]) -> Option<Instr> {
    Some(match word {
        [b'd', b'o'] => Instr::For {
            low,
            slot,
            parameter,
            way: Direction::Downward,
            length,
        },
        [b'n', b'e'] => Instr::Next {
            low,
            slot,
            parameter,
            way: Direction::Downward,
            length,
        },
        [b'u', b'p'] => Instr::Next {
            low,
            slot,
            parameter,
            way: Direction::Upward,
            length,
        },
        _ => return None,
    })
}

/// `back DEPTH AT OUT SLOT` (`CopyBack`), `evaluate FUNCTION ACTUALS RECORD AT` (`EvaluateRecord`), `locate LEVEL SLOT RECORD AT`.
fn with_four(word: Word, [first, second, third, fourth]: [usize; 4]) -> Option<Instr> {
    Some(match word {
        [b'b', b'a'] => Instr::CopyBack {
            depth: first,
            at: second,
            out: third,
            slot: fourth,
        },
        [b'e', b'v'] => Instr::EvaluateRecord {
            function: first,
            actuals: second,
            record: third,
            at: fourth,
        },
        [b'l', b'o'] => Instr::Locate {
            variable: Var {
                level: first,
                slot: second,
            },
            record: third,
            at: fourth,
        },
        _ => return None,
    })
}

/// What the copy begins with that a word keeps the part of: `keep` the actual's value, and `begin` that of its type.
fn start_of(word: Word) -> Option<CopyStart> {
    match word {
        [b'k', b'e'] => Some(CopyStart::Actual),
        [b'b', b'e'] => Some(CopyStart::Beginning),
        _ => None,
    }
}

/// `keep` and `begin` (`KeepPart`) RECORD POSITION DEPTH KEPT AT.
fn with_kept(word: Word, [record, position, depth, kept, at]: [usize; 5]) -> Option<Instr> {
    match start_of(word) {
        Some(begins) => Some(Instr::KeepPart {
            record,
            position,
            begins,
            ty: Ty::Integer,
            depth,
            kept,
            at,
        }),
        None => None,
    }
}

/// `fetch LEVEL SLOT RECORD POSITION CELL` (`FetchPart`).
fn fetch(word: Word, [level, slot, record, position]: [usize; 4], to: Mark) -> Option<Instr> {
    if word != [b'f', b'e'] {
        return None;
    }
    Some(Instr::FetchPart {
        variable: Var { level, slot },
        record,
        position,
        ty: Ty::Integer,
        to: to.cell(),
    })
}

/// `back DEPTH AT BELOW KEPT RECORD POSITION` (`CopyBackPart`).
fn copy_back(word: Word, numbers: [usize; 6]) -> Option<Instr> {
    let [depth, at, below, kept, record, position] = numbers;
    if word != [b'b', b'a'] {
        return None;
    }
    Some(Instr::CopyBackPart {
        depth,
        at,
        below,
        kept,
        record,
        position,
    })
}

/// Those with four marks or more.
fn with_many(word: Word, marks: &[Mark]) -> Option<Instr> {
    match marks {
        [a, b, c, d] => {
            let numbers = [a.number, b.number, c.number, d.number];
            with_loop(word, numbers).or(with_four(word, numbers))
        }
        [a, b, c, d, e] => {
            let numbers = [a.number, b.number, c.number, d.number];
            let [first, second, third, fourth] = numbers;
            fetch(word, numbers, *e).or(with_kept(word, [first, second, third, fourth, e.number]))
        }
        [a, b, c, d, e, f] => copy_back(
            word,
            [a.number, b.number, c.number, d.number, e.number, f.number],
        ),
        _ => None,
    }
}

/// The instruction that a word stands for with these marks; None where it stands for none.
pub fn instr_of(word: Word, marks: &[Mark]) -> Option<Instr> {
    match marks {
        [] => alone(word),
        [mark] => with_value(word, *mark).or(with_number(word, mark.number)),
        [first, second] => with_pair(word, *first, *second),
        [first, second, third] => with_triple(word, *first, *second, *third),
        _ => with_many(word, marks),
    }
}
