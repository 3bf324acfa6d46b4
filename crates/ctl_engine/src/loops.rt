//! Loops with a parameter (RM 5.5). The bounds of a loop are the two newest operands, the high one on top. The one that the loop counts
//! from is always the value of the present turn.

ghost use Rattle.std.specs.Prelude.{◌≡◌, ◌+◌, ◌^◌, ◌<◌, MatchOption, Some, length, slice_set};
ghost use Rattle.ctl_code.specs.Table as Table;
ghost use Rattle.ctl_code.specs.Valid.{IsValid};
ghost use Rattle.ctl_frames.specs.declared.frame.Mode.TheVariants as ModeOf;
ghost use Rattle.ctl_engine.specs.Instructions.{Turns};
ghost use Rattle.ctl_engine.specs.Moves.{Before, here_of};
ghost use Rattle.ctl_engine.specs.Turns as Turns;
ghost use Rattle.ctl_engine.specs.Windows.{Comes, IsGoing, IsWindow, Moment};

use crate::window::{read, write};
use ctl_code::code::{Code, Instr};
use ctl_frames::frame::Mode;
use ctl_program::operators::Direction;
use ctl_values::operators::{cell_of, signed};

/// Answers the cell of the bound that a loop counts from, whose low bound is in this cell.
#[inline(always)]
fn counted(way: Direction, low: usize) -> usize
    requires { low + 1 < 2 ^ 64 }
    ensures { result ≡ Turns.counted way low }
{
    match way {
        Direction::Upward => low,
        Direction::Downward => low + 1,
    }
}

/// Answers the value of the first turn, by the bounds; none where the range is null (RM 3.5).
#[inline(always)]
fn first_value(way: Direction, low: u64, high: u64) -> Option<u64>
    ensures { result ≡ Turns.first_value way low high }
{
    if signed(high) < signed(low) {
        return None;
    }
    match way {
        Direction::Upward => Some(low),
        Direction::Downward => Some(high),
    }
}

/// Answers the value of the next turn, by the bounds; none where no value is left.
#[inline(always)]
fn next_value(way: Direction, low: u64, high: u64) -> Option<u64>
    ensures { result ≡ Turns.next_value way low high }
{
    let first = signed(low);
    let last = signed(high);
    if last <= first {
        return None;
    }
    match way {
        Direction::Upward => Some(cell_of(first + 1)),
        Direction::Downward => Some(cell_of(last - 1)),
    }
}

/// Begins the turn of this value, which the bound that the loop counts from and the parameter take, in these cells, and goes on at the
/// first place; where there is no value, goes on at the second.
#[inline(always)]
fn begin_turn(
    cells: &mut [u64],
    window: usize,
    value: Option<u64>,
    bound: usize,
    parameter: usize,
    inside: usize,
    behind: usize,
) -> Mode
    requires bound { window + bound < length cells.old }
    requires parameter { window + parameter < length cells.old }
    ensures begins { MatchOption value ((result ≡ ModeOf.At behind) × (cells.new ≡ cells.old)) (λ x. (result ≡ ModeOf.At inside) × (cells.new ≡ slice_set (slice_set cells.old (window + bound) x) (window + parameter) x)) }
    ensures going { IsGoing result }
{
    match value {
        Some(value) => {
            write(cells, window, bound, value);
            write(cells, window, parameter, value);
            Mode::At(inside)
        }
        None => Mode::At(behind),
    }
}

/// Executes this instruction of a loop with a parameter, which stands at this place; answers what comes next (RM 5.5).
#[inline(always)]
pub fn turn(cells: &mut [u64], window: usize, code: &Code, instr: &Instr, place: usize) -> Mode
    ghost at: { Moment }
    requires valid { IsValid code.now }
    requires before { Before code.now at.engine place instr.now at.state }
    requires turns { Turns instr.now }
    requires place { place + 1 < 2 ^ 64 }
    requires window { IsWindow at.engine window cells.old }
    ensures comes { Comes code.now at.engine result cells.new (Table.by_instr code.now (Some instr.now) at.state.operands (here_of place at.state)) }
    ensures going { IsGoing result }
    ensures length { length cells.new ≡ length cells.old }
{
    let _places = code.instructions.as_slice().len();
    match instr {
        Instr::For {
            low,
            parameter,
            way,
            length,
            ..
        } => {
            let first = read(cells, window, *low);
            let last = read(cells, window, *low + 1);
            let value = first_value(*way, first, last);
            let bound = counted(*way, *low);
            begin_turn(
                cells,
                window,
                value,
                bound,
                *parameter,
                place + 2,
                place + 1 + *length,
            )
        }
        Instr::Next {
            low,
            parameter,
            way,
            length,
            ..
        } => {
            let first = read(cells, window, *low);
            let last = read(cells, window, *low + 1);
            let value = next_value(*way, first, last);
            let bound = counted(*way, *low);
            begin_turn(
                cells,
                window,
                value,
                bound,
                *parameter,
                place - *length,
                place + 1,
            )
        }
        _ => unreachable!(),
    }
}
