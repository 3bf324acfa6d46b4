//! Collections are emptied (RM 7.6.1): their finalization starts, and which of their members is next is chosen.

ghost use Rattle.std.specs.Prelude.{◌≡◌, ◌+◌, ◌^◌, ◌<◌, List, ℕ, OnErr, OnOk, length, vec_len};
ghost use Rattle.ctl_meaning.specs.Lists.{keep};
ghost use Rattle.ctl_groups.specs.Groups.{is_waiting};
ghost use Rattle.ctl_storage.specs.Order.{Rise};
ghost use Rattle.ctl_code.specs.Table as Table;
ghost use Rattle.ctl_frames.specs.declared.frame.Owned.{Owned};
ghost use Rattle.ctl_engine.specs.Departing.{Departed, EmptiesLayer};
ghost use Rattle.ctl_lifetimes.specs.Emptying.{IsTaken, IsTakenWith, IsWith, due, taken_of};
ghost use Rattle.ctl_frames.specs.Filling.{pick_among};
ghost use Rattle.ctl_frames.specs.Needs.{needs_of};
ghost use Rattle.ctl_engine.specs.Moves.{GoesOn, Makes};
ghost use Rattle.ctl_frames.specs.Owned.{AreFromTo, HaveCome, started};

use ctl_code::code::Code;
use ctl_engine::calls::Departure;
use ctl_engine::engine::Engine;
use ctl_frames::frame::{Frame, Owned};
use ctl_objects::{Group, Start, Waiting};
use ctl_tree::request::Order;
use room::reserve;
use std::alloc::AllocError;

/// A member of a collection: its number, and its record type.
#[derive(Clone, Copy)]
pub struct Member {
    pub number: u64,
    pub record_type: usize,
}

/// The members of some collections that are still to be finalized: how many they are, and the one that an order chooses, if there is one.
#[derive(Clone, Copy)]
pub struct Candidates {
    pub count: usize,
    pub chosen: Option<Member>,
}

/// Answers the one of two members that an order takes, if there is another one.
fn taken(order: Order, chosen: Option<Member>, member: Member) -> Member
    ensures { result ≡ taken_of order chosen member }
{
    let Some(other) = chosen else {
        return member;
    };
    match order {
        Order::Newest if other.number < member.number => member,
        Order::Oldest if member.number < other.number => member,
        _ => other,
    }
}

/// The numbers of collections that came one after another: from one to another.
#[derive(Clone, Copy)]
struct Numbers {
    first: u64,
    last: u64,
}

/// Answers the numbers of so many collections that came one after another, this the last.
fn numbers_to(last: u64, count: usize) -> Numbers
    ensures { AreFromTo result.first result.last (Table.numbers_to last count) }
{
    if count == 0 {
        return Numbers { first: 1, last: 0 };
    }
    let others = (count - 1) as u64;
    let first = if others < last { last - others } else { 0 };
    Numbers { first, last }
}

/// Marks that the finalization of the collections from one to another has started (RM 7.6.1): those among what is owned, which came with
/// their numbers.
fn start_collections(owned: &mut Vec<Owned>, first: u64, last: u64)
    requires { (given : ℕ) × HaveCome 0 owned.old.items given }
    ensures items { owned.new.items ≡ started first last owned.old.items }
{
    let mut end = owned.as_slice().len();
    while end > 0 {
        end -= 1;
        if owned[end].collections < first {
            return;
        }
        owned[end].start(first, last);
    }
}

/// Answers the number of the candidate that an order takes among so many, the candidates being in the order of their numbers.
pub fn pick_of(order: Order, count: usize) -> usize
    requires { 0 < count }
    ensures { result ≡ pick_among order count }
{
    match order {
        Order::Newest => count - 1,
        Order::Oldest => 0,
    }
}

/// Answers which member an order takes, where it takes this one among all but the objects of a group that are still to be finalized.
fn taken_with(engine: &Engine, order: Order, chosen: Option<Member>, group: Group) -> Option<Member>
    ensures { IsTakenWith order engine.now.stock chosen group result }
{
    let waiting = match order {
        Order::Newest => engine.stock.last_waiting(group),
        Order::Oldest => engine.stock.first_waiting(group),
    };
    let Some(number) = waiting else {
        return chosen;
    };
    let member = Member {
        number,
        record_type: group.record_type,
    };
    Some(taken(order, chosen, member))
}

/// Adds the objects of a group that are still to be finalized to the candidates (RM 7.6.1).
fn with_group(engine: &Engine, order: Order, found: Candidates, waiting: Waiting) -> Candidates
    requires few { found.count + waiting.count < 2 ^ 64 }
    requires count { waiting.count ≡ length (keep (is_waiting engine.now.stock.needs waiting.group) engine.now.stock.objects) }
    ensures { IsWith order engine.now.stock found waiting.group result }
{
    Candidates {
        count: found.count + waiting.count,
        chosen: taken_with(engine, order, found.chosen, waiting.group),
    }
}

/// Counts the members of some collections, from one to another, that are still to be finalized, and finds the one that an order chooses
/// (RM 7.6.1).
pub fn find_candidates(
    engine: &Engine,
    code: &Code,
    order: Order,
    first: u64,
    last: u64,
) -> Candidates
    ghost sets: { List ℕ }
    requires range { AreFromTo first last sets }
    requires rise { Rise 1 engine.now.stock.objects }
    requires needs { engine.now.stock.needs ≡ needs_of code.now }
    ensures count { result.count ≡ length (due code.now sets engine.now.stock.objects) }
    ensures chosen { IsTaken code.now order result.count (due code.now sets engine.now.stock.objects) result.chosen }
{
    let _ = code;
    let mut found = Candidates {
        count: 0,
        chosen: None,
    };
    let mut start = Start::Collection(first);
    while let Some(waiting) = engine.stock.next_group(start, last) {
        found = with_group(engine, order, found, waiting);
        start = Start::Behind(waiting.group);
    }
    found
}

/// Takes the collections of the layer at this place out of the layers of the master that is left so, of which it is the newest: their
/// finalization starts, and their members are to be finalized (RM 7.6.1). Unchanged where memory is refused.
pub fn empty_layer(
    engine: &mut Engine,
    code: &Code,
    departure: Departure,
    at: usize,
    count: usize,
) -> Result<(), AllocError>
    ghost t: { Departed × Owned }
    requires layer { EmptiesLayer code.now engine.old departure.failed departure.pending departure.after at count t.0 t.1 }
    requires waiting { 0 < vec_len engine.old.control }
    ensures ok { OnOk result (Makes code.now engine.old engine.new (Table.next_layer code.now t.0.master t.0.layers t.0.failed t.0.pending t.0.after t.0.control t.0.world)) }
    ensures err { OnErr result (GoesOn engine.old engine.new engine.old.mode engine.old.cells.items) }
{
    let _ = code;
    reserve(&mut engine.control, 1)?;
    let numbers = numbers_to(engine.owned[at].number, count);
    engine.take_out(departure, at);
    start_collections(&mut engine.owned, numbers.first, numbers.last);
    engine.control.push_reserved(Frame::Emptying {
        first: numbers.first,
        last: numbers.last,
        failed: false,
    });
    Ok(())
}
