//! The desk that several seats share.
ghost use Rattle.std.specs.Prelude.{◌≡◌, ℕ, ◌<◌, ◌≤◌, ◌+◌, ◌*◌, ◌^◌, [], ◌∷◌, ◌++◌, true, Some};
ghost use Rattle.std.specs.Prelude.{IfOk, IfErr};
ghost use Rattle.turn_desk.specs.Shared as spec;
ghost use Rattle.turn_desk.specs.Seats.{IsSeated, known_to};
ghost use Rattle.turn_desk.specs.Entries.{entry_of};
ghost use Rattle.turn_desk.specs.Shared.{HasObject, HasStepped, TakesTurn};
ghost use Rattle.turn_desk.specs.Shared.{Kept, newcomer, HasOnly, IsIdle, with_ticket};
ghost use Rattle.turn_desk.specs.Shared.{with_entry, Leaves, IsWaiting, IsServed, Grows, halved};
ghost use Rattle.turn_desk.specs.Shared.{sibling, AreJoined, IsWhole, OwnsAll};

use super::{Desk, Entry, Object, View};
use crate::turnstile::Turnstile;
use crate::view::Held;
use atomic_table::{Join, Play, Refused, Seat, Split, Table, TableRule};
use std::alloc::{AllocError as OutOfMemory, Global};
use std::marker::PhantomData;
use std::snapshot::Snapshot;
use std::sync::Wait;

type Slot<O> = Held<O, <O as Object>::Event, <O as Object>::Outcome>;

type Knows<O> = View<O, <O as Object>::Event, <O as Object>::Outcome>;

/// The rule of the desk.
pub struct Turns<O> {
    of: PhantomData<O>,
}

impl<O: Object> TableRule<Slot<O>, Knows<O>, Snapshot<O>> for Turns<O> {
    ghost holds = { λ key. Kept O.step key.value };

    ghost first = { λ key. newcomer key.value };
}

struct Draw;

impl<O: Object> Play<Slot<O>, Knows<O>> for Draw {
    ghost then = { λ st m r n. spec.Draws st.first m r n };
}

struct Look<O> {
    of: PhantomData<O>,
}

impl<O: Object> Play<Slot<O>, Knows<O>> for Look<O> {
    ghost then = { λ _ m r n. spec.Looks O.step m r n };
}

struct Pass;

impl<O: Object> Play<Slot<O>, Knows<O>> for Pass {
    ghost then = { λ _ m _ n. spec.Passes m n };
}

struct Tell<O> {
    of: PhantomData<O>,
}

impl<O: Object> Play<Slot<O>, Knows<O>> for Tell<O> {
    ghost then = { λ _ m _ n. spec.TellsOneLog O.step m n };
}

struct Halve;

impl<O: Object> Split<Knows<O>> for Halve {
    ghost left = { spec.halved };

    ghost right = { spec.sibling };
}

struct Add;

impl<O: Object> Join<Knows<O>> for Add {
    ghost both = { spec.joined_view };

    ghost spent = { spec.spent };
}

/// A desk at which several seats ask one object, one after another.
pub struct TurnDesk<O: Object, R> {
    table: Table<Slot<O>, Knows<O>, Snapshot<O>, Turns<O>, Global>,
    queue: Turnstile,
    rt: R,
    ghost sized: { (table.shared.table_id.words ≡ 2) × (table.shared.table_id.slots ≡ 1) },
}

/// A seat of a shared desk. One that is dropped keeps its part, so that the desk can't be closed.
#[derive(Drop)]
pub struct DeskSeat<O: Object> {
    seat: Seat<Slot<O>, Knows<O>>,
}

impl<O: Object, R: Wait> TurnDesk<O, R> {
    // Draws the next ticket. At the last one it waits for ever.
    fn draw(&self, seat: &mut DeskSeat<O>) -> u64
        requires desk { seat.old.seat.table_id ≡ self.now.table.shared.table_id }
        requires idle { IsIdle O.step seat.old.seat.me }
        ensures desk { seat.new.seat.table_id ≡ self.now.table.shared.table_id }
        ensures drawn { seat.new.seat.me ≡
            (with_ticket result seat.old.seat.me.0, seat.old.seat.me.1) }
        ensures small { result + 1 < 2 ^ 64 }
    {
        let shared = &self.table.shared;
        for _ in self.rt.forever() {
            let next = shared.peek(0);
            if next < u64::MAX {
                let found = shared.compare_exchange::<Draw>(&mut seat.seat, 0, next, next + 1);
                if found == next {
                    return next;
                }
            }
        }
        unreachable!()
    }
}

impl<O: Object, R: Wait> TurnDesk<O, R> {
    // Waits until the ticket is served. The object lies in the slot then, and the seat has the slot.
    fn await_turn(&self, seat: &mut DeskSeat<O>, ticket: u64)
        requires desk { seat.old.seat.table_id ≡ self.now.table.shared.table_id }
        requires drawn { IsWaiting seat.old.seat.me ticket }
        ensures desk { seat.new.seat.table_id ≡ self.now.table.shared.table_id }
        ensures turn { TakesTurn O.step seat.old.seat.me seat.new.seat.me }
    {
        let shared = &self.table.shared;
        for _ in self.rt.forever() {
            let served = shared.load::<Look<O>>(&mut seat.seat, 1);
            if served == ticket {
                return;
            }
        }
        unreachable!()
    }
}

impl<O: Object, R> TurnDesk<O, R> {
    // Has the object take its turn where it lies, and puts the entry beside it.
    fn take_turn(
        &self,
        seat: &mut DeskSeat<O>,
        reading: u64,
        event: O::Event,
    ) -> Entry<O::Event, O::Outcome>
        requires desk { seat.old.seat.table_id ≡ self.now.table.shared.table_id }
        requires there { (object : O) × HasObject seat.old.seat.me object }
        ensures desk { seat.new.seat.table_id ≡ self.now.table.shared.table_id }
        ensures view { seat.new.seat.me.0 ≡ seat.old.seat.me.0 }
        ensures entry { result ≡ entry_of reading event result.outcome }
        ensures steps { (object : O) → HasObject seat.old.seat.me object
            → HasStepped O.step object result seat.new.seat.me }
    {
        let held = seat.seat.slot_mut(&self.table.shared, 0);
        let Some(object) = &mut held.object else {
            unreachable!()
        };
        let outcome = object.turn(reading, &event);
        let entry = Entry {
            reading,
            event,
            outcome,
        };
        held.entry = Some(Snapshot::of(&entry));
        entry
    }

    // Passes the turn on, with the entry that lies beside the object.
    fn pass(&self, seat: &mut DeskSeat<O>, ticket: u64, entry: &Entry<O::Event, O::Outcome>)
        requires desk { seat.old.seat.table_id ≡ self.now.table.shared.table_id }
        requires turn { IsServed O.step seat.old.seat.me ticket entry.now }
        ensures desk { seat.new.seat.table_id ≡ self.now.table.shared.table_id }
        ensures passed { seat.new.seat.me ≡ (with_entry entry.now seat.old.seat.me.0, []) }
    {
        let shared = &self.table.shared;
        shared.store::<Pass>(&mut seat.seat, 1, ticket + 1);
    }
}

impl<O: Object, R: Wait> Desk for TurnDesk<O, R> {
    ghost use Rattle.turn_desk.specs.Growing.{grows-nothing, grows-on};

    type Event = O::Event;

    type Outcome = O::Outcome;

    type Seat = DeskSeat<O>;

    ghost seats = { λ desk seat. IsSeated O.step desk.table.shared.table_id seat };

    ghost grown = { λ before more after. Grows (known_to before) more (known_to after) };

    ghost grown_by_nothing = { λ seat. grows-nothing (known_to seat) };

    ghost grown_on = { λ before between after more later.
        grows-on (known_to before) (known_to between) (known_to after) more later };

    fn ask(&self, seat: &mut DeskSeat<O>, reading: u64, event: O::Event) -> O::Outcome {
        self.queue.enter(&self.rt);
        let ticket = self.draw(seat);
        self.await_turn(seat, ticket);
        let entry = self.take_turn(seat, reading, event);
        self.pass(seat, ticket, &entry);
        self.queue.leave(&self.rt);
        entry.outcome
    }
}

// The object of the only slot.
fn object_in<X, E, R>(mut slots: Vec<Held<X, E, R>>) -> X
    requires { HasOnly slots.items }
    ensures { slots.items ≡ record { object = Some result; entry = None } ∷ [] }
{
    let Some(Held { object, entry: _ }) = slots.pop() else {
        unreachable!()
    };
    let Some(object) = object else { unreachable!() };
    slots.destroy_empty();
    object
}

impl<O: Object, R: Drop> TurnDesk<O, R> {
    /// A desk at which this object is asked, and a seat that has the whole of it. Where memory runs
    /// out, the object comes back.
    pub fn new(
        rt: R,
        alloc: Global,
        object: O,
    ) -> Result<(TurnDesk<O, R>, DeskSeat<O>), (O, OutOfMemory)>
        ensures seat { IfOk result (λ made. IsSeated O.step made.0.table.shared.table_id made.1) }
        ensures first { IfOk result (λ made. known_to made.1 ≡ newcomer object) }
        ensures err { IfErr result (λ e. e.0 ≡ object) }
    {
        let key = Snapshot::of(&object);
        let Ok(mut slots) = Vec::with_capacity(alloc, 1) else {
            return Err((object, OutOfMemory));
        };
        slots.push_reserved(Held {
            object: Some(object),
            entry: None,
        });
        match Table::new(alloc, &[0, 0], slots, &key) {
            Ok((table, seat)) => {
                let queue = Turnstile::new();
                Ok((TurnDesk { table, queue, rt }, DeskSeat { seat }))
            }
            Err(Refused { slots }) => Err((object_in(slots), OutOfMemory)),
        }
    }

    /// Ends the desk, and gives its object back. The seat has the whole desk: every seat that was
    /// split off is joined into it.
    pub fn close(self, seat: DeskSeat<O>) -> O
        requires seat { IsSeated O.step self.table.shared.table_id seat }
        requires whole { IsWhole (known_to seat) }
        ensures left { (opening : O) → (known_to seat).opening ≡ Some opening
            → Leaves O.step opening (known_to seat).seen result }
        ensures all { OwnsAll (known_to seat) }
    {
        let TurnDesk {
            table,
            queue: _,
            rt: _,
        } = self;
        let DeskSeat { seat } = seat;
        let mut closed = table.close_with(seat);
        let Held { object, entry: _ } = closed.take(0);
        closed.free();
        let Some(object) = object else { unreachable!() };
        object
    }
}

impl<O: Object, R> TurnDesk<O, R> {
    /// Two seats for one, each with a half of its part. The first keeps the entries that are its
    /// own, and the second has none yet.
    pub fn split(
        &self,
        seat: DeskSeat<O>,
    ) -> Result<(DeskSeat<O>, DeskSeat<O>), (DeskSeat<O>, OutOfMemory)>
        requires { IsSeated O.step self.now.table.shared.table_id seat }
        ensures seats { IfOk result (λ two. IsSeated O.step self.now.table.shared.table_id two.0
            × IsSeated O.step self.now.table.shared.table_id two.1) }
        ensures first { IfOk result (λ two. known_to two.0 ≡ halved (known_to seat)) }
        ensures second { IfOk result (λ two. known_to two.1 ≡ sibling (known_to seat)) }
        ensures always { IfErr result (λ _. ⊥) }
    {
        let DeskSeat { mut seat } = seat;
        let other = self.table.shared.split_seat::<Halve>(&mut seat);
        Ok((DeskSeat { seat }, DeskSeat { seat: other }))
    }

    /// One seat for two. It has both parts, the entries that are own to either, and has seen what
    /// the one of them has that saw more, which begins with what the other saw.
    pub fn join(
        &self,
        a: DeskSeat<O>,
        b: DeskSeat<O>,
    ) -> Result<DeskSeat<O>, (DeskSeat<O>, DeskSeat<O>, OutOfMemory)>
        requires first { IsSeated O.step self.now.table.shared.table_id a }
        requires second { IsSeated O.step self.now.table.shared.table_id b }
        ensures seat { IfOk result (λ one. IsSeated O.step self.now.table.shared.table_id one) }
        ensures joined { IfOk result (λ one. AreJoined (known_to a) (known_to b) (known_to one)) }
        ensures always { IfErr result (λ _. ⊥) }
    {
        let DeskSeat { mut seat } = a;
        let DeskSeat { seat: other } = b;
        let shared = &self.table.shared;
        shared.join_seat::<Add>(&mut seat, other);
        shared.load::<Tell<O>>(&mut seat, 1);
        Ok(DeskSeat { seat })
    }
}
