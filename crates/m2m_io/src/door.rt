//! What accepts connections.
ghost use Rattle.std.specs.Prelude.{◌≡◌, ◌≤◌, ◌++◌, [], ℕ, Bool, List, Option, None, Some, true};
ghost use Rattle.std.specs.Prelude.{false, is_err, is_ok, OnOk, OnErr, IfOk, IsNone};
ghost use Rattle.std.specs.Prelude.{if◌then◌else◌};
ghost use Rattle.std.specs.Option.{option_to_list};
ghost use Rattle.m2m_io.specs.Counts.{CountsFaults, no_calls, fails_next, after_call, after_fault};
ghost use Rattle.m2m_io.specs.Door.{given_after, ended_after, told_given};
ghost use Rattle.m2m_io.specs.Told.{Tells, TellsStill};

use crate::calls::Calls;
use crate::{Connection, Failed};
use std::collections::VecDeque;
use std::marker::Model;

/// What accepts connections. It is opened once; then it gives them one by one, and None ends the
/// service.
pub trait Door {
    type Conn: Connection + Send + Drop;

    /// The address at which `open` has last answered Ok, or None where it never has, where the door
    /// tells it.
    ghost opened: { Self → Option (Option (List ℕ)) };

    /// How many connections were given, where the door tells it.
    ghost given: { Self → Option ℕ };

    /// Whether None was given, where the door tells it.
    ghost ended: { Self → Option Bool };

    /// How often the door has failed: the count rises in the calls that fail, and in no other. It
    /// stops at 2^64 - 1.
    ghost faults: { Self → ℕ };

    /// Opens the door at an address, which stands as `host:port`.
    fn open(&mut self, at: &[u8]) -> Result<(), Failed>
        ensures ok { OnOk result
            (Tells (λ _. Some at.now) (opened self.old) (opened self.new)) }
        ensures err { OnErr result (TellsStill (opened self.old) (opened self.new)) }
        ensures given { TellsStill (given self.old) (given self.new) }
        ensures ended { TellsStill (ended self.old) (ended self.new) }
        ensures faults { CountsFaults result (faults self.old) (faults self.new) };

    /// The next connection, or None, after which no other is given.
    fn next(&mut self) -> Result<Option<Self::Conn>, Failed>
        ensures given { Tells (given_after result) (given self.old) (given self.new) }
        ensures ended { Tells (ended_after result) (ended self.old) (ended self.new) }
        ensures over { ended self.old ≡ Some true → IfOk result (λ conn. IsNone conn) }
        ensures opened { TellsStill (opened self.old) (opened self.new) }
        ensures faults { CountsFaults result (faults self.old) (faults self.new) };
}

/// A door in memory, which gives these connections in order and then None. It tells how many it
/// gave until it has had 2^64 - 1 calls, and where it was opened until no memory is found for the
/// address.
#[derive(Drop)]
pub struct MemDoor<X> {
    conns: VecDeque<X>,
    address: Option<Vec<u8>>,
    is_silent: bool,
    given: u64,
    ended: bool,
    calls: Calls,
}

impl<X> Model for MemDoor<X> {
    ghost use Rattle.std.specs.Prelude.{◌≡◌, ◌≤◌, true, length, Some, None, if◌then◌else◌};
    ghost use Rattle.std.specs.Option.{option_map};
    ghost use Rattle.m2m_io.specs.Door.{DoorData};

    ghost Value = { DoorData X };

    ghost view = { λ d. record {
      conns = d.conns.items;
      opened = if d.is_silent then None else Some (option_map (λ a. a.items) d.address);
      given = d.given;
      ended = d.ended;
      calls = d.calls;
    } };

    ghost invariant = { λ d. (d.given ≤ d.calls.made)
        × (d.ended ≡ true → length d.conns.items ≡ 0) };
}

impl<X> MemDoor<X> {
    /// A door that gives these connections. The calls whose numbers, from 1, are in `fails` fail,
    /// those of `open` counted with those of `next`.
    pub fn new(conns: Vec<X>, fails: Vec<u64>) -> Self
        ensures conns { result.conns ≡ conns.items }
        ensures opened { result.opened ≡ Some None }
        ensures given { result.given ≡ 0 }
        ensures ended { result.ended ≡ false }
        ensures calls { result.calls ≡ no_calls fails.items }
    {
        MemDoor {
            conns: VecDeque::from_vec(conns),
            address: None,
            is_silent: false,
            given: 0,
            ended: false,
            calls: Calls::new(fails),
        }
    }
}

impl<X: Connection + Send + Drop> Door for MemDoor<X> {
    type Conn = X;

    ghost opened = { λ d. d.opened };

    ghost given = { told_given };

    ghost ended = { λ d. Some d.ended };

    ghost faults = { λ d. d.calls.faults };

    fn open(&mut self, at: &[u8]) -> Result<(), Failed>
        ensures ok { OnOk result (Tells (λ _. Some at.now) self.old.opened self.new.opened) }
        ensures err { OnErr result (TellsStill self.old.opened self.new.opened) }
        ensures given { TellsStill (told_given self.old) (told_given self.new) }
        ensures ended { TellsStill (Some self.old.ended) (Some self.new.ended) }
        ensures faults { CountsFaults result self.old.calls.faults self.new.calls.faults }

        // Which calls fail, and what they leave.
        ensures variant { is_err result ≡ fails_next self.old.calls }
        ensures conns { self.new.conns ≡ self.old.conns }
        ensures calls { self.new.calls
            ≡ (if is_ok result then after_call self.old.calls else after_fault self.old.calls) }
    {
        self.calls.next()?;
        match Vec::from_slice(*self.conns.allocator(), at) {
            Ok(at) => self.address = Some(at),
            Err(_) => self.is_silent = true,
        }
        Ok(())
    }

    fn next(&mut self) -> Result<Option<X>, Failed>
        ensures given { Tells (given_after result) (told_given self.old) (told_given self.new) }
        ensures ended { Tells (ended_after result) (Some self.old.ended) (Some self.new.ended) }
        ensures over { Some self.old.ended ≡ Some true → IfOk result (λ conn. IsNone conn) }
        ensures opened { TellsStill self.old.opened self.new.opened }
        ensures faults { CountsFaults result self.old.calls.faults self.new.calls.faults }

        // Which calls fail, and which connection each other one gives.
        ensures variant { is_err result ≡ fails_next self.old.calls }
        ensures first { IfOk result
            (λ conn. self.old.conns ≡ option_to_list conn ++ self.new.conns) }
        ensures last { IfOk result (λ conn. IsNone conn → self.old.conns ≡ []) }
        ensures kept { OnErr result (self.new.conns ≡ self.old.conns) }
        ensures calls { self.new.calls
            ≡ (if is_ok result then after_call self.old.calls else after_fault self.old.calls) }
    {
        self.calls.next()?;
        let conn = self.conns.pop_front();
        if conn.is_some() {
            self.given = self.given.saturating_add(1);
        } else {
            self.ended = true;
        }
        Ok(conn)
    }
}
