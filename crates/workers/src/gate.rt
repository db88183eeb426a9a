//! A door that workers share.
ghost use Rattle.std.specs.Prelude.{◌≡◌, ℕ, Option, None, Some, IfOk, IfErr};
ghost use Rattle.workers.specs.declared.gate.Ending.TheVariants.{Fault};
ghost use Rattle.workers.specs.Gate.{DoorTold, door_tells, silent_door, HasEnded, IsOneLess};
ghost use Rattle.workers.specs.Gate.{TakesConnections, ServesDoor, with_taken};
ghost use Rattle.m2m_io.specs.Told.{Tells};

use crate::arrival::Arrival;
use m2m_io::Door;
use std::marker::{Brand, Model, PhantomData};

/// What a door told before workers shared it, and how many connections are to be accepted.
pub trait Entrance {
    ghost start: { DoorTold };

    ghost accept: { Option ℕ };
}

impl Entrance for Brand {
    ghost start = { silent_door };

    ghost accept = { None };
}

/// Why a door gives no more connections.
#[derive(Clone, Copy, Debug, PartialEq, Eq)]
pub enum Ending {
    /// It gave None.
    Over,
    /// As many connections were taken as were to be accepted.
    Enough,
    /// It failed.
    Fault,
}

/// That a gate gives no more connections, and why. Only a gate makes one.
#[derive(Debug, Drop)]
pub(crate) struct Closed {
    why: Ending,
}

/// A door, how many connections it may still give, where that is limited, and why it gives no more.
/// It is the door that told `J::start`, and `J::accept` connections are to be accepted.
pub struct Gate<D: Door, J: Entrance> {
    door: D,
    left: Option<u64>,
    ending: Option<Ending>,
    of: PhantomData<J>,
}

impl<D: Door, J: Entrance> Model for Gate<D, J> {
    ghost use Rattle.workers.specs.Gate.{GateData, door_tells, Guards};

    ghost Value = { GateData D };

    ghost view = { λ g. record { door = g.door; left = g.left; ending = g.ending } };

    ghost invariant = { λ g. Guards J.accept J.start
        (door_tells D.opened D.given D.ended D.faults g.door) g.left g.ending };
}

impl<D: Door, J: Entrance> Gate<D, J> {
    /// A door from which nothing was taken yet.
    pub fn new(door: D, accept: Option<u64>) -> Gate<D, J>
        requires start { door_tells D.opened D.given D.ended D.faults door ≡ J.start }
        requires accept { accept ≡ J.accept }
        ensures { result.door ≡ door }
    {
        Gate {
            door,
            left: accept,
            ending: None,
            of: PhantomData,
        }
    }

    // Takes a connection, so that so many may still be taken.
    fn take(&mut self, left: Option<u64>) -> Result<Arrival<D::Conn>, Closed>
        requires going { self.old.ending ≡ None }
        requires less { IsOneLess self.old.left left }
        ensures ended { IfErr result (λ closed. self.new.ending ≡ Some closed.why) }
        ensures taken { Tells (with_taken result) (D.given self.old.door) (D.given self.new.door) }
    {
        match self.door.next() {
            Ok(Some(conn)) => {
                self.left = left;
                Ok(Arrival::new(conn))
            }
            Ok(None) => {
                self.ending = Some(Ending::Over);
                Err(Closed { why: Ending::Over })
            }
            Err(_) => {
                self.ending = Some(Ending::Fault);
                Err(Closed { why: Ending::Fault })
            }
        }
    }

    /// The next connection. At `Err` the door gives no more, and isn't asked again then.
    pub(crate) fn next(&mut self) -> Result<Arrival<D::Conn>, Closed>
        ensures ended { IfErr result (λ closed. self.new.ending ≡ Some closed.why) }
        ensures taken { Tells (with_taken result) (D.given self.old.door) (D.given self.new.door) }
    {
        if let Some(why) = self.ending {
            return Err(Closed { why });
        }
        match self.left {
            None => self.take(None),
            Some(0) => {
                self.ending = Some(Ending::Enough);
                Err(Closed {
                    why: Ending::Enough,
                })
            }
            Some(left) => self.take(Some(left - 1)),
        }
    }

    /// The door, and why it gives no more connections, if that is so.
    pub fn into_door(self) -> (D, Option<Ending>)
        ensures ending { result.1 ≡ self.ending }
        ensures takes { TakesConnections J.accept result.1 J.start
            (door_tells D.opened D.given D.ended D.faults result.0) }
    {
        let Gate {
            door,
            left: _,
            ending,
            of: _,
        } = self;
        (door, ending)
    }

    /// The door, which gives no more connections; at `Err` it failed.
    #[tactic(auto, using(crate::proofs::GateLemmas::served_cases))]
    pub fn into_served(self) -> Result<D, D>
        requires { HasEnded self.ending }
        ensures ok { IfOk result (λ door. ServesDoor J.accept J.start
            (door_tells D.opened D.given D.ended D.faults door)) }
        ensures err { IfErr result (λ door. TakesConnections J.accept (Some Fault) J.start
            (door_tells D.opened D.given D.ended D.faults door)) }
    {
        let (door, ending) = self.into_door();
        match ending {
            Some(Ending::Over) => Ok(door),
            Some(Ending::Enough) => Ok(door),
            Some(Ending::Fault) => Err(door),
            None => unreachable!(),
        }
    }
}
