//! How many are at each step on their way through a desk.

/// So many are let in at a time: one has its turn, and the other one is awake when that ends.
const MOST_ASKING: u64 = 2;

/// What one that waits for the disk has to do next.
#[derive(Drop)]
pub(crate) enum Part {
    /// To wait.
    Waits,
    /// To look for a while whether more come, and to settle then.
    Lingers,
    /// To settle for all that wait.
    Leads,
    /// To find that one has settled for it.
    Follows,
    /// To settle for itself, as it has waited for too long.
    Parts,
}

/// How many are at each step. Who asks for what may change something comes, is let in, and asks.
/// Who finds then that not all is on the disk waits. Once nobody comes or asks, one of those that
/// wait settles for all. The others leave then, by a turn of their own that finds nothing to do.
/// Nobody is let in before all have left, so that no such turn finds a new event.
#[derive(Drop)]
pub(crate) struct Group {
    coming: u64,
    asking: u64,
    waiting: u64,
    leaving: u64,
    /// Whether one looks whether more come.
    is_lingering: bool,
    is_settling: bool,
    /// How often one has settled for all.
    rounds: u64,
    /// How many the last one has settled for.
    last: u64,
}

impl Group {
    /// Nobody is there.
    pub(crate) fn new() -> Group {
        Group {
            coming: 0,
            asking: 0,
            waiting: 0,
            leaving: 0,
            is_lingering: false,
            is_settling: false,
            rounds: 0,
            last: 0,
        }
    }

    /// Whether those are let in that come.
    pub(crate) fn is_open(&self) -> bool {
        !self.is_settling && self.leaving == 0
    }

    /// Whether one is let in that has come.
    fn has_room(&self) -> bool {
        self.is_open() && self.asking < MOST_ASKING
    }

    /// Whether one that has come is to be called, as it is let in now.
    fn calls_in(&self) -> bool {
        self.coming > 0 && self.has_room()
    }

    /// Whether one that waits is to settle, as nobody comes or asks.
    fn is_complete(&self) -> bool {
        self.is_open() && self.coming == 0 && self.asking == 0
    }

    /// Whether one that waits is to be called, to settle.
    fn calls_leader(&self) -> bool {
        self.waiting > 0 && self.is_complete()
    }

    /// One more comes.
    pub(crate) fn come(&mut self) {
        self.coming = self.coming.saturating_add(1);
    }

    /// Lets one in that has come, whether there is room or not.
    pub(crate) fn enter(&mut self) {
        self.coming = self.coming.saturating_sub(1);
        self.asking = self.asking.saturating_add(1);
    }

    /// Lets one in that has come, where there is room.
    pub(crate) fn let_in(&mut self) -> bool {
        let has_room = self.has_room();
        if has_room {
            self.enter();
        }
        has_room
    }

    /// One asks that didn't come before.
    pub(crate) fn ask(&mut self) {
        self.asking = self.asking.saturating_add(1);
    }

    /// One that has asked goes. Tells whether one that comes is to be called, and one that waits.
    pub(crate) fn go(&mut self) -> (bool, bool) {
        self.asking = self.asking.saturating_sub(1);
        (self.calls_in(), self.calls_leader())
    }

    /// One that has asked waits. Tells for the end of which round, and whether one that comes is to
    /// be called.
    pub(crate) fn wait(&mut self) -> (u64, bool) {
        self.asking = self.asking.saturating_sub(1);
        self.waiting = self.waiting.saturating_add(1);
        (self.rounds, self.calls_in())
    }

    /// What one does next that waits for the end of this round.
    pub(crate) fn next_part(&mut self, round: u64) -> Part {
        if self.rounds != round {
            return Part::Follows;
        }
        if !self.is_complete() || self.is_lingering {
            return Part::Waits;
        }
        self.is_lingering = true;
        Part::Lingers
    }

    /// Whether as many may still come back as the last one has settled for.
    pub(crate) fn lacks_some(&self) -> bool {
        self.is_complete() && self.waiting < self.last
    }

    /// One that has looked whether more come is to settle, unless some do.
    pub(crate) fn lead(&mut self) -> bool {
        let leads = self.is_complete();
        self.is_lingering = false;
        self.is_settling = leads;
        leads
    }

    /// One that has waited for too long for the end of this round waits no more, unless it is over.
    pub(crate) fn part(&mut self, round: u64) -> Part {
        if self.rounds != round {
            return Part::Follows;
        }
        self.waiting = self.waiting.saturating_sub(1);
        Part::Parts
    }

    /// One has settled for all that wait. The others leave.
    pub(crate) fn end_round(&mut self) {
        self.is_settling = false;
        self.last = self.waiting;
        self.leaving = self.waiting.saturating_sub(1);
        self.waiting = 0;
        self.rounds = self.rounds.wrapping_add(1);
    }

    /// One has left. Tells whether one that waits is to be called.
    pub(crate) fn leave(&mut self) -> bool {
        self.leaving = self.leaving.saturating_sub(1);
        self.calls_leader()
    }
}
