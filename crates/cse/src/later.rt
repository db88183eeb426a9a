//! Requests that are answered later, as the log says them.
use cse_cli::RunObserver;
use devices::Log;
use primitive_json::{Reply, Request};
use std::io::Eprint;
use std::time::Clock;

/// A log that says which accepted requests were run, and how many wait.
#[derive(Drop)]
pub(crate) struct LaterLog<R> {
    log: Log<R>,
}

impl<R: Clock + Eprint + Copy + Drop> LaterLog<R> {
    /// What this log says.
    pub(crate) fn new(log: Log<R>) -> Self {
        LaterLog { log }
    }
}

impl<R: Clock + Eprint + Copy + Drop> RunObserver for LaterLog<R> {
    fn ran(&self, number: u64, request: &Request, reply: &Reply) {
        self.log.say_run(number, request, reply);
    }

    fn waiting(&self, count: usize) {
        if let Some(figures) = self.log.figures() {
            figures.set_waiting(count);
        }
    }
}
