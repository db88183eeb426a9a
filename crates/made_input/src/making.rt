//! The requests, put one after another.
ghost use Rattle.std.specs.Prelude.{◌≡◌, ◌≢◌, ◌<◌, ◌-◌, IfOk, OnOk, length};
ghost use Rattle.cse_server.specs.Outside.{EndsByFault, sink_told};
ghost use Rattle.entity_model.specs.Opening.{opening};
ghost use Rattle.resource_model.specs.Home.{default_home};
ghost use Rattle.made_input.specs.Requests.{IsMade, IsMadeEvent, IsMaker};
ghost use Rattle.made_input.specs.Requests.{first_inputs, made_inputs};
ghost use Rattle.made_input.specs.Making.{Generates, IsMadeLine, Makes, MakesAll, TakesOne};
ghost use Rattle.made_input.specs.Making.{HasRoom};

use crate::line::line_of;
use crate::requests::{FIRST, Maker, first_request, made_request};
use crate::tally::{NONE, Tally};
use cse_machine::{Event, Outcome, step};
use entity_model::Entity;
use m2m_io::{Sink, Status};
use primitive_json::Request;
use resource_tree::IndexTree;
use std::alloc::{AllocError as OutOfMemory, Global};
use tree_model::{Home, Tree};

// The texts of the request of an event.
fn maker_of(alloc: Global, event: Event) -> Result<Maker, OutOfMemory>
    requires { IsMadeEvent event }
    ensures { IfOk result IsMaker }
{
    match event {
        Event::Ask(request) => Maker::of(alloc, request),
        Event::Take | Event::Tick => Maker::new(alloc),
    }
}

// Puts a request to an entity at a reading, counts what it is answered, and gives back the texts
// that the next one has too.
fn take_request<T: Tree>(
    alloc: Global,
    entity: &mut Entity<T>,
    tally: &mut Tally,
    reading: u64,
    request: Request,
) -> Result<Maker, OutOfMemory>
    requires room { HasRoom tally.old }
    requires made { IsMade request }
    ensures takes { OnOk result
        (TakesOne reading request entity.old tally.old entity.new tally.new) }
    ensures maker { IfOk result IsMaker }
{
    let event = Event::Ask(request);
    match step(alloc, entity, reading, &event) {
        Outcome::Starved { .. } => Err(OutOfMemory),
        outcome => {
            *tally = tally.with(&event, &outcome);
            Ok(maker_of(alloc, event)?)
        }
    }
}

// Puts the requests that come first, which aren't counted.
fn take_first<T: Tree>(alloc: Global, entity: &mut Entity<T>) -> Result<(), OutOfMemory>
    ensures { OnOk result (MakesAll first_inputs entity.old entity.new) }
{
    let mut uncounted = NONE;
    let mut maker = Maker::new(alloc)?;
    for place in 0..FIRST {
        let request = first_request(alloc, maker, place)?;
        maker = take_request(alloc, entity, &mut uncounted, 0, request)?;
    }
    Ok(())
}

// Puts so many requests that are counted, each at the reading that is its number, from 0.
fn take_made<T: Tree>(
    alloc: Global,
    entity: &mut Entity<T>,
    requests: u64,
) -> Result<Tally, OutOfMemory>
    ensures { IfOk result (λ tally. Makes (made_inputs requests) entity.old entity.new tally) }
{
    let mut tally = NONE;
    let mut maker = Maker::new(alloc)?;
    for i in 0..requests {
        let request = made_request(alloc, maker, i)?;
        maker = take_request(alloc, entity, &mut tally, i, request)?;
    }
    Ok(tally)
}

// An entity with the default home, as it opens at the reading 0.
fn opened(alloc: Global) -> Result<Entity<IndexTree>, OutOfMemory>
    ensures { IfOk result (λ entity. entity ≡ opening default_home 0) }
{
    Entity::open(alloc, Home::with_defaults(alloc)?, IndexTree::new(alloc), 0)
}

// How many resources an entity has.
fn resources_of<T: Tree>(entity: &Entity<T>) -> u64
    ensures { result ≡ length entity.now.nodes }
{
    entity.tree.len()
}

// How many items its outbox has.
fn notes_of<T: Tree>(entity: &Entity<T>) -> u64
    ensures { result ≡ length entity.now.items }
{
    entity.outbox.len()
}

// Puts all requests to an entity that opens for them, and gives the line.
fn made_line(alloc: Global, requests: u64) -> Result<Vec<u8>, OutOfMemory>
    ensures { IfOk result (λ text. IsMadeLine requests text.items) }
{
    let mut entity = opened(alloc)?;
    take_first(alloc, &mut entity)?;
    let tally = take_made(alloc, &mut entity, requests)?;
    let (resources, notes) = (resources_of(&entity), notes_of(&entity));
    line_of(alloc, requests, &tally, resources, notes)
}

/// Opens an entity with the default home at the reading 0, puts the made requests to it, of which
/// so many are counted, and writes one line on what they were answered, by one call of the sink.
/// Where memory runs out for any of them, nothing is written.
///
/// The line says how many requests were counted, how many Creates made a resource, how many
/// Retrieves and how many fan-outs were answered, and how many others there were; and how many
/// resources and items of the outbox the entity then has.
pub fn generate<O: Sink>(alloc: Global, requests: u64, out: &mut O) -> Status
    ensures makes { Generates requests result
        (sink_told (O.written out.old) (O.puts out.old))
        (sink_told (O.written out.new) (O.puts out.new)) }

    // A fault is answered where the sink failed in this call, and only there.
    ensures writes { EndsByFault Status.WriteFault result (O.faults out.old) (O.faults out.new) }
    ensures usage { result ≢ Status.Usage }
    ensures reads { result ≢ Status.ReadFault }
{
    let Ok(text) = made_line(alloc, requests) else {
        return Status::Memory;
    };
    match out.put(&text) {
        Ok(()) => Status::Done,
        Err(_) => Status::WriteFault,
    }
}
