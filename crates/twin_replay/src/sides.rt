//! Two entities, and what a line does to them.
ghost use Rattle.std.specs.Prelude.{◌≡◌, true, IfOk, OnOk, option_map};
ghost use Rattle.entity_model.specs.Opening.{opening};
ghost use Rattle.cse_machine.specs.Step.{Step};
ghost use Rattle.twin_replay.specs.Sides as spec;
ghost use Rattle.twin_replay.specs.Sides.{AsksSides, ComparesSides, IsVerdict};
ghost use Rattle.twin_replay.specs.Sides.{Prepares, TakesLine, TakesRequest};

use crate::lines::{Part, TwinLine, asking_line, left_line, opening_line, right_line};
use crate::texts::{answer_text, line_of, outcome_text};
use cse_machine::{Event, Outcome, step};
use entity_model::Entity;
use m2m_value::{Scratch, Text};
use primitive_json::Request;
use primitive_replay::{Line, LineForm};
use resource_tree::IndexTree;
use sight_compare::same_sight;
use std::alloc::{AllocError as OutOfMemory, Global};
use tree_model::Home;

/// Two entities with one home, which lines come next for them, and the reading of the clock at
/// which the next request is asked.
#[derive(Drop)]
pub struct Sides {
    pub home: Home,
    pub part: Part,
    pub reading: u64,
    pub left: Entity<IndexTree>,
    pub right: Entity<IndexTree>,
}

impl LineForm for Sides {
    ghost use Rattle.twin_replay.specs.Twins.{next_form};

    type Line = TwinLine;

    ghost reads = { next_form };

    fn read_line(
        &self,
        alloc: Global,
        scratch: &mut Scratch,
        text: &[u8],
    ) -> Result<Option<TwinLine>, OutOfMemory> {
        match &self.part {
            Part::Before => Ok(opening_line(text)),
            Part::LeftSide => left_line(alloc, scratch, text),
            Part::RightSide => right_line(alloc, &self.home, scratch, text),
            Part::Asking(originator) => asking_line(alloc, originator, scratch, text),
        }
    }
}

/// An entity with this home, as it opens at the reading 0.
fn opened(alloc: Global, home: &Home) -> Result<Entity<IndexTree>, OutOfMemory>
    ensures { IfOk result (λ entity. entity ≡ opening home.now 0) }
{
    Entity::open(alloc, home.copy(alloc)?, IndexTree::new(alloc), 0)
}

/// Two entities with this home, before the first line.
pub(crate) fn starting(alloc: Global, home: Home) -> Result<Sides, OutOfMemory>
    ensures { IfOk result (λ sides. sides ≡ spec.starting home) }
{
    let left = opened(alloc, &home)?;
    let right = opened(alloc, &home)?;
    Ok(Sides {
        home,
        part: Part::Before,
        reading: 0,
        left,
        right,
    })
}

/// Says that there was memory for what this came of. An `Err` is want of memory in that.
fn memory_for(outcome: &Outcome) -> Result<(), OutOfMemory>
    ensures { OnOk result (spec.has_memory outcome.now ≡ true) }
{
    match outcome {
        Outcome::Done(_) | Outcome::Forward { .. } | Outcome::Item(_) | Outcome::Ticked => Ok(()),
        Outcome::Starved { .. } => Err(OutOfMemory),
    }
}

/// Puts a request to an entity. An `Err` is want of memory in that.
fn put_request(
    alloc: Global,
    entity: &mut Entity<IndexTree>,
    reading: u64,
    request: Request,
) -> Result<(), OutOfMemory>
    ensures { OnOk result (TakesRequest reading request entity.old entity.new) }
{
    let event = Event::Ask(request);
    let outcome = step(alloc, entity, reading, &event);
    memory_for(&outcome)
}

/// Does what a line says that prepares an entity.
fn prepare(
    alloc: Global,
    entity: &mut Entity<IndexTree>,
    reading: &mut u64,
    line: Line,
) -> Result<(), OutOfMemory>
    ensures { OnOk result (Prepares line reading.old reading.new entity.old entity.new) }
{
    match line {
        Line::Empty => Ok(()),
        Line::Reading(moment) => {
            *reading = moment;
            Ok(())
        }
        Line::Ask(request) => put_request(alloc, entity, *reading, request),
    }
}

/// Lets the time pass up to a reading.
fn tick(alloc: Global, entity: &mut Entity<IndexTree>, reading: u64) -> Result<(), OutOfMemory>
    ensures { OnOk result (Step reading Event.Tick entity.old Outcome.Ticked entity.new) }
{
    match step(alloc, entity, reading, &Event::Tick) {
        Outcome::Ticked => Ok(()),
        _ => Err(OutOfMemory),
    }
}

/// The verdict on two entities for an originator.
fn verdict(
    alloc: Global,
    left: &Entity<IndexTree>,
    right: &Entity<IndexTree>,
    originator: &Text,
) -> Result<Vec<u8>, OutOfMemory>
    ensures { IfOk result (λ text. IsVerdict originator.now left.now right.now text.items) }
{
    if same_sight(left, right, originator.entries()) {
        line_of(alloc, b"sights agree")
    } else {
        line_of(alloc, b"sights differ")
    }
}

/// Brings both sides to the later one of their last moments, and gives the verdict on them.
fn compare(alloc: Global, sides: &mut Sides, originator: Text) -> Result<Vec<u8>, OutOfMemory>
    ensures { IfOk result (λ text. ComparesSides originator sides.old sides.new text.items) }
{
    let moment = sides.left.last.max(sides.right.last);
    tick(alloc, &mut sides.left, moment)?;
    tick(alloc, &mut sides.right, moment)?;
    let text = verdict(alloc, &sides.left, &sides.right, &originator)?;
    sides.part = Part::Asking(originator);
    sides.reading = moment;
    Ok(text)
}

/// Asks both sides a request, and gives the text of what came of it.
fn ask_both(alloc: Global, sides: &mut Sides, request: Request) -> Result<Vec<u8>, OutOfMemory>
    ensures { IfOk result (λ text. AsksSides request sides.old sides.new text.items) }
{
    let event = Event::Ask(request);
    let left = step(alloc, &mut sides.left, sides.reading, &event);
    let right = step(alloc, &mut sides.right, sides.reading, &event);
    let Event::Ask(request) = event else {
        unreachable!();
    };
    let left = outcome_text(alloc, &request, left)?;
    let right = outcome_text(alloc, &request, right)?;
    answer_text(alloc, &left, &right)
}

impl Sides {
    ghost use Rattle.std.specs.Prelude.{◌≡◌};

    /// Another part of the lines comes next, and the reading is 0 again.
    fn enter(&mut self, part: Part)
        ensures { self.new ≡ record self.old { part = part; reading = 0 } }
    {
        self.part = part;
        self.reading = 0;
    }
}

/// Does what a line says, and gives what is to be written for it.
pub(crate) fn take_line(
    alloc: Global,
    sides: &mut Sides,
    line: TwinLine,
) -> Result<Option<Vec<u8>>, OutOfMemory>
    ensures { IfOk result (λ said.
        TakesLine line sides.old sides.new (option_map (λ text. text.items) said)) }
{
    match line {
        TwinLine::OpensLeft => {
            sides.enter(Part::LeftSide);
            Ok(None)
        }
        TwinLine::PreparesLeft(line) => {
            prepare(alloc, &mut sides.left, &mut sides.reading, line)?;
            Ok(None)
        }
        TwinLine::OpensRight => {
            sides.enter(Part::RightSide);
            Ok(None)
        }
        TwinLine::PreparesRight(line) => {
            prepare(alloc, &mut sides.right, &mut sides.reading, line)?;
            Ok(None)
        }
        TwinLine::Compares(originator) => Ok(Some(compare(alloc, sides, originator)?)),
        TwinLine::AsksBoth(request) => Ok(Some(ask_both(alloc, sides, request)?)),
    }
}
