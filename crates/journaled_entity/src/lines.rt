//! The lines of an event.
ghost use Rattle.std.specs.Prelude.{◌≡◌, ◌<◌, ◌++◌, true, false, IfOk, OnErr};
ghost use Rattle.journal_lines.specs.Lines.{IsReadBack, lines_of, moment_bound};
ghost use Rattle.journal_lines.specs.declared.deed.Deed.TheVariants.{Ask};
ghost use Rattle.journal_opening.specs.Journals.{event_deed};
ghost use Rattle.primitive_json.specs.Members.{retrieves as is_retrieve};
ghost use Rattle.primitive_json.specs.declared.request.RequestParts.{RequestParts};
ghost use Rattle.cse_machine.specs.declared.event.Event.TheVariants as events;
ghost use Rattle.journaled_entity.specs.Changes.{reads_alone};
ghost use Rattle.journaled_entity.specs.Written.{pushed};

use cse_machine::Event;
use journal_lines::{LineFault, push_request, push_take, push_tick};
use primitive_json::{Request, has_form, retrieves};
use std::alloc::Global;

/// Whether the lines of the request are made ready before it is done. They aren't for a Retrieve
/// whose address is that of no poll point, which takes nothing.
fn is_asking_made_ready(request: &Request) -> bool
    ensures { result ≡ false → is_retrieve request.now.op ≡ true }
{
    !retrieves(request.parts().op) || matches!(request.parts().to.entries(), [.., b'p', b'c', b'u'])
}

/// Whether the lines of the event are made ready before it is done. An expiry has none of its own.
pub(crate) fn is_made_ready(event: &Event) -> bool
    ensures { result ≡ false → reads_alone event.now ≡ true }
{
    match event {
        Event::Ask(request) => is_asking_made_ready(request),
        Event::Take => true,
        Event::Tick => false,
    }
}

/// Appends the lines of a request. One that has form and can't be kept is a fault.
fn push_ask(
    alloc: Global,
    lines: &mut Vec<u8>,
    moment: u64,
    request: &Request,
) -> Result<bool, LineFault>
    requires { moment < moment_bound }
    ensures written { IfOk result (λ own. lines.new.items
        ≡ pushed own lines.old.items moment (events.Ask request.now)) }
    ensures readable { IfOk result (λ own. own ≡ true → IsReadBack (Ask request.now)) }
    ensures err { OnErr result (lines.new.items ≡ lines.old.items) }
{
    match push_request(alloc, lines, moment, request) {
        Ok(()) => Ok(true),
        Err(LineFault::Unkept) if !has_form(request) => Ok(false),
        Err(fault) => Err(fault),
    }
}

/// Appends the lines of the taking of an item, and tells whether there was memory for them.
pub(crate) fn push_taking(alloc: Global, lines: &mut Vec<u8>, moment: u64) -> bool
    requires { moment < moment_bound }
    ensures { lines.new.items ≡ pushed result lines.old.items moment events.Take }
{
    match push_take(alloc, lines, moment) {
        Ok(()) => true,
        Err(_) => false,
    }
}

/// Appends the lines of an event, and tells whether it has any. A request that can't be kept is a
/// fault.
pub(crate) fn push_event(
    alloc: Global,
    lines: &mut Vec<u8>,
    moment: u64,
    event: &Event,
) -> Result<bool, LineFault>
    requires { moment < moment_bound }
    ensures written { IfOk result (λ own. lines.new.items
        ≡ pushed own lines.old.items moment event.now) }
    ensures readable { IfOk result (λ own. own ≡ true → IsReadBack (event_deed event.now)) }
    ensures err { OnErr result (lines.new.items ≡ lines.old.items) }
    ensures asked { OnErr result
        ((request : RequestParts) × (event.now ≡ events.Ask request)) }
{
    match event {
        Event::Ask(request) => push_ask(alloc, lines, moment, request),
        Event::Take => Ok(push_taking(alloc, lines, moment)),
        Event::Tick => Ok(false),
    }
}

/// Appends the lines of an expiry where something came or went by it, and tells whether there was
/// memory for that.
pub(crate) fn push_expiry(alloc: Global, lines: &mut Vec<u8>, moment: u64, differs: bool) -> bool
    requires { moment < moment_bound }
    ensures nothing { result ≡ true → differs ≡ false → lines.new.items ≡ lines.old.items }
    ensures tick { result ≡ true → differs ≡ true
        → lines.new.items ≡ lines.old.items ++ lines_of moment (event_deed events.Tick) }
{
    if !differs {
        return true;
    }
    match push_tick(alloc, lines, moment) {
        Ok(()) => true,
        Err(_) => false,
    }
}
