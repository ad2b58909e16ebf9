//! The parts of the order, asked of the tables.

ghost use Rattle.std.specs.Prelude.{◌≡◌, ◌<◌, ◌^◌, IfOk, OnOk, None, true, nat_lt, length, take, if◌then◌else◌};
ghost use Rattle.std.specs.List.{slice_get};
ghost use Rattle.std.specs.Option.{option_map, option_and_then};
ghost use Rattle.ccr_model.specs.Order.{how_of};
ghost use Rattle.ccr_ledger.specs.Books.{runners};
ghost use Rattle.ccr_engine.specs.Ready.{IsLeastFirst};
ghost use Rattle.ccr_engine.specs.Numbered.{IsNoneBut};
ghost use Rattle.ccr_engine.specs.Parts.{admission_in, are_done_in, choose_in, fire_in, first_admit_in, line_in, post_in, put_in, run_in, start_at_in, start_in};

use crate::number_set::NumberSet;
use ccr_base::{
    ActorNo, CauseNo, List, Msg, MsgId, OutOfMemory, PortNo, QueueNo, Spot, TaskId, Value,
};
use ccr_handler::PlayEnd;
use ccr_ledger::Ledger;
use ccr_model::{EndHow, Event};
use ccr_wiring::{PosterPart, Wiring};
use std::alloc::Global;

/// The post as a message of this name.
pub(crate) fn message_of(
    alloc: Global,
    id: MsgId,
    port: PortNo,
    value: Value,
    causes: &[CauseNo],
) -> Result<Msg, OutOfMemory>
    ensures { IfOk result (λ message. message ≡ record { id = id; port = port; value = value; causes = causes.now }) }
{
    let mut own = List::new(alloc);
    own.extend(causes)?;
    Ok(Msg {
        id,
        port,
        value,
        causes: own,
    })
}

/// The poster's next line.
fn next_line(
    alloc: Global,
    ledger: &Ledger,
    number: ActorNo,
    poster: &PosterPart,
) -> Result<Option<Event>, OutOfMemory>
    ensures { IfOk result (λ event. event ≡ line_in ledger.now number poster.now) }
{
    let place = ledger.script_posts(number);
    let Some(sent) = poster.posts.as_slice().get(place as usize) else {
        return Ok(None);
    };
    let id = MsgId::Script {
        actor: number,
        place,
    };
    let message = message_of(alloc, id, sent.port(), sent.value(), sent.causes())?;
    Ok(Some(Event::Post(message)))
}

/// The post that is due next: the lowest poster with posts left makes it. `poster` skips those that have none.
pub(crate) fn first_post(
    alloc: Global,
    wiring: &Wiring,
    ledger: &Ledger,
    poster: &mut usize,
) -> Result<Option<Event>, OutOfMemory>
    requires few { length wiring.now.posters < 2 ^ 32 }
    requires done { are_done_in ledger.now 0 (take poster.old wiring.now.posters) ≡ true }
    ensures event { IfOk result (λ event. event ≡ post_in ledger.now 0 wiring.now.posters) }
    ensures done { are_done_in ledger.now 0 (take poster.new wiring.now.posters) ≡ true }
{
    let posters = wiring.parts().posters.as_slice();
    for number in *poster..posters.len() {
        if let Some(event) = next_line(alloc, ledger, number as u32, &posters[number])? {
            return Ok(Some(event));
        }
        *poster = number + 1;
    }
    Ok(None)
}

/// The firing of the task at the spot, where it has a selection.
pub(crate) fn choose_at(
    wiring: &Wiring,
    ledger: &mut Ledger,
    task: TaskId,
    spot: Spot,
) -> Result<Option<Event>, OutOfMemory>
    ensures event { IfOk result (λ event. event ≡ choose_in wiring.now task ledger.old spot) }
    ensures kept { OnOk result (ledger.new ≡ ledger.old) }
{
    let Some(messages) = ledger.selection(wiring, spot)? else {
        return Ok(None);
    };
    let cuts = ledger.cuts(wiring, spot)?;
    Ok(Some(Event::Fire {
        task,
        spot,
        messages: List::from_vec(messages),
        cuts: List::from_vec(cuts),
    }))
}

/// The firing of the task at the spot, where it can fire.
pub(crate) fn fire_at(
    wiring: &Wiring,
    ledger: &mut Ledger,
    task: TaskId,
    spot: Spot,
) -> Result<Option<Event>, OutOfMemory>
    ensures event { IfOk result (λ event. event ≡ fire_in wiring.now task ledger.old spot) }
    ensures kept { OnOk result (ledger.new ≡ ledger.old) }
{
    if !ledger.lives(wiring, spot) || !ledger.room(wiring, spot) {
        return Ok(None);
    }
    choose_at(wiring, ledger, task, spot)
}

/// The admission of the domain's oldest waiting task, where it may enter.
fn admit_at(ledger: &Ledger, domain: usize) -> Option<Event>
    ensures { result ≡ admission_in ledger.now domain }
{
    let task = ledger.oldest_waiting(domain)?;
    if ledger.may_admit_task(task) {
        Some(Event::Admit(task))
    } else {
        None
    }
}

/// The admission at the domain of this number, where there is one.
fn admit_number(wiring: &Wiring, ledger: &Ledger, number: usize) -> Option<Event>
    ensures { result ≡ (if nat_lt number (length wiring.now.arbiters) then admission_in ledger.now number else None) }
{
    if number < wiring.parts().arbiters.as_slice().len() {
        admit_at(ledger, number)
    } else {
        None
    }
}

/// The admission at the first domain that has one, which is one of these. Those that are asked in vain leave.
pub(crate) fn first_admit(
    wiring: &Wiring,
    ledger: &Ledger,
    domains: &mut NumberSet,
) -> Option<Event>
    requires others { IsNoneBut (admission_in ledger.now) (length wiring.now.arbiters) domains.old }
    requires least { IsLeastFirst domains.old }
    ensures event { result ≡ first_admit_in ledger.now 0 wiring.now.arbiters }
    ensures others { IsNoneBut (admission_in ledger.now) (length wiring.now.arbiters) domains.new }
    ensures least { IsLeastFirst domains.new }
{
    'asking: while let Some(number) = domains.first() {
        if let Some(event) = admit_number(wiring, ledger, number) {
            return Some(event);
        }
        domains.leave_first();
    }
    None
}

/// The put of the task that fired first among those that may be put.
pub(crate) fn first_put(wiring: &Wiring, ledger: &Ledger, ready: &NumberSet) -> Option<Event>
    ensures { result ≡ option_and_then (put_in wiring.now ledger.now) (slice_get ready.now 0) }
{
    let task = ledger.fired(ready.first()?)?;
    Some(Event::Put {
        task,
        dropped: ledger.drops(wiring, task),
    })
}

/// The end that the play asks for.
pub(crate) fn how_of(end: PlayEnd) -> EndHow
    ensures { result ≡ how_of end }
{
    match end {
        PlayEnd::Done => EndHow::Done,
        PlayEnd::Failed(value) => EndHow::Failed(value),
        PlayEnd::Yield(_) => EndHow::Yield,
    }
}

/// The next event of a running task: its next post, its end for want of budget, or the end of its play.
fn run_task(
    alloc: Global,
    wiring: &Wiring,
    ledger: &Ledger,
    task: TaskId,
) -> Result<Event, OutOfMemory>
    ensures { IfOk result (λ event. event ≡ run_in wiring.now ledger.now task) }
{
    let Some(card) = ledger.card(task) else {
        return Ok(Event::End {
            task,
            how: EndHow::Done,
        });
    };
    let Some(post) = card.play.post(card.made as usize) else {
        return Ok(Event::End {
            task,
            how: how_of(card.play.end()),
        });
    };
    if !ledger.budget_lasts(wiring) {
        return Ok(Event::End {
            task,
            how: EndHow::Shed,
        });
    }
    let id = MsgId::Task {
        task,
        place: card.made,
    };
    let message = message_of(alloc, id, post.port, post.value, post.causes)?;
    Ok(Event::Post(message))
}

/// The next event of the running task that started first.
pub(crate) fn first_run(
    alloc: Global,
    wiring: &Wiring,
    ledger: &Ledger,
) -> Result<Option<Event>, OutOfMemory>
    ensures { IfOk result (λ event. event ≡ option_map (run_in wiring.now ledger.now) (slice_get (runners ledger.now.running) 0)) }
{
    match ledger.running().first() {
        Some(runner) => Ok(Some(run_task(alloc, wiring, ledger, runner.task)?)),
        None => Ok(None),
    }
}

/// The start of the queue's oldest task.
fn start_at(ledger: &Ledger, closer: ActorNo, queue: QueueNo) -> Option<Event>
    ensures { result ≡ start_at_in closer ledger.now queue }
{
    let task = ledger.oldest_queued(queue)?;
    Some(Event::Start {
        task,
        actor: closer,
    })
}

/// The start at the queue of this number, where there is one.
fn start_number(wiring: &Wiring, ledger: &Ledger, closer: ActorNo, number: usize) -> Option<Event>
    requires { length wiring.now.queues < 2 ^ 32 }
    ensures { result ≡ (if nat_lt number (length wiring.now.queues) then start_at_in closer ledger.now number else None) }
{
    if number < wiring.parts().queues.as_slice().len() {
        start_at(ledger, closer, number as u32)
    } else {
        None
    }
}

/// The start at the first queue that has a task, which is one of these. Those that are asked in vain leave.
pub(crate) fn first_start(
    wiring: &Wiring,
    ledger: &Ledger,
    closer: ActorNo,
    queues: &mut NumberSet,
) -> Option<Event>
    requires few { length wiring.now.queues < 2 ^ 32 }
    requires others { IsNoneBut (start_at_in closer ledger.now) (length wiring.now.queues) queues.old }
    requires least { IsLeastFirst queues.old }
    ensures event { result ≡ start_in closer ledger.now 0 wiring.now.queues }
    ensures others { IsNoneBut (start_at_in closer ledger.now) (length wiring.now.queues) queues.new }
    ensures least { IsLeastFirst queues.new }
{
    'asking: while let Some(number) = queues.first() {
        if let Some(event) = start_number(wiring, ledger, closer, number) {
            return Some(event);
        }
        queues.leave_first();
    }
    None
}
