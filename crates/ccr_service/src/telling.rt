//! The answers of all requests.

ghost use Rattle.std.specs.Prelude.{◌≡◌, ℕ, ◌+◌, ◌<◌, ◌^◌, ◌++◌, true, Some, IfOk, OnOk, length};
ghost use Rattle.std.specs.List.{slice_get};
ghost use Rattle.ccr_model.specs.Legal.{IsLegal, IsQuiet, is_complete};
ghost use Rattle.ccr_service.specs.declared.parts.ClientPart.{ClientPart};
ghost use Rattle.ccr_service.specs.Expansion.{expansion};
ghost use Rattle.ccr_service.specs.Telling.{answers_of, told_asks, told_clients};

use crate::tables::{RequestId, Tables, found, tell};
use crate::{Answer, AskPart, ClientPart, Service};
use ccr_base::{ActorNo, List, OutOfMemory, PortNo};
use ccr_model::History;
use std::alloc::Global;

/// The answers of a client's requests, whose faults go to this port.
fn add_client(
    alloc: Global,
    answers: &mut Vec<Answer>,
    tables: &Tables<'_>,
    faults: PortNo,
    client: ActorNo,
    asks: &[AskPart],
) -> Result<(), OutOfMemory>
    requires { length asks.now < 2 ^ 32 }
    ensures { OnOk result (answers.new.items ≡ answers.old.items ++ told_asks tables.now faults client 0 asks.now) }
{
    for (index, _) in asks.iter().enumerate() {
        let request = RequestId {
            client,
            index: index as u32,
        };
        answers.push(tell(alloc, tables, faults, request)?)?;
    }
    Ok(())
}

/// Those of all clients; the first client's faults go to this port.
fn all_clients(
    alloc: Global,
    tables: &Tables<'_>,
    faults: PortNo,
    clients: &[ClientPart],
) -> Result<Vec<Answer>, OutOfMemory>
    requires few { faults + length clients.now < 2 ^ 32 }
    requires asks { (number : ℕ) (client : ClientPart) → slice_get clients.now number ≡ Some client → length client.asks < 2 ^ 32 }
    ensures { IfOk result (λ answers. answers.items ≡ told_clients tables.now faults 0 clients.now) }
{
    let mut answers = Vec::new(alloc);
    for (number, client) in clients.iter().enumerate() {
        let number = number as ActorNo;
        let asks = client.asks.as_slice();
        add_client(alloc, &mut answers, tables, faults + number, number, asks)?;
    }
    Ok(answers)
}

/// One answer for each request, client by client in order, after a legal, complete and quiet history of the service's wiring.
/// It goes through the history once, and then looks each request up.
pub fn answers(
    alloc: Global,
    service: &Service,
    history: &History,
) -> Result<List<Answer>, OutOfMemory>
    requires legal { IsLegal (expansion service.now) history.now }
    requires complete { is_complete (expansion service.now) history.now ≡ true }
    requires quiet { IsQuiet (expansion service.now) history.now }
    ensures { IfOk result (λ answers. answers ≡ answers_of service.now history.now) }
{
    let tables = found(alloc, history.events())?;
    let parts = service.parts();
    let ops = parts.ops.len() as PortNo;
    let answers = all_clients(alloc, &tables, ops + ops, parts.clients.as_slice())?;
    Ok(List::from_vec(answers))
}
