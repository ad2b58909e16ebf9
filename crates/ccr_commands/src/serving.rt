//! A service: the wiring that it stands for, or a run of it with what became of each request.

ghost use Rattle.std.specs.Prelude.{◌≡◌, ◌≤◌, ◌+◌, ◌++◌, ◌∷◌, [], IfOk, OnOk, codes, decimal, length, take, drop};
ghost use Rattle.ccr_base.specs.Bounds.{most_wiring_bytes, most_workers};
ghost use Rattle.ccr_text.specs.Spelling.{line_text, text_of};
ghost use Rattle.ccr_trace.specs.HistoryText.{behind, history_text};
ghost use Rattle.ccr_trace.specs.Known.{AreShort};
ghost use Rattle.ccr_trace.specs.Values.{HaveSmallValues};
ghost use Rattle.ccr_commands.specs.Answers.{AnswersText};
ghost use Rattle.ccr_commands.specs.Services.{answer_words, ask_lines, client_lines, ExpandGives, ServiceGives};
ghost use Rattle.ccr_words.specs.declared.requests.Command.TheVariants.{Expand, Service as Serving};

use crate::kept_history::{run_history, written_history};
use crate::outputs::{Output, refused};
use crate::status::Status;
use ccr_base::{Gate, List, Name, OutOfMemory};
use ccr_model::History;
use ccr_service::{
    Answer as Told, ClientPart, Service, answers, expand, read_service, requests_have_one_answer,
};
use ccr_text::put_bytes;
use ccr_trace::{put_number_word, put_value, put_word};
use ccr_wiretext::write_wiring;
use ccr_wiring::Wiring;
use std::alloc::Global;
use std::sync::Wait;
use std::thread::Threads;

/// The response of a request with its value, or what became of the request.
fn put_answer(out: &mut List<u8>, told: &Told) -> Result<(), OutOfMemory>
    ensures { OnOk result (out.new ≡ out.old ++ behind (answer_words told.now)) }
{
    match told {
        Told::Success(message) => {
            put_word(out, b"success")?;
            put_value(out, message.value)
        }
        Told::Fault(message) => {
            put_word(out, b"fault")?;
            put_value(out, message.value)
        }
        Told::Held => put_word(out, b"held"),
        Told::Cut => put_word(out, b"cut"),
        Told::Dropped => put_word(out, b"dropped"),
    }
}

/// The line of the client's request of this number.
fn put_ask(out: &mut List<u8>, index: usize, told: &Told) -> Result<(), OutOfMemory>
    ensures { OnOk result (out.new ≡ out.old ++ line_text (codes "ask" ∷ decimal index ∷ answer_words told.now)) }
{
    put_bytes(out, b"ask")?;
    put_number_word(out, index as u64)?;
    put_answer(out, told)?;
    put_bytes(out, b"\n")
}

/// The lines of a client's requests.
fn put_asks(out: &mut List<u8>, told: &[Told]) -> Result<(), OutOfMemory>
    ensures { OnOk result (out.new ≡ out.old ++ text_of (ask_lines 0 told.now)) }
{
    for (index, told) in told.iter().enumerate() {
        put_ask(out, index, told)?;
    }
    Ok(())
}

/// The line of a client, and those of its requests.
fn put_client(out: &mut List<u8>, name: &Name, told: &[Told]) -> Result<(), OutOfMemory>
    ensures { OnOk result (out.new ≡ out.old ++ text_of ((codes "client" ∷ name.now ∷ []) ∷ ask_lines 0 told.now)) }
{
    put_bytes(out, b"client")?;
    put_word(out, name.as_slice())?;
    put_bytes(out, b"\n")?;
    put_asks(out, told)
}

/// So many answers, and the others.
fn parted(told: &[Told], count: usize) -> (&[Told], &[Told])
    ensures own { result.0.now ≡ take count told.now }
    ensures others { result.1.now ≡ drop count told.now }
{
    if count <= told.len() {
        told.split_at(count)
    } else {
        (told, &[])
    }
}

/// The lines of all clients and their requests, of which these are the answers.
fn put_clients(out: &mut List<u8>, clients: &[ClientPart], told: &[Told]) -> Result<(), OutOfMemory>
    ensures { OnOk result (out.new ≡ out.old ++ text_of (client_lines clients.now told.now)) }
{
    let mut rest = told;
    for client in clients {
        let (own, others) = parted(rest, client.asks.len());
        put_client(out, &client.name, own)?;
        rest = others;
    }
    Ok(())
}

/// The history's text, the answers to the requests and the last line.
fn served_text(
    alloc: Global,
    service: &Service,
    wiring: &Wiring,
    history: &History,
    told: &[Told],
) -> Result<List<u8>, OutOfMemory>
    ensures text { IfOk result (λ text. text ≡ history_text wiring.now history.now ++ text_of (client_lines service.now.clients told.now) ++ codes "done 0" ++ 10 ∷ []) }
    ensures short { OnOk result (AreShort history.now) }
    ensures small { HaveSmallValues history.now }
{
    let mut text = written_history(alloc, wiring, history)?;
    put_clients(&mut text, service.parts().clients.as_slice(), told)?;
    put_bytes(&mut text, b"done 0\n")?;
    Ok(text)
}

/// A run of the service's wiring, and what became of each request.
fn serve<R: AllocGlobal + Threads + Wait + Sync, G: Gate + Sync>(
    rt: &R,
    gate: &G,
    service: &Service,
    workers: u32,
) -> Result<Output, OutOfMemory>
    requires { workers ≤ most_workers }
    ensures { IfOk result (λ due. ServiceGives service.now workers due.status due.text) }
{
    requests_have_one_answer();
    let alloc = rt.alloc();
    // `parts` says that the service is valid.
    let _kept = service.parts();
    let wiring = expand(alloc, service)?;
    let (_first, history) = run_history(rt, gate, &wiring, workers, None)?;
    let told = answers(alloc, service, &history)?;
    Ok(Output {
        status: Status::Done,
        text: served_text(alloc, service, &wiring, &history, told.as_slice())?,
    })
}

/// The wiring that a service stands for.
fn expanded(alloc: Global, service: &Service) -> Result<Output, OutOfMemory>
    ensures { IfOk result (λ due. ExpandGives service.now due.status due.text) }
{
    let wiring = expand(alloc, service)?;
    let mut text = write_wiring(alloc, &wiring)?;
    put_bytes(&mut text, b"done 0\n")?;
    Ok(Output {
        status: Status::Done,
        text,
    })
}

/// What `service` writes.
pub fn answer_service<R: AllocGlobal + Threads + Wait + Sync, G: Gate + Sync>(
    rt: &R,
    gate: &G,
    text: &[u8],
    workers: u32,
) -> Result<Output, OutOfMemory>
    requires workers { workers ≤ most_workers }
    requires length { length text.now ≤ most_wiring_bytes }
    ensures { (json : _) → IfOk result (λ due. AnswersText (Serving workers) json text.now due.status due.text) }
{
    match read_service(rt.alloc(), text) {
        Ok(service) => serve(rt, gate, &service, workers),
        Err(why) => refused(rt.alloc(), why),
    }
}

/// What `expand` writes.
pub fn answer_expand(alloc: Global, text: &[u8]) -> Result<Output, OutOfMemory>
    requires { length text.now ≤ most_wiring_bytes }
    ensures { (json : _) → IfOk result (λ due. AnswersText Expand json text.now due.status due.text) }
{
    match read_service(alloc, text) {
        Ok(service) => expanded(alloc, &service),
        Err(why) => refused(alloc, why),
    }
}
