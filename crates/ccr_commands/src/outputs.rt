//! Texts that are to be written, each whole before a byte of it is.

ghost use Rattle.std.specs.Prelude.{◌≡◌, IfOk};
ghost use Rattle.ccr_commands.specs.Answers.{usage_text, refused_text, too_long_text, wiring_of, CheckGives, RefusedGives};

use crate::status::Status;
use ccr_base::{List, OutOfMemory};
use ccr_json::wiring_json;
use ccr_text::{put_bytes, put_number};
use ccr_wiretext::{ReadRefused, write_wiring};
use ccr_wiring::Wiring;
use std::alloc::Global;

/// A text that is to be written, and what for.
#[derive(Drop)]
pub struct Output {
    pub status: Status,
    pub text: List<u8>,
}

/// The usage line.
pub fn usage(alloc: Global) -> Result<Output, OutOfMemory>
    ensures status { IfOk result (λ due. due.status ≡ Status.Usage) }
    ensures text { IfOk result (λ due. due.text ≡ usage_text) }
{
    let text =
        b"usage: ccr check|run|verify|load|record|replay|steps|steady|service|expand [--workers N] [--schedule] [--json] [--size N]\ndone 1\n";
    Ok(Output {
        status: Status::Usage,
        text: List::from_vec(Vec::from_slice(alloc, text)?),
    })
}

pub fn too_long(alloc: Global) -> Result<Output, OutOfMemory>
    ensures status { IfOk result (λ due. due.status ≡ Status.TooLong) }
    ensures text { IfOk result (λ due. due.text ≡ too_long_text) }
{
    Ok(Output {
        status: Status::TooLong,
        text: List::from_vec(Vec::from_slice(alloc, b"too long\ndone 8\n")?),
    })
}

fn refusal(alloc: Global, line: u32, code: u8) -> Result<Output, OutOfMemory>
    ensures status { IfOk result (λ due. due.status ≡ Status.Refused) }
    ensures text { IfOk result (λ due. due.text ≡ refused_text line code) }
{
    let mut text = List::from_vec(Vec::from_slice(alloc, b"refused ")?);
    put_number(&mut text, u64::from(line))?;
    put_bytes(&mut text, b" ")?;
    put_number(&mut text, u64::from(code))?;
    put_bytes(&mut text, b"\ndone 2\n")?;
    Ok(Output {
        status: Status::Refused,
        text,
    })
}

/// The wiring as canonical text, or as one line of JSON.
fn wiring_of(alloc: Global, wiring: &Wiring, json: bool) -> Result<List<u8>, OutOfMemory>
    ensures { IfOk result (λ text. text ≡ wiring_of json wiring.now) }
{
    if json {
        wiring_json(alloc, wiring)
    } else {
        write_wiring(alloc, wiring)
    }
}

/// The wiring and the last line.
pub fn check(alloc: Global, wiring: &Wiring, json: bool) -> Result<Output, OutOfMemory>
    ensures { IfOk result (λ due. CheckGives json wiring.now due.status due.text) }
{
    let mut text = wiring_of(alloc, wiring, json)?;
    put_bytes(&mut text, b"done 0\n")?;
    Ok(Output {
        status: Status::Done,
        text,
    })
}

/// The first line that offends, and its code.
pub fn refused(alloc: Global, refused: ReadRefused) -> Result<Output, OutOfMemory>
    ensures { IfOk result (λ due. RefusedGives refused due.status due.text) }
{
    match refused {
        ReadRefused::At { line, code } => refusal(alloc, line, code),
        ReadRefused::Memory => Err(OutOfMemory),
    }
}
