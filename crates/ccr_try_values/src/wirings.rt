//! Wiring texts and service texts.

use ccr_base::List;
use ccr_service::{expand, read_service};
use ccr_try::{put, put_refused};
use ccr_wiretext::{MAX_WIRING_TEXT, ReadRefused, read_wiring, write_wiring};
use std::alloc::Global;

/// The line and code of the refusal.
pub fn put_refusal(out: &mut List<u8>, refused: ReadRefused) {
    match refused {
        ReadRefused::At { line, code } => put_refused(out, line, code),
        ReadRefused::Memory => put(out, b"memory"),
    }
}

/// 0 0, or the line and code with which the text is refused.
pub fn read(alloc: Global, text: &[u8], out: &mut List<u8>) {
    if text.len() > MAX_WIRING_TEXT {
        return;
    }
    match read_wiring(alloc, text) {
        Ok(_) => put_refused(out, 0, 0),
        Err(refused) => put_refusal(out, refused),
    }
}

/// The canonical text of the wiring.
pub fn write(alloc: Global, text: &[u8], out: &mut List<u8>) {
    if text.len() > MAX_WIRING_TEXT {
        return;
    }
    let Ok(wiring) = read_wiring(alloc, text) else {
        return;
    };
    if let Ok(written) = write_wiring(alloc, &wiring) {
        put(out, written.as_slice());
    }
}

/// 0 0, or the line and code with which the text is refused.
pub fn read_services(alloc: Global, text: &[u8], out: &mut List<u8>) {
    if text.len() > MAX_WIRING_TEXT {
        return;
    }
    match read_service(alloc, text) {
        Ok(_) => put_refused(out, 0, 0),
        Err(refused) => put_refusal(out, refused),
    }
}

/// The canonical text of the wiring that the service stands for.
pub fn expand_service(alloc: Global, text: &[u8], out: &mut List<u8>) {
    if text.len() > MAX_WIRING_TEXT {
        return;
    }
    let Ok(service) = read_service(alloc, text) else {
        return;
    };
    let Ok(wiring) = expand(alloc, &service) else {
        return;
    };
    if let Ok(written) = write_wiring(alloc, &wiring) {
        put(out, written.as_slice());
    }
}
