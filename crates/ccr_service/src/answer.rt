//! What became of each request of a service.

use ccr_base::Msg;

/// The response of a request, as a success or as a fault; or what became of a request without one: it is held, or the task that
/// took it was cut or dropped.
#[derive(Drop)]
pub enum Answer {
    Success(Msg),
    Fault(Msg),
    Held,
    Cut,
    Dropped,
}
