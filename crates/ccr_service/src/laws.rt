//! What every whole run of a service says of its requests. The law is the contract of a function that does nothing.

ghost use Rattle.ccr_service.specs.declared.parts.ServiceParts.{ServiceParts};
ghost use Rattle.ccr_service.specs.Answered.{IsServedWhole, OfWholeRuns};
ghost use Rattle.ccr_service.specs.Services.{IsService};

/// Once a service's script is posted and nothing more is allowed, no task was shed, none waits, is ready, is queued or runs, and
/// each request has one answer and no other: one response, of a task that ended done or failed; or it is held; or the task that
/// took it was cut or dropped.
pub fn requests_have_one_answer()
    ensures { (service : ServiceParts) → IsService service → OfWholeRuns service (IsServedWhole service) }
{}
