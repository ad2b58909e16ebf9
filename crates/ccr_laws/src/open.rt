//! What is posted from outside. Each law is the contract of a function that does nothing.

ghost use Rattle.ccr_laws.specs.Lawful.{OfValid};
ghost use Rattle.ccr_laws.specs.Open.{KeepsPorts, OfOpen, PostOpenly};

/// What is posted under an open poster's name is numbered from 0, and each goes to one of the poster's ports.
pub fn open_posters_keep_their_ports()
    ensures { OfValid (λ wiring history. OfOpen wiring (λ number ports. KeepsPorts history number ports)) }
{}

/// A task of an open handler posts while it runs, to its handler's ports with the causes that it started with, or tells a failure.
pub fn open_tasks_post_while_they_run()
    ensures { OfValid (λ wiring history. PostOpenly wiring history) }
{}
