//! Tests that no row of a program can say: of threads that meet, and of a net of scripted replies.
#![tactic(auto)]

#[cfg(test)]
mod compare;
#[cfg(test)]
mod drives;
#[cfg(test)]
mod script;
#[cfg(test)]
mod spaces;
#[cfg(test)]
mod threads;
#[cfg(test)]
mod turns;
