//! Await sites: the tasks that are suspended there, of which the first suspended goes on first.
#![tactic(auto)]

mod resume;
mod site;

pub use site::SiteObject;
