//! Wirings: their parts, what makes parts valid, and the spots at which they fire.
#![tactic(auto)]

mod codes;
mod domains;
mod groups;
mod laws;
mod limits;
mod names;
mod openness;
mod part_names;
mod parts;
mod placements;
mod references;
mod repeats;
mod script_posts;
mod spot_names;
mod spot_words;
mod spots;
mod takers;
mod unfit;
mod versions;
mod wiring;

pub use laws::{old_wirings_are_closed, valid_wirings_are_sound};
pub use limits::{
    MAX_ACTIONS, MAX_ACTOR, MAX_ARBITERS, MAX_ARG, MAX_BRANCHES, MAX_BUDGET, MAX_CAUSES, MAX_COUNT,
    MAX_DOMAINS, MAX_HANDLERS, MAX_INDEX, MAX_MEMBERS, MAX_POLICY, MAX_PORTS, MAX_POSTERS,
    MAX_QUEUES, MAX_SCRIPT_POSTS, MAX_SET_PORTS, MAX_SETS, MAX_SLOTS, MAX_SPOTS,
};
pub use part_names::{arbiter_name, cause_name, handler_name, port_name, queue_name};
pub use parts::{
    ArbiterPart, BranchPart, CausePart, DomainPart, HandlerPart, Kind, OpenPart, Parts, PosterPart,
    QueuePart, SetPart,
};
pub use placements::PlacementOf;
pub use references::{is_interleave, no_interleave};
pub use repeats::{are_apart, has_slot_at};
pub use script_posts::ScriptPost;
pub use spot_names::{branch_names, name_at};
pub use spot_words::{put_spot_word, spot_text};
pub use spots::{add_branch_ports, branch_of, segment_of};
pub use unfit::Unfit;
pub use versions::is_closed;
pub use wiring::Wiring;
