//! What follows for every legal history: the fate of each message, and the laws of firings, drops, queues and Interleaves, and how long it is.
#![tactic(auto)]

mod drops;
mod fates;
mod firings;
mod interleaves;
mod lengths;
mod open;
mod queues;
mod scripts;

pub use drops::drops_are_by_policy_alone;
pub use fates::fate;
pub use firings::{
    firings_take_whole_patterns, messages_are_held_or_taken, messages_have_one_fate,
    single_firings_come_once, tasks_fire_once,
};
pub use interleaves::{
    cut_tasks_never_start, exclusive_roots_stay_alone, exclusive_roots_work_alone,
    no_branch_fires_after_a_teardown, no_other_starts_after_a_teardown_task,
    roots_have_one_segment_at_work, tasks_at_work_have_admitted_roots,
};
pub use lengths::{histories_are_short, valid_histories_are_short};
pub use open::{open_posters_keep_their_ports, open_tasks_post_while_they_run};
pub use queues::{earlier_puts_start_earlier, tasks_start_in_the_order_of_their_puts};
pub use scripts::posters_follow_their_scripts;
