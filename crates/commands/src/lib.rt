//! What the commands of `scimlink` answer and print, the values of their arguments, and the exit status of
//! each run.
#![tactic(auto)]

mod addresses;
mod answering;
mod comparison;
mod endings;
mod images;
mod jobs;
mod layouts;
mod limiting;
mod looping;
mod manners;
mod output;
mod planning;
mod pushing;
mod resetting;
mod scopes;
mod serving;
mod settling;
mod showing;
pub mod simulating;
mod simulating_among;
mod simulation;
mod status;
mod stored;
pub mod words;

pub use answering::{answer, answer_one, answer_stored};
pub use comparison::check;
pub use endings::{
    outcome_status, pushed_status, run_status, several_status, shown_status, simulated_status,
};
pub use images::{map, print_images};
pub use jobs::Job;
pub use looping::{LoopFault, OWN_ADDRESS, carry};
pub use manners::{Delivery, MOST_LEAVERS, Manner};
pub use output::{NotedWriter, StandardOutput, standard_output};
pub use pushing::{push, push_over};
pub use resetting::reset;
pub use serving::serve;
pub use showing::show;
pub use simulating_among::{
    Schedule, acted_status, refuse_late, schedule_of, simulate_among, tell_contested,
};
pub use simulation::{simulate, simulate_several};
pub use status::{
    Cause, CommandFault, Part, Reason, Status, listen_fault, told, unread_fault, words_fault,
};
