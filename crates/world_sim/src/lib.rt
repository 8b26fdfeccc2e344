//! The world that runs: a provider, a connector, and the bytes of every message between them.
#![tactic(auto)]

mod acting;
mod among;
mod events;
mod following;
mod imaging;
mod laws;
mod learning;
mod messages;
mod others;
mod printing;
mod printing_among;
mod random;
mod reading;
mod reports;
mod runs;
mod schedules;
mod services;
mod settling;
mod several;
mod several_printing;
mod sides;
mod strangers;
mod turns;
mod views;
mod worlds;

pub use acting::{Act, ActReport};
pub use among::{run_among, run_telling_among};
pub use events::Event;
pub use following::{Follow, TellingFault};
pub use laws::{answers_fit, messages_are_read, without_others};
pub use printing::{Printed, ReportLines, print_run};
pub use printing_among::{PrintedAmong, print_run_among};
pub use random::{random_from_any_start, random_schedule};
pub use reports::{Report, WorldFault};
pub use runs::{run, run_telling};
pub use schedules::{NUMBER_DIGITS, ScheduleFault, read_acts, read_schedule, said_lines};
pub use settling::{Count, settle};
pub use several::{SharedWorld, Turn, TurnReport};
pub use several_printing::{PrintedSeveral, print_several};
pub use strangers::{contested, offered};
pub use turns::random_turns;
pub use views::View;
pub use worlds::World;
