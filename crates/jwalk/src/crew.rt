//! Crews, whose workers read ahead for walks: what a walk asks of one, and what it is given.
ghost use Rattle.std.specs.Prelude.{◌≡◌, ◌<◌};

pub use jwalk_readings::arrival::arrive;
pub use jwalk_readings::message::Message;
pub use jwalk_readings::origin::Origin;
pub use jwalk_readings::readers::{Missed, NoCrew, Readers};
pub use jwalk_readings::session::Session;
pub use jwalk_readings::wanted::Wanted;
use std::thread::{Threads, available_parallelism};
pub use tree_crew::arrival::Arrival;
pub use tree_crew::crew::{Crew, NotStarted, Place};
pub use tree_crew::places::Places;

/// Returns how many threads a count means: 0 means as many as can run side by side, or one where that isn't known.
pub fn threads_for<R: Threads>(rt: &R, count: usize) -> usize
    ensures { 0 < count → result ≡ count }
{
    if count > 0 {
        return count;
    }
    match available_parallelism(rt) {
        Ok(cores) => cores.get(),
        Err(_) => 1,
    }
}
