//! How the reading that a walk waits for arrives.
ghost use Rattle.jwalk_readings.specs.Arrival.{Arrives};

use crate::message::Message;
use crate::wanted::Wanted;
use jwalk_board::board::Board;
use jwalk_fs::file_system::FileSystem;
use jwalk_job::client_state::ClientState;
use jwalk_job::process_read_dir::ProcessReadDir;
use jwalk_job::read_dir_spec::ReadDirSpec;
use std::alloc::Allocator;
use tree_crew::arrival as tree;
use tree_crew::arrival::Arrival;

/// Asks a board for the reading that is wanted: one hand-out, and the check of the message that it gave.
///
/// Returns `Entered` if the message is the wanted reading. `Memory` if the board is stopped, or memory ran out for the
/// hand-out or, as the message reports, for its worker. `Lost` if all were handed out, or the message is another.
/// `Wait` if the next reading is queued or in hand; the board is unchanged then. A message is dropped unless it is
/// returned.
pub fn arrive<C: ClientState, S: FileSystem, P: ProcessReadDir<C, A>, A: Allocator + Copy>(
    board: &mut Board<ReadDirSpec<C, A>, Message<C, S, P, A>, A>,
    wanted: &Wanted<A>,
) -> Arrival<Message<C, S, P, A>, A>
    ensures { Arrives board.old wanted.now result board.new }
{
    match tree::arrive(board) {
        Arrival::Entered(item) => {
            if wanted.fits(&item) {
                Arrival::Entered(item)
            } else {
                Arrival::Lost
            }
        }
        Arrival::Memory => Arrival::Memory,
        Arrival::Lost => Arrival::Lost,
        Arrival::Wait => Arrival::Wait,
    }
}
