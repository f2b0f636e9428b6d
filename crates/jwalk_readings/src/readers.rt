//! What gives a walk its readings.
ghost use Rattle.std.specs.Prelude.{◌≡◌, ◌≤◌, ℕ, List, [], IfOk, IsOk, OnOk};
ghost use Rattle.jwalk_order.specs.Frontier.{passed};
ghost use Rattle.jwalk_order.specs.Ordered.{child_count_of};
ghost use Rattle.jwalk_order.specs.Addressed.{addressed};
ghost use Rattle.jwalk_readings.specs.Due.{IsDue};
ghost use Rattle.jwalk_readings.specs.Origin.{Origin, IsMessageOf};
ghost use Rattle.jwalk_readings.specs.Wanted.{Fits};

use crate::message::Message;
use crate::wanted::Wanted;
use jwalk_fs::file_system::FileSystem;
use jwalk_job::client_state::ClientState;
use jwalk_job::process_read_dir::ProcessReadDir;
use jwalk_order::ordered::Ordered;
use std::alloc::{AllocError, Allocator};

/// Why a reading didn't come.
#[derive(Clone, Copy, Debug, PartialEq, Eq)]
pub enum Missed {
    /// Memory ran out.
    Memory,
    /// There is none, or another came in its place.
    Lost,
}

impl From<AllocError> for Missed {
    ghost use Rattle.jwalk_readings.specs.declared.readers.Missed.TheVariants.{Memory};

    ghost from_gives = { λ _ missed. missed ≡ Memory };

    fn from(_refused: AllocError) -> Self {
        Missed::Memory
    }
}

/// What gives the readings of a walk's directories, made ahead by others: the `Session` of a crew, or a type of one's
/// own that is given to `ReadDirIter::over_readers`.
pub trait Readers<
    C: ClientState,
    S: FileSystem,
    P: ProcessReadDir<C, A>,
    A: Allocator + Copy,
>: Drop {
    /// What its readings come from: it is made for the walk of this job that begins with these directories. Readers of
    /// which nothing is to be said have `⊥` here.
    ghost comes_from: { Self → Origin C S P A C.ReadDirState C.DirEntryState → Type 0 };

    /// The addresses of the readings that it has still to give, the next one first.
    ghost awaits: { Self → List (List ℕ) };

    /// At most how many readings are made and not handed on. It stays the same.
    ghost most: { Self → ℕ };

    /// What is known of a number of readings that were made and not handed on, when it was counted.
    ghost counts: { Self → ℕ → Type 0 };

    /// Returns the reading that is wanted, once it is there. Over a crew it may block for the reading or for a lock.
    /// The addresses of the directories below it are awaited from then on, in place of its own.
    ///
    /// # Errors
    ///
    /// `Memory` if memory ran out, the workers' or for the hand-out. `Lost` if the reading won't come. No reading that
    /// is due is lost.
    fn next(&mut self, wanted: &Wanted<A>) -> Result<Ordered<Message<C, S, P, A>, A>, Missed>
        ensures fits { IfOk result (Fits wanted.now) }
        ensures made { IfOk result (λ item. IsOk item.value.outcome) }
        ensures of { IfOk result (λ item. (origin : _) → Self.comes_from self.old origin → IsMessageOf S.FileSystem
            P.ProcessReadDir C.ReadDirState.Clone C.DirEntryState.Default origin (addressed item)) }
        ensures same { (origin : _) → Self.comes_from self.old origin → Self.comes_from self.new origin }
        ensures further { IfOk result (λ item. Self.awaits self.new ≡ passed (Self.awaits self.old)
            (child_count_of item)) }
        ensures most { Self.most self.new ≡ Self.most self.old }
        ensures due { result ≡ Err Missed.Lost → (origin : _) → Self.comes_from self.old origin → ¬ IsDue S.FileSystem
            P.ProcessReadDir C.ReadDirState.Clone C.DirEntryState.Default origin (Self.awaits self.old) wanted.now };

    /// Passes over the reading that comes next and those of all that is below it, if any is left. None of them is handed on
    /// from then on. It doesn't block for a reading; over a crew it may block for a lock.
    ///
    /// # Errors
    ///
    /// If memory runs out. The readers are not to be asked again.
    fn skip(&mut self) -> Result<(), AllocError>
        ensures same { (origin : _) → Self.comes_from self.old origin → Self.comes_from self.new origin }
        ensures further { OnOk result (Self.awaits self.new ≡ passed (Self.awaits self.old) 0) }
        ensures most { Self.most self.new ≡ Self.most self.old };

    /// Returns how many readings were made and not handed on. Over a crew it may block for a lock.
    fn ahead(&self) -> usize
        ensures counted { Self.counts self.now result }
        ensures most { result ≤ Self.most self.now };
}

/// No crew. Nothing makes a value of it, so no walk is over one.
#[derive(Debug, Drop)]
pub struct NoCrew(());

impl<C: ClientState, S: FileSystem, P: ProcessReadDir<C, A>, A: Allocator + Copy> Readers<
    C,
    S,
    P,
    A,
> for NoCrew {
    ghost comes_from = { λ _ _. ⊥ };

    ghost awaits = { λ _. [] };

    ghost most = { λ _. 0 };

    ghost counts = { λ _ count. count ≡ 0 };

    fn next(&mut self, _wanted: &Wanted<A>) -> Result<Ordered<Message<C, S, P, A>, A>, Missed>
        ensures { result ≡ Err Missed.Lost }
    {
        Err(Missed::Lost)
    }

    fn skip(&mut self) -> Result<(), AllocError> {
        Ok(())
    }

    fn ahead(&self) -> usize
        ensures { result ≡ 0 }
    {
        0
    }
}
