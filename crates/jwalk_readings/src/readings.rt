//! What a walk over readings asks of them.
ghost use Rattle.std.specs.Prelude.{◌≡◌, ◌≢◌, ◌≤◌, ◌+◌, ℕ, List, [], drop, length, Ok, true, false, option_map, IfOk, IfErr, OnErr, OnOk};
ghost use Rattle.jwalk_model.specs.ReadDir.{Spec};
ghost use Rattle.jwalk_order.specs.Frontier.{next_address};
ghost use Rattle.jwalk_job.specs.Entry.{entry};
ghost use Rattle.jwalk_job.specs.ReadDir.{outcome};
ghost use Rattle.jwalk_job.specs.Options.{options_value};
ghost use Rattle.jwalk_job.specs.Given.{Given};
ghost use Rattle.jwalk_readings.specs.ReadAhead.{ReadAhead, nothing_ahead};
ghost use Rattle.jwalk_readings.specs.BatchReads.{PassesAddress};
ghost use Rattle.jwalk_readings.specs.CrewReads.{failure_of, NotLost};
ghost use Rattle.jwalk_readings.specs.Reads.{ReadsNextBy};
ghost use Rattle.jwalk_readings.specs.Source.{Source, IsSource, IsKnown, IsNextIn, EntersNextIn};
ghost use Rattle.jwalk_model.specs.Error.{lost};

mod of_batches;
mod of_crew;
mod of_either;

use crate::readers::Missed;
use jwalk_job::client_state::ClientState;
use jwalk_job::dir_entry::DirEntry;
use jwalk_job::options::Options;
use jwalk_job::read_dir::Outcome;
use std::alloc::{AllocError, Allocator};

/// Readings in preorder, whoever makes them.
pub trait Readings<C: ClientState, A: Allocator + Copy>: Drop {
    /// What stays the same while they are read.
    ghost Base: { Type 0 };

    ghost base: { Self → Base };

    /// What they come from.
    ghost source: { Base → Source C.ReadDirState C.DirEntryState };

    /// Whatever runs a callback may be called.
    ghost can_read: { Base → Type 0 };

    /// The directories whose readings are still to be given, the next one first, without those below them.
    ghost to_read: { Self → List (Spec C.ReadDirState) };

    /// The addresses of the directories that are still to be entered, the next one first.
    ghost frontier: { Self → List (List ℕ) };

    /// What isn't read yet, and what was read and not handed on, by address.
    ghost read_ahead: { Self → ReadAhead C.ReadDirState };

    /// At most how many readings others have made and not handed on.
    ghost most: { Self → ℕ };

    /// It may be that this many readings were made and not handed on.
    ghost ready: { Self → ℕ → Type 0 };

    /// They are steady over what is given.
    ghost steady: { Self → Given C.ReadDirState C.DirEntryState → Type 0 };

    /// What holds of every source holds of it.
    ghost sound: { (b : Base) → IsSource (source b) };

    /// Where they are steady, a clone counts as its original.
    ghost clones: { (it : Self) (g : _) → steady it g → (x y : _) → (source (base it)).copies x y
        → g.read_dir_state y ≡ g.read_dir_state x };

    /// Returns the next reading, or none if nothing is left.
    fn read_next(&mut self) -> Result<Option<Outcome<C, A>>, Missed>
        requires { can_read (base self.old) }
        ensures base { base self.new ≡ base self.old }
        ensures tells { IfErr result (λ missed. (source (base self.old)).tells (failure_of missed)) }
        ensures some { OnErr result (to_read self.old ≢ []) }
        ensures stopped { OnErr result (to_read self.new ≡ []) }
        ensures nothing_ahead { OnErr result (read_ahead self.new ≡ nothing_ahead) }
        ensures ahead { length (read_ahead self.new).done + 1 ≤ length (read_ahead self.old).done
            + (source (base self.old)).width }
        ensures most { most self.new ≤ most self.old }
        ensures steady { (g : _) → steady self.old g → steady self.new g }
        ensures next { IfOk result (λ o. ReadsNextBy (source (base self.old)).copies (IsKnown (source (base self.old))
            (steady self.old) (next_address (frontier self.old))) (source (base self.old)).options.max_depth
            (to_read self.old) (option_map outcome o) (to_read self.new)) }
        ensures enters { IfOk result (λ o. EntersNextIn (source (base self.old)) (next_address (frontier self.old))
            (read_ahead self.old) (option_map outcome o) (read_ahead self.new)) }
        ensures passes { IfOk result (λ o. PassesAddress (frontier self.old) (option_map outcome o)
            (frontier self.new)) }
        ensures comes { IfErr result (NotLost (steady self.old)) };

    /// Returns whether the directory that comes next is the one below an entry, or none is left.
    fn is_next(&self, found: &DirEntry<C, A>) -> bool
        ensures tells { result ≡ false → (source (base self.now)).tells lost }
        ensures wide { result ≡ false → 1 ≤ (source (base self.now)).width }
        ensures some { result ≡ false → to_read self.now ≢ [] }
        ensures below { result ≡ true → IsNextIn (source (base self.now)) (Ok (entry found.now)) (to_read self.now) }
        ensures other { result ≡ false
            → ¬ IsNextIn (source (base self.now)) (Ok (entry found.now)) (to_read self.now) };

    /// Passes over the directory that comes next and all that is below it, if any is left. Nothing is read for it. It doesn't
    /// block for a reading; over a crew it may block for a lock.
    ///
    /// # Errors
    ///
    /// If memory runs out. Then nothing is left to be read.
    fn skip_next(&mut self) -> Result<(), AllocError>
        ensures base { base self.new ≡ base self.old }
        ensures to_read { OnOk result (to_read self.new ≡ drop 1 (to_read self.old)) }
        ensures stopped { OnErr result (to_read self.new ≡ []) }
        ensures ahead { length (read_ahead self.new).done ≤ length (read_ahead self.old).done }
        ensures most { most self.new ≤ most self.old }
        ensures steady { (g : _) → steady self.old g → steady self.new g };

    /// Returns the options that they are made by.
    fn options(&self) -> Options
        ensures { options_value result ≡ (source (base self.now)).options };

    /// Returns how many readings were made and not handed on.
    fn ahead(&self) -> usize
        ensures { ready self.now result };

    /// Drops what is not read yet, and what was read early.
    fn stop(&mut self)
        ensures base { base self.new ≡ base self.old }
        ensures to_read { to_read self.new ≡ [] }
        ensures read_ahead { read_ahead self.new ≡ nothing_ahead }
        ensures most { most self.new ≤ most self.old }
        ensures steady { (g : _) → steady self.old g → steady self.new g };
}
