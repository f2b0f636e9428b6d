//! One answer after another, counted.
ghost use Rattle.std.specs.Prelude.{◌≡◌, option_map};
ghost use Rattle.jwalk.specs.jwalk_job.Entry.{children, entry};
ghost use Rattle.jwalk_usage.specs.Totals.{has_failed, is_asked};
ghost use Rattle.jwalk_usage.specs.Kept.{length_kept};

use crate::report::{Usage, UsageFault};
use crate::sums::plus;
use jwalk::dir_entry::ReadChildren;
use jwalk::error::Result as Answer;
use jwalk::file_system::{FileSystem, FileType, Metadata};
use jwalk::{ClientState, DirEntry, Error};
use std::alloc::Allocator;

fn has_failed<C: ClientState, A: Allocator + Copy>(below: &Option<ReadChildren<C, A>>) -> bool
    ensures { result ≡ has_failed (option_map children below.now) }
{
    match below {
        Some(children) => children.error().is_some(),
        None => false,
    }
}

/// Returns whether an entry is a file that keeps no metadata, which is asked for.
fn is_asked<C: ClientState, A: Allocator + Copy>(found: &DirEntry<C, A>) -> bool
    ensures { result ≡ is_asked (entry found.now) }
{
    found.file_type().is_file() && found.metadata_seen().is_none()
}

fn length_kept<C: ClientState, A: Allocator + Copy>(found: &DirEntry<C, A>) -> u128
    ensures { result ≡ length_kept (entry found.now).seen }
{
    match found.metadata_seen() {
        Some(metadata) => metadata.len() as u128,
        None => 0,
    }
}

impl Usage {
    ghost use Rattle.std.specs.Prelude.{◌≡◌, ◌≤◌, ◌+◌, ◌^◌, ◌⊎◌, true, Ok, Err, IfErr, OnOk};
    ghost use Rattle.jwalk.specs.jwalk_model.Error.{memory};
    ghost use Rattle.jwalk.specs.jwalk_job.Entry.{entry, item};
    ghost use Rattle.jwalk.specs.jwalk_job.Error.{failure};
    ghost use Rattle.jwalk.specs.DirEntryIter.{TellsMemory};
    ghost use Rattle.jwalk_usage.specs.Counts.{nothing, with_type, with_length, with_one, CountsType, IsTooGreat, CannotCount};
    ghost use Rattle.jwalk_usage.specs.Kept.{is_known, with_kept};

    pub(crate) fn nothing() -> Self
        ensures { result ≡ nothing }
    {
        Usage {
            files: 0,
            dirs: 0,
            links: 0,
            others: 0,
            errors: 0,
            bytes: 0,
        }
    }

    fn add_type(&mut self, file_type: FileType) -> Result<(), UsageFault>
        ensures counted { OnOk result (self.new ≡ with_type file_type self.old) }
        ensures too_many { IfErr result (λ fault. (fault ≡ UsageFault.TooMany)
            × IsTooGreat (with_type file_type self.old)) }
    {
        match file_type {
            FileType::File => self.files = plus(self.files, 1)?,
            FileType::Dir => self.dirs = plus(self.dirs, 1)?,
            FileType::Symlink => self.links = plus(self.links, 1)?,
            FileType::Other => self.others = plus(self.others, 1)?,
        }
        Ok(())
    }

    pub(crate) fn add_error<A: Allocator + Copy>(
        &mut self,
        error: &Error<A>,
    ) -> Result<(), UsageFault>
        ensures counted { OnOk result (self.new ≡ record self.old { errors = self.old.errors + 1 }) }
        ensures memory { failure error.now ≡ memory → result ≡ Err UsageFault.Memory }
        ensures faults { IfErr result (λ fault. ((fault ≡ UsageFault.Memory) × (failure error.now ≡ memory))
            ⊎ ((fault ≡ UsageFault.TooMany) × (2 ^ 128 ≤ self.old.errors + 1))) }
    {
        if error.is_memory() {
            return Err(UsageFault::Memory);
        }
        self.errors = plus(self.errors, 1)?;
        Ok(())
    }

    fn add_length<A: Allocator + Copy>(
        &mut self,
        metadata: Result<Metadata, Error<A>>,
    ) -> Result<(), UsageFault>
        ensures counted { OnOk result (self.new ≡ with_length metadata self.old) }
        ensures memory { IfErr metadata (λ e. failure e ≡ memory → result ≡ Err UsageFault.Memory) }
        ensures too_many { result ≡ Err UsageFault.TooMany → IsTooGreat (with_length metadata self.old) }
    {
        match metadata {
            Ok(metadata) => {
                self.bytes = plus(self.bytes, metadata.len() as u128)?;
                Ok(())
            }
            Err(error) => self.add_error(&error),
        }
    }

    /// Counts an entry by its type, the error of a directory, and the bytes that a file keeps.
    pub(crate) fn add_kept_entry<C: ClientState, A: Allocator + Copy>(
        &mut self,
        found: &DirEntry<C, A>,
    ) -> Result<(), UsageFault>
        ensures counted { OnOk result (self.new ≡ with_kept (Ok (entry found.now)) self.old) }
        ensures too_many { IfErr result (λ fault. (fault ≡ UsageFault.TooMany)
            × IsTooGreat (with_kept (Ok (entry found.now)) self.old)) }
    {
        self.add_type(found.file_type())?;
        if has_failed(&found.read_children) {
            self.errors = plus(self.errors, 1)?;
        }
        if found.file_type().is_file() {
            self.bytes = plus(self.bytes, length_kept(found))?;
        }
        Ok(())
    }

    /// Counts an entry by its type, the error of a directory, and the bytes of a file, which is asked if it keeps none.
    #[tactic(auto, using(crate::proofs::AskedFacts::counted_as_asked, crate::proofs::AskedFacts::counted_as_known, crate::proofs::AskedFacts::too_great_asked))]
    fn add_entry<S: FileSystem, C: ClientState, A: Allocator + Copy>(
        &mut self,
        fs: &S,
        found: &DirEntry<C, A>,
    ) -> Result<(), UsageFault>
        ensures counted { OnOk result (S.IsFixed fs.now
            → self.new ≡ with_one (S.functions fs.now) (Ok (entry found.now)) self.old) }
        ensures kept { OnOk result (is_known (Ok (entry found.now)) ≡ true
            → self.new ≡ with_kept (Ok (entry found.now)) self.old) }
        ensures types { OnOk result (CountsType (Ok (entry found.now)) self.old self.new) }
        ensures faults { IfErr result (CannotCount (S.IsFixed fs.now) (S.functions fs.now)
            (Ok (entry found.now)) self.old) }
    {
        self.add_kept_entry(found)?;
        if is_asked(found) {
            self.add_length(found.metadata(fs))?;
        }
        Ok(())
    }

    pub(crate) fn add<S: FileSystem, C: ClientState, A: Allocator + Copy>(
        &mut self,
        fs: &S,
        answer: Answer<DirEntry<C, A>, A>,
    ) -> Result<(), UsageFault>
        ensures counted { OnOk result (S.IsFixed fs.now
            → self.new ≡ with_one (S.functions fs.now) (item answer) self.old) }
        ensures kept { OnOk result (is_known (item answer) ≡ true → self.new ≡ with_kept (item answer) self.old) }
        ensures types { OnOk result (CountsType (item answer) self.old self.new) }
        ensures told { OnOk result (¬ TellsMemory (item answer)) }
        ensures faults { IfErr result (CannotCount (S.IsFixed fs.now) (S.functions fs.now)
            (item answer) self.old) }
    {
        match answer {
            Ok(found) => self.add_entry(fs, &found),
            Err(error) => self.add_error(&error),
        }
    }
}
