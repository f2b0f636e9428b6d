//! The rules that decide on the entries of a directory.
ghost use Rattle.std.specs.Prelude.{◌≡◌, IfOk, OnOk};
ghost use Rattle.std.specs.Option.{option_copied};
ghost use Rattle.jwalk_ignore.specs.Callback.EntryRules.{Decide};
ghost use Rattle.jwalk_ignore.specs.Callback.IgnoreFiles.{given_says, keeps_failed, keeps_name, without_dot};
ghost use Rattle.jwalk_ignore.specs.Callback.Places.{IsPlaced};
ghost use Rattle.jwalk_ignore.specs.Callback.Settings.{settings_value};
ghost use Rattle.jwalk_ignore.specs.Rules.Chain.{place_in};
ghost use Rattle.jwalk_ignore.specs.Rules.ChainViews.{chain_value};

use crate::callback::kept::Keeps;
use crate::callback::listed::failed_name;
use crate::callback::places::Places;
use crate::callback::settings::Settings;
use crate::rules::chain::Chain;
use crate::rules::decision::Decision;
use jwalk::{ClientState, DirEntry, Error};
use std::alloc::{AllocError, Allocator};

/// The rules in force in a directory, and what is set, with the places of entries for each.
#[derive(Drop)]
pub(crate) struct EntryRules<'r, A: Allocator + Copy> {
    chain: &'r Chain<A>,
    /// Where entries are, by the root's absolute path.
    places: Places<A>,
    settings: &'r Settings,
    directory: &'r str,
    /// The paths of entries.
    paths: Places<A>,
}

fn place_of<A: Allocator + Copy>(alloc: A, directory: &str) -> Result<Places<A>, AllocError>
    ensures { IfOk result (IsPlaced directory.now) }
{
    let mut path = Vec::new(alloc);
    path.extend_from_slice(directory.as_bytes())?;
    Places::new(path)
}

fn without_dot(path: &[u8]) -> &[u8]
    ensures { result.now ≡ without_dot path.now }
{
    match path {
        [b'.', b'/', behind @ ..] => behind,
        _ => path,
    }
}

impl<'r, A: Allocator + Copy> EntryRules<'r, A> {
    pub(crate) fn new(
        alloc: A,
        chain: &'r Chain<A>,
        settings: &'r Settings,
        directory: &'r str,
    ) -> Result<Self, AllocError>
        ensures { IfOk result (Decide (settings_value settings.entry.now) directory.entry.now (chain_value chain.entry.now)) }
    {
        Ok(EntryRules {
            chain,
            places: Places::new(chain.place(alloc, directory)?)?,
            settings,
            directory,
            paths: place_of(alloc, directory)?,
        })
    }

    /// Returns what the rules that are given say of a name in the directory.
    #[tactic(auto, using(jwalk_ignore_rules::proofs::MatchingFacts::says_computed))]
    fn given_decision(&mut self, name: &[u8], is_dir: bool) -> Result<Decision, AllocError>
        ensures said { (directory : _) → IsPlaced directory self.old.paths
            → IfOk result (λ said. said ≡ given_says (settings_value self.old.settings.now).given directory name.now is_dir) }
        ensures paths { (directory : _) → IsPlaced directory self.old.paths → IsPlaced directory self.new.paths }
        ensures rest { self.new ≡ record self.old { paths = self.new.paths } }
    {
        let Some(given) = &self.settings.given else {
            return Ok(Decision::Unsaid);
        };
        self.paths.set_name(name)?;
        Ok(given.decision(without_dot(self.paths.bytes()), is_dir))
    }

    /// Returns whether a name in the directory stays, of a directory or of another file.
    fn keeps_name(&mut self, name: &[u8], is_dir: bool) -> Result<bool, AllocError>
        ensures kept { (settings : _) → (directory : _) → (chain : _) → Decide settings directory chain self.old
            → IfOk result (λ kept. kept ≡ keeps_name settings directory chain (place_in chain directory) name.now is_dir) }
        ensures same { (settings : _) → (directory : _) → (chain : _) → Decide settings directory chain self.old
            → OnOk result (Decide settings directory chain self.new) }
    {
        self.places.set_name(name)?;
        let said = self.chain.decision(self.places.bytes(), is_dir);
        if said.is_said() {
            return Ok(!said.is_ignored());
        }
        Ok(!self.given_decision(name, is_dir)?.is_ignored())
    }

    /// Returns whether an error stays that is dropped with this name, if it is with one.
    fn keeps_failed(&mut self, name: Option<&[u8]>) -> Result<bool, AllocError>
        ensures kept { (settings : _) → (directory : _) → (chain : _) → Decide settings directory chain self.old
            → IfOk result (λ kept. kept ≡ keeps_failed settings directory chain (place_in chain directory) (option_copied name.entry)) }
        ensures same { (settings : _) → (directory : _) → (chain : _) → Decide settings directory chain self.old
            → OnOk result (Decide settings directory chain self.new) }
    {
        let Some(name) = name else {
            return Ok(true);
        };
        if self.keeps_name(name, true)? {
            return Ok(true);
        }
        self.keeps_name(name, false)
    }
}

/// An item stays unless the rules in force ignore it. The rules that are given decide where these say nothing.
impl<C: ClientState, A: Allocator + Copy> Keeps<C, A> for EntryRules<'_, A> {
    ghost use Rattle.jwalk_ignore.specs.Callback.EntryRules.{DecideBy};

    ghost decides_by = { λ rules test. DecideBy rules test };

    fn keeps(&mut self, found: &Result<DirEntry<C, A>, Error<A>>) -> Result<bool, AllocError> {
        match found {
            Ok(entry) => self.keeps_name(entry.file_name.as_bytes(), entry.file_type.is_dir()),
            Err(error) => self.keeps_failed(failed_name(self.settings, self.directory, error)),
        }
    }
}
