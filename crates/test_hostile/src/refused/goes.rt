//! Walks of rows that are made again and again.
ghost use Rattle.std.specs.Prelude.{◌≡◌, IfSome};
ghost use Rattle.jwalk.specs.WalkDir.{callback_of};

use crate::refused::rows::Row;
use jwalk::file_system::{FileSystem, MemoryFs};
use jwalk::read_dir::{NoProcess, ProcessReadDir};
use jwalk::{ClientState, WalkDirGeneric};
use std::alloc::{Allocator, Global};
use test_fixtures::refused::callbacks::Texts;
use test_fixtures::refused::lines::Shown;
use test_fixtures::refused::outcome::{Call, Outcome, comes};
use test_fixtures::refused::turns::Repeated;
use test_fixtures::refusing_alloc::Refusing;
use test_fixtures::width::Width;

/// A walk that has not begun.
pub type Builder<'f, C, P, A> = WalkDirGeneric<C, &'f MemoryFs, P, A>;

/// The walk of a row over its tree, with how many directories are read together and how its answers are taken.
#[derive(Clone, Copy)]
pub struct Play<'f> {
    pub fs: &'f MemoryFs,
    pub row: &'f Row,
    pub width: Width,
    pub call: Call,
}

impl<'f> Play<'f> {
    /// Returns the walk with this callback, or `None` if there is no memory for its root.
    pub fn builder<C: ClientState, P: ProcessReadDir<C, A>, A: Allocator + Copy>(
        &self,
        memory: A,
        process: P,
    ) -> Option<Builder<'f, C, P, A>>
        ensures { IfSome result (λ walk. callback_of walk ≡ process) }
    {
        match String::from_str(memory, self.row.root) {
            Ok(root) => Some(self.with_options(WalkDirGeneric::new(self.fs, root), process)),
            Err(_) => None,
        }
    }

    fn with_options<C: ClientState, S: FileSystem, P: ProcessReadDir<C, A>, A: Allocator + Copy>(
        &self,
        walk: WalkDirGeneric<C, S, NoProcess, A>,
        process: P,
    ) -> WalkDirGeneric<C, S, P, A>
        ensures { callback_of result ≡ process }
    {
        walk.sort(true)
            .follow_links(self.row.follow)
            .parallelism(self.width.parallelism())
            .process_read_dir(process)
    }

    /// Returns how the walk comes out with this memory and this callback.
    pub fn comes_with<C: ClientState, P: ProcessReadDir<C, A>, A: Allocator + Copy>(
        &self,
        alloc: Global,
        memory: A,
        process: P,
    ) -> Outcome
    where
        C::DirEntryState: Shown,
        requires { P.IsLawful process }
    {
        match self.builder::<C, P, A>(memory, process) {
            Some(walk) => comes(alloc, memory, walk, self.call, self.row.lines),
            None => Outcome::Refused(0),
        }
    }

    /// Returns how the walk comes out with this memory and the row's callback.
    pub fn comes_over<A: Allocator + Copy>(&self, alloc: Global, memory: A) -> Outcome {
        match self.row.callback {
            Some(callback) => self.comes_with::<Texts<A>, _, _>(alloc, memory, callback),
            None => self.comes_with::<((), ()), _, _>(alloc, memory, NoProcess),
        }
    }
}

/// A walk whose answers are all asked for at once may come whole after a refusal, as more is asked for then.
impl Repeated for Play<'_> {
    fn comes(&self, alloc: Global, memory: &Refusing<Global>) -> Outcome {
        self.comes_over(alloc, memory)
    }

    fn may_be_whole(&self) -> bool {
        self.call == Call::Fill
    }
}
