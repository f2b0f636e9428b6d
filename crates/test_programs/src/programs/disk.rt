//! A disk with files of rules, which counts its questions, and may fail at one of them.
ghost use Rattle.jwalk.specs.jwalk_model.Tree.{functions_of, only_root};
ghost use Rattle.jwalk_ignore.specs.Rules.Texts.{no_texts};

use crate::programs::counts::{Counts, Question};
use crate::programs::told::{Told, retell};
use jwalk::file_system::{Fault, FileSystem, FileType, Listed, MemoryFs, Metadata, Seen};
use jwalk_ignore::memory_texts::MemoryTexts;
use jwalk_ignore::texts::Texts;
use std::alloc::{AllocError, Allocator, Global};
use std::io;
use std::io::ErrorKind;
use std::sync::Arc;
use walk_text::failure::Failure;
use walk_text::tree::build_tree;

/// The error of a question that fails.
#[derive(Clone, Copy)]
pub(crate) enum Failed {
    Memory,
    Io(ErrorKind),
}

/// The question that fails.
#[derive(Clone, Copy)]
pub(crate) enum Failing {
    Never,
    /// This question about this path.
    At(Question, Failed, &'static str),
    /// The question with this number, counted from 0.
    Turn(usize, Failed),
}

/// A tree and files of rules in memory.
#[derive(Drop)]
pub(crate) struct Disk {
    tree: MemoryFs,
    texts: MemoryTexts,
    /// Paths, with what is said of them in place of what the tree says.
    told: &'static [(&'static str, Told)],
    failing: Failing,
    counts: Arc<Counts>,
}

fn rules_of(alloc: Global, rules: &[(&str, &str)]) -> Result<MemoryTexts, AllocError> {
    let mut texts = MemoryTexts::new(alloc);
    for (path, text) in rules {
        texts.add(path, text.as_bytes())?;
    }
    Ok(texts)
}

impl Disk {
    /// Returns a disk with the tree of these lines, these files of rules, and what is told of paths. Others see the counts.
    pub(crate) fn new(
        alloc: Global,
        tree: &str,
        rules: &[(&str, &str)],
        told: &'static [(&'static str, Told)],
        failing: Failing,
        counts: &Arc<Counts>,
    ) -> Result<Self, Failure> {
        let tree = build_tree(alloc, tree.as_bytes())?;
        let texts = rules_of(alloc, rules)?;
        Ok(Disk {
            tree,
            texts,
            told,
            failing,
            counts: counts.clone()?,
        })
    }

    /// Counts a question, and fails if it is the one that does.
    fn ask(&self, question: Question, path: &str) -> Result<(), Fault> {
        let turn = self.counts.count(question);
        let failed = match self.failing {
            Failing::At(at, failed, of) if at == question && of == path => failed,
            Failing::Turn(at, failed) if at == turn => failed,
            _ => return Ok(()),
        };
        match failed {
            Failed::Memory => Err(Fault::Memory),
            Failed::Io(kind) => Err(Fault::Io(io::Error::from(kind))),
        }
    }

    /// Returns what is said of a path whose metadata in the tree is this.
    fn told(&self, path: &str, metadata: Metadata) -> Metadata {
        for (at, told) in self.told {
            if *at == path {
                return told.metadata(metadata);
            }
        }
        metadata
    }
}

impl FileSystem for Disk {
    ghost IsFixed = { λ _. ⊥ };

    ghost functions = { λ _. functions_of only_root };

    fn read_dir<A: Allocator + Copy>(
        &self,
        alloc: A,
        path: &str,
    ) -> Result<Vec<io::Result<Listed<A>>, A>, Fault> {
        self.ask(Question::List, path)?;
        let mut items = self.tree.read_dir(alloc, path)?;
        for item in &mut items {
            retell(self.told, path, item);
        }
        Ok(items)
    }

    fn metadata(&self, path: &str) -> Result<Metadata, Fault> {
        self.ask(Question::Follow, path)?;
        let metadata = self.tree.metadata(path)?;
        Ok(self.told(path, metadata))
    }

    fn symlink_metadata(&self, path: &str) -> Result<Metadata, Fault> {
        self.ask(Question::Look, path)?;
        let metadata = self.tree.symlink_metadata(path)?;
        Ok(self.told(path, metadata))
    }

    fn read_link<A: Allocator + Copy>(&self, alloc: A, path: &str) -> Result<String<A>, Fault> {
        self.ask(Question::Follow, path)?;
        self.tree.read_link(alloc, path)
    }
}

impl Texts for Disk {
    ghost IsFixed = { λ _. ⊥ };

    ghost functions = { λ _. no_texts };

    fn read<A: Allocator + Copy>(&self, alloc: A, path: &str) -> Result<Vec<u8, A>, Fault> {
        self.ask(Question::Read, path)?;
        self.texts.read(alloc, path)
    }

    fn file_type(&self, path: &str) -> Result<FileType, Fault> {
        self.ask(Question::Place, path)?;
        self.texts.file_type(path)
    }

    fn target_type(&self, path: &str) -> Result<FileType, Fault> {
        self.ask(Question::Place, path)?;
        self.texts.target_type(path)
    }

    fn absolute<A: Allocator + Copy>(&self, alloc: A, path: &str) -> Result<String<A>, Fault> {
        self.ask(Question::Place, path)?;
        self.texts.absolute(alloc, path)
    }
}
