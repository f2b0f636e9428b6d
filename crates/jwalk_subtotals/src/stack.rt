//! The entries whose subtotals are still open.
ghost use Rattle.std.specs.Prelude.{◌≡◌, ◌↔◌, [], IfErr, IfOk, OnOk, IsTrue};
ghost use Rattle.jwalk.specs.jwalk_job.Entry.{entry};
ghost use Rattle.jwalk_usage.specs.declared.report.UsageFault.TheVariants.{TooMany};

use crate::subtotal::Subtotal;
use jwalk::{ClientState, DirEntry};
use jwalk_usage::UsageFault;
use std::alloc::{AllocError, Allocator};

/// An entry with its subtotal.
#[derive(Drop)]
pub struct WithSubtotal<C: ClientState, A: Allocator + Copy> {
    pub entry: DirEntry<C, A>,
    /// What the entry and all below it count.
    pub subtotal: Subtotal,
}

/// The open entries, each below the one before, with what is at and below each, without what is still open below it.
#[derive(Drop)]
pub(crate) struct Stack<C: ClientState, A: Allocator + Copy> {
    open: Vec<WithSubtotal<C, A>, A>,
}

impl<C: ClientState, A: Allocator + Copy> Stack<C, A> {
    ghost use Rattle.jwalk_subtotals.specs.Stack.{frames_of, is_above, added, left_of, opened, open_total, closed, closed_of, AreTooMany, CannotClose};
    ghost use Rattle.jwalk_subtotals.specs.Subtotal.{IsTooGreat};

    pub(crate) fn new(alloc: A) -> Self
        ensures { frames_of result ≡ [] }
    {
        Stack {
            open: Vec::new(alloc),
        }
    }

    pub(crate) fn is_empty(&self) -> bool
        ensures { IsTrue result ↔ (frames_of self.now ≡ []) }
    {
        self.open.is_empty()
    }

    pub(crate) fn is_above(&self, depth: usize) -> bool
        ensures { result ≡ is_above depth (frames_of self.now) }
    {
        match self.open.last() {
            Some(last) => last.entry.depth() < depth,
            None => true,
        }
    }

    /// Returns what all of them count together.
    pub(crate) fn total(&self) -> Result<Subtotal, UsageFault>
        ensures total { IfOk result (λ total. total ≡ open_total (frames_of self.now)) }
        ensures too_many { IfErr result (λ fault. (fault ≡ TooMany) × IsTooGreat (open_total (frames_of self.now))) }
    {
        let mut total = Subtotal::nothing();
        for open in self.open.as_slice() {
            total.add(&open.subtotal)?;
        }
        Ok(total)
    }

    pub(crate) fn count(&mut self, more: &Subtotal) -> Result<(), UsageFault>
        ensures counted { OnOk result (frames_of self.new ≡ added more.now (frames_of self.old)) }
        ensures too_many { IfErr result (λ fault. (fault ≡ TooMany) × AreTooMany more.now (frames_of self.old)) }
    {
        match self.open.last_mut() {
            Some(last) => last.subtotal.add(more),
            None => Ok(()),
        }
    }

    pub(crate) fn push(
        &mut self,
        found: DirEntry<C, A>,
        counted: Subtotal,
    ) -> Result<(), AllocError>
        ensures { OnOk result (frames_of self.new ≡ opened (entry found) counted (frames_of self.old)) }
    {
        self.open.push(WithSubtotal {
            entry: found,
            subtotal: counted,
        })?;
        Ok(())
    }

    pub(crate) fn close(&mut self) -> Result<Option<WithSubtotal<C, A>>, UsageFault>
        ensures left { OnOk result (frames_of self.new ≡ left_of (frames_of self.old)) }
        ensures closed { IfOk result (λ last. closed last ≡ closed_of (frames_of self.old)) }
        ensures too_many { IfErr result (λ fault. (fault ≡ TooMany) × CannotClose (frames_of self.old)) }
    {
        let Some(last) = self.open.pop() else {
            return Ok(None);
        };
        self.count(&last.subtotal)?;
        Ok(Some(last))
    }
}
