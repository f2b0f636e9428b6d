//! A directory that was read.
ghost use Rattle.std.specs.Prelude.{◌≡◌, ◌++◌, List, All, IfOk, OnOk, length, map, option_to_list};
ghost use Rattle.jwalk_model.specs.ReadDir.{Spec, spec_of, children, children_of, AreClones};
ghost use Rattle.jwalk_order.specs.Frontier.{children_from};
ghost use Rattle.jwalk_order.specs.IndexPath.{address as indices_of};
ghost use Rattle.jwalk_order.specs.Ordered.{address_of, child_count_of};
ghost use Rattle.jwalk_job.specs.Entry.{item};
ghost use Rattle.jwalk_job.specs.ReadDirSpec.{spec};
ghost use Rattle.jwalk_job.specs.ReadDir.{outcome, reading};

use crate::client_state::ClientState;
use crate::error::Error;
use crate::item::{Item, List};
use crate::read_dir_spec::ReadDirSpec;
use jwalk_order::index_path::IndexPath;
use jwalk_order::ordered::Ordered;
use std::alloc::{AllocError, Allocator, Global};

/// What a directory's reading gave: its list, and the state that it left.
pub struct ReadDir<C: ClientState, A: Allocator + Copy = Global> {
    read_dir_state: C::ReadDirState,
    results_list: List<C, A>,
}

impl<C: ClientState, A: Allocator + Copy> Drop for ReadDir<C, A> {
    fn drop(self) {
        let ReadDir {
            read_dir_state: _,
            results_list: _,
        } = self;
    }
}

/// The outcome of a directory's reading.
pub type Outcome<C, A> = Result<ReadDir<C, A>, Error<A>>;

/// Returns the directories to be read below the entries of a reading's outcome, in its order: an error has none.
///
/// # Errors
///
/// If memory runs out, for the list or for the clone of a state.
pub fn directories_of<C: ClientState, A: Allocator + Copy>(
    alloc: A,
    read: &Outcome<C, A>,
) -> Result<Vec<ReadDirSpec<C, A>, A>, AllocError>
    ensures { IfOk result (λ v. AreClones C.ReadDirState.is_clone
        (children_of (outcome read.now)) (map spec v.items)) }
{
    match read {
        Ok(read) => read.read_children_specs(),
        Err(_) => Ok(Vec::new(alloc)),
    }
}

fn push_spec<C: ClientState, A: Allocator + Copy>(
    specs: &mut Vec<ReadDirSpec<C, A>, A>,
    state: &C::ReadDirState,
    found: &Item<C, A>,
) -> Result<(), AllocError>
    ensures { (asked : List (Spec C.ReadDirState)) → AreClones C.ReadDirState.is_clone asked (map spec specs.old.items)
        → OnOk result (AreClones C.ReadDirState.is_clone
        (asked ++ option_to_list (spec_of state.now (item found.now))) (map spec specs.new.items)) }
{
    match ReadDirSpec::of_item(state, found)? {
        Some(spec) => {
            specs.push(spec)?;
            Ok(())
        }
        None => Ok(()),
    }
}

fn addressed<T: Drop, A: Allocator + Copy>(
    address: &IndexPath<A>,
    values: Vec<T, A>,
) -> Result<Vec<Ordered<T, A>, A>, AllocError>
    ensures same { IfOk result (λ v. map (λ x. x.value) v.items ≡ values.items) }
    ensures addresses { IfOk result (λ v. map address_of v.items
        ≡ children_from 0 (indices_of address.now) (length v.items)) }
    ensures unread { IfOk result (λ v. All (λ x. child_count_of x ≡ 0) v.items) }
{
    let mut ordered = Vec::with_capacity(*values.allocator(), values.len())?;
    for value in values {
        let child = address.adding(ordered.len())?;
        ordered.push(Ordered::new(value, child, 0))?;
    }
    Ok(ordered)
}

impl<C: ClientState, A: Allocator + Copy> ReadDir<C, A> {
    pub(crate) fn new(read_dir_state: C::ReadDirState, results_list: List<C, A>) -> Self
        ensures { reading result ≡ record { state = read_dir_state; list = map item results_list.items } }
    {
        ReadDir {
            read_dir_state,
            results_list,
        }
    }

    /// Returns the list, in its order.
    pub fn results_list(&self) -> &[Item<C, A>]
        ensures { map item result.now ≡ (reading self.now).list }
    {
        &self.results_list
    }

    /// Returns the list, in its order, taken out of the reading.
    pub fn into_results_list(self) -> List<C, A>
        ensures { map item result.items ≡ (reading self).list }
    {
        let ReadDir {
            read_dir_state: _,
            results_list,
        } = self;
        results_list
    }

    /// Returns the directories to be read below the entries of the list, in its order: one for each entry that has
    /// `read_children`. Each begins with a clone of the state named there, or else of the one that this reading left.
    ///
    /// # Errors
    ///
    /// If memory runs out, for the list or for the clone of a state.
    pub fn read_children_specs(&self) -> Result<Vec<ReadDirSpec<C, A>, A>, AllocError>
        ensures { IfOk result (λ v. AreClones C.ReadDirState.is_clone
            (children (reading self.now)) (map spec v.items)) }
    {
        let mut specs = Vec::new(*self.results_list.allocator());
        for found in &self.results_list {
            push_spec(&mut specs, &self.read_dir_state, found)?;
        }
        Ok(specs)
    }

    /// Returns the same directories, each at its address: child `i` of the directory at `address`. Their own
    /// directories aren't known yet, so each has the child count 0. The addresses are made with the allocator of
    /// `address`.
    ///
    /// # Errors
    ///
    /// If memory runs out, for the lists, for an address or for the clone of a state.
    pub fn ordered_read_children_specs(
        &self,
        address: &IndexPath<A>,
    ) -> Result<Vec<Ordered<ReadDirSpec<C, A>, A>, A>, AllocError>
        ensures specs { IfOk result (λ v. AreClones C.ReadDirState.is_clone
            (children (reading self.now)) (map (λ x. spec x.value) v.items)) }
        ensures addresses { IfOk result (λ v. map address_of v.items
            ≡ children_from 0 (indices_of address.now) (length v.items)) }
        ensures unread { IfOk result (λ v. All (λ x. child_count_of x ≡ 0) v.items) }
    {
        addressed(address, self.read_children_specs()?)
    }
}
