//! The order of a list by name.
ghost use Rattle.std.specs.Prelude.{◌≡◌, drop, OnOk, map, IfOk, if◌then◌else◌};
ghost use Rattle.std.specs.Ordering.{is_lt};
ghost use Rattle.std.specs.List.Sorted.{IsStableBy};
ghost use Rattle.jwalk_model.specs.Sorting.{stands_before, arranged};
ghost use Rattle.jwalk_job.specs.Entry.{item};
ghost use Rattle.jwalk_job.specs.Sorting.{number, key_of};

use crate::client_state::ClientState;
use crate::item::{Item, List};
use std::alloc::{AllocError, Allocator};
use std::cmp::Ordering;

/// A list of at most this many items is sorted by its names alone.
const FEW: usize = 20;

fn by_name<C: ClientState, A: Allocator + Copy>(a: &Item<C, A>, b: &Item<C, A>) -> Ordering
    ensures { is_lt result ≡ stands_before (item a.now) (item b.now) }
{
    match (a, b) {
        (Ok(a), Ok(b)) => a.file_name.cmp(&b.file_name),
        (Ok(_), Err(_)) => Ordering::Less,
        (Err(_), Ok(_)) => Ordering::Greater,
        (Err(_), Err(_)) => Ordering::Equal,
    }
}

fn first_name<C: ClientState, A: Allocator + Copy>(list: &[Item<C, A>]) -> Option<&str> {
    for found in list {
        if let Ok(entry) = found {
            return Some(entry.file_name.as_str());
        }
    }
    None
}

/// Returns how many bytes two names begin with in common.
fn common_length(a: &str, b: &str) -> usize {
    let a = a.as_bytes();
    let b = b.as_bytes();
    let shorter = a.len().min(b.len());
    for i in 0..shorter {
        if a[i] != b[i] {
            return i;
        }
    }
    shorter
}

/// Returns how many bytes all names of a list begin with in common.
fn shared_length<C: ClientState, A: Allocator + Copy>(list: &[Item<C, A>]) -> usize {
    let Some(first) = first_name(list) else {
        return 0;
    };
    let mut shared = first.len();
    for found in list {
        if let Ok(entry) = found {
            shared = shared.min(common_length(first, entry.file_name.as_str()));
        }
    }
    shared
}

fn rest_of(name: &str, from: usize) -> &[u8]
    ensures { result.now ≡ drop from name.now }
{
    match name.as_bytes().get(from..) {
        Some(rest) => rest,
        None => &[],
    }
}

/// Returns the first eight bytes as a number, which is in the order of the bytes: zeros where there are fewer.
fn number(bytes: &[u8]) -> u64
    ensures { result ≡ number bytes.now }
{
    let count = bytes.len().min(8);
    let mut padded = [0; 8];
    padded[..count].copy_from_slice(&bytes[..count]);
    u64::from_be_bytes(padded)
}

/// Returns the number by which an item is first sorted: that of its name from a place on, and the greatest for an
/// error.
fn key_of<C: ClientState, A: Allocator + Copy>(found: &Item<C, A>, from: usize) -> u64
    ensures { result ≡ key_of from (item found.now) }
{
    match found {
        Ok(entry) => number(rest_of(entry.file_name.as_str(), from)),
        Err(_) => u64::MAX,
    }
}

/// Sorts a long list by eight bytes of each name, the first in which names differ. This is for speed: the sort by names
/// then finds most of them in order. Entries of equal name, and errors, keep their order.
fn sort_by_beginnings<C: ClientState, A: Allocator + Copy>(
    list: &mut List<C, A>,
) -> Result<(), AllocError>
    ensures { OnOk result (IsStableBy (λ a b. stands_before (item a) (item b)) list.old.items list.new.items) }
{
    if list.len() <= FEW {
        return Ok(());
    }
    let from = shared_length(list);
    list.sort_by_cached_key(|found| key_of(found, from))
}

fn sort_by_name<C: ClientState, A: Allocator + Copy>(
    list: &mut List<C, A>,
) -> Result<(), AllocError>
    ensures { OnOk result (map item list.new.items ≡ arranged (map item list.old.items)) }
{
    sort_by_beginnings(list)?;
    list.sort_by(by_name)
}

pub(crate) fn in_order<C: ClientState, A: Allocator + Copy>(
    sort: bool,
    mut list: List<C, A>,
) -> Result<List<C, A>, AllocError>
    ensures { IfOk result (λ v. map item v.items
        ≡ (if sort then arranged (map item list.items) else map item list.items)) }
{
    if sort {
        sort_by_name(&mut list)?;
        return Ok(list);
    }
    Ok(list)
}
