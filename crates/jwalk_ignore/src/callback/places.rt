//! The places of a directory's entries, one after another.
ghost use Rattle.std.specs.Prelude.{◌≡◌, ◌++◌, ◌∷◌, IfOk, OnOk};

use std::alloc::{AllocError, Allocator};

/// The place of a directory, ended by a slash, and behind it the name of an entry. All places of a list are written into
/// one buffer.
#[derive(Drop)]
pub(crate) struct Places<A: Allocator + Copy> {
    bytes: Vec<u8, A>,
    len: usize,
}

impl<A: Allocator + Copy> Places<A> {
    ghost use Rattle.jwalk_ignore.specs.Callback.Places.{IsAt, IsPlaced};

    pub(crate) fn new(place: Vec<u8, A>) -> Result<Self, AllocError>
        ensures { IfOk result (IsPlaced place.items) }
    {
        let mut bytes = place;
        bytes.push(b'/')?;
        let len = bytes.len();
        Ok(Places { bytes, len })
    }

    pub(crate) fn set_name(&mut self, name: &[u8]) -> Result<(), AllocError>
        ensures named { (place : _) → IsPlaced place self.old → OnOk result (IsAt place name.now self.new) }
        ensures placed { (place : _) → IsPlaced place self.old → IsPlaced place self.new }
    {
        self.bytes.truncate(self.len);
        self.bytes.extend_from_slice(name)?;
        Ok(())
    }

    pub(crate) fn bytes(&self) -> &[u8]
        ensures { (place : _) → (name : _) → IsAt place name self.now → result.now ≡ place ++ 47 ∷ name }
    {
        &self.bytes
    }
}
