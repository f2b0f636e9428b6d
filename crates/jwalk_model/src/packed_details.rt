//! Details in less memory: without the bytes that structs leave unused between their fields.
ghost use Rattle.std.specs.Prelude.{◌≡◌};

use crate::metadata::{Details, Identity, Moment};
use std::fmt;

/// The same as [`Details`], in 96 bytes instead of 120: seconds and nanoseconds stand apart.
#[derive(Clone, Copy, PartialEq, Eq)]
pub struct PackedDetails {
    identity: Identity,
    links: u64,
    blocks: u64,
    modified_seconds: i64,
    accessed_seconds: i64,
    changed_seconds: i64,
    /// 0 where it isn't known when the file was created.
    created_seconds: i64,
    modified_nanoseconds: u32,
    accessed_nanoseconds: u32,
    changed_nanoseconds: u32,
    /// 0 where it isn't known when the file was created.
    created_nanoseconds: u32,
    mode: u32,
    uid: u32,
    gid: u32,
    is_created_known: bool,
}

impl PackedDetails {
    ghost use Rattle.jwalk_model.specs.Packed.{packed, unpacked};

    /// Packs details, which [`details`](Self::details) returns again.
    pub fn new(details: Details) -> Self
        ensures { result ≡ packed details }
    {
        let created = details.created.unwrap_or(Moment {
            seconds: 0,
            nanoseconds: 0,
        });
        PackedDetails {
            identity: details.identity,
            links: details.links,
            blocks: details.blocks,
            modified_seconds: details.modified.seconds,
            accessed_seconds: details.accessed.seconds,
            changed_seconds: details.changed.seconds,
            created_seconds: created.seconds,
            modified_nanoseconds: details.modified.nanoseconds,
            accessed_nanoseconds: details.accessed.nanoseconds,
            changed_nanoseconds: details.changed.nanoseconds,
            created_nanoseconds: created.nanoseconds,
            mode: details.mode,
            uid: details.uid,
            gid: details.gid,
            is_created_known: details.created.is_some(),
        }
    }

    /// Returns the details that it was made of.
    pub fn details(&self) -> Details
        ensures { result ≡ unpacked self.now }
    {
        Details {
            identity: self.identity,
            links: self.links,
            blocks: self.blocks,
            modified: moment(self.modified_seconds, self.modified_nanoseconds),
            accessed: moment(self.accessed_seconds, self.accessed_nanoseconds),
            changed: moment(self.changed_seconds, self.changed_nanoseconds),
            created: if self.is_created_known {
                Some(moment(self.created_seconds, self.created_nanoseconds))
            } else {
                None
            },
            mode: self.mode,
            uid: self.uid,
            gid: self.gid,
        }
    }

    /// Returns which file it is.
    pub fn identity(&self) -> Identity
        ensures { result ≡ self.now.identity }
    {
        self.identity
    }
}

fn moment(seconds: i64, nanoseconds: u32) -> Moment
    ensures { result ≡ record { seconds = seconds; nanoseconds = nanoseconds } }
{
    Moment {
        seconds,
        nanoseconds,
    }
}

impl fmt::Debug for PackedDetails {
    fn fmt<W: fmt::Write>(&self, f: &mut fmt::Formatter<W>) -> fmt::Result {
        self.details().fmt(f)
    }
}
