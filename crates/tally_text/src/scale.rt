//! Sizes as texts.
ghost use Rattle.std.specs.Prelude.{◌≡◌, ◌≤◌, ◌*◌, ◌^◌, ◌++◌, codes, decimal, OnOk};
ghost use Rattle.tally_text.specs.Scale.{power_for, in_tenths, amount_in, in_units};

use itoa::Buffer;
use std::alloc::{AllocError, Global};

/// The scale of sizes.
#[derive(Clone, Copy, Debug, PartialEq, Eq)]
pub enum Scale {
    /// In the binary unit for the size, as `1.4 GiB`.
    Human,
    /// In the decimal unit for the size, as `1.6 GB`.
    Decimal,
    /// In units of 1,024 bytes, rounded up.
    Kibibytes,
    /// In units of 1,048,576 bytes, rounded up.
    Mebibytes,
    /// In bytes.
    Bytes,
}

#[tactic(auto, using(crate::proofs::ScaleFacts::unit_fits, crate::proofs::ScaleFacts::unit_most, crate::proofs::ScaleFacts::unit_some))]
fn unit_of(step: u128, power: u32) -> u128
    requires some_step { 1 ≤ step }
    requires most_step { step ≤ 1024 }
    requires most_power { power ≤ 10 }
    ensures power { result ≡ step ^ power }
    ensures some { 1 ≤ result }
    ensures most { result ≤ 2 ^ 100 }
{
    step.pow(power)
}

/// Returns the first power of a step in which the size, rounded up, has fewer units than the step, or the tenth.
fn power_for(step: u128, bytes: u128) -> u32
    requires some_step { 1 ≤ step }
    requires most_step { step ≤ 1024 }
    ensures power { result ≡ power_for step bytes }
    ensures some { 1 ≤ result }
    ensures most { result ≤ 10 }
{
    let mut power = 1;
    while power < 10 && bytes.div_ceil(unit_of(step, power)) >= step {
        power += 1;
    }
    power
}

fn push_decimal(n: u128, out: &mut Vec<u8, Global>) -> Result<(), AllocError>
    ensures { OnOk result (out.new.items ≡ out.old.items ++ decimal n) }
{
    out.extend_from_slice(Buffer::new().format(n).as_bytes())
}

fn push_tenths(tenths: u128, out: &mut Vec<u8, Global>) -> Result<(), AllocError>
    ensures { OnOk result (out.new.items ≡ out.old.items ++ in_tenths tenths) }
{
    push_decimal(tenths / 10, out)?;
    out.push(b'.')?;
    push_decimal(tenths % 10, out)
}

/// Rounds up. Numbers up to 9.9 have one decimal, others none.
#[tactic(auto, using(crate::proofs::ScaleFacts::within))]
fn push_amount(unit: u128, bytes: u128, out: &mut Vec<u8, Global>) -> Result<(), AllocError>
    requires some { 1 ≤ unit }
    requires most { unit ≤ 2 ^ 100 }
    ensures { OnOk result (out.new.items ≡ out.old.items ++ amount_in unit bytes) }
{
    if bytes <= 99 * unit / 10 {
        push_tenths((10 * bytes).div_ceil(unit), out)
    } else {
        push_decimal(bytes.div_ceil(unit), out)
    }
}

/// Appends a size, rounded up, in powers of a step, each with a letter and the same ending.
fn push_units(
    step: u128,
    letters: &[u8; 10],
    ending: &str,
    bytes: u128,
    out: &mut Vec<u8, Global>,
) -> Result<(), AllocError>
    requires some_step { 1 ≤ step }
    requires most_step { step ≤ 1024 }
    ensures { OnOk result (out.new.items ≡ out.old.items ++ in_units step letters.now ending.now bytes) }
{
    let power = power_for(step, bytes);
    push_amount(unit_of(step, power), bytes, out)?;
    out.push(b' ')?;
    out.push(letters[power as usize - 1])?;
    out.extend_from_slice(ending.as_bytes())
}

fn push_bytes(bytes: u128, out: &mut Vec<u8, Global>) -> Result<(), AllocError>
    ensures { OnOk result (out.new.items ≡ out.old.items ++ decimal bytes ++ codes " B") }
{
    push_decimal(bytes, out)?;
    out.extend_from_slice(b" B")
}

impl Scale {
    ghost use Rattle.tally_text.specs.Scale.{size_text};

    /// Appends a size to `out`.
    ///
    /// # Errors
    ///
    /// If memory runs out.
    pub fn push(self, bytes: u128, out: &mut Vec<u8, Global>) -> Result<(), AllocError>
        ensures { OnOk result (out.new.items ≡ out.old.items ++ size_text self bytes) }
    {
        match self {
            Scale::Human if bytes >= 1024 => push_units(1024, b"KMGTPEZYRQ", "iB", bytes, out),
            Scale::Decimal if bytes >= 1000 => push_units(1000, b"kMGTPEZYRQ", "B", bytes, out),
            Scale::Human | Scale::Decimal => push_bytes(bytes, out),
            Scale::Kibibytes => push_decimal(bytes.div_ceil(1024), out),
            Scale::Mebibytes => push_decimal(bytes.div_ceil(1_048_576), out),
            Scale::Bytes => push_decimal(bytes, out),
        }
    }
}
