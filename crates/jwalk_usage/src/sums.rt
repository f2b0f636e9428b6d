//! The sums that a usage is made of.
ghost use Rattle.std.specs.Prelude.{◌≡◌, ◌+◌, ◌≤◌, ◌<◌, ◌^◌, IsOk, IfOk, IfErr};

use crate::report::UsageFault;

/// Returns the sum of two numbers.
///
/// # Errors
///
/// `UsageFault::TooMany` if it passes the greatest `u128`.
pub fn plus(total: u128, more: u128) -> Result<u128, UsageFault>
    ensures sum { IfOk result (λ sum. sum ≡ total + more) }
    ensures fits { total + more < 2 ^ 128 → IsOk result }
    ensures passed { IfErr result (λ fault. (fault ≡ UsageFault.TooMany) × (2 ^ 128 ≤ total + more)) }
{
    match total.checked_add(more) {
        Some(sum) => Ok(sum),
        None => Err(UsageFault::TooMany),
    }
}
