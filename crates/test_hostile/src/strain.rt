//! A crew under strain: slow and blocked calls, many walks, and two crews at once.
mod crews;
mod slow;
mod stuck;
