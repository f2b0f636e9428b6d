//! How directories are read.
ghost use Rattle.std.specs.Prelude.{◌≡◌, ◌≤◌};

/// How a walk reads its directories.
#[derive(Clone, Copy, Debug, PartialEq, Eq)]
pub enum Mode {
    /// One directory at a time, when its entry is yielded. The default.
    Serial,
    /// That many directories at a time: the one whose entry is yielded, and those that come after it. 0 means 8.
    Batches(usize),
    /// Ahead of the walk, by the workers of a crew.
    Crew,
}

impl Mode {
    ghost use Rattle.jwalk_job.specs.Options.{mode_value, width_of};

    /// Returns how many directories are read together, by the walk or by each worker.
    pub fn width(self) -> usize
        ensures width { result ≡ width_of (mode_value self) }
        ensures some { 1 ≤ result }
    {
        match self {
            Mode::Serial | Mode::Crew => 1,
            Mode::Batches(0) => 8,
            Mode::Batches(width) => width,
        }
    }
}
