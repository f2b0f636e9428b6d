//! An iterator that notes errors.
ghost use Rattle.std.specs.Prelude.{◌≡◌, true};

/// An iterator that passes on the results of another, and notes whether one was an error.
#[derive(Drop)]
pub struct Noting<I> {
    answers: I,
    clean: bool,
}

impl<I> Noting<I> {
    ghost use Rattle.walk_run.specs.Noting.{source_of, is_clean};

    /// Returns an iterator that passes on these.
    pub fn new(answers: I) -> Self
        ensures source { source_of result ≡ answers }
        ensures clean { is_clean result ≡ true }
    {
        Noting {
            answers,
            clean: true,
        }
    }

    /// Returns whether no error was passed on so far.
    pub fn is_clean(&self) -> bool
        ensures { result ≡ is_clean self.now }
    {
        self.clean
    }
}

impl<T: Drop, E: Drop, I: Iterator<Item = Result<T, E>> + Drop> Iterator for Noting<I> {
    type Item = Result<T, E>;

    ghost use Rattle.walk_run.specs.Noting.{source_of, PassesOn};

    ghost can_next = { λ s. I.can_next (source_of s) };

    ghost next_gives = { PassesOn I.next_gives };

    ghost remaining = { λ s. I.remaining (source_of s) };

    fn next(&mut self) -> Option<Result<T, E>> {
        let answer = self.answers.next()?;
        self.clean = self.clean && answer.is_ok();
        Some(answer)
    }
}
