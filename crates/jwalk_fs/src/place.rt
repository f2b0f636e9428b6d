//! Places: paths compared once their `.` and `..` are gone, by their texts alone.
ghost use Rattle.std.specs.Prelude.{◌≡◌, ◌∷◌, [], IfOk, MatchOption};
ghost use Rattle.jwalk_model.specs.Paths.{component_eq, components_eq, normalised};
ghost use Rattle.jwalk_model.specs.PathTexts.{component_seen};
ghost use Rattle.jwalk_fs.specs.Place.{IsCountable, left_of, place_seen};

use std::alloc::{AllocError, Allocator, Global};
use std::path::{Component, Components, Path};

fn is_same(a: Component<'_>, b: Component<'_>) -> bool
    ensures { result ≡ component_eq (component_seen a.entry) (component_seen b.entry) }
{
    match (a, b) {
        (Component::RootDir, Component::RootDir) => true,
        (Component::CurDir, Component::CurDir) => true,
        (Component::ParentDir, Component::ParentDir) => true,
        (Component::Normal(name), Component::Normal(other)) => name == other,
        _ => false,
    }
}

/// What is left of a path that is normalised from its end.
#[derive(Drop)]
struct Rest<'p> {
    front: Components<'p>,
    /// How many names at the end of the front are taken away by a `..` after them.
    ups: usize,
}

impl<'p> Rest<'p> {
    fn new(path: &'p str) -> Self
        ensures countable { IsCountable result }
        ensures value { left_of result ≡ normalised path.now }
    {
        Rest {
            front: Path::new(path).components(),
            ups: 0,
        }
    }

    fn take_last(&mut self) -> Option<Component<'p>>
        requires { IsCountable self.old }
        ensures countable { IsCountable self.new }
        ensures value { MatchOption result (left_of self.old ≡ [])
            (λ last. left_of self.old ≡ component_seen last ∷ left_of self.new) }
    {
        while let Some(last) = self.front.next_back() {
            match last {
                Component::CurDir => {}
                Component::ParentDir => self.ups += 1,
                Component::RootDir => {
                    self.ups = 0;
                    return Some(last);
                }
                Component::Normal(_) if self.ups == 0 => return Some(last),
                Component::Normal(_) => self.ups -= 1,
            }
        }
        if self.ups == 0 {
            return None;
        }
        self.ups -= 1;
        Some(Component::ParentDir)
    }
}

/// A normalised path, with which others are compared without memory.
pub struct Place<'p, A: Allocator + Copy = Global> {
    /// Its components, the last first.
    components: Vec<Component<'p>, A>,
}

impl<'p, A: Allocator + Copy> Drop for Place<'p, A> {
    fn drop(self) {
        let Place { components: _ } = self;
    }
}

impl<'p, A: Allocator + Copy> Place<'p, A> {
    /// Returns the place that a path names.
    ///
    /// # Errors
    ///
    /// If memory runs out.
    pub fn new(alloc: A, path: &'p str) -> Result<Self, AllocError>
        ensures { IfOk result (λ place. place_seen place ≡ normalised path.now) }
    {
        let mut components = Vec::new(alloc);
        let mut rest = Rest::new(path);
        while let Some(last) = rest.take_last() {
            components.push(last)?;
        }
        Ok(Place { components })
    }

    /// Returns whether a path names this place.
    pub fn is_at(&self, path: &str) -> bool
        ensures { result ≡ components_eq (place_seen self.now) (normalised path.now) }
    {
        let mut rest = Rest::new(path);
        for component in &self.components {
            match rest.take_last() {
                Some(last) if is_same(*component, last) => {}
                _ => return false,
            }
        }
        rest.take_last().is_none()
    }
}
