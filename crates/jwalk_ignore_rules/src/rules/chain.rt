//! The rules in force in a directory.
ghost use Rattle.std.specs.Prelude.{◌≡◌, IfOk, OnOk, length, string_bytes};
ghost use Rattle.std.specs.Arc.{arc_value};
ghost use Rattle.jwalk_ignore_rules.specs.Rules.Chain.{below_root, chain_says, entered, has_rules, links_say, no_rules, place_in, with_link};
ghost use Rattle.jwalk_ignore_rules.specs.Rules.ChainViews.{chain_value, in_force_value, link_value, links_value};

use crate::rules::decision::Decision;
use crate::rules::link::{Link, behind};
use crate::rules::rules_kind::RulesKind;
use std::alloc::{AllocError, Allocator, Global};
use std::sync::Arc;

/// What a chain shares.
#[derive(Drop)]
#[derive_where(Debug)]
pub(crate) struct InForce<A: Allocator + Copy> {
    /// The root's absolute path, ended by a slash.
    front: Arc<String<A>, A>,
    /// How long the root's own path is.
    root_len: usize,
    in_repository: bool,
    fdignore: Vec<Arc<Link<A>, A>, A>,
    ignore: Vec<Arc<Link<A>, A>, A>,
    gitignore: Vec<Arc<Link<A>, A>, A>,
    exclude: Vec<Arc<Link<A>, A>, A>,
}

/// The rules in force in a directory: the state that the callback `IgnoreFiles` of `jwalk_ignore` hands down
/// the tree, beside a user's own.
///
/// It is a handle of one shared list, with a link for each file of rules above. A clone copies no link.
#[derive_where(Debug)]
pub struct Chain<A: Allocator + Copy = Global> {
    in_force: Option<Arc<InForce<A>, A>>,
}

impl<A: Allocator + Copy> Drop for Chain<A> {
    fn drop(self) {
        let Chain { in_force: _ } = self;
    }
}

/// No rules.
impl<A: Allocator + Copy> Default for Chain<A> {
    ghost is_default = { λ chain. chain_value chain ≡ no_rules };

    fn default() -> Self {
        Chain { in_force: None }
    }
}

/// A clone is a handle of the same list. It fails only if memory runs out.
impl<A: Allocator + Copy> Clone for Chain<A> {
    ghost is_clone = { λ old new. chain_value new ≡ chain_value old };

    fn clone(&self) -> Result<Self, AllocError> {
        match &self.in_force {
            Some(shared) => Ok(Chain {
                in_force: Some(shared.clone()?),
            }),
            None => Ok(Chain { in_force: None }),
        }
    }
}

/// Returns what the nearest links say of a path that say anything.
fn links_say<A: Allocator + Copy>(links: &[Arc<Link<A>, A>], path: &[u8], is_dir: bool) -> Decision
    ensures { result ≡ links_say (links_value links.now) path.now is_dir }
{
    let mut rest = links;
    'links: while let Some((link, farther)) = rest.split_last() {
        let decision = link.decision(path, is_dir);
        if decision.is_said() {
            return decision;
        }
        rest = farther;
    }
    Decision::Unsaid
}

/// Returns handles of these links, with room for one more.
fn shared_links<A: Allocator + Copy>(
    alloc: A,
    links: &[Arc<Link<A>, A>],
) -> Result<Vec<Arc<Link<A>, A>, A>, AllocError>
    ensures { IfOk result (λ all. links_value all.items ≡ links_value links.now) }
{
    let mut all = Vec::with_capacity(alloc, links.len().saturating_add(1))?;
    all.extend_with_clones(links)?;
    Ok(all)
}

impl<A: Allocator + Copy> InForce<A> {
    /// Returns no rules, with what is put in front of a path in place of this many bytes.
    fn below(alloc: A, front: String<A>, root_len: usize) -> Result<Self, AllocError>
        ensures { IfOk result (λ rules. in_force_value rules
            ≡ record no_rules { front = string_bytes front; root_len = root_len }) }
    {
        Ok(InForce {
            front: Arc::new(alloc, front)?,
            root_len,
            in_repository: false,
            fdignore: Vec::new(alloc),
            ignore: Vec::new(alloc),
            gitignore: Vec::new(alloc),
            exclude: Vec::new(alloc),
        })
    }

    fn copied(&self, alloc: A) -> Result<Self, AllocError>
        ensures { IfOk result (λ rules. in_force_value rules ≡ in_force_value self.now) }
    {
        Ok(InForce {
            front: self.front.clone()?,
            root_len: self.root_len,
            in_repository: self.in_repository,
            fdignore: shared_links(alloc, &self.fdignore)?,
            ignore: shared_links(alloc, &self.ignore)?,
            gitignore: shared_links(alloc, &self.gitignore)?,
            exclude: shared_links(alloc, &self.exclude)?,
        })
    }

    fn add_link(&mut self, kind: RulesKind, link: Arc<Link<A>, A>) -> Result<(), AllocError>
        ensures { OnOk result (in_force_value self.new
            ≡ with_link kind (link_value (arc_value link)) (in_force_value self.old)) }
    {
        match kind {
            RulesKind::Fdignore => Ok(self.fdignore.push(link)?),
            RulesKind::Ignore => Ok(self.ignore.push(link)?),
            RulesKind::Gitignore => Ok(self.gitignore.push(link)?),
            RulesKind::Exclude => Ok(self.exclude.push(link)?),
        }
    }

    fn decision(&self, path: &[u8], is_dir: bool) -> Decision
        ensures { result ≡ chain_says (in_force_value self.now) path.now is_dir }
    {
        let said = links_say(&self.fdignore, path, is_dir);
        if said.is_said() {
            return said;
        }
        let said = links_say(&self.ignore, path, is_dir);
        if said.is_said() {
            return said;
        }
        let said = links_say(&self.gitignore, path, is_dir);
        if said.is_said() {
            return said;
        }
        links_say(&self.exclude, path, is_dir)
    }

    fn has_rules(&self) -> bool
        ensures { result ≡ has_rules (in_force_value self.now) }
    {
        !self.fdignore.is_empty()
            || !self.ignore.is_empty()
            || !self.gitignore.is_empty()
            || !self.exclude.is_empty()
    }
}

impl<A: Allocator + Copy> Chain<A> {
    fn sharing(alloc: A, rules: InForce<A>) -> Result<Self, AllocError>
        ensures { IfOk result (λ chain. chain_value chain ≡ in_force_value rules) }
    {
        Ok(Chain {
            in_force: Some(Arc::new(alloc, rules)?),
        })
    }

    /// Returns no rules yet, below a root with this path and this absolute one.
    ///
    /// # Errors
    ///
    /// If memory runs out.
    pub fn below(alloc: A, root: &str, absolute: &str) -> Result<Self, AllocError>
        ensures { IfOk result (λ chain. chain_value chain ≡ below_root root.now absolute.now) }
    {
        let mut front = String::with_capacity(alloc, absolute.len().saturating_add(1))?;
        front.push_str(absolute)?;
        front.push_str("/")?;
        Chain::sharing(alloc, InForce::below(alloc, front, root.len())?)
    }

    fn rules(&self, alloc: A) -> Result<InForce<A>, AllocError>
        ensures { IfOk result (λ rules. in_force_value rules ≡ chain_value self.now) }
    {
        match &self.in_force {
            Some(shared) => shared.copied(alloc),
            None => InForce::below(alloc, String::new(alloc), 0),
        }
    }

    /// Returns whether a repository is entered.
    pub fn in_repository(&self) -> bool
        ensures { result ≡ (chain_value self.now).in_repository }
    {
        match &self.in_force {
            Some(shared) => shared.in_repository,
            None => false,
        }
    }

    /// Returns the rules in force in a directory that holds `.git`, if this one does.
    ///
    /// # Errors
    ///
    /// If memory runs out.
    pub fn entered(self, alloc: A, holds_git: bool) -> Result<Self, AllocError>
        ensures { IfOk result (λ chain. chain_value chain ≡ entered holds_git (chain_value self)) }
    {
        if !holds_git {
            return Ok(self);
        }
        let mut rules = self.rules(alloc)?;
        rules.in_repository = true;
        rules.gitignore.clear();
        rules.exclude.clear();
        Chain::sharing(alloc, rules)
    }

    /// Returns the rules with those of one file more.
    ///
    /// # Errors
    ///
    /// If memory runs out.
    pub fn with_link(&self, alloc: A, kind: RulesKind, link: Link<A>) -> Result<Self, AllocError>
        ensures { IfOk result (λ chain. chain_value chain
            ≡ with_link kind (link_value link) (chain_value self.now)) }
    {
        let mut rules = self.rules(alloc)?;
        rules.add_link(kind, Arc::new(alloc, link)?)?;
        Chain::sharing(alloc, rules)
    }

    /// Returns where a directory is, by the root's absolute path.
    ///
    /// # Errors
    ///
    /// If memory runs out.
    pub fn place(&self, alloc: A, directory: &str) -> Result<Vec<u8, A>, AllocError>
        ensures { IfOk result (λ place. place.items ≡ place_in (chain_value self.now) directory.now) }
    {
        let mut place = Vec::new(alloc);
        match &self.in_force {
            Some(rules) => {
                place.extend_from_slice(rules.front.as_bytes())?;
                place.extend_from_slice(behind(directory.as_bytes(), rules.root_len))?;
            }
            None => place.extend_from_slice(directory.as_bytes())?,
        }
        Ok(place)
    }

    /// Returns how long that place is.
    pub fn place_len(&self, directory: &str) -> usize
        ensures { result ≡ length (place_in (chain_value self.now) directory.now) }
    {
        match &self.in_force {
            Some(rules) => rules.front.len() + behind(directory.as_bytes(), rules.root_len).len(),
            None => directory.len(),
        }
    }

    /// Returns whether there are any rules.
    pub fn has_rules(&self) -> bool
        ensures { result ≡ has_rules (chain_value self.now) }
    {
        match &self.in_force {
            Some(rules) => rules.has_rules(),
            None => false,
        }
    }

    /// Returns what the rules say of what is at a place.
    pub fn decision(&self, place: &[u8], is_dir: bool) -> Decision
        ensures { result ≡ chain_says (chain_value self.now) place.now is_dir }
    {
        match &self.in_force {
            Some(rules) => rules.decision(place, is_dir),
            None => Decision::Unsaid,
        }
    }
}
