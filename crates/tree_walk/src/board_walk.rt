//! Readings of a tree in preorder.
ghost use Rattle.std.specs.Prelude.{◌≡◌, ◌≢◌, ◌≤◌, [], false, length, None, IfOk, OnOk, OnErr};
ghost use Rattle.jwalk_board.specs.Board.{IsNextReady};
ghost use Rattle.tree_walk.specs.Reads.{to_give};
ghost use Rattle.tree_walk.specs.ReadAhead.{BeginsWith};
ghost use Rattle.tree_walk.specs.BoardWalk.{Keeps, HandsOnNext, GoesOn, Answers, Prepares};

use crate::batch::{read_batch, read_batch_on};
use crate::read::Read;
use jwalk_board::board::{Board, Plan};
use std::alloc::{AllocError, Allocator, Global};
use std::marker::Model;
use std::thread::Threads;

fn hand_on<T: Drop, R: Drop, A: Allocator + Copy>(
    board: &mut Board<T, Read<T, R>, A>,
) -> Result<R, AllocError>
    requires none_in_hand { board.old.in_hand ≡ [] }
    requires running { board.old.stopped ≡ false }
    requires ready { IsNextReady board.old }
    ensures { IfOk result (λ given. HandsOnNext board.old given board.new) }
{
    // What holds of every board.
    let _pending = board.pending();
    let item = board.hand_out_next()?;
    Ok(item.value.reading)
}

fn read_next<T: Drop, R: Drop, J: Plan<A, Spec = T, Reading = R>, A: Allocator + Copy>(
    alloc: A,
    plan: &J,
    board: &mut Board<T, Read<T, R>, A>,
    width: usize,
) -> Result<Option<R>, AllocError>
    requires lawful { J.IsLawful plan.now }
    requires keeps { Keeps board.old }
    requires width { 1 ≤ width }
    ensures some { OnErr result ((to_give board.old []).to_read ≢ []) }
    ensures goes_on { IfOk result (λ o. GoesOn (J.IsReading plan.now) width board.old o board.new) }
{
    let pending = board.pending();
    if !board.is_next_ready() {
        if pending == 0 {
            return Ok(None);
        }
        read_batch(alloc, plan, board, width)?;
    }
    Ok(Some(hand_on(board)?))
}

/// Readings in preorder: a specification's, and then those of all that is below it. Up to `width` of them are made
/// together, when one is asked for that isn't made yet.
pub struct BoardWalk<T, R, J, A: Allocator + Copy = Global> {
    alloc: A,
    plan: J,
    // How many are read together, 1 at least.
    width: usize,
    // None before the walk begins, and after it was stopped.
    board: Option<Board<T, Read<T, R>, A>>,
}

impl<T: Drop, R: Drop, J: Drop, A: Allocator + Copy> Drop for BoardWalk<T, R, J, A> {
    fn drop(self) {
        let BoardWalk {
            alloc: _,
            plan: _,
            width: _,
            board: _,
        } = self;
    }
}

impl<T, R, J, A: Allocator + Copy> Model for BoardWalk<T, R, J, A> {
    ghost use Rattle.std.specs.Prelude.{◌≤◌, IfSome};
    ghost use Rattle.tree_walk.specs.BoardWalk.{BoardWalk as State, Keeps};

    ghost Value = { State T R J };

    ghost view = { λ w. record { plan = w.plan; width = w.width; board = w.board } };

    ghost invariant = { λ w. (1 ≤ w.width) × IfSome w.board Keeps };
}

impl<T: Drop, R: Drop, J: Plan<A, Spec = T, Reading = R>, A: Allocator + Copy> BoardWalk<
    T,
    R,
    J,
    A,
> {
    ghost use Rattle.tree_walk.specs.BoardWalk.{to_read, early_of, read_ahead, frontier_of, SkipsNext};

    /// Returns a walk with nothing to read yet, which is to read that many specifications together.
    pub fn new(alloc: A, plan: J, width: usize) -> Self
        requires { 1 ≤ width }
        ensures plan { result.plan ≡ plan }
        ensures width { result.width ≡ width }
        ensures nothing { result.board ≡ None }
    {
        BoardWalk {
            alloc,
            plan,
            width,
            board: None,
        }
    }

    /// Begins anew, with these specifications to read and what is below them.
    ///
    /// # Errors
    ///
    /// If memory runs out. Then nothing is left to be read.
    pub fn begin(&mut self, roots: Vec<T, A>) -> Result<(), AllocError>
        ensures plan { self.new.plan ≡ self.old.plan }
        ensures width { self.new.width ≡ self.old.width }
        ensures to_read { OnOk result (to_read self.new ≡ roots.items) }
        ensures early { OnOk result (early_of self.new ≡ []) }
        ensures read_ahead { OnOk result (BeginsWith roots.items (frontier_of self.new) (read_ahead self.new)) }
        ensures stopped { OnErr result (self.new.board ≡ None) }
    {
        match Board::new(roots) {
            Ok(board) => {
                self.board = Some(board);
                Ok(())
            }
            Err(_) => {
                self.board = None;
                Err(AllocError)
            }
        }
    }

    /// Returns the plan that it reads by.
    pub fn plan(&self) -> &J
        ensures { result.now ≡ self.now.plan }
    {
        &self.plan
    }

    /// Returns the next reading, or none if nothing is left to be read. If it isn't made yet, the least of the unread
    /// specifications are read first, up to the width, one after another.
    ///
    /// # Errors
    ///
    /// If memory runs out. Then nothing is left to be read.
    pub fn read_next(&mut self) -> Result<Option<R>, AllocError>
        requires { J.IsLawful self.old.plan }
        ensures plan { self.new.plan ≡ self.old.plan }
        ensures width { self.new.width ≡ self.old.width }
        ensures answers { Answers (J.IsReading self.old.plan) self.old.width self.old.board result self.new.board }
    {
        let Some(board) = &mut self.board else {
            return Ok(None);
        };
        match read_next(self.alloc, &self.plan, board, self.width) {
            Ok(read) => Ok(read),
            Err(refused) => {
                self.board = None;
                Err(refused)
            }
        }
    }

    /// Returns how many readings were made and not handed on.
    pub fn ahead(&self) -> usize
        ensures early { result ≡ length (early_of self.now) }
        ensures done { result ≡ length (read_ahead self.now).done }
    {
        match &self.board {
            Some(board) => board.ready(),
            None => 0,
        }
    }

    /// Passes over the next specification and all that is below it, if any is left. Nothing is read, and what was read
    /// early there is dropped.
    pub fn skip_next(&mut self)
        ensures plan { self.new.plan ≡ self.old.plan }
        ensures width { self.new.width ≡ self.old.width }
        ensures skips { SkipsNext self.old.board self.new.board }
    {
        let Some(board) = &mut self.board else {
            return;
        };
        // What holds of every board.
        let _pending = board.pending();
        board.skip_next();
    }

    /// Drops what is not read yet, and what was read early.
    pub fn stop(&mut self)
        ensures { self.new ≡ record self.old { board = None } }
    {
        self.board = None;
    }
}

impl<
    T: Drop + Send,
    R: Drop + Send,
    J: Plan<A, Spec = T, Reading = R> + Sync,
    A: Allocator + Copy + Send + Sync,
> BoardWalk<T, R, J, A> {
    /// Makes sure that the next reading is ready, if any is left. If it isn't made yet, the least of the unread
    /// specifications are read, up to the width, on several threads if there are enough of them to be worth it. The
    /// call of [`read_next`](BoardWalk::read_next) that follows then reads nothing.
    ///
    /// # Errors
    ///
    /// If memory runs out. Then nothing is left to be read.
    pub fn prepare_on<W: Threads + Sync>(&mut self, rt: &W) -> Result<(), AllocError>
        requires { J.IsLawful self.old.plan }
        ensures plan { self.new.plan ≡ self.old.plan }
        ensures width { self.new.width ≡ self.old.width }
        ensures wide { 1 ≤ self.new.width }
        ensures prepares { Prepares (J.IsReading self.old.plan) self.old.width self.old.board result self.new.board }
    {
        let Some(board) = &mut self.board else {
            return Ok(());
        };
        if board.pending() == 0 || board.is_next_ready() {
            return Ok(());
        }
        match read_batch_on(rt, self.alloc, &self.plan, board, self.width) {
            Ok(()) => Ok(()),
            Err(refused) => {
                self.board = None;
                Err(refused)
            }
        }
    }

    /// Does the same as [`read_next`](BoardWalk::read_next), with what is read together read on several threads, if
    /// there is enough of it.
    ///
    /// # Errors
    ///
    /// If memory runs out. Then nothing is left to be read.
    pub fn read_next_on<W: Threads + Sync>(&mut self, rt: &W) -> Result<Option<R>, AllocError>
        requires { J.IsLawful self.old.plan }
        ensures plan { self.new.plan ≡ self.old.plan }
        ensures width { self.new.width ≡ self.old.width }
        ensures answers { Answers (J.IsReading self.old.plan) self.old.width self.old.board result self.new.board }
    {
        self.prepare_on(rt)?;
        self.read_next()
    }
}
