//! What several clients of an opened target do, one of whom says when each of the others begins.

use crate::served::{Served, Shown};
use std::sync::Wait;
use wb_types::Refusal;

/// How many lanes there are: places for clients besides the first.
pub const LANES: usize = 8;

/// What the first client wants next.
pub enum Next {
    /// That the client of this lane, from 0 on, begins.
    Begin(usize),
    /// That lanes for which no thread could be made do now what waits for them.
    CatchUp,
    /// That all clients are taken back and the target is suspended.
    Suspend,
    /// Nothing more.
    End,
}

/// What is done by the first client of an opened target, and behind a suspend.
pub trait Play {
    /// What it tells at its end.
    type Told: Drop;

    /// Does what the first client is for, up to what it wants next.
    fn serve<R: Wait, C: Served>(&mut self, rt: &R, client: &mut C) -> Next;

    /// The client of a lane that was to begin could not be had.
    fn refused<R: Wait>(&mut self, rt: &R, lane: usize, refusal: Refusal);

    /// Goes on behind the suspend, which was done or refused.
    fn go_on<R: Wait, T: Shown>(&mut self, rt: &R, suspended: Result<(), Refusal>, target: &T);

    /// What it tells.
    fn told(self) -> Self::Told;
}

/// What the clients of the lanes do, beside the first and one another.
pub trait Lanes {
    /// Does what waits for the client of this lane, and what comes, until the lanes are closed.
    fn serve<R: Wait, C: Served>(&self, rt: &R, lane: usize, client: &mut C);

    /// Does what waits for it now.
    fn catch_up<R: Wait, C: Served>(&self, rt: &R, lane: usize, client: &mut C);

    /// Nothing more comes.
    fn close<R: Wait>(&self, rt: &R);
}
