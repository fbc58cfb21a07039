//! Accesses and ticks, and the orders that follow from them.

ghost use Rattle.std.specs.Prelude.{◌≡◌, ◌+◌, true, IfSome};
ghost use Rattle.std.specs.Bool.{OnTrue, OnFalse};
ghost use Rattle.wb_policy.specs.declared.situation.Settled.{Settled as Access};
ghost use Rattle.wb_policy.specs.declared.situation.Tick.{Tick as Ticking};
ghost use Rattle.wb_policy.specs.Law.{AreMapped};
ghost use Rattle.std.specs.List.Sorted.{IsNonDecreasingBy};
ghost use Rattle.wb_desk.specs.Desks.{MayReserve, holdings};
ghost use Rattle.wb_desk.specs.Calls.{reserved};
ghost use Rattle.wb_desk.specs.Safety.{ComesByCalls};
ghost use Rattle.wb_desk.specs.Settling.{AreSettled, AccessIsSettled, IsAccess, Fits, IsTick, TickGives, TickEnds, IsTicked};

use super::Desk;
use wb_policy::{Order, Policy, Settled, Tick};
use wb_types::{CBlock, OBlock};

impl<P: Policy> Desk<P> {
    /// Settles accesses, one block for each part that was counted. What the policy orders is given, if it fits, and waits to be
    /// taken.
    pub fn settle(&mut self, blocks: &[OBlock])
        ensures settled { AreSettled P.ordered P.settled self.old blocks.now self.new }
        ensures calls { ComesByCalls P.knows self.old self.new }
    {
        for block in blocks {
            self.settle_one(*block);
        }
    }

    fn settle_one(&mut self, block: OBlock)
        ensures settled { AccessIsSettled P.ordered P.settled self.old block self.new }
        ensures calls { ComesByCalls P.knows self.old self.new }
    {
        if let Some(order) = self.decide(block) {
            self.queue(order);
        }
    }

    /// What the policy orders at an access.
    fn decide(&mut self, block: OBlock) -> Option<Order>
        ensures state { (a : Access) × IsAccess self.old block a × (result ≡ P.ordered self.old.policy a)
            × (self.new ≡ record self.old { policy = P.settled self.old.policy a }) }
        ensures lawful { IfSome result (λ order. Fits self.old order → (c : _) × MayReserve self.old c order) }
        ensures calls { ComesByCalls P.knows self.old self.new }
    {
        let access = Settled {
            block,
            mode: self.mode,
            least_free: self.space.least_free(),
            room: self.room(),
            busy: self.orders.busy(),
        };
        self.policy.settle(&access)
    }

    /// The policy's tick, over the mapped blocks that were seen dirty, by rising cache block: its orders are given one after the
    /// other, until it has none or one that does not fit, and wait to be taken.
    pub fn tick(&mut self, dirty: &[(CBlock, OBlock)])
        requires mapped { AreMapped (holdings self.old) dirty.now }
        requires rising { IsNonDecreasingBy (λ e. e.0.0) dirty.now }
        ensures ticked { IsTicked P.cleaned P.ticked dirty.now (self.old.geometry.cache_blocks + 1) 0 self.old self.new }
        ensures calls { ComesByCalls P.knows self.old self.new }
    {
        for given in 0..self.geometry.cache_blocks + 1 {
            if !self.tick_one(dirty, given) {
                return;
            }
        }
    }

    /// Gives the next order of a tick that has given so many, if there is one.
    fn tick_one(&mut self, dirty: &[(CBlock, OBlock)], given: u32) -> bool
        requires mapped { AreMapped (holdings self.old) dirty.now }
        requires rising { IsNonDecreasingBy (λ e. e.0.0) dirty.now }
        ensures gives { OnTrue result (TickGives P.cleaned P.ticked dirty.now given self.old self.new) }
        ensures ends { OnFalse result (TickEnds P.cleaned P.ticked dirty.now given self.old self.new) }
        ensures tree { self.new.tree ≡ self.old.tree }
        ensures calls { ComesByCalls P.knows self.old self.new }
    {
        match self.decide_tick(dirty, given) {
            Some(order) => self.queue(order),
            None => false,
        }
    }

    /// What the policy orders at a tick that has given so many orders.
    fn decide_tick(&mut self, dirty: &[(CBlock, OBlock)], given: u32) -> Option<Order>
        requires mapped { AreMapped (holdings self.old) dirty.now }
        requires rising { IsNonDecreasingBy (λ e. e.0.0) dirty.now }
        ensures state { (t : Ticking) × IsTick self.old dirty.now t × (result ≡ P.cleaned self.old.policy t given)
            × (self.new ≡ record self.old { policy = P.ticked self.old.policy t given }) }
        ensures lawful { IfSome result (λ order. Fits self.old order → (c : _) × MayReserve self.old c order) }
        ensures calls { ComesByCalls P.knows self.old self.new }
    {
        let tick = Tick {
            mode: self.mode,
            room: self.room(),
            busy: self.orders.busy(),
            dirty,
        };
        self.policy.tick(&tick, given)
    }

    /// Gives an order that waits to be taken, where it may be given.
    fn queue(&mut self, order: Order) -> bool
        ensures given { OnTrue result ((c : _) × MayReserve self.old c order × (self.new ≡ reserved self.old c order true)) }
        ensures may_not { OnFalse result ((c : _) → ¬ MayReserve self.old c order) }
        ensures other { OnFalse result (self.new ≡ self.old) }
        ensures calls { ComesByCalls P.knows self.old self.new }
    {
        match self.may_reserve(order) {
            Some(c) => {
                self.give(c, order, true);
                true
            }
            None => false,
        }
    }
}
