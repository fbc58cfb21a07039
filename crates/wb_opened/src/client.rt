//! A client of a target, as who stands above it sees it.

ghost use Rattle.std.specs.Prelude.{[]};
ghost use Rattle.wb_opened.specs.Deeds.{ClientDid, ClientWorked};
ghost use Rattle.wb_opened.specs.Refused.{ClientMet};
ghost use Rattle.wb_target.specs.Messages.{MessageDid, MessageRefused};
ghost use Rattle.wb_target.specs.Works.{AskedSharing, WasAsked};
ghost use Rattle.wb_target.specs.Told.{WereSettled, HadTick, WasNext};

use crate::served::{Served, Shown};
use std::sync::Wait;
use wb_disk::Disk;
use wb_policy::{Order, Policy};
use wb_target::{Client, Gate, Target};
use wb_types::{Content, Geometry, Message, Refusal, Sector};

impl<'t, D: Disk + Drop, P: Policy> Served for Client<'t, D, P> {
    ghost sizes = { λ client. client.port.geometry };

    ghost did = { ClientDid D.tells D.size D.contents D.faults (AskedSharing P.with_entry P.without_entry) (WereSettled P.ordered P.settled) (HadTick P.cleaned P.ticked) (WasNext P) (MessageDid P.with_setting (WasAsked P.with_entry P.without_entry [])) };

    ghost met = { ClientMet D.tells D.size D.contents D.faults (AskedSharing P.with_entry P.without_entry) (WasNext P) (MessageRefused P.with_setting (WasAsked P.with_entry P.without_entry [])) };

    ghost worked = { λ {G} answers gate. ClientWorked D.tells D.size D.contents D.faults (AskedSharing P.with_entry P.without_entry) (WasNext P) answers gate };

    fn geometry(&self) -> Geometry {
        self.port.geometry
    }

    #[tactic(auto, using(crate::proofs::Inside::not_outside))]
    fn read<R: Wait>(&mut self, rt: &R, at: Sector, out: &mut [Content]) -> Result<(), Refusal> {
        match Client::read(self, rt, at, out) {
            Ok(()) => Ok(()),
            Err(stopped) => Err(stopped.refusal),
        }
    }

    #[tactic(auto, using(crate::proofs::Inside::not_outside))]
    fn write<R: Wait>(&mut self, rt: &R, at: Sector, from: &[Content]) -> Result<(), Refusal> {
        match Client::write(self, rt, at, from) {
            Ok(_) => Ok(()),
            Err(stopped) => Err(stopped.refusal),
        }
    }

    fn write_fua<R: Wait>(&mut self, rt: &R, at: Sector, from: &[Content]) -> Result<(), Refusal> {
        match Client::write_fua(self, rt, at, from) {
            Ok(_) => Ok(()),
            Err(stopped) => Err(stopped.refusal),
        }
    }

    #[tactic(auto, using(crate::proofs::Inside::not_outside))]
    fn try_read(&mut self, at: Sector, out: &mut [Content]) -> Result<(), Refusal> {
        match self.port.try_read(at, out) {
            Ok(()) => Ok(()),
            Err(refusal) => Err(refusal),
        }
    }

    #[tactic(auto, using(crate::proofs::Inside::not_outside))]
    fn try_write(&mut self, at: Sector, from: &[Content]) -> Result<(), Refusal> {
        match self.port.try_write(at, from) {
            Ok(()) => Ok(()),
            Err(refusal) => Err(refusal),
        }
    }

    fn settle<R: Wait>(&mut self, rt: &R) {
        Client::settle(self, rt)
    }

    fn try_settle(&mut self) -> bool {
        Client::try_settle(self)
    }

    fn flush<R: Wait>(&mut self, rt: &R) -> Result<(), Refusal> {
        match Client::flush(self, rt) {
            Ok(_) => Ok(()),
            Err(refusal) => Err(refusal),
        }
    }

    fn tick<R: Wait>(&mut self, rt: &R) -> Result<(), Refusal> {
        match Client::tick(self, rt) {
            Ok(_) => Ok(()),
            Err(refusal) => Err(refusal),
        }
    }

    fn message<R: Wait>(&mut self, rt: &R, message: &Message) -> Result<(), Refusal> {
        Client::message(self, rt, message)
    }

    fn work_one<R: Wait>(&mut self, rt: &R) -> Result<Option<Order>, Refusal> {
        Client::work_one(self, rt)
    }

    fn worker<R: Wait, G: Gate>(&mut self, rt: &R, gate: &G) -> Result<(), Refusal> {
        Client::worker(self, rt, gate)
    }

    fn status<R: Wait>(&self, rt: &R, text: &mut String) -> Result<(), Refusal> {
        self.target().status(rt, text)
    }

    fn mapped<R: Wait>(&self, rt: &R) -> u32 {
        self.target().counts(rt).mapped
    }

    fn dirty<R: Wait>(&self, rt: &R) -> u32 {
        self.target().dirty(rt)
    }
}

impl<P: Policy> Shown for Target<P> {
    fn status<R: Wait>(&self, rt: &R, text: &mut String) -> Result<(), Refusal> {
        Target::status(self, rt, text)
    }
}
