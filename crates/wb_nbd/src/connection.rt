//! A connection that several serve beside one another.

ghost use Rattle.std.specs.Prelude.{◌≡◌, ◌≢◌, ◌<◌, ◌+◌, ◌^◌, ℕ, List, Option, Ok, Err, true, false, OnOk, OnErr, IfOk, IfErr, is_some};
ghost use Rattle.std.specs.Option.{IfSome};
ghost use Rattle.std.specs.Io.KnownBytes.{Consumes, Appends};
ghost use Rattle.wb_nbd.specs.Answers.{spelling, IsAnswered};
ghost use Rattle.wb_nbd.specs.Handshakes.{AgreesOn, lines};
ghost use Rattle.wb_nbd.specs.Jobs.{AsksFor};
ghost use Rattle.wb_nbd.specs.Serving.{BreaksSo, ServesAll, Serves, ServesUntil, with_taken};

use crate::answer::Answer;
use crate::broken::Broken;
use crate::export::Export;
use crate::handshake::{Agreed, shake_hands};
use crate::job::{Job, take_job};
use crate::performing::perform;
use crate::terms::Terms;
use std::alloc::Global;
use std::io::{Read, Write};
use std::sync::{Mutex, Wait};

/// How far a connection is.
#[derive(Clone, Copy)]
enum Phase {
    /// The client was not greeted yet.
    New,
    /// Requests come.
    Open,
    /// The client ended it, or it broke.
    Over(Result<(), Broken>),
}

/// What the client sends.
#[derive(Drop)]
struct Input<R> {
    reader: R,
    phase: Phase,
}

/// What the client is told, and whether telling it has failed.
#[derive(Drop)]
struct Output<W> {
    writer: W,
    broken: bool,
}

/// How many requests one who serves has taken, and how many replies it has written.
#[derive(Clone, Copy)]
struct Turns {
    taken: u64,
    sent: u64,
}

/// A connection to one client. Whoever serves it takes the next request under one lock, and writes its reply under another: so
/// requests are done beside one another, and replies go out whole, in any order.
#[derive(Drop)]
pub struct Connection<R, W> {
    input: Mutex<Input<R>>,
    output: Mutex<Output<W>>,
}

impl<R: Read, W: Write> Connection<R, W> {
    /// A connection that has not begun.
    pub fn new(reader: R, writer: W) -> Connection<R, W> {
        let input = Input {
            reader,
            phase: Phase::New,
        };
        let output = Output {
            writer,
            broken: false,
        };
        Connection {
            input: Mutex::new(input),
            output: Mutex::new(output),
        }
    }

    /// Serves requests, beside whoever else does, until the client ends the connection or it breaks. Who comes first shakes hands, and
    /// tells the client these terms. What was taken is answered before this ends.
    ///
    /// The causes are those of `shake_hands` and `take_job`, which all who serve are told, and `Writer` where a reply could not be
    /// written: then it may be that its job was done. Others who serve are told so at their next request, which is not done.
    pub fn serve<C: Wait, E: Export>(
        &self,
        rt: &C,
        alloc: Global,
        terms: &Terms,
        export: &mut E,
    ) -> Result<(), Broken>
        ensures ended { OnOk result (ServesAll E.size E.acts export.old export.new) }
        ensures broken { IfErr result (λ broken. ServesUntil E.size E.acts broken export.old export.new) }
    {
        self.greet(rt, terms);
        let mut turns = Turns { taken: 0, sent: 0 };
        for _ in 0..u64::MAX {
            if !self.take_turn(rt, alloc, export, &mut turns)? {
                return Ok(());
            }
        }
        Err(Broken::Count)
    }

    /// Serves the next request, if any comes before the end: one request is taken, and one reply written.
    fn take_turn<C: Wait, E: Export>(
        &self,
        rt: &C,
        alloc: Global,
        export: &mut E,
        turns: &mut Turns,
    ) -> Result<bool, Broken>
        requires few { (turns.old.taken + 1 < 2 ^ 64) × (turns.old.sent + 1 < 2 ^ 64) }
        ensures turn { IfOk result (λ goes_on. goes_on ≡ true → Serves E.size E.acts export.old export.new) }
        ensures counted { IfOk result (λ goes_on. goes_on ≡ true → turns.new ≡ record { taken = turns.old.taken + 1; sent = turns.old.sent + 1 }) }
        ensures end { IfOk result (λ goes_on. goes_on ≡ false → (export.new ≡ export.old) × (turns.new ≡ turns.old)) }
        ensures broken { IfErr result (λ broken. BreaksSo E.acts broken export.old export.new) }
    {
        let size = export.sectors();
        let Some(job) = self.take(rt, alloc, size, turns)? else {
            return Ok(false);
        };
        if self.is_told_in_vain(rt) {
            return Err(Broken::Writer);
        }
        let answer = perform(alloc, export, &job);
        // Under the lock of the replies alone, once others are out.
        self.output.lock(rt).send(export, &job, &answer, turns)?;
        Ok(true)
    }

    /// Shakes hands with a client that was not greeted yet.
    fn greet<C: Wait>(&self, rt: &C, terms: &Terms) {
        let mut input = self.input.lock(rt);
        if let Phase::New = input.phase {
            let mut output = self.output.lock(rt);
            input.greet(terms, &mut output.writer);
        }
    }

    /// The next job on an export of so many sectors; none where the client ended the connection.
    fn take<C: Wait>(
        &self,
        rt: &C,
        alloc: Global,
        size: u64,
        turns: &mut Turns,
    ) -> Result<Option<Job>, Broken>
        requires few { turns.old.taken + 1 < 2 ^ 64 }
        ensures counted { IfOk result (λ asked. turns.new ≡ with_taken asked turns.old) }
        ensures asked { IfOk result (λ asked. IfSome asked (λ job. (input left : Option (List ℕ)) × (bytes : List ℕ) × Consumes input left bytes × AsksFor size bytes job)) }
    {
        self.input.lock(rt).take(alloc, size, turns)
    }

    /// Whether an earlier reply could not be written: then nobody hears what becomes of a request.
    fn is_told_in_vain<C: Wait>(&self, rt: &C) -> bool {
        self.output.lock(rt).broken
    }
}

impl<R: Read> Input<R> {
    /// Shakes hands.
    fn greet<W: Write>(&mut self, terms: &Terms, writer: &mut W)
        ensures { self.new.phase ≡ Phase.Open → AgreesOn terms.now Agreed.Serve (lines (R.remaining self.old.reader) (W.contents writer.old)) (lines (R.remaining self.new.reader) (W.contents writer.new)) }
    {
        self.phase = match shake_hands(terms, &mut self.reader, writer) {
            Ok(Agreed::Serve) => Phase::Open,
            Ok(Agreed::Abort) => Phase::Over(Ok(())),
            Err(broken) => Phase::Over(Err(broken)),
        };
    }

    /// The next job, if requests come; where none does, the connection is over.
    fn take(&mut self, alloc: Global, size: u64, turns: &mut Turns) -> Result<Option<Job>, Broken>
        requires few { turns.old.taken + 1 < 2 ^ 64 }
        ensures counted { IfOk result (λ asked. turns.new ≡ with_taken asked turns.old) }
        ensures job { IfOk result (λ asked. IfSome asked (λ job. (bytes : List ℕ) × Consumes (R.remaining self.old.reader) (R.remaining self.new.reader) bytes × AsksFor size bytes job)) }
        ensures open { IfOk result (λ asked. is_some asked ≡ true → (self.old.phase ≡ Phase.Open) × (self.new.phase ≡ Phase.Open)) }
        ensures over { IfOk result (λ asked. is_some asked ≡ false → self.new.phase ≡ Phase.Over (Ok tt)) }
        ensures broken { IfErr result (λ broken. self.new.phase ≡ Phase.Over (Err broken)) }
        ensures ended { (told : _) → self.old.phase ≡ Phase.Over told → self.new ≡ self.old }
    {
        let told = match self.phase {
            Phase::New => Err(Broken::Magic),
            Phase::Open => take_job(alloc, size, &mut self.reader),
            Phase::Over(Ok(())) => Ok(None),
            Phase::Over(Err(broken)) => Err(broken),
        };
        match told {
            Ok(Some(_)) => turns.taken += 1,
            Ok(None) => self.phase = Phase::Over(Ok(())),
            Err(broken) => self.phase = Phase::Over(Err(broken)),
        }
        told
    }
}

impl<W: Write> Output<W> {
    /// Writes a reply, unless an earlier one could not be written.
    fn send<E: Export>(
        &mut self,
        export: &E,
        job: &Job,
        answer: &Answer,
        turns: &mut Turns,
    ) -> Result<(), Broken>
        requires answered { IsAnswered E.acts job.now answer.now export.now }
        requires few { turns.old.sent + 1 < 2 ^ 64 }
        ensures counted { OnOk result (turns.new ≡ record turns.old { sent = turns.old.sent + 1 }) }
        ensures sent { OnOk result (Appends (W.contents self.old.writer) (W.contents self.new.writer) (spelling answer.now)) }
        ensures refused { IfErr result (λ broken. (broken ≡ Broken.Writer) × (self.new.broken ≡ true)) }
        ensures after { self.old.broken ≡ true → OnErr result (W.contents self.new.writer ≡ W.contents self.old.writer) }
    {
        if self.broken {
            return Err(Broken::Writer);
        }
        let told = answer.send(export, job, &mut self.writer);
        match told {
            Ok(()) => turns.sent += 1,
            Err(_) => self.broken = true,
        }
        told
    }
}
