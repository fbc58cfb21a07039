//! Clients beside the first, each of whom does in order what it is asked.

ghost use Rattle.std.specs.Prelude.{◌≡◌, ◌≤◌, ◌<◌};

use crate::answers::answer;
use std::alloc::{AllocError, Global};
use std::sync::{Condvar, Mutex, Wait};
use wb_dialogue::{Answer, Asked, Queue, Room, Status, Told, Unseen, out_of_memory, spell};
use wb_opened::{LANES, Lanes, Served};
use wb_types::Refusal;

/// What a client beside the first is asked and has answered, and a bell that rings when either has changed.
#[derive(Drop)]
pub struct Lane {
    alloc: Global,
    queue: Mutex<Queue>,
    bell: Condvar,
}

impl Lane {
    /// That of a client, 1 to 8.
    fn new(alloc: Global, client: u8) -> Lane
        requires numbered { client ≤ 8 }
    {
        Lane {
            alloc,
            queue: Mutex::new(Queue::new(alloc, client)),
            bell: Condvar::new(),
        }
    }

    /// Asks the client for what a line says, whose answer may have so many lines.
    pub fn put<R: Wait>(&self, rt: &R, asked: Asked, most: u64)
        requires some { 0 < most }
    {
        self.queue.lock(rt).put(asked, most);
        self.bell.notify_all();
    }

    /// Refuses all that waits.
    pub fn refuse<R: Wait>(&self, rt: &R, refusal: Refusal) {
        let mut text = String::new(self.alloc);
        for _ in rt.forever() {
            let Some(asked) = self.take(rt) else {
                return;
            };
            self.tell(rt, asked, Err(refusal), &mut text);
        }
    }

    /// Waits until all is answered, and gives what was told since the last time.
    pub fn join<R: Wait>(&self, rt: &R) -> Told {
        let mut queue = self.bell.wait_while(rt, self.queue.lock(rt), |queue| {
            queue.is_busy || !queue.waiting.is_empty()
        });
        queue.drain(self.alloc)
    }

    /// Does what waits, and what comes until nothing more does.
    fn serve<R: Wait, C: Served>(&self, rt: &R, client: &mut C) {
        let mut text = String::new(self.alloc);
        let mut room = Room::new(self.alloc);
        for _ in rt.forever() {
            let mut queue = self.bell.wait_while(rt, self.queue.lock(rt), |queue| {
                queue.waiting.is_empty() && !queue.is_closed
            });
            let (asked, is_closed) = (queue.take(), queue.is_closed);
            drop(queue);
            match asked {
                Some(asked) => self.answer(rt, client, asked, &mut room, &mut text),
                None if is_closed => return,
                None => self.bell.notify_all(),
            }
        }
    }

    /// Does what waits.
    fn catch_up<R: Wait, C: Served>(&self, rt: &R, client: &mut C) {
        let mut text = String::new(self.alloc);
        let mut room = Room::new(self.alloc);
        for _ in rt.forever() {
            let Some(asked) = self.take(rt) else {
                return;
            };
            self.answer(rt, client, asked, &mut room, &mut text);
        }
    }

    /// Nothing more comes.
    fn close<R: Wait>(&self, rt: &R) {
        self.queue.lock(rt).is_closed = true;
        self.bell.notify_all();
    }

    /// Takes the line that waits longest.
    fn take<R: Wait>(&self, rt: &R) -> Option<Asked> {
        self.queue.lock(rt).take()
    }

    /// Does what a line asks for, and tells the answer.
    fn answer<R: Wait, C: Served>(
        &self,
        rt: &R,
        client: &mut C,
        asked: Asked,
        room: &mut Room,
        text: &mut String,
    ) {
        text.clear();
        let done = answer(rt, client, asked.call, room, text, &mut Unseen);
        room.trim();
        self.tell(rt, asked, done, text);
    }

    /// Tells how a line was answered, by the text where it was done.
    fn tell<R: Wait>(&self, rt: &R, asked: Asked, done: Result<(), Refusal>, text: &mut String) {
        let (status, is_spelled) = match done {
            Ok(()) => (Status::Done, true),
            Err(refusal) => spell(refusal, text),
        };
        let text = if is_spelled {
            text.as_bytes()
        } else {
            out_of_memory()
        };
        self.queue
            .lock(rt)
            .tell(asked, Answer { done, status, text });
        self.bell.notify_all();
    }
}

/// The clients beside the first, in order.
#[derive(Drop)]
pub struct Beside {
    lanes: Vec<Lane>,
}

impl Beside {
    /// Those of nobody yet.
    pub fn new(alloc: Global) -> Result<Beside, AllocError> {
        let mut lanes = Vec::new(alloc);
        for client in 1..=8 {
            lanes.reserve(1)?;
            lanes.push_reserved(Lane::new(alloc, client));
        }
        Ok(Beside { lanes })
    }

    /// The lane of a client, 1 to 8.
    pub fn lane(&self, client: u8) -> Option<&Lane> {
        self.lane_at(usize::from(client).checked_sub(1)?)
    }

    /// A lane by its place, from 0 on.
    pub fn lane_at(&self, place: usize) -> Option<&Lane> {
        self.lanes.get(place)
    }

    /// Waits until all clients have answered all, and adds what each told since the last time, in their order.
    pub fn join<R: Wait>(&self, rt: &R, all: &mut Vec<Told>) -> Result<(), AllocError> {
        for lane in &self.lanes {
            all.reserve(1)?;
            all.push_reserved(lane.join(rt));
        }
        Ok(())
    }
}

impl Lanes for Beside {
    fn serve<R: Wait, C: Served>(&self, rt: &R, lane: usize, client: &mut C) {
        if let Some(lane) = self.lane_at(lane) {
            lane.serve(rt, client);
        }
    }

    fn catch_up<R: Wait, C: Served>(&self, rt: &R, lane: usize, client: &mut C) {
        if let Some(lane) = self.lane_at(lane) {
            lane.catch_up(rt, client);
        }
    }

    fn close<R: Wait>(&self, rt: &R) {
        for lane in &self.lanes {
            lane.close(rt);
        }
    }
}
