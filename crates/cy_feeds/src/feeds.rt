//! The last entries of a view.

ghost use Rattle.std.specs.Prelude.{◌≡◌, ◌≤◌, ◌<◌, [], IfOk, OnErr, OnOk};
ghost use Rattle.cy_feeds.specs.Feeds.{IsReserved, answer_since, latest, new_history, pushed};

use cy_bags::Entry;
use cy_values::{Duplicate, Fault, Sequence};
use std::alloc::Global;
use std::collections::VecDeque;
use std::marker::Model;

/// The last entries of a view, in the order of their ticks. The oldest goes where there would be more than its history.
#[derive(Drop)]
pub struct Feed {
    alloc: Global,
    history: usize,
    /// The tick at which the view was made, then that of the last entry that went.
    base: u64,
    entries: VecDeque<Entry>,
}

/// What changed since a tick.
#[derive(Debug, Drop)]
pub enum Answer {
    /// All entries above the tick, in the order of their ticks.
    Entries(Sequence<Entry>),
    /// Some of them may be gone: the follower takes all rows anew.
    Lagged,
}

impl Model for Feed {
    ghost use Rattle.std.specs.Prelude.{◌≤◌};
    ghost use Rattle.std.specs.VecDeque.{deque_capacity};
    ghost use Rattle.cy_feeds.specs.Feeds.{Kept, IsRising};

    ghost Value = { Kept };

    ghost view = { λ f. record { history = record { limit = f.history; base = f.base; entries = f.entries.items }; room = deque_capacity f.entries } };

    ghost invariant = { λ f. (1 ≤ f.history) × (deque_capacity f.entries ≤ f.history) × IsRising f.base f.entries.items };
}

impl Feed {
    /// The feed of a view that is made at this tick. History is how many entries are kept. It takes no memory.
    pub fn new(alloc: Global, history: usize, made: u64) -> Self
        requires from { 1 ≤ history }
        requires to { history ≤ 4096 }
        ensures { result ≡ record { history = new_history history made; room = 0 } }
    {
        Feed {
            alloc,
            history,
            base: made,
            entries: VecDeque::from_vec(Vec::new(alloc)),
        }
    }

    /// Makes room for one more entry, so that `push` can't fail. The room of a feed is never above its history. Fails only when
    /// out of memory, and leaves the feed as it was.
    pub fn reserve(&mut self) -> Result<(), Fault>
        ensures same { self.new ≡ record self.old { room = self.new.room } }
        ensures reserved { OnOk result (IsReserved self.new) }
        ensures err { OnErr result (self.new ≡ self.old) }
        ensures room { self.new.room ≤ self.new.history.limit }
    {
        let length = self.entries.len();
        if length == self.entries.capacity() && length < self.history {
            let more = length.max(1).min(self.history - length);
            self.entries.reserve_exact(more)?;
        }
        Ok(())
    }

    /// Adds an entry; of a full feed the oldest goes. It takes no memory.
    pub fn push(&mut self, entry: Entry)
        requires reserved { IsReserved self.old }
        requires rising { latest self.old.history.base self.old.history.entries < entry.tick }
        ensures { self.new ≡ record self.old { history = pushed entry self.old.history } }
    {
        if self.entries.len() == self.history {
            if let Some(oldest) = self.entries.pop_front() {
                self.base = oldest.tick;
            }
        }
        self.entries.push_back(entry).unwrap();
    }

    /// Copies of all entries above a tick, where none of them is gone. Fails only when out of memory.
    pub fn since(&self, tick: u64) -> Result<Answer, Fault>
        ensures { IfOk result (λ answer. answer ≡ answer_since tick self.now.history) }
    {
        if tick < self.base {
            return Ok(Answer::Lagged);
        }
        let mut entries = Vec::new(self.alloc);
        let start = self.entries.partition_point(|entry| entry.tick <= tick);
        for at in start..self.entries.len() {
            if let Some(entry) = self.entries.get(at) {
                entries.push(entry.copy(self.alloc)?)?;
            }
        }
        Ok(Answer::Entries(Sequence::new(entries)))
    }
}
