// The parts of what the engine does for a request, played one entry after another into a lent list of numbers (document 02, P8).
#![tactic(auto)]

ghost use Rattle.std.specs.Prelude.{[], ◌∷◌, ◌<◌};
ghost use Rattle.best_own_parts.specs.Codes.{move_code, drop_code, complete_code, leaving_codes, evicting_codes, obtaining_codes, clearing_codes};
ghost use Rattle.best_own_parts.specs.Playing.{Ready, Played, Moved};

use best_moves::{
    COMPLETE, block_in_line, digit_at, entry_number, holds_block, line_of, next_at, price_at,
};
use protocol_types::Setup;

// Where the engine stands: the position of its copies, and how many entries were written at which cost.
#[derive(Clone, Copy)]
pub struct Playing {
    pub position: usize,
    pub length: usize,
    pub cost: u32,
}

impl Playing {
    // ---- one entry

    // Entry k is played: its number is written.
    fn play(self, setup: Setup, asks: &[u32], k: usize, numbers: &mut [u32]) -> Playing
        requires ready { Ready setup self numbers.old 1 }
        requires entry { k < 18 }
        ensures { Played setup asks.now k self result numbers.old numbers.new }
    {
        numbers[self.length] = entry_number(self.position, k as u32);
        Playing {
            position: next_at(asks, self.position, k),
            length: self.length + 1,
            cost: self.cost + price_at(setup, asks, self.position, k),
        }
    }

    // Processor i fetches block b, or writes it back.
    fn play_move(
        self,
        setup: Setup,
        asks: &[u32],
        i: usize,
        b: usize,
        numbers: &mut [u32],
    ) -> Playing
        requires ready { Ready setup self numbers.old 1 }
        requires processor { i < 2 }
        requires block { b < 4 }
        ensures { Moved setup asks.now (move_code i b ∷ []) 1 32 0 self result numbers.old numbers.new }
    {
        self.play(setup, asks, 8 * i + 2 * b, numbers)
    }

    // Processor i drops block b.
    pub fn play_drop(
        self,
        setup: Setup,
        asks: &[u32],
        i: usize,
        b: usize,
        numbers: &mut [u32],
    ) -> Playing
        requires ready { Ready setup self numbers.old 1 }
        requires processor { i < 2 }
        requires block { b < 4 }
        ensures { Moved setup asks.now (drop_code i b ∷ []) 1 0 0 self result numbers.old numbers.new }
    {
        self.play(setup, asks, 8 * i + 2 * b + 1, numbers)
    }

    // The next request is completed.
    pub fn play_completion(self, setup: Setup, asks: &[u32], numbers: &mut [u32]) -> Playing
        requires { Ready setup self numbers.old 1 }
        ensures { Moved setup asks.now (complete_code ∷ []) 1 32 1 self result numbers.old numbers.new }
    {
        self.play(setup, asks, COMPLETE, numbers)
    }

    // ---- the parts of a request, which found the engine at position u

    // Block b of processor i is written back if it is marked, then dropped.
    #[tactic(auto, using(crate::proofs::Moves::moved_on, crate::proofs::Moves::ready_on), unfolding(crate::specs::Codes::leaving_codes))]
    fn leave(
        self,
        setup: Setup,
        asks: &[u32],
        u: usize,
        i: usize,
        b: usize,
        numbers: &mut [u32],
    ) -> Playing
        requires ready { Ready setup self numbers.old 2 }
        requires processor { i < 2 }
        requires block { b < 4 }
        ensures { Moved setup asks.now (leaving_codes u i b) 2 32 0 self result numbers.old numbers.new }
    {
        if digit_at(u, b) == 4 + i {
            let written_back = self.play_move(setup, asks, i, b, numbers);
            written_back.play_drop(setup, asks, i, b, numbers)
        } else {
            self.play_drop(setup, asks, i, b, numbers)
        }
    }

    // The block in a line of processor i leaves; an empty line needs no entry.
    #[tactic(auto, using(crate::proofs::Moves::moved_none), unfolding(crate::specs::Codes::evicting_codes))]
    fn evict(
        self,
        setup: Setup,
        asks: &[u32],
        u: usize,
        i: usize,
        line: usize,
        numbers: &mut [u32],
    ) -> Playing
        requires ready { Ready setup self numbers.old 2 }
        requires processor { i < 2 }
        ensures { Moved setup asks.now (evicting_codes setup u i line) 2 32 0 self result numbers.old numbers.new }
    {
        match block_in_line(setup, u, i, line) {
            Some(b) => self.leave(setup, asks, u, i, b, numbers),
            None => self,
        }
    }

    // Processor i gets block b, where it has no copy.
    pub fn obtain(
        self,
        setup: Setup,
        asks: &[u32],
        i: usize,
        b: usize,
        numbers: &mut [u32],
    ) -> Playing
        requires ready { Ready setup self numbers.old 3 }
        requires processor { i < 2 }
        requires block { b < 4 }
        ensures { Moved setup asks.now (obtaining_codes setup self.position i b) 3 64 0 self result numbers.old numbers.new }
    {
        let u = self.position;
        if holds_block(u, i, b) {
            return self;
        }
        let line = line_of(setup.lines as usize, b);
        let evicted = self.evict(setup, asks, u, i, line, numbers);
        evicted.play_move(setup, asks, i, b, numbers)
    }

    // Every line of processor i's cache is emptied, from line 0 up.
    pub fn clear(self, setup: Setup, asks: &[u32], i: usize, numbers: &mut [u32]) -> Playing
        requires ready { Ready setup self numbers.old 128 }
        requires processor { i < 2 }
        ensures { Moved setup asks.now (clearing_codes setup self.position i setup.lines) 128 2048 0 self result numbers.old numbers.new }
    {
        let u = self.position;
        let mut cleared = self;
        for line in 0..setup.lines as usize {
            cleared = cleared.evict(setup, asks, u, i, line, numbers);
        }
        cleared
    }
}
