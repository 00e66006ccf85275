//! The end of a transaction: its lines are released, its warp becomes idle, and the requests that
//! wait for those lines are retried.
ghost use Rattle.std.specs.Prelude.{◌≡◌, ◌<◌, ◌≤◌, false};
ghost use Rattle.std.specs.List.{All};
ghost use Rattle.protocol.specs.Limits.{line_limit};
ghost use Rattle.rules.specs.State.{is_waiting, idle_row};
ghost use Rattle.rules.specs.Ending.{after_turns_at_lines, after_giving_up, after_end};
ghost use Rattle.machine.specs.Phases.{highest_stamp};
ghost use Rattle.machine.specs.Warps.{warp_row};
ghost use Rattle.machine.specs.Meaning.{state, policy_of};

use crate::machine::Machine;
use book::Book;
use memory::Memory;

impl<M: Memory, B: Book> Machine<M, B> {
    /// Retries the requests that wait for some lines, line by line.
    fn retry_lines(&mut self, lines: &[u32])
        requires { All (λ line. line < line_limit) lines.now }
        ensures after { state M.at B.kind B.model self.new
            ≡ (after_turns_at_lines (policy_of B.kind self.old)
            (state M.at B.kind B.model self.old) lines.now).machine }
        ensures memory { self.new.memory ≡ self.old.memory }
    {
        for line in lines {
            self.retry_line(*line);
        }
    }

    /// Releases a warp's lines, makes the warp idle at a stamp, and then retries the requests that
    /// wait for those lines.
    fn give_up(&mut self, warp: u32, stamp: u64, lines: &[u32])
        requires free { is_waiting (warp_row self.old.warps warp).phase ≡ false }
        requires bound { stamp ≤ highest_stamp }
        requires inside { All (λ line. line < line_limit) lines.now }
        ensures after { state M.at B.kind B.model self.new
            ≡ (after_giving_up (policy_of B.kind self.old)
            (state M.at B.kind B.model self.old) warp (idle_row stamp)
            lines.now).machine }
        ensures memory { self.new.memory ≡ self.old.memory }
    {
        self.release_all(lines);
        self.warps.make_idle(warp, stamp);
        self.retry_lines(lines);
    }

    /// Ends a warp's transaction. One without a store has no lines to give up.
    pub(crate) fn end(&mut self, warp: u32, stamp: u64)
        requires free { is_waiting (warp_row self.old.warps warp).phase ≡ false }
        requires bound { stamp ≤ highest_stamp }
        ensures after { state M.at B.kind B.model self.new
            ≡ (after_end (policy_of B.kind self.old)
            (state M.at B.kind B.model self.old) warp stamp).machine }
        ensures memory { self.new.memory ≡ self.old.memory }
    {
        if self.warps.stored_count(warp) == 0 {
            self.warps.make_idle(warp, stamp);
            return;
        }
        let lines = self.warps.log(warp).lines();
        self.give_up(warp, stamp, lines.as_slice());
    }
}
