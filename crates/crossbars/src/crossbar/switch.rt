// The calls of a crossbar.
ghost use Rattle.std.specs.Prelude.{◌≡◌, ℕ, length};
ghost use Rattle.faults.specs.Answers.{Answers};
ghost use Rattle.faults.specs.declared.fault.Call.TheVariants.{Make};
ghost use Rattle.faults.specs.declared.fault.Layer.TheVariants.{Links};
ghost use Rattle.crossbars.specs.Crossbars.{queue, vacant, NewCrossbar};
ghost use Rattle.links.specs.Refusals.{crossbar_refusal};
ghost use Rattle.crossbars.specs.Tables.{frames_at};
ghost use Rattle.std.proofs.Common.{ap};
ghost use Rattle.links.specs.Frames.{none_waits};

use crate::crossbar::Crossbar;
use crate::inbox::Inbox;
use faults::{Call, Cause, Fault, Layer};
use links::Link;
use links::checks::{check_board, check_buffer, check_count, check_frame};
use links::link::MOST_BOARDS;

impl Crossbar {
    // A crossbar for 1 to 16 boards, with every inbox empty.
    pub fn new(boards: usize) -> Result<Crossbar, Fault>
        ensures answer { Answers Links Make (crossbar_refusal boards) result (NewCrossbar boards) (Unit {0}) }
    {
        check_count(boards)?;
        Ok(Crossbar {
            boards,
            inboxes: [Inbox::empty(); MOST_BOARDS],
        })
    }
}

impl Link for Crossbar {
    ghost boards = { λ s. s.boards };

    ghost waiting = { queue };

    ghost ready = { vacant };

    ghost framed = { λ s k. frames_at s.inboxes k };

    ghost opens = { λ s q k l. ap none_waits (q k l) };

    fn board_count(&self) -> usize {
        self.boards
    }

    fn put(&mut self, board: usize, frame: &[u32]) -> Result<(), Fault> {
        check_board(Call::Put, board, self.boards)?;
        check_frame(frame)?;
        if !self.inboxes[board].is_empty() {
            return Err(Fault::new(Layer::Links, Call::Put, Cause::Closed { board }));
        }
        let inboxes = &mut self.inboxes[..];
        inboxes[board].fill(frame);
        Ok(())
    }

    fn look(&self, board: usize, buffer: &mut [u32]) -> Result<usize, Fault> {
        check_board(Call::Look, board, self.boards)?;
        check_buffer(buffer)?;
        let inbox = &self.inboxes[board];
        if inbox.is_empty() {
            return Err(Fault::new(Layer::Links, Call::Look, Cause::Nothing { board }));
        }
        Ok(inbox.copy_to(buffer))
    }

    fn discard(&mut self, board: usize) -> Result<(), Fault> {
        check_board(Call::Drop, board, self.boards)?;
        if self.inboxes[board].is_empty() {
            return Err(Fault::new(Layer::Links, Call::Drop, Cause::Nothing { board }));
        }
        let inboxes = &mut self.inboxes[..];
        inboxes[board].clear();
        Ok(())
    }
}
