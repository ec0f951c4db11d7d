// The calls of a bus.
ghost use Rattle.std.specs.Prelude.{◌≡◌, ◌+◌, length, vec_len};
ghost use Rattle.buses.specs.Buses.{queue, roomy, Free, Made};
ghost use Rattle.links.specs.Calls.{Put, Drop};
ghost use Rattle.buses.specs.Buses;
ghost use Rattle.buses.specs.Entries;
ghost use Rattle.buses.specs.Laid.{frames_addressed};
ghost use Rattle.std.proofs.Common.{arith};
ghost use Rattle.std.proofs.lemmas.Bool.{le-leb};
ghost use Rattle.buses.specs.Carried.{quiet_unused};

use crate::bus::{Bus, MOST_ENTRY, Refusal};
use crate::entries;
use faults::{Call, Cause, Fault, Layer};
use links::Link;
use links::checks::{check_board, check_buffer, check_count, check_frame};

impl Bus {
    // An empty bus for 1 to 16 boards, over a list of at least 66 words.
    pub fn new(boards: usize, words: Vec<u32>) -> Result<Bus, Refusal>
        ensures answer { Made boards words result }
    {
        if let Err(fault) = check_count(boards) {
            return Err(Refusal { words, fault });
        }
        if words.len() < MOST_ENTRY {
            let fault = Fault::new(Layer::Links, Call::Make, Cause::Length { due: MOST_ENTRY });
            return Err(Refusal { words, fault });
        }
        Ok(Bus {
            boards,
            words,
            used: 0,
        })
    }

    // How many words are free. Every board is open while these are 66 or more.
    pub fn room(&self) -> usize
        ensures value { Free self.now result }
        ensures rest { self.now.used + result ≡ vec_len self.now.words }
    {
        self.words.len() - self.used
    }

    // Ends the bus, and gives its list back.
    pub fn into_words(self) -> Vec<u32>
        ensures value { result ≡ self.words }
    {
        let Bus {
            boards: _,
            words,
            used: _,
        } = self;
        words
    }
}

impl Link for Bus {
    ghost boards = { λ s. s.boards };

    ghost waiting = { queue };

    ghost ready = { roomy };

    ghost framed = { λ s k. frames_addressed s.boards k (Entries.entries (Buses.log s)) s.legal };

    ghost opens = { λ s q k l.
        let len : s.words.len ≡ length s.words.items = s.words.ok.0 in
        let unused : s.used ≡ 0 = quiet_unused s.boards s.used s.words.items (record { kept = s.kept; legal = s.legal }) (omega (arith, s.fits)) q in
        le-leb (s.used + 66) s.words.len (omega (arith, s.room)) };

    fn board_count(&self) -> usize {
        self.boards
    }

    fn put(&mut self, board: usize, frame: &[u32]) -> Result<(), Fault>
        ensures answer { Put (λ (s : Bus). s.boards) queue roomy self.old board frame.now result self.new }
        ensures capacity { vec_len self.new.words ≡ vec_len self.old.words }
    {
        check_board(Call::Put, board, self.boards)?;
        check_frame(frame)?;
        if self.room() < MOST_ENTRY {
            return Err(Fault::new(Layer::Links, Call::Put, Cause::Closed { board }));
        }
        let used = self.used;
        entries::write(&mut self.words, used, board as u32, frame);
        self.used = used + 2 + frame.len();
        Ok(())
    }

    fn look(&self, board: usize, buffer: &mut [u32]) -> Result<usize, Fault> {
        check_board(Call::Look, board, self.boards)?;
        check_buffer(buffer)?;
        let log = &self.words[0..self.used];
        let nothing = Fault::new(Layer::Links, Call::Look, Cause::Nothing { board });
        let at = entries::find(log, board as u32).ok_or(nothing)?;
        Ok(entries::copy(log, at, buffer))
    }

    fn discard(&mut self, board: usize) -> Result<(), Fault>
        ensures answer { Drop (λ (s : Bus). s.boards) queue self.old board result self.new }
        ensures capacity { vec_len self.new.words ≡ vec_len self.old.words }
    {
        check_board(Call::Drop, board, self.boards)?;
        let used = self.used;
        let nothing = Fault::new(Layer::Links, Call::Drop, Cause::Nothing { board });
        let at = entries::find(&self.words[0..used], board as u32).ok_or(nothing)?;
        self.used = entries::remove(&mut self.words, used, at);
        Ok(())
    }
}
