// Code over any link, whose promise follows from the trait alone.
ghost use Rattle.std.specs.Prelude.{◌≡◌};
ghost use Rattle.links_tests.specs.Carried.{Carried};

use faults::Fault;
use links::Link;

// Puts a frame and looks at what the board has now.
pub(crate) fn put_and_look<L: Link>(
    link: &mut L,
    board: usize,
    frame: &[u32],
    buffer: &mut [u32],
) -> Result<usize, Fault>
    ensures { Carried L.boards L.waiting link.old board frame.now buffer.old result buffer.new }
{
    link.put(board, frame)?;
    link.look(board, buffer)
}
