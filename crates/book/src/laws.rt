// The law over everything that is done with a book.
ghost use Rattle.std.specs.Prelude.{◌≡◌, true};
ghost use Rattle.book.specs.Histories.{AlwaysLeast};

use elements::Element;

// Names the law that whatever draws, settles and adopts have been made, accepted or refused, the book's plan
// is a least one by the tariff that it was made or taken with. It answers true.
pub fn plans_stand<E: Element>() -> bool
    ensures value { result ≡ true }
    ensures least { AlwaysLeast E.unit E.width }
{
    true
}
