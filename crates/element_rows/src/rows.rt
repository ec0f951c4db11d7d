// Rows of elements as words.
ghost use Rattle.std.specs.Prelude.{◌≡◌, ℕ, ◌+◌, ◌*◌, ◌<◌, ◌≤◌, List, ◌++◌, length, take, drop, MatchOption, nat_le};
ghost use Rattle.element_rows.specs.Rows.{Kept, Packed, RoundTrip, Unpacked, row_of_words, words_of_row};

use elements::Element;
use elements::element::MOST_WORDS;

// Writes the words of `row` to the front of `into`, and answers how many; or `None` where they do not fit.
pub fn pack<E: Element>(row: &[E], into: &mut [u32]) -> Option<usize>
    ensures cases { Packed (words_of_row E.words row.now) into.old into.new result }
    ensures due { length (words_of_row E.words row.now) ≡ length row.now * E.width }
{
    if !fits::<E>(row.len(), into.len()) {
        return None;
    }
    Some(write_row(row, into))
}

// Whether the words of `count` elements are no more than `len`.
fn fits<E: Element>(count: usize, len: usize) -> bool
    ensures value { result ≡ nat_le (count * E.width) len }
{
    count <= len / E::size()
}

fn write_row<E: Element>(row: &[E], into: &mut [u32]) -> usize
    requires fits { length row.now * E.width ≤ length into.old }
    ensures count { result ≡ length row.now * E.width }
    ensures after { into.new ≡ words_of_row E.words row.now ++ drop (length row.now * E.width) into.old }
{
    let size = E::size();
    // By index: tried as `row.iter().zip(into.chunks_exact_mut(size))`, after which a proof knows no word of `into`.
    for (k, x) in row.iter().enumerate() {
        let at = k * size;
        write(*x, &mut into[at..at + size]);
    }
    row.len() * size
}

fn write<E: Element>(x: E, into: &mut [u32])
    requires fits { length into.old ≡ E.width }
    ensures after { into.new ≡ E.words x }
{
    let laid = x.to_words();
    into.copy_from_slice(&laid[0..into.len()]);
}

// Reads the elements of the words at the front of `from` into the whole of `row`, and answers how many words they are;
// or `None` where there are too few. What `pack` wrote comes back as it was.
pub fn unpack<E: Element>(from: &[u32], row: &mut [E]) -> Option<usize>
    ensures cases { Unpacked (length row.old * E.width) from.now row.old (row_of_words E.back E.width (length row.old) from.now) row.new result }
    ensures kept { RoundTrip E.words from.now row.old row.new }
{
    if !fits::<E>(row.len(), from.len()) {
        return None;
    }
    Some(read_row(from, row))
}

fn read_row<E: Element>(from: &[u32], row: &mut [E]) -> usize
    requires fits { length row.old * E.width ≤ length from.now }
    ensures count { result ≡ length row.old * E.width }
    ensures after { row.new ≡ row_of_words E.back E.width (length row.old) from.now }
{
    let size = E::size();
    // By index: tried as `row.iter_mut().zip(from.chunks_exact(size))`, after which a proof knows no element of `row`.
    for (k, x) in row.iter_mut().enumerate() {
        let at = k * size;
        *x = read(&from[at..at + size]);
    }
    row.len() * size
}

// Reads the element at `index` of a row alone, or `None` where its words are not all there.
pub fn element_at<E: Element>(from: &[u32], index: usize) -> Option<E>
    ensures cases { MatchOption result (length from.now < (index + 1) * E.width) (λ x. ((index + 1) * E.width ≤ length from.now) × (x ≡ E.back (take E.width (drop (index * E.width) from.now)))) }
    ensures kept { Kept E.words from.now index result }
{
    let size = E::size();
    if index >= from.len() / size {
        return None;
    }
    let at = index * size;
    Some(read(&from[at..at + size]))
}

fn read<E: Element>(from: &[u32]) -> E
    requires fits { length from.now ≡ E.width }
    ensures value { result ≡ E.back from.now }
{
    let mut laid = [0; MOST_WORDS];
    laid[0..from.len()].copy_from_slice(from);
    E::from_words(laid)
}
