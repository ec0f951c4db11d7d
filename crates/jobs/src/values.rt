// What stands behind an item's name: numbers, lists and letters.
use crate::item::Item;
use crate::mistake::{Due, Wrong};
use job_words::{Number, read_number};
use std::alloc::Global;

pub(crate) fn value<'a, N: Number>(item: Item, word: &'a str) -> Result<N, Wrong<'a>> {
    read_number(word).ok_or(Wrong::NotNumber {
        item,
        word,
        bits: N::BITS,
    })
}

pub(crate) fn one_number<'a, N: Number>(item: Item, words: &[&'a str]) -> Result<N, Wrong<'a>> {
    match words {
        [word] => value(item, word),
        _ => Err(Wrong::Lacks(item, Due::OneNumber)),
    }
}

pub(crate) fn two_numbers<'a, N: Number + Drop>(
    item: Item,
    words: &[&'a str],
) -> Result<(N, N), Wrong<'a>> {
    match words {
        [first, second] => {
            let first = value(item, first)?;
            Ok((first, value(item, second)?))
        }
        _ => Err(Wrong::Lacks(item, Due::TwoNumbers)),
    }
}

pub(crate) fn list<'a, N: Number + Drop>(
    heap: Global,
    item: Item,
    words: &[&'a str],
) -> Result<Vec<N>, Wrong<'a>> {
    words.iter().map(|word| value(item, word)).try_collect(heap)
}

pub(crate) fn letter<'a>(item: Item, words: &[&'a str]) -> Result<char, Wrong<'a>> {
    let [word] = words else {
        return Err(Wrong::Lacks(item, Due::OneLetter));
    };
    let mut letters = word.chars();
    let (Some(letter), None) = (letters.next(), letters.next()) else {
        return Err(Wrong::Lacks(item, Due::OneLetter));
    };
    Ok(letter)
}
