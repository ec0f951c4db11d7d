// Elements and rows of them, by hand calculation.
use element_rows::{element_at, pack, unpack};
use elements::{Element, Pair, Word};

fn word(value: u32) -> Word {
    Word { value }
}

fn pair(real: u32, imaginary: u32) -> Pair {
    Pair {
        real: word(real),
        imaginary: word(imaginary),
    }
}

#[test]
fn words_multiply_modulo_the_size_of_a_word(rt: HostRuntime) {
    assert_eq!(rt; word(65536).times(word(65535)), word(4294901760));
    assert_eq!(rt; word(65536).times(word(65536)), word(0));
    assert_eq!(rt; word(4294967295).times(word(4294967295)), word(1));
    assert_eq!(rt; word(7).conjugated(), word(7));
}

#[test]
fn pairs_multiply_as_complex_numbers(rt: HostRuntime) {
    assert_eq!(rt; pair(1, 2).times(pair(3, 4294967295)), pair(5, 5));
    assert_eq!(rt; pair(0, 1).times(pair(0, 1)), pair(4294967295, 0));
    assert_eq!(rt; <Pair as Element>::identity().times(pair(8, 9)), pair(8, 9));
}

#[test]
fn conjugating_negates_the_imaginary_word(rt: HostRuntime) {
    assert_eq!(rt; pair(3, 5).conjugated(), pair(3, 4294967291));
    assert_eq!(rt; pair(3, 4294967291).conjugated(), pair(3, 5));
    assert_eq!(rt; pair(3, 0).conjugated(), pair(3, 0));
}

#[test]
fn only_the_one_is_one(rt: HostRuntime) {
    assert!(rt; word(1).is_one());
    assert!(rt; !word(0).is_one());
    assert!(rt; pair(1, 0).is_one());
    assert!(rt; !pair(1, 1).is_one());
    assert!(rt; !pair(0, 0).is_one());
}

#[test]
fn a_kind_has_one_or_two_words(rt: HostRuntime) {
    assert_eq!(rt; <Word as Element>::size(), 1);
    assert_eq!(rt; <Pair as Element>::size(), 2);
    assert_eq!(rt; word(6).to_words(), [6, 0, 0, 0]);
    assert_eq!(rt; pair(6, 7).to_words(), [6, 7, 0, 0]);
    assert_eq!(rt; <Pair as Element>::from_words([6, 7, 8, 9]), pair(6, 7));
}

#[test]
fn packing_leaves_the_rest_of_the_buffer(rt: HostRuntime) {
    let mut buffer = [9; 5];
    assert_eq!(rt; pack(&[pair(1, 2), pair(3, 4)], &mut buffer), Some(4));
    assert_eq!(rt; buffer, [1, 2, 3, 4, 9]);
    assert_eq!(rt; pack(&[word(5), word(6)], &mut buffer), Some(2));
    assert_eq!(rt; buffer, [5, 6, 3, 4, 9]);
}

#[test]
fn a_buffer_that_is_too_short_stays_as_it_is(rt: HostRuntime) {
    let mut buffer = [9; 3];
    assert_eq!(rt; pack(&[pair(1, 2), pair(3, 4)], &mut buffer), None);
    assert_eq!(rt; buffer, [9, 9, 9]);
    assert_eq!(rt; pack(&[word(1), word(2), word(3)], &mut buffer), Some(3));
    assert_eq!(rt; buffer, [1, 2, 3]);
}

#[test]
fn a_row_comes_back_from_its_words(rt: HostRuntime) {
    let mut row = [pair(0, 0); 2];
    assert_eq!(rt; unpack(&[1, 2, 3, 4, 5], &mut row), Some(4));
    assert_eq!(rt; row, [pair(1, 2), pair(3, 4)]);
    assert_eq!(rt; unpack(&[7, 7, 7], &mut row), None);
    assert_eq!(rt; row, [pair(1, 2), pair(3, 4)]);
}

#[test]
fn an_empty_row_has_no_words(rt: HostRuntime) {
    let none: [Word; 0] = [];
    let mut buffer = [9; 1];
    assert_eq!(rt; pack(&none, &mut buffer), Some(0));
    assert_eq!(rt; buffer, [9]);
}

#[test]
fn one_element_of_a_row_is_read_alone(rt: HostRuntime) {
    assert_eq!(rt; element_at::<Pair>(&[1, 2, 3, 4, 5], 1), Some(pair(3, 4)));
    assert_eq!(rt; element_at::<Pair>(&[1, 2, 3, 4, 5], 2), None);
    assert_eq!(rt; element_at::<Word>(&[1, 2, 3], 2), Some(word(3)));
    assert_eq!(rt; element_at::<Word>(&[1, 2, 3], 18446744073709551615), None);
}
