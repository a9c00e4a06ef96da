// Lists of numbers, whose words widen, and of texts, which keep those that come again once.

use crate::checks::check_same;
use star_flat::{FlatNumbers, FlatTexts, RepeatedTexts, SignedWords};
use std::test::Fail;

// How many bits the words of a list have.
fn bits_of(numbers: &FlatNumbers) -> u32 {
    match numbers.words() {
        SignedWords::Bits8(_) => 8,
        SignedWords::Bits16(_) => 16,
        SignedWords::Bits32(_) => 32,
        SignedWords::Bits64(_) => 64,
    }
}

fn number_at(numbers: &FlatNumbers, index: usize) -> Option<i64> {
    if index < numbers.len() {
        Some(numbers.get(index))
    } else {
        None
    }
}

// Numbers that are put in turn, and how many bits the words have then.
const NUMBERS: [(i64, u32); 8] = [
    (127, 8),
    (-128, 8),
    (128, 16),
    (-32_768, 16),
    (32_768, 32),
    (-2_147_483_648, 32),
    (2_147_483_648, 64),
    (i64::MIN, 64),
];

#[test]
fn numbers_are_kept_in_words_that_widen(rt: HostRuntime) -> Result<(), Fail> {
    let mut numbers = FlatNumbers::new(rt.alloc());
    for (number, bits) in NUMBERS {
        numbers.push(number)?;
        check_same(&rt, bits_of(&numbers), bits, &number);
    }
    for (index, (number, _)) in NUMBERS.iter().enumerate() {
        check_same(&rt, number_at(&numbers, index), Some(*number), &index);
    }
    Ok(())
}

fn text_at(texts: &FlatTexts, index: usize) -> Option<&[u8]> {
    if index < texts.len() {
        Some(texts.get(index))
    } else {
        None
    }
}

#[test]
fn texts_are_kept(rt: HostRuntime) -> Result<(), Fail> {
    let mut texts = FlatTexts::new(rt.alloc());
    check_same(&rt, texts.is_empty(), true, &"no texts");
    for text in ["MAIL", "", "TRUCK"] {
        texts.push(text.as_bytes())?;
    }
    for (index, text) in ["MAIL", "", "TRUCK"].iter().enumerate() {
        check_same(&rt, text_at(&texts, index), Some(text.as_bytes()), &index);
    }
    Ok(())
}

fn row_of(texts: &RepeatedTexts, row: usize) -> Option<&[u8]> {
    if row < texts.len() {
        Some(texts.get(row))
    } else {
        None
    }
}

fn kept(texts: &RepeatedTexts) -> usize {
    texts.parts().0.len()
}

// `RAIL` and `REIL` share a slot, so that the second `RAIL` is kept again.
const MODES: [&str; 6] = ["MAIL", "RAIL", "REIL", "MAIL", "RAIL", ""];

#[test]
fn texts_that_came_lately_are_kept_once(rt: HostRuntime) -> Result<(), Fail> {
    let mut texts = RepeatedTexts::new(rt.alloc());
    for text in MODES {
        texts.push(text.as_bytes())?;
    }
    for (row, text) in MODES.iter().enumerate() {
        check_same(&rt, row_of(&texts, row), Some(text.as_bytes()), &row);
    }
    check_same(&rt, kept(&texts), 5, &MODES);
    Ok(())
}

fn digit(number: usize) -> u8 {
    b'0' + (number % 10) as u8
}

// One of 1,000 texts that share a slot, another for each row than for the one before.
fn slow_text(row: usize) -> [u8; 5] {
    [b'a', digit(row / 100), digit(row / 10), digit(row), b'z']
}

// Each row keeps its text until there are 32,768; then each of the 1,000 different ones is kept once.
#[test]
fn texts_that_come_often_are_kept_once(rt: HostRuntime) -> Result<(), Fail> {
    let mut texts = RepeatedTexts::new(rt.alloc());
    for row in 0..40_000 {
        texts.push(slow_text(row).as_slice())?;
    }
    for row in [0, 1, 999, 1_000, 32_767, 32_768, 39_999] {
        let expected = slow_text(row);
        check_same(&rt, row_of(&texts, row), Some(expected.as_slice()), &row);
    }
    check_same(&rt, kept(&texts), 1_000 + 40_000 - 32_768, &"kept");
    Ok(())
}

#[test]
fn different_texts_are_kept_as_they_come(rt: HostRuntime) -> Result<(), Fail> {
    let mut texts = RepeatedTexts::new(rt.alloc());
    for row in 0..40_000usize {
        let [_, a, b, c, _] = slow_text(row);
        texts.push([digit(row / 10_000), digit(row / 1_000), a, b, c].as_slice())?;
    }
    check_same(&rt, kept(&texts), 40_000, &"kept");
    Ok(())
}
