// What is asked for, by the words that the program was started with.
ghost use Rattle.std.specs.Prelude.{◌≤◌, length, IfSome};

use std::env::{Env, FillError};

// What is asked. Row(None) is a row that no list has: its word is no decimal number, or a number beyond every list.
#[derive(Clone, Copy)]
pub enum Question {
    List,
    Whys,
    Row(Option<usize>),
    Where,
}

// A decimal number, if the text is one that 64 bits hold.
fn number(text: &[u8]) -> Option<usize> {
    let mut n = 0usize;
    for c in text {
        let digit = char::from(*c).to_digit(10)?;
        n = n.checked_mul(10)?.checked_add(digit as usize)?;
    }
    Some(n)
}

// Whether the program was started with a word i; its own name is word 0.
fn is_given(rt: &impl Env, i: usize) -> bool {
    !matches!(rt.arg(i, &mut []), Err(FillError::NotPresent))
}

// Word i, if it is given, and no longer than the lent text.
fn given<'a>(rt: &impl Env, i: usize, text: &'a mut [u8]) -> Option<&'a [u8]>
    ensures { IfSome result (λ word. length word.now ≤ length text.old) }
{
    let n = rt.arg(i, text).ok()?;
    Some(&text[..n])
}

// The row that word 2 names. An empty word names none.
fn row(rt: &impl Env) -> Option<usize> {
    let mut text = [0u8; 64];
    match given(rt, 2, &mut text)? {
        [] => None,
        word => number(word),
    }
}

// `where`, or else `why`.
fn is_where(rt: &impl Env) -> bool {
    let mut text = [0u8; 8];
    matches!(given(rt, 1, &mut text), Some(b"where"))
}

// The question that the words ask.
pub fn asked(rt: &impl Env) -> Question {
    if !is_given(rt, 1) {
        Question::List
    } else if is_where(rt) {
        Question::Where
    } else if !is_given(rt, 2) {
        Question::Whys
    } else {
        Question::Row(row(rt))
    }
}

// Whether the card is a book: its first record's kind is at least 0100, and a dump's is 0001 or 0005. The list is a
// dump's.
pub fn of_a_book(asked: Question, card: &[u8]) -> bool {
    match (asked, card) {
        (Question::List, _) => false,
        (_, [_, _, _, high, ..]) => *high != 0,
        _ => false,
    }
}
