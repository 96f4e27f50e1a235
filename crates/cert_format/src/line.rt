//! What the text of a line states.
ghost use Rattle.std.specs.Prelude.{◌≡◌, ◌↔◌, ◌==◌, ◌+◌, ◌<◌, ◌^◌, List, false, true, ℕ, [], ◌∷◌, codes, length, position, IsTrue, IfNone, IfSome};
ghost use Rattle.cache_model.specs.Texts.{keep_digit};
ghost use Rattle.cert_format.specs.Grammar.{OneOf, Within, can_stand, choice_line, fixed_line, full_slots, has_second};
ghost use Rattle.cert_format.specs.Grammar.{has_shape, is_short, line_fault, number_at, number_fault};
ghost use Rattle.cert_format.specs.Grammar.{number_in, number_line, price_slot, record_slots, value_unless, words};
ghost use Rattle.cert_format.specs.Parts.{warmup_slots};
ghost use Rattle.cert_format.specs.Readings.{full_in, record_in, short_of, warmup_in};

use crate::fault::TextKind;
use crate::number::number;
use cache_model::{Record, SHORT_VERSION};

// The place of the first space.
fn space_in(text: &[u8]) -> Option<usize>
    ensures { result ≡ position (λ byte. byte == 32) text.now }
{
    text.iter().position(|byte| *byte == b' ')
}

/// The first word and what stands after its space.
pub fn cut(text: &[u8]) -> Option<(&[u8], &[u8])>
    ensures some { IfSome result (λ parts. words text.now ≡ parts.0.now ∷ words parts.1.now) }
    ensures none { IfNone result (words text.now ≡ text.now ∷ []) }
{
    let place = space_in(text)?;
    Some((&text[..place], &text[place + 1..]))
}

// Whether a text is one word of a byte at least.
fn is_word(text: &[u8]) -> bool
    ensures { IsTrue result ↔ ((words text.now ≡ text.now ∷ []) × (0 < length text.now)) }
{
    !text.is_empty() && space_in(text).is_none()
}

/// The word after a name, if the line has these two words.
pub fn word_after<'a>(text: &'a [u8], name: &[u8]) -> Option<&'a [u8]>
    ensures word { IfSome result (λ word. (words text.now ≡ name.now ∷ word.now ∷ []) × (0 < length word.now)) }
    ensures none { IfNone result ((word : List ℕ) → words text.now ≡ name.now ∷ word ∷ [] → length word ≡ 0) }
{
    let (first, word) = cut(text)?;
    if first == name && is_word(word) {
        Some(word)
    } else {
        None
    }
}

/// Whether a line has these words and no others.
pub(crate) fn fixed(text: &[u8], line: &[u8]) -> Result<(), TextKind>
    ensures { result ≡ value_unless (line_fault (fixed_line line.now) text.now) tt }
{
    if text == line {
        Ok(())
    } else {
        Err(TextKind::Shape)
    }
}

/// The number of a line of a name and a number.
pub fn number_after(text: &[u8], name: &[u8], low: u128, high: u128) -> Result<u128, TextKind>
    ensures { result ≡ value_unless (line_fault (number_line name.now low high) text.now) (number_at 1 text.now) }
{
    match word_after(text, name) {
        Some(word) => number(word, low, high),
        None => Err(TextKind::Shape),
    }
}

/// Whether a line of a name and one of two words has the first.
pub(crate) fn choice_after(
    text: &[u8],
    name: &[u8],
    first: &[u8],
    second: &[u8],
) -> Result<bool, TextKind>
    requires first { 0 < length first.now }
    requires second { 0 < length second.now }
    ensures { result ≡ value_unless (line_fault (choice_line name.now first.now second.now) text.now) (has_second first.now text.now) }
{
    match word_after(text, name) {
        Some(word) if word == first => Ok(true),
        Some(word) if word == second => Ok(false),
        _ => Err(TextKind::Shape),
    }
}

/// The warm-up of the line where one may stand, and 0 if the records come next.
pub(crate) fn warmup(text: &[u8]) -> Result<u128, TextKind>
    ensures { result ≡ value_unless (line_fault (warmup_slots text.now) text.now) (warmup_in text.now) }
{
    match fixed(text, b"records") {
        Ok(()) => Ok(0),
        Err(_) => number_after(text, b"warmup", 1, 1 << 25),
    }
}

// The words of the line of a record, with its price.
#[derive(Clone, Copy)]
struct RecordWords<'a> {
    price: &'a [u8],
    keep: bool,
    flow: &'a [u8],
}

/// Whether a keep is kept, if the word is one.
pub fn keep_of(word: &[u8]) -> Option<bool>
    ensures keep { IfSome result (λ keep. word.now ≡ (48 + keep_digit keep) ∷ []) }
    ensures none { IfNone result (can_stand (OneOf (codes "0" ∷ codes "1" ∷ [])) word.now ≡ false) }
{
    match word {
        b"0" => Some(false),
        b"1" => Some(true),
        _ => None,
    }
}

// The words of a line, if it has those of a record with its price.
fn record_words(text: &[u8]) -> Option<RecordWords<'_>>
    ensures words { IfSome result (λ w. words text.now ≡ w.price.now ∷ ((48 + keep_digit w.keep) ∷ []) ∷ w.flow.now ∷ []) }
    ensures some { IfSome result (λ w. (0 < length w.price.now) × (0 < length w.flow.now)) }
    ensures none { IfNone result (has_shape (full_slots (Within 0 (2 ^ 126))) (words text.now) ≡ false) }
{
    let (price, rest) = cut(text)?;
    let (keep, flow) = cut(rest)?;
    let keep = keep_of(keep)?;
    if !price.is_empty() && is_word(flow) {
        Some(RecordWords { price, keep, flow })
    } else {
        None
    }
}

// The price of a word, after the price `before`.
fn price_of(word: &[u8], version: u8, before: u128) -> Result<u128, TextKind>
    ensures { result ≡ value_unless (number_fault (price_slot version before) word.now) (number_in word.now) }
{
    let price = number(word, 0, 1 << 126)?;
    if version == SHORT_VERSION && price == before {
        return Err(TextKind::Range);
    }
    Ok(price)
}

// The record of a line with its price, after one of the price `before`.
fn full_record(text: &[u8], version: u8, before: u128) -> Result<Record, TextKind>
    ensures { result ≡ value_unless (line_fault (full_slots (price_slot version before)) text.now) (full_in text.now) }
{
    let Some(words) = record_words(text) else {
        return Err(TextKind::Shape);
    };
    let price = price_of(words.price, version, before)?;
    let flow = number(words.flow, 0, 1 << 48)?;
    Ok(Record {
        price,
        keep: words.keep,
        flow: flow as u64,
    })
}

// The words of a line of two words.
fn two_words(text: &[u8]) -> Option<(&[u8], &[u8])>
    ensures some { IfSome result (λ parts. words text.now ≡ parts.0.now ∷ parts.1.now ∷ []) }
    ensures none { IfNone result ((length (words text.now) == 2) ≡ false) }
{
    let (first, second) = cut(text)?;
    match space_in(second) {
        Some(_) => None,
        None => Some((first, second)),
    }
}

// The words of a line that states no price.
fn short_words(text: &[u8], version: u8) -> Option<(&[u8], &[u8])>
    ensures words { IfSome result (λ parts. words text.now ≡ parts.0.now ∷ parts.1.now ∷ []) }
    ensures some { IfSome result (λ _. is_short version text.now ≡ true) }
    ensures none { IfNone result (is_short version text.now ≡ false) }
{
    if version == SHORT_VERSION {
        two_words(text)
    } else {
        None
    }
}

// The record of a line of these two words, after one of the price `before`.
fn short_record(keep: &[u8], flow: &[u8], before: u128) -> Result<Record, TextKind>
    ensures { result ≡ short_of before keep.now flow.now }
{
    let Some(keep) = keep_of(keep) else {
        return Err(TextKind::Shape);
    };
    if flow.is_empty() {
        return Err(TextKind::Shape);
    }
    let flow = number(flow, 0, 1 << 48)?;
    Ok(Record {
        price: before,
        keep,
        flow: flow as u64,
    })
}

/// The record of a line, after one of the price `before`.
#[inline(always)]
pub(crate) fn record(text: &[u8], version: u8, before: u128) -> Result<Record, TextKind>
    ensures { result ≡ value_unless (line_fault (record_slots version before text.now) text.now) (record_in version before text.now) }
{
    match short_words(text, version) {
        Some((keep, flow)) => short_record(keep, flow, before),
        None => full_record(text, version, before),
    }
}
