//! Reads the numbers of a run's input.
//!
//! The whole input is read before the run. The bytes are split into words, and each word is decoded
//! as UTF-8. A word that isn't UTF-8 isn't a number. A word that begins with `+` isn't a number,
//! although Rust's `parse` accepts it.
//!
//! `Gathered`, the invariant of the loop in `parse_number_list`, states two facts. If the remaining
//! text spells a list of numbers, the whole text spells the numbers found so far, followed by that
//! list. If the whole text spells a list of numbers, the remaining text also spells one. The first
//! word of the remaining text ends at the first white space (`first_word` of `proofs/Words`).

ghost use Rattle.std.specs.Prelude.{◌≡◌, ◌≤◌, ℤ, IfOk, OnOk, IfErr, IfSome, MatchOption, length, suc};
ghost use Rattle.std.specs.List.{position_or_len};
ghost use Rattle.ob0_scan.specs.LexemeClasses.{is_white_space};
ghost use Rattle.ob0_commands.specs.InputReaders.{ConsumesAtMost};
ghost use Rattle.ob0_commands.specs.InputNumbers.{IsUnusableInput, IsValidInputTextOfNumbers, IsListOfNumbers, SpellsNumber, SpellsNumberList, max_input_bytes};
ghost use Rattle.ob0_commands.specs.Statuses.{IsFaultForReasonOrMemory};
ghost use Rattle.ob0_commands.specs.declared.faults.FileCommandFault.TheVariants as faults;

use crate::faults::FileCommandFault;
use crate::tracked_input::{TrackedInput, read_input};
use ob0_scan::is_white_space;
use std::alloc::{AllocError, Global};

/// Reads the whole input and returns its numbers, in order. The input consists of words, separated
/// by white space. Each word has to be a 32-bit number in decimal digits, optionally after a `-`.
/// The fault is `Input` if a read fails, the input is too long, or a word isn't a number of this
/// form. If an allocation fails, the fault is `Memory`.
pub fn read_numbers<R: TrackedInput>(
    alloc: Global,
    input: &mut R,
) -> Result<Vec<i32>, FileCommandFault>
    ensures numbers { IfOk result
        (λ numbers. IfSome (R.remaining input.old) (IsValidInputTextOfNumbers numbers.items)) }
    ensures limit { ConsumesAtMost (suc max_input_bytes) (R.remaining input.old)
        (R.remaining input.new) }
    ensures unfailed { OnOk result (R.has_failed input.new ≡ R.has_failed input.old) }
    ensures fault { IfErr result
        (IsFaultForReasonOrMemory faults.Input (IsUnusableInput (R.remaining input.old) (R.has_failed input.new))
        (R.has_failed input.new ≡ R.has_failed input.old)) }
{
    let text = read_input(alloc, input)?;
    match parse_number_list(alloc, text.as_slice())? {
        Some(numbers) => Ok(numbers),
        None => Err(FileCommandFault::Input),
    }
}

/// Returns the numbers of a text in order, or None if one of its words isn't a number.
fn parse_number_list(alloc: Global, text: &[u8]) -> Result<Option<Vec<i32>>, AllocError>
    ensures { IfOk result (λ found. MatchOption found (¬ IsListOfNumbers text.now)
        (λ numbers. SpellsNumberList text.now numbers.items)) }
{
    let mut numbers = Vec::new(alloc);
    let mut at = 0;
    while at < text.len() {
        if is_white_space(text[at]) {
            at += 1;
        } else {
            let end = at + first_word_length(&text[at..]);
            let Some(number) = parse_number(&text[at..end]) else {
                return Ok(None);
            };
            numbers.push(number)?;
            at = end;
        }
    }
    Ok(Some(numbers))
}

/// Returns the length in bytes of the word at the beginning of `bytes`. The word ends before the
/// first white space, or at the end of `bytes` if there is no white space.
fn first_word_length(bytes: &[u8]) -> usize
    ensures is { result ≡ position_or_len is_white_space bytes.now }
    ensures inside { result ≤ length bytes.now }
{
    bytes
        .iter()
        .take_while(|byte| !is_white_space(**byte))
        .count()
}

/// Returns the 32-bit number that a word spells: decimal digits, optionally after a `-`. Returns
/// None if the word spells no such number.
fn parse_number(word: &[u8]) -> Option<i32>
    ensures { MatchOption result (¬ ((n : ℤ) × SpellsNumber word.now n))
        (λ number. SpellsNumber word.now number) }
{
    let Ok(digits) = str::from_utf8(word) else {
        return None;
    };
    if digits.starts_with('+') {
        return None;
    }
    match digits.parse() {
        Ok(number) => Some(number),
        Err(_) => None,
    }
}
