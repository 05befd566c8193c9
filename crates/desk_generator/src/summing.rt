//! The summary of a generated run.
ghost use Rattle.std.specs.Prelude.{◌≡◌, ◌<◌, ◌-◌, ◌^◌, ◌++◌, ◌∷◌, [], ℕ, List, codes, decimal};
ghost use Rattle.std.specs.Prelude.{flat_map, length, map, IfOk, OnOk};
ghost use Rattle.sms_script.specs.AnswerText.{end_text};
ghost use Rattle.desk_generator.specs.Summary.{count_line, counts_text, free_in, granted_in, line_of, summary_of};
ghost use Rattle.desk_generator.specs.Summary.{tracks_text};

use crate::counting::{CODES, times_of_all};
use desk_common::push_number;
use sms_construct::{Answer, VolRow};
use std::alloc::{AllocError, Global};

/// The summary of a generated run: each code that was answered with its number, the granted and the free tracks
/// of the active volumes, and the numbers of entries and items (docs/manual/generator.md).
pub fn summary(
    alloc: Global,
    seed: u32,
    count: u32,
    answers: &[Answer],
    rows: &[VolRow],
    entries: u64,
) -> Result<Vec<u8>, AllocError>
    requires { length rows.now < 2 ^ 32 }
    ensures { IfOk result (λ text. text.items ≡ summary_of seed count answers.now rows.now entries) }
{
    let mut text = Vec::new(alloc);
    push_head(&mut text, seed, count)?;
    push_counts(&mut text, answers)?;
    push_tracks(&mut text, rows)?;
    push_end(&mut text, entries, answers.len() as u64)?;
    Ok(text)
}

fn push_head(text: &mut Vec<u8>, seed: u32, count: u32) -> Result<(), AllocError>
    ensures { OnOk result (text.new.items ≡ text.old.items ++ line_of
        (codes "GEN" ∷ decimal seed ∷ decimal count ∷ [])) }
{
    push_two(text, b"GEN", u64::from(seed), u64::from(count))
}

fn push_end(text: &mut Vec<u8>, entries: u64, items: u64) -> Result<(), AllocError>
    ensures { OnOk result (text.new.items ≡ text.old.items ++ end_text entries items) }
{
    push_two(text, b"END", entries, items)
}

// A line for each code that was answered.
fn push_counts(text: &mut Vec<u8>, answers: &[Answer]) -> Result<(), AllocError>
    ensures { OnOk result (text.new.items ≡ text.old.items ++ counts_text answers.now) }
{
    push_each(text, &CODES, &times_of_all(answers))?;
    Ok(())
}

// A line for each of the codes whose number, at the same place, isn't 0.
fn push_each(text: &mut Vec<u8>, all: &[&[u8]], times: &[u64]) -> Result<(), AllocError>
    requires { length times.now ≡ length all.now }
    ensures { OnOk result ((times_of : List ℕ → ℕ) → times.now ≡ map times_of (map (λ code. code.now) all.now)
        → text.new.items ≡ text.old.items
        ++ flat_map (λ code. count_line code (times_of code)) (map (λ code. code.now) all.now)) }
{
    for (place, code) in all.iter().enumerate() {
        push_count(text, code, times[place])?;
    }
    Ok(())
}

fn push_count(text: &mut Vec<u8>, code: &[u8], times: u64) -> Result<(), AllocError>
    ensures { OnOk result (text.new.items ≡ text.old.items ++ count_line code.now times) }
{
    match times {
        0 => Ok(()),
        times => push_one(text, code, times),
    }
}

fn push_tracks(text: &mut Vec<u8>, rows: &[VolRow]) -> Result<(), AllocError>
    requires { length rows.now < 2 ^ 32 }
    ensures { OnOk result (text.new.items ≡ text.old.items ++ tracks_text rows.now) }
{
    push_one(text, b"GRANTED", granted_in(rows))?;
    push_one(text, b"FREE", free_in(rows))
}

// The tracks of the volumes that data sets hold.
fn granted_in(rows: &[VolRow]) -> u64
    requires { length rows.now < 2 ^ 32 }
    ensures { result ≡ granted_in rows.now }
{
    let mut tracks = 0u64;
    for row in rows {
        tracks += granted_on(row);
    }
    tracks
}

fn granted_on(row: &VolRow) -> u64
    ensures value { result ≡ row.now.capacity - row.now.free }
    ensures small { result < 2 ^ 32 }
{
    u64::from(row.capacity.saturating_sub(row.free))
}

// The tracks of the volumes that are free.
fn free_in(rows: &[VolRow]) -> u64
    requires { length rows.now < 2 ^ 32 }
    ensures { result ≡ free_in rows.now }
{
    let mut tracks = 0u64;
    for row in rows {
        tracks += free_on(row);
    }
    tracks
}

fn free_on(row: &VolRow) -> u64
    ensures value { result ≡ row.now.free }
    ensures small { result < 2 ^ 32 }
{
    u64::from(row.free)
}

// A word and a number in a line of their own.
fn push_one(text: &mut Vec<u8>, word: &[u8], number: u64) -> Result<(), AllocError>
    ensures { OnOk result (text.new.items ≡ text.old.items ++ line_of (word.now ∷ decimal number ∷ [])) }
{
    text.extend_from_slice(word)?;
    text.extend_from_slice(b" ")?;
    push_number(text, number)?;
    text.extend_from_slice(b"\n")
}

// A word and two numbers likewise.
fn push_two(text: &mut Vec<u8>, word: &[u8], first: u64, second: u64) -> Result<(), AllocError>
    ensures { OnOk result (text.new.items ≡ text.old.items ++ line_of
        (word.now ∷ decimal first ∷ decimal second ∷ [])) }
{
    text.extend_from_slice(word)?;
    text.extend_from_slice(b" ")?;
    push_number(text, first)?;
    text.extend_from_slice(b" ")?;
    push_number(text, second)?;
    text.extend_from_slice(b"\n")
}
