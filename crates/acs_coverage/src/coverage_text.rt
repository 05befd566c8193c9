//! What was reached of a routine, as text.
ghost use Rattle.std.specs.Prelude.{◌≡◌, ◌≤◌, ◌++◌, OnOk, count_by, flat_map, length};
ghost use Rattle.acs_coverage.specs.Counts.{tally_at};
ghost use Rattle.acs_coverage.specs.CoverageText.{count_text, coverage_text, is_covered, is_covered_by, is_covered_of};
ghost use Rattle.acs_coverage.specs.CoverageText.{counted, lack_text, missed_text, missed_with, point_front, point_text};
ghost use Rattle.acs_coverage.specs.CoverageText.{share_text, totals_text};
ghost use Rattle.acs_coverage.specs.Points.{is_of};

use crate::class::Class;
use crate::point::Point;
use crate::tallies::Tallies;
use crate::tally::Tally;
use acs_telling::{Source, push_begun, push_comparison, push_front};
use desk_common::push_number;
use std::alloc::AllocError;

/// Puts behind a text what was reached of the routine with this name and source: how often each of its points was,
/// those that never were, and how many (docs/manual/tool.md, "Coverage of a script").
pub fn push_coverage(
    text: &mut Vec<u8>,
    name: &[u8],
    source: &Source,
    points: &[Point],
    tallies: &Tallies,
) -> Result<(), AllocError>
    ensures { OnOk result (text.new.items ≡ text.old.items ++
        coverage_text name.now source.now points.now (tally_at tallies.now)) }
{
    text.extend_from_slice(name)?;
    text.extend_from_slice(b"\n")?;
    push_points(text, source, points, tallies)?;
    push_missed(text, source, points, tallies)?;
    push_totals(text, name, points, tallies)
}

// Each point, with how often it was reached.
fn push_points(
    text: &mut Vec<u8>,
    source: &Source,
    points: &[Point],
    tallies: &Tallies,
) -> Result<(), AllocError>
    ensures { OnOk result (text.new.items ≡ text.old.items ++
        flat_map (point_text source.now (tally_at tallies.now)) points.now) }
{
    for point in points {
        push_point(text, source, point, tallies)?;
    }
    Ok(())
}

fn push_point(
    text: &mut Vec<u8>,
    source: &Source,
    point: &Point,
    tallies: &Tallies,
) -> Result<(), AllocError>
    ensures { OnOk result (text.new.items ≡ text.old.items ++
        point_text source.now (tally_at tallies.now) point.now) }
{
    push_point_front(text, source, point)?;
    push_count(text, point, &tallies.at(point.place()))?;
    text.extend_from_slice(b"\n")
}

// The place of a point, and what stands there.
fn push_point_front(text: &mut Vec<u8>, source: &Source, point: &Point) -> Result<(), AllocError>
    ensures { OnOk result (text.new.items ≡ text.old.items ++ point_front source.now point.now) }
{
    match point {
        Point::Statement(at) | Point::When(at) => push_begun(text, source, *at),
        Point::Comparison { left, op, right } => {
            push_front(text, source, *right)?;
            push_comparison(text, source, *left, *op, *right)
        }
    }
}

// How often what a point stands for happened.
fn push_count(text: &mut Vec<u8>, point: &Point, tally: &Tally) -> Result<(), AllocError>
    ensures { OnOk result (text.new.items ≡ text.old.items ++ count_text point.now tally.now) }
{
    match point {
        Point::Statement(_) => push_counted(text, b" RAN ", tally.ran),
        Point::When(_) => push_counted(text, b" TAKEN ", tally.taken),
        Point::Comparison { .. } => {
            push_counted(text, b" TRUE ", tally.held)?;
            push_counted(text, b" FALSE ", tally.failed)
        }
    }
}

fn push_counted(text: &mut Vec<u8>, word: &[u8], count: u64) -> Result<(), AllocError>
    ensures { OnOk result (text.new.items ≡ text.old.items ++ counted word.now count) }
{
    text.extend_from_slice(word)?;
    push_number(text, count)
}

/// Whether everything that may happen at a point happened.
pub fn is_covered(point: &Point, tally: &Tally) -> bool
    ensures { result ≡ is_covered point.now tally.now }
{
    match point {
        Point::Statement(_) => tally.ran > 0,
        Point::When(_) => tally.taken > 0,
        Point::Comparison { .. } => tally.held > 0 && tally.failed > 0,
    }
}

// The points at which something never happened.
fn push_missed(
    text: &mut Vec<u8>,
    source: &Source,
    points: &[Point],
    tallies: &Tallies,
) -> Result<(), AllocError>
    ensures { OnOk result (text.new.items ≡ text.old.items ++
        flat_map (missed_text source.now (tally_at tallies.now)) points.now) }
{
    for point in points {
        push_if_missed(text, source, point, &tallies.at(point.place()))?;
    }
    Ok(())
}

fn push_if_missed(
    text: &mut Vec<u8>,
    source: &Source,
    point: &Point,
    tally: &Tally,
) -> Result<(), AllocError>
    ensures { OnOk result (text.new.items ≡ text.old.items ++ missed_with source.now point.now tally.now) }
{
    if is_covered(point, tally) {
        return Ok(());
    }
    push_point_front(text, source, point)?;
    text.extend_from_slice(lack_text(point, tally))?;
    text.extend_from_slice(b"\n")
}

// What never happened at a point that isn't covered.
fn lack_text(point: &Point, tally: &Tally) -> &'static [u8]
    ensures { result.now ≡ lack_text point.now tally.now }
{
    match point {
        Point::Statement(_) => b" NEVER RAN",
        Point::When(_) => b" NEVER TAKEN",
        Point::Comparison { .. } => {
            if tally.held > 0 {
                b" NEVER FALSE"
            } else if tally.failed > 0 {
                b" NEVER TRUE"
            } else {
                b" NEVER COMPARED"
            }
        }
    }
}

// How many points of each class are covered.
fn push_totals(
    text: &mut Vec<u8>,
    name: &[u8],
    points: &[Point],
    tallies: &Tallies,
) -> Result<(), AllocError>
    ensures { OnOk result (text.new.items ≡ text.old.items ++
        totals_text name.now points.now (tally_at tallies.now)) }
{
    text.extend_from_slice(name)?;
    push_share(text, b" STATEMENTS ", Class::Statement, points, tallies)?;
    push_share(text, b" WHENS ", Class::When, points, tallies)?;
    push_share(
        text,
        b" COMPARISONS BOTH WAYS ",
        Class::Comparison,
        points,
        tallies,
    )?;
    text.extend_from_slice(b"\n")
}

fn push_share(
    text: &mut Vec<u8>,
    word: &[u8],
    class: Class,
    points: &[Point],
    tallies: &Tallies,
) -> Result<(), AllocError>
    ensures { OnOk result (text.new.items ≡ text.old.items ++
        share_text word.now class points.now (tally_at tallies.now)) }
{
    push_counted(text, word, covered_of(class, points, tallies) as u64)?;
    push_counted(text, b" OF ", count_of(class, points) as u64)
}

fn count_of(class: Class, points: &[Point]) -> usize
    ensures { result ≡ count_by (is_of class) points.now }
{
    let mut count = 0;
    for point in points {
        if point.is_of(class) {
            count += 1;
        }
    }
    count
}

fn covered_of(class: Class, points: &[Point], tallies: &Tallies) -> usize
    ensures { result ≡ count_by (is_covered_of class (tally_at tallies.now)) points.now }
{
    let mut count = 0;
    for point in points {
        if is_covered_of(class, point, tallies) {
            count += 1;
        }
    }
    count
}

fn is_covered_of(class: Class, point: &Point, tallies: &Tallies) -> bool
    ensures { result ≡ is_covered_of class (tally_at tallies.now) point.now }
{
    point.is_of(class) && is_covered_by(point, tallies)
}

fn is_covered_by(point: &Point, tallies: &Tallies) -> bool
    ensures { result ≡ is_covered_by (tally_at tallies.now) point.now }
{
    is_covered(point, &tallies.at(point.place()))
}

/// How many of the points are covered: statements that ran, WHENs that were taken, and comparisons that went both ways.
pub fn covered_points(points: &[Point], tallies: &Tallies) -> usize
    ensures { result ≡ count_by (is_covered_by (tally_at tallies.now)) points.now }
{
    let mut count = 0;
    for point in points {
        if is_covered_by(point, tallies) {
            count += 1;
        }
    }
    count
}
