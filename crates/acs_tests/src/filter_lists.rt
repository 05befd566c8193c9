//! Which values filter lists pass, by entries built by hand.
ghost use Rattle.std.specs.Prelude.{◌≡◌, ◌<◌};

use dsn_mask::{Entry, FilterIndex, Lit, Mask, Short, Simple, Steps};
use std::alloc::Global;
use std::marker::Brand;
use std::sync::ledger::{Blank, Ledger};
use std::test::Fail;

/// Entries of INCLUDE and of EXCLUDE, a value, and whether they pass it. A quoted entry is written 'A', a
/// simple mask =A, any other entry is a mask.
type Row = (&'static str, &'static str, &'static str, bool);

const INCLUDE: &str = "PAY.** =TEST* 'X!'";

const EXCLUDE: &str = "PAY.OLD.** =*.TMP 'TEST'";

static ROWS: [Row; 23] = [
    ("'A' 'B'", "'B'", "A", true),
    ("'A' 'B'", "'B'", "B", false),
    ("'A' 'B'", "", "C", false),
    ("", "'B'", "A", true),
    ("", "'B'", "B", false),
    ("", "", "", true),
    ("''", "", "", true),
    ("'A*'", "", "AB", false),
    ("'A*'", "", "A*", true),
    (INCLUDE, EXCLUDE, "PAY.MASTER", true),
    (INCLUDE, EXCLUDE, "PAY.OLD.A", false),
    (INCLUDE, EXCLUDE, "PAY.A.TMP", false),
    (INCLUDE, EXCLUDE, "TEST.A", true),
    (INCLUDE, EXCLUDE, "TEST", false),
    (INCLUDE, EXCLUDE, "X!", true),
    ("'A' 'A' 'A'", "", "A", true),
    ("'A' 'A' 'A'", "", "B", false),
    ("=A* B.**", "", "A1", true),
    ("=A* B.**", "", "C", false),
    ("'ABC' 'A' 'AB'", "", "AB", true),
    ("'ABC' 'A' 'AB'", "", "ABCD", false),
    ("'ABC' 'AB'", "", "A", false),
    ("'ABC' 'AB'", "'AB' 'A'", "ABC", true),
];

fn entry(text: &str) -> Option<Entry> {
    match text.as_bytes() {
        [b'\'', inside @ .., b'\''] => Some(Entry::Quoted(Lit::new(inside)?)),
        [b'=', simple @ ..] => Some(Entry::Plain(Simple::parse(simple).ok()?)),
        mask => Some(Entry::Dots(Mask::parse(mask).ok()?)),
    }
}

fn entries(alloc: Global, texts: &str) -> Result<Vec<Entry>, Fail> {
    let mut list = Vec::new(alloc);
    for text in texts.split_whitespace() {
        list.push(entry(text).ok_or("the entry is out of form")?)?;
    }
    Ok(list)
}

/// 254 times the entry 'A', and another behind them.
fn many(alloc: Global, last: &str) -> Result<Vec<Entry>, Fail> {
    let mut texts = "'A' ".repeat(alloc, 254)?;
    texts.push_str(last)?;
    entries(alloc, &texts)
}

fn has<L: Ledger>(index: &FilterIndex, value: &Short, blank: Blank) -> bool
    requires name { blank.name ≡ L.name }
    requires parts { blank.parts ≡ L.parts }
    requires some { 0 < blank.parts }
{
    let mut steps = Steps::<L>::new(blank);
    index.has(value, &mut steps)
}

/// Whether the value is in form, and passes or not as it is wanted.
fn passes(index: &FilterIndex, value: &str, wanted: bool) -> bool {
    match Short::new(value.as_bytes()) {
        Some(value) => has::<Brand>(index, &value, Blank::new(1)) == wanted,
        None => false,
    }
}

fn holds(alloc: Global, row: &Row) -> Result<bool, Fail> {
    let (include, exclude, value, wanted) = row;
    let include = entries(alloc, include)?;
    let exclude = entries(alloc, exclude)?;
    let index = FilterIndex::build(alloc, &include, &exclude)?;
    Ok(passes(&index, value, *wanted))
}

#[test]
fn exclude_wins_over_include(rt: HostRuntime) -> Result<(), Fail> {
    let mut good = true;
    for row in &ROWS {
        good &= holds(rt.alloc(), row)?;
    }
    assert!(rt; good);
    Ok(())
}

/// B is in INCLUDE, A in both, what begins with C in EXCLUDE, and D in neither.
fn are_passed(index: &FilterIndex) -> bool {
    passes(index, "B", true)
        && passes(index, "A", false)
        && passes(index, "C", false)
        && passes(index, "D", false)
}

#[test]
fn lists_may_have_255_entries_each(rt: HostRuntime) -> Result<(), Fail> {
    let include = many(rt.alloc(), "'B'")?;
    let exclude = many(rt.alloc(), "=C*")?;
    let index = FilterIndex::build(rt.alloc(), &include, &exclude)?;
    assert!(rt; are_passed(&index));
    Ok(())
}
