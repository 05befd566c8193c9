//! Masks and simple masks as texts, with the first faults of others, and which values they fit.
use dsn_mask::MaskErr::{BadByte, Empty, EmptyPiece, StarsNotAlone, ThreeStars, TooLong};
use dsn_mask::{Mask, MaskErr, Short, Simple};

/// A text and its fault.
type Form = (&'static [u8], Option<MaskErr>);

static MASKS: [Form; 32] = [
    (&[b'A'; 64], None),
    (b"A.**", None),
    (b"**.A", None),
    (b"**.**", None),
    (b"**", None),
    (b"*.%.A-B_C#@$9*", None),
    (b"", Some(Empty)),
    (&[b'A'; 65], Some(TooLong)),
    (&[b'a'; 65], Some(TooLong)),
    (&[b'*'; 65], Some(TooLong)),
    (&[b'.'; 65], Some(TooLong)),
    (b"A**", Some(StarsNotAlone(1))),
    (b"**A", Some(StarsNotAlone(0))),
    (b"A.**B", Some(StarsNotAlone(2))),
    (b"A.B**.C", Some(StarsNotAlone(3))),
    (b"***", Some(ThreeStars(2))),
    (b"A.***", Some(ThreeStars(4))),
    (b"A****B", Some(ThreeStars(3))),
    (b"***.**A", Some(ThreeStars(2))),
    (b"**A***", Some(StarsNotAlone(0))),
    (b"a***", Some(BadByte(0))),
    (b"A***b", Some(ThreeStars(3))),
    (b"A.b", Some(BadByte(2))),
    (b"A B", Some(BadByte(1))),
    (b"**\0", Some(StarsNotAlone(0))),
    (b".A", Some(EmptyPiece(0))),
    (b"A.", Some(EmptyPiece(1))),
    (b"A..B", Some(EmptyPiece(2))),
    (b".", Some(EmptyPiece(0))),
    (b"A..b", Some(EmptyPiece(2))),
    (b"A**.", Some(StarsNotAlone(1))),
    (b"**.", Some(EmptyPiece(2))),
];

static SIMPLE_MASKS: [Form; 11] = [
    (&[b'%'; 64], None),
    (b"A..B", None),
    (b".*.", None),
    (b"", Some(Empty)),
    (&[b'%'; 65], Some(TooLong)),
    (&[b'a'; 65], Some(TooLong)),
    (&[b'*'; 65], Some(TooLong)),
    (b"**", Some(StarsNotAlone(0))),
    (b"A.**.B", Some(StarsNotAlone(2))),
    (b".***", Some(ThreeStars(3))),
    (b".a", Some(BadByte(1))),
];

fn are_masks() -> bool {
    let mut good = true;
    for (text, wanted) in &MASKS {
        good &= Mask::parse(text).err() == *wanted;
    }
    good
}

fn are_simple_masks() -> bool {
    let mut good = true;
    for (text, wanted) in &SIMPLE_MASKS {
        good &= Simple::parse(text).err() == *wanted;
    }
    good
}

#[test]
fn masks_are_read_or_refused_with_their_first_fault(rt: HostRuntime) {
    assert!(rt; are_masks() && are_simple_masks());
}

/// A mask, a value, and whether the mask fits it.
type Fit = (&'static str, &'static str, bool);

#[rattlefmt::skip]
static FITS: [Fit; 29] = [
    ("**", "SYS1", true),
    ("**", "A.B.C", true),
    ("**", "", true),
    ("A.**", "A", true),
    ("A.**", "A.B.C", true),
    ("A.**", "AB", false),
    ("**.**", "A", true),
    ("**.C", "A.B.C", true),
    ("**.C", "A.B.CD", false),
    ("A.**.C", "A.C", true),
    ("A.**.B.**.C", "A.B.B.X.C", true),
    ("A.**.B.**.C", "A.C.B", false),
    ("A*.%%", "AB.C", false),
    ("A*.%%", "AB.CD", true),
    ("A*B*C", "AXBBYC", true),
    ("A*B*C", "ACB", false),
    ("*", "", true),
    ("%", "", false),
    ("*", "A.B", false),
    ("A.*.C", "A..C", true),
    ("A.%.C", "A..C", false),
    ("A.**.C", "A..C", true),
    ("A.*", "A", false),
    ("A", "A.", false),
    ("A%C", "A*C", true),
    ("A-C", "A%C", false),
    ("A", "a", false),
    ("*A*A*A*A*A*A*B", "AAAAAAAAAAAAAAAAAAAAAAAAAAAAAAAAAAAAAAAAAAAA", false),
    ("**.A.**.A.**.A.**.B", "A.A.A.A.A.A.A.A.A.A.A.A.A.A.A.A.A.A.A.A.A.A", false),
];

static SIMPLE_FITS: [Fit; 10] = [
    ("*", "A.B.C", true),
    ("*", "", true),
    ("%", "", false),
    ("*%*", "", false),
    ("A.B", "A.B", true),
    ("A%B", "A.B", true),
    ("A*C", "A.B.C", true),
    ("A..", "A.", false),
    ("PAY*", "PAY", true),
    ("PAY*", "PRPAY", false),
];

fn mask_fits(mask: &str, value: &str) -> Option<bool> {
    let mask = Mask::parse(mask.as_bytes()).ok()?;
    Some(mask.matches(&Short::new(value.as_bytes())?))
}

fn simple_fits(simple: &str, value: &str) -> Option<bool> {
    let simple = Simple::parse(simple.as_bytes()).ok()?;
    Some(simple.matches(&Short::new(value.as_bytes())?))
}

fn are_fitted() -> bool {
    let mut good = true;
    for (mask, value, wanted) in &FITS {
        good &= mask_fits(mask, value) == Some(*wanted);
    }
    good
}

fn are_fitted_whole() -> bool {
    let mut good = true;
    for (simple, value, wanted) in &SIMPLE_FITS {
        good &= simple_fits(simple, value) == Some(*wanted);
    }
    good
}

#[test]
fn masks_fit_by_qualifiers_and_simple_masks_over_the_whole_value(rt: HostRuntime) {
    assert!(rt; are_fitted() && are_fitted_whole());
}
