// How often each code was answered.
ghost use Rattle.std.specs.Prelude.{◌≡◌, ◌<◌, bytes_eq, map};
ghost use Rattle.std.specs.List.{position_or_len};
ghost use Rattle.desk_generator.specs.Summary.{all_codes, code_of, times_answered};

use sms_construct::{Answer, Reply, View, WhyNoExtend};

/// All codes, in byte order.
pub const CODES: [&[u8]; 28] = [
    b"A00", b"A01", b"A02", b"A03", b"A04", b"A05", b"A06", b"A07", b"A08", b"A09", b"F30", b"M31",
    b"R10", b"R11", b"R12", b"R13", b"R14", b"R15", b"R16", b"R17", b"R18", b"R19", b"R20", b"R21",
    b"R22", b"R23", b"R24", b"R25",
];

/// How many of the answers have each code, in the order of the codes.
pub fn times_of_all(answers: &[Answer]) -> [u64; 28]
    ensures { result ≡ map (λ code. times_answered code answers.now) all_codes }
{
    let mut times = [0u64; 28];
    for answer in answers {
        times[place_of(&answer.reply)] += 1;
    }
    times
}

// The place of a reply's code among all codes.
fn place_of(reply: &Reply) -> usize
    ensures place { result ≡ position_or_len (bytes_eq (code_of reply.now)) all_codes }
    ensures inside { result < 28 }
{
    match reply {
        Reply::Granted { .. } => 0,
        Reply::NotManaged { .. } => 1,
        Reply::Extended { .. } => 2,
        Reply::Deleted { .. } => 3,
        Reply::Activated { .. } => 4,
        Reply::Varied { .. } => 5,
        Reply::Shown(View::Group { .. } | View::Volume(_) | View::Set(_)) => 6,
        Reply::Purged { .. } => 7,
        Reply::Noted => 8,
        Reply::Released { .. } => 9,
        Reply::Reused { .. } => 12,
        Reply::Below { .. } => 13,
        Reply::NoConfig => 14,
        Reply::NameInUse => 15,
        Reply::Exit { .. } => 16,
        Reply::UnknownClass { .. } => 17,
        Reply::NoQuantity { .. } => 18,
        Reply::NoGroup { .. } => 19,
        Reply::NoVolume { .. } => 20,
        Reply::NotFound => 21,
        Reply::NoExtend(WhyNoExtend::Secondary | WhyNoExtend::Room) => 22,
        Reply::Deck(_) => 23,
        Reply::VolumeInUse(_) => 24,
        Reply::UnknownName => 25,
        Reply::JournalFull => 26,
        Reply::PastGrant { .. } => 27,
        Reply::KeeperFault => 10,
        Reply::Memory => 11,
    }
}
