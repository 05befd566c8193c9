//! What the values of operands may be.

/// What is wanted behind this key of an ALLOC, for a person (docs/manual/script.md, "Operands").
pub fn value_wanted(key: &[u8]) -> &'static str {
    match key {
        b"SPACE" => {
            "(u,p), (u,(p)) or (u,(p,s)): u is TRK or CYL, p is 1 to 16777215 and s 0 to 16777215"
        }
        b"DATACLAS" | b"STORCLAS" | b"MGMTCLAS" | b"DEFDC" | b"DEFSC" | b"DEFMC" => {
            "the name of a class: 1 to 8 letters, digits, #, @ and $, the first no digit"
        }
        b"VOL" => {
            "a volume serial of 1 to 6 letters, digits, #, @ and $, or 1 to 59 of them as (v,v,..), none twice"
        }
        b"VOLCNT" => "a number of volumes, 1 to 59",
        b"ACCT" | b"STEPACCT" => {
            "a text of 1 to 44 ASCII characters other than blanks, tabs, ( ) , and ', or 1 to 8 of them \
            as (t,t,..)"
        }
        b"RETPD" => "a number of days, 0 to 9999",
        b"EXPDT" => "seven digits",
        b"BLKSIZE" => "a number, 0 to 2147483647",
        b"DAY" => "a day, 0 to 9999999",
        b"EATTR" => "OPT or NO",
        _ => "a text of 1 to 8 ASCII characters other than blanks, tabs, ( ) , and '",
    }
}
