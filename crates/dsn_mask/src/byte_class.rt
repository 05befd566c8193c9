//! The bytes that names and texts are made of.
ghost use Rattle.std.specs.Prelude.{◌≡◌, true};
ghost use Rattle.std.specs.List.{AllPass, list_all};
ghost use Rattle.dsn_mask.specs.Name.{is_initial, is_name_byte, is_short_byte, is_literal_byte};
ghost use Rattle.dsn_mask.specs.DataSetName.{is_qualifier_byte};
ghost use Rattle.dsn_mask.specs.MaskText.{is_mask_byte};

pub fn is_initial(byte: u8) -> bool
    ensures { result ≡ is_initial byte }
{
    byte.is_ascii_uppercase() || matches!(byte, b'#' | b'$' | b'@')
}

pub fn is_name_byte(byte: u8) -> bool
    ensures { result ≡ is_name_byte byte }
{
    byte.is_ascii_uppercase() || byte.is_ascii_digit() || matches!(byte, b'#' | b'$' | b'@')
}

pub fn is_short_byte(byte: u8) -> bool
    ensures { result ≡ is_short_byte byte }
{
    byte.is_ascii_graphic() && byte != b'\''
}

pub fn is_literal_byte(byte: u8) -> bool
    ensures { result ≡ is_literal_byte byte }
{
    byte == b' ' || is_short_byte(byte)
}

pub fn are_name_bytes(bytes: &[u8]) -> bool
    ensures yes { result ≡ true → AllPass is_name_byte bytes.now }
    ensures no { AllPass is_name_byte bytes.now → result ≡ true }
    ensures value { result ≡ list_all is_name_byte bytes.now }
{
    bytes.iter().all(|byte| is_name_byte(*byte))
}

pub fn are_short_bytes(bytes: &[u8]) -> bool
    ensures yes { result ≡ true → AllPass is_short_byte bytes.now }
    ensures no { AllPass is_short_byte bytes.now → result ≡ true }
    ensures value { result ≡ list_all is_short_byte bytes.now }
{
    bytes.iter().all(|byte| is_short_byte(*byte))
}

pub fn are_literal_bytes(bytes: &[u8]) -> bool
    ensures yes { result ≡ true → AllPass is_literal_byte bytes.now }
    ensures no { AllPass is_literal_byte bytes.now → result ≡ true }
    ensures value { result ≡ list_all is_literal_byte bytes.now }
{
    bytes.iter().all(|byte| is_literal_byte(*byte))
}

pub fn is_qualifier_byte(byte: u8) -> bool
    ensures { result ≡ is_qualifier_byte byte }
{
    is_name_byte(byte) || byte == b'-'
}

pub fn is_mask_byte(byte: u8) -> bool
    ensures { result ≡ is_mask_byte byte }
{
    is_name_byte(byte) || matches!(byte, b'-' | b'_' | b'.' | b'%' | b'*')
}
