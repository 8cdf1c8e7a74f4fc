ghost use Rattle.std.specs.Prelude.{◌≡◌};
ghost use Rattle.std.specs.List.{list_all};
ghost use Rattle.sw_context.specs.Names.{is_name as is_name_of, is_name_byte};

fn is_name_byte(byte: u8) -> bool
    ensures { result ≡ is_name_byte byte }
{
    byte.is_ascii_alphanumeric() || byte == b'_' || byte == b'-' || byte == b'.'
}

fn are_name_bytes(bytes: &[u8]) -> bool
    ensures { result ≡ list_all is_name_byte bytes.now }
{
    bytes.iter().all(|byte| is_name_byte(*byte))
}

/// Whether bytes are a name: 1 to 32 of `a-z A-Z 0-9 _ - .`.
#[tactic(auto, unfolding(crate::specs::Names::is_name))]
pub fn is_name_bytes(bytes: &[u8]) -> bool
    ensures { result ≡ is_name_of bytes.now }
{
    1 <= bytes.len() && bytes.len() <= 32 && are_name_bytes(bytes)
}

/// Whether a text is a name: 1 to 32 bytes of `a-z A-Z 0-9 _ - .`. Participants, groups and a context's entries
/// have such names.
pub fn is_name(text: &str) -> bool
    ensures { result ≡ is_name_of text.now }
{
    is_name_bytes(text.as_bytes())
}
