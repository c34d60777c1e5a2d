// Ids: 1 to 16 bytes of A to Z, 0 to 9 and _.
#![tactic(auto)]

ghost use Rattle.std.specs.Prelude.{◌≡◌};
ghost use Rattle.std.specs.List.{list_all};
ghost use Rattle.text_id.specs.Id.{is_id, is_id_byte};

fn is_id_byte(byte: u8) -> bool
    ensures { result ≡ is_id_byte byte }
{
    byte.is_ascii_digit() || byte.is_ascii_uppercase() || byte == b'_'
}

fn all_id_bytes(value: &[u8]) -> bool
    ensures { result ≡ list_all is_id_byte value.now }
{
    value.iter().all(|&byte| is_id_byte(byte))
}

// Whether the bytes of a value are an id; any other value is badly written (6).
#[tactic(auto, using(crate::proofs::Ids::all_listed), unfolding(crate::specs::Id::is_id))]
pub fn is_id(value: &[u8]) -> bool
    ensures { result ≡ is_id value.now }
{
    (1..=16).contains(&value.len()) && all_id_bytes(value)
}
