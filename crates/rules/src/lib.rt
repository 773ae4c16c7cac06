// The rules by which a sheet is replayed, chosen at a run's start: each is a case of `Rules`, and has a number and a name that never change.
//
// A rule that a later landing changes gets a new case here, and the old one stays, so that a print that was made under it can be made again.
// docs/RULE-EDITIONS.md says what each changes, and how the next one is added. C callers and stored cases give the number, commands the name.
#![tactic(auto)]

ghost use Rattle.std.specs.Prelude.{◌≡◌};
ghost use Rattle.rules.specs.Rules.{by_name, by_number, same_bytes};

#[derive(Clone, Copy)]
pub enum Rules {
    // The Rust's, skrifa 0.49.0.
    Skrifa,
    // The public reference's, FreeType 2.13.3.
    FreeType,
}

pub fn by_number(number: u32) -> Option<Rules>
    ensures { result ≡ by_number number }
{
    match number {
        0 => Some(Rules::Skrifa),
        1 => Some(Rules::FreeType),
        _ => None,
    }
}

#[tactic(auto, using(crate::proofs::Bytes::byte_by_byte))]
fn same_bytes(a: &[u8], b: &[u8]) -> bool
    ensures { result ≡ same_bytes a.now b.now }
{
    a == b
}

pub fn by_name(name: &[u8]) -> Option<Rules>
    ensures { result ≡ by_name name.now }
{
    if same_bytes(name, b"skrifa") {
        return Some(Rules::Skrifa);
    }
    if same_bytes(name, b"freetype") {
        return Some(Rules::FreeType);
    }
    None
}
