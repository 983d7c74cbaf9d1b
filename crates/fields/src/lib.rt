// A field of a wall file: tag, length and body.
#![tactic(auto)]

pub mod bytes;

ghost use Rattle.std.specs.Prelude.{◌≡◌};
ghost use Rattle.settings.specs.Refusal.{answer};
ghost use Rattle.fields.specs.Field.{field_cause, body};

use crate::bytes::two;
use settings::refusal::Refusal;

// Whether the field is the one that is due and is there whole.
#[tactic(auto, unfolding(settings::specs::Refusal::answer, settings::specs::Refusal::first, crate::specs::Field::field_cause, crate::specs::Field::field_tests))]
pub fn check(tag: u8, size: usize, rest: &[u8]) -> Result<(), Refusal>
    ensures { result ≡ answer (field_cause tag size rest.now) tt }
{
    if rest.len() < 3 {
        return Err(Refusal::Short);
    }
    if rest[0] != tag {
        return Err(Refusal::Tag);
    }
    if two(rest, 1) != size as u64 {
        return Err(Refusal::Size);
    }
    if rest.len() - 3 < size {
        return Err(Refusal::Short);
    }
    Ok(())
}

// The body, as a part of the slice; what is there of it, where the slice ends inside it.
pub fn body(size: usize, rest: &[u8]) -> &[u8]
    ensures { result.now ≡ body size rest.now }
{
    if rest.len() < 3 {
        return &rest[..0];
    }
    if rest.len() - 3 < size {
        return &rest[3..];
    }
    &rest[3..3 + size]
}
