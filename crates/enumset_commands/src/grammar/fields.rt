//! The numbers that the fields of a command write.
ghost use Rattle.std.specs.Prelude.{◌≡◌};
ghost use Rattle.enumset_commands.specs.Fields.{value};

/// The `u128` that a token of decimal digits writes. No field is larger.
#[tactic(auto, using(crate::proofs::Fields::field_steps))]
pub(super) fn read_value(token: &[u8]) -> Option<u128>
    ensures { result ≡ value token.now }
{
    if token.is_empty() {
        return None;
    }
    let mut number = 0u128;
    for digit in token {
        if !digit.is_ascii_digit() {
            return None;
        }
        number = number
            .checked_mul(10)?
            .checked_add(u128::from(*digit - b'0'))?;
    }
    Some(number)
}
