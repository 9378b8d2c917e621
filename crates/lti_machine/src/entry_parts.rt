// The parts that the bytes of an entry begin with.
ghost use Rattle.std.specs.Prelude.{◌≡◌, ℕ, ◌<◌, ◌^◌, List, ◌∷◌, ◌++◌, None, IfSome};
ghost use Rattle.std.specs.Int.{w32, w64, w128, to_be_bytes};
ghost use Rattle.lti_machine.specs.EntryBytes.{text_bytes, IsText};

// The length that 4 bytes spell.
fn length_of(bytes: [u8; 4]) -> u32
    ensures { to_be_bytes w32 result ≡ bytes }
{
    u32::from_be_bytes(bytes)
}

// The number that 8 bytes spell.
fn number_of(bytes: [u8; 8]) -> u64
    ensures { to_be_bytes w64 result ≡ bytes }
{
    u64::from_be_bytes(bytes)
}

// The number that 16 bytes spell.
fn great_number_of(bytes: [u8; 16]) -> u128
    ensures { to_be_bytes w128 result ≡ bytes }
{
    u128::from_be_bytes(bytes)
}

/// The byte that stands for the effect, behind that of the form, and the bytes behind it.
pub fn take_effect(bytes: &[u8]) -> Option<(u8, &[u8])>
    ensures effect { IfSome result (λ taken. bytes.now ≡ 1 ∷ taken.0 ∷ taken.1.now) }
    ensures none { result ≡ None → (effect : ℕ) (rest : List ℕ) → bytes.now ≡ 1 ∷ effect ∷ rest → ⊥ }
{
    match bytes {
        [1, effect, rest @ ..] => Some((*effect, rest)),
        _ => None,
    }
}

/// The number in the first 8 bytes, and the bytes behind it.
pub fn take_number(bytes: &[u8]) -> Option<(u64, &[u8])>
    ensures number { IfSome result (λ taken. bytes.now ≡ to_be_bytes w64 taken.0 ++ taken.1.now) }
    ensures range { IfSome result (λ taken. taken.0 < 2 ^ 64) }
    ensures none { result ≡ None → (n : ℕ) (rest : List ℕ) → bytes.now ≡ to_be_bytes w64 n ++ rest → ⊥ }
{
    let (number, rest) = bytes.split_first_chunk::<8>()?;
    Some((number_of(*number), rest))
}

/// The text at the front, and the bytes behind it.
pub fn take_text(bytes: &[u8]) -> Option<(&str, &[u8])>
    ensures text { IfSome result (λ taken. bytes.now ≡ text_bytes taken.0.now ++ taken.1.now) }
    ensures is_text { IfSome result (λ taken. IsText taken.0.now) }
    ensures none { result ≡ None → (text rest : List ℕ) → IsText text → bytes.now ≡ text_bytes text ++ rest → ⊥ }
{
    let (len, rest) = bytes.split_first_chunk::<4>()?;
    let len = length_of(*len) as usize;
    if len > rest.len() {
        return None;
    }
    let (text, rest) = rest.split_at(len);
    match str::from_utf8(text) {
        Ok(text) => Some((text, rest)),
        Err(_) => None,
    }
}

/// The number in 16 bytes; there is none in another number of them.
pub fn whole_great_number(bytes: &[u8]) -> Option<u128>
    ensures number { IfSome result (λ n. bytes.now ≡ to_be_bytes w128 n) }
    ensures range { IfSome result (λ n. n < 2 ^ 128) }
    ensures none { result ≡ None → (n : ℕ) → bytes.now ≡ to_be_bytes w128 n → ⊥ }
{
    let number = bytes.as_array::<16>()?;
    Some(great_number_of(*number))
}

/// The text that all the bytes are.
pub fn whole_text(bytes: &[u8]) -> Option<&str>
    ensures text { IfSome result (λ text. bytes.now ≡ text_bytes text.now) }
    ensures is_text { IfSome result (λ text. IsText text.now) }
    ensures none { result ≡ None → (text : List ℕ) → IsText text → bytes.now ≡ text_bytes text → ⊥ }
{
    let (text, rest) = take_text(bytes)?;
    if rest.is_empty() { Some(text) } else { None }
}
