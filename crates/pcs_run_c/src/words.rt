// The words of a command.
ghost use Rattle.std.specs.Prelude.{◌≡◌, ◌∷◌, ◌==◌, map, string_bytes, IfOk, codes};
ghost use Rattle.std.specs.List.{slice_split};
ghost use Rattle.pcs_run_c.specs.Words.{words_in, ended};

use std::alloc::{AllocError, Global};

/// The program's name and the words of a text, each of which a zero octet ends. What is no UTF-8 has
/// no words.
pub fn words_of(alloc: Global, octets: &[u8]) -> Result<Vec<String>, AllocError>
    ensures { IfOk result (λ words. map string_bytes words.items ≡ words_in octets.now) }
{
    match str::from_utf8(octets) {
        Ok(text) => name_and_words(alloc, text),
        Err(_) => Ok(Vec::new(alloc)),
    }
}

fn name_and_words(alloc: Global, text: &str) -> Result<Vec<String>, AllocError>
    ensures { IfOk result (λ words. map string_bytes words.items ≡ codes "pcs" ∷ ended (slice_split (λ octet. octet == 0) text.now)) }
{
    let mut words = Vec::new(alloc);
    words.push(String::from_str(alloc, "pcs")?)?;
    for word in text.split_terminator('\0') {
        words.push(String::from_str(alloc, word)?)?;
    }
    Ok(words)
}
