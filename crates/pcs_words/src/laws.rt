//! Laws of the words, over the definitions alone. The functions do nothing: their contracts are the laws.
ghost use Rattle.pcs_words.specs.Laws.{AcceptedWordsAreRead};

/// Words that `clap`'s meaning accepts enter a command whose options are all there, each within its
/// range.
pub fn accepted_words_are_read()
    ensures { AcceptedWordsAreRead }
{}
