//! Single bits of a word.
ghost use Rattle.std.specs.Prelude.{◌≡◌, ◌<◌};
ghost use Rattle.paging.specs.Bits.{bit};

use memory::guest::Word;

/// Is this bit of the word set?
pub(crate) fn is_set(word: Word, bit_number: u32) -> bool
    requires { bit_number < 32 }
    ensures { result ≡ bit bit_number word }
{
    (word >> bit_number) % 2 == 1
}
