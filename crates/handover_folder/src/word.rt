//! The words of a signer, and their bytes: that it endorsed its next keys, and that it has gone over to another committee.

ghost use Rattle.std.specs.Prelude.{◌≡◌, ◌≢◌, ◌↔◌, [], ◌∷◌, length, IfErr, IfOk, IsTrue};
ghost use Rattle.handover_folder.specs.declared.word.TheConstants.{ENDORSED, ENDORSEMENT_LENS, GONE_OVER, WORD_LEN};
ghost use Rattle.handover_folder.specs.Words.{Endorsed, Over, IsEndorsement, IsGoneOver, IsWordOf, kind_in, word_text};

use crate::WordError;
use base_wire::{append, array_at, put};
use std::alloc::{AllocError, Global};

/// The first byte of the entry of a word that the signer has gone over. Entries of logs begin with 1 to 4.
pub const GONE_OVER: u8 = 5;

/// The first byte of the entry of an endorsement.
pub const ENDORSED: u8 = 6;

/// The length in bytes of the entry of a word that the signer has gone over.
pub const WORD_LEN: usize = 65;

/// The lengths of an endorsement in bytes: 39, 56 for each of one to four keys, the number of the key that signed (1) and
/// the signature (1,452). Its entry has one byte more.
pub const ENDORSEMENT_LENS: [usize; 4] = [1548, 1604, 1660, 1716];

/// All are as docs/FORMATS.md says, "Words journal": the contract is the law, and nothing is computed.
pub fn words_are_those_of_the_format()
    ensures kind { GONE_OVER ≡ 5 }
    ensures endorsed { ENDORSED ≡ 6 }
    ensures length { WORD_LEN ≡ 65 }
    ensures lengths { ENDORSEMENT_LENS ≡ 1548 ∷ 1604 ∷ 1660 ∷ 1716 ∷ [] }
{}

/// A signer's word that it has gone over from a committee to the next, and votes in the first one's chain no more.
#[derive(Clone, Copy, Debug, PartialEq, Eq)]
pub struct GoneOver {
    /// The SHA-256 digest of the next committee's file.
    pub file: [u8; 32],
    /// The id of the handover block.
    pub handover: [u8; 32],
}

// The entry of a word that the signer has gone over.
pub(crate) fn write_word(word: &GoneOver) -> [u8; WORD_LEN]
    ensures text { result ≡ word_text (Over word.now) }
    ensures whole { IsGoneOver word.now }
{
    let mut text = [0; WORD_LEN];
    text[0] = GONE_OVER;
    put(&mut text, 1, &word.file);
    put(&mut text, 33, &word.handover);
    text
}

// The word that the signer has gone over, of an entry of this kind. Refused as `WrongLength` alone.
pub(crate) fn read_word(entry: &[u8]) -> Result<GoneOver, WordError>
    requires { kind_in entry.now ≡ GONE_OVER }
    ensures ok { IfOk result (λ word. IsWordOf entry.now (Over word)) }
    ensures err { IfErr result (λ e. (e ≡ WordError.WrongLength) × (length entry.now ≢ WORD_LEN)) }
{
    if entry.len() != WORD_LEN {
        return Err(WordError::WrongLength);
    }
    Ok(GoneOver {
        file: array_at(entry, 1),
        handover: array_at(entry, 33),
    })
}

// Whether the bytes have a length of an endorsement. What they say is not looked at.
pub(crate) fn is_endorsement(bytes: &[u8]) -> bool
    ensures { IsTrue result ↔ IsEndorsement bytes.now }
{
    ENDORSEMENT_LENS.contains(&bytes.len())
}

// The entry of an endorsement. Answers an error where memory for it is refused.
pub(crate) fn write_endorsement(alloc: Global, endorsement: &[u8]) -> Result<Vec<u8>, AllocError>
    ensures { IfOk result (λ text. text.items ≡ word_text (Endorsed endorsement.now)) }
{
    let mut text = [ENDORSED].to_vec(alloc)?;
    append(&mut text, endorsement)?;
    Ok(text)
}
