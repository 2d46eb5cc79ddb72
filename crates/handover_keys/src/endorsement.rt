//! Endorsements, read in place.

ghost use Rattle.std.specs.Prelude.{◌≡◌, ◌≢◌, ◌<◌, ◌^◌, ℕ, List, Ok, IfErr, IfOk};
ghost use Rattle.handover_keys.specs.Endorsements.{IsEndorsementOf, endorsement_text, signature_in, signing_key_in, statement_in};
ghost use Rattle.handover_keys.specs.NextKeysReading.{IsNextKeysRefusal};

use crate::statement::{NextKeysRefusal, NextKeysView};
use base_wire::append;
use lms_tree::{SIGNATURE_LEN, Signature};
use std::alloc::{AllocError, Global};
use std::marker::Model;

/// The length in bytes of what stands behind the statement: the number of the key that signed it, and the signature.
pub const SEAL_LEN: usize = 1 + SIGNATURE_LEN;

/// A statement of next keys with a signature, which nobody checked yet, made by `EndorsementView::parse` alone. Contracts see
/// its bytes.
#[derive(Drop)]
pub struct EndorsementView<'a> {
    bytes: &'a [u8],
}

impl<'a> Model for EndorsementView<'a> {
    ghost use Rattle.std.specs.Prelude.{ℕ, List};
    ghost use Rattle.handover_keys.specs.Endorsements.{statement_in};
    ghost use Rattle.handover_keys.specs.NextKeysReading.{IsStatement};

    ghost Value = { List ℕ };

    ghost view = { λ e. e.bytes.now };

    ghost invariant = { λ e. IsStatement (statement_in e.bytes.now) };
}

// The bytes before the seal; none of a text that has none.
fn statement_in(bytes: &[u8]) -> &[u8]
    ensures { result.now ≡ statement_in bytes.now }
{
    &bytes[..bytes.len().saturating_sub(SEAL_LEN)]
}

impl<'a> EndorsementView<'a> {
    /// The endorsement that the bytes spell: a statement of next keys, the number of the key that signed it (1 byte), and the
    /// signature (1,452). Nothing is copied, any number of a key is read, and nothing is checked of the signature, nor whether the
    /// key ids are bound: `check_endorsement` does that. Refused as the statement is, in this order: Short, where there are fewer
    /// than 39 bytes before the number of the key, Magic, Count, Length, Key.
    pub fn parse(bytes: &'a [u8]) -> Result<EndorsementView<'a>, NextKeysRefusal>
        // What is read is spelled so.
        ensures found { IfOk result (λ e. (e ≡ bytes.now) × IsEndorsementOf bytes.now
            (statement_in bytes.now) (signing_key_in bytes.now) (signature_in bytes.now)) }

        // What is spelled so is read, with the same parts.
        ensures only { (statement : List ℕ) (key : ℕ) (signature : List ℕ)
            → IsEndorsementOf bytes.now statement key signature → (result ≡ Ok bytes.now)
            × (statement_in bytes.now ≡ statement) × (signing_key_in bytes.now ≡ key)
            × (signature_in bytes.now ≡ signature) }

        // The first test that fails refuses.
        ensures first_refusal { IfErr result (IsNextKeysRefusal (statement_in bytes.now)) }
    {
        NextKeysView::parse(statement_in(bytes))?;
        Ok(EndorsementView { bytes })
    }

    /// The bytes that were read.
    pub fn bytes(&self) -> &'a [u8]
        ensures { result.now ≡ self.now }
    {
        self.bytes
    }

    /// What was signed.
    pub fn statement(&self) -> NextKeysView<'a>
        ensures { result ≡ statement_in self.now }
    {
        NextKeysView::of(statement_in(self.bytes))
    }

    /// The number of the replica's key that signed, from 0.
    pub fn key(&self) -> u8
        ensures { result ≡ signing_key_in self.now }
    {
        self.bytes[self.bytes.len() - SEAL_LEN]
    }

    /// The signature, of 1,452 bytes.
    pub fn signature(&self) -> &'a [u8]
        ensures { result.now ≡ signature_in self.now }
    {
        &self.bytes[self.bytes.len() - SIGNATURE_LEN..]
    }
}

/// The bytes of an endorsement of this statement, laid out as `EndorsementView::parse` reads them. Answers an error where memory for
/// them is refused.
pub fn write_endorsement(
    alloc: Global,
    statement: &NextKeysView,
    key: u8,
    signature: &Signature,
) -> Result<Vec<u8>, AllocError>
    ensures text { IfOk result (λ text. text.items
        ≡ endorsement_text statement.now key signature.now) }
    // So what is written is read, with the same parts.
    ensures spells { IfOk result (λ text. IsEndorsementOf text.items statement.now key signature.now) }
{
    let mut text = Vec::with_capacity(alloc, statement.bytes().len() + SEAL_LEN)?;
    append(&mut text, statement.bytes())?;
    append(&mut text, &[key])?;
    append(&mut text, signature)?;
    Ok(text)
}
