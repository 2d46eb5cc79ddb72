//! Where the seed of a key comes from.

ghost use Rattle.std.specs.Prelude.{◌≡◌, ◌≢◌, ◌+◌, ◌++◌, ◌∷◌, [], IfErr, IfOk, Ok, length, slice_index_or};
ghost use Rattle.hex.specs.Hex.{decode_of};
ghost use Rattle.program_tool.specs.Seeds.{IsLineOf, IsSeedOf};

use crate::fault::{Fault, ToolFault};
use crate::host::ToolHost;
use base_streams::Feed;
use lmots::{PRIVATE_SEED_LEN, PrivateSeed};
use log_server::{Filled, fill};
use program_parts::ProgramFault;
use program_words::SeedWord;
use replica_files::DrawSeed;

// How many hex digits a seed has.
const SEED_DIGITS: usize = 2 * PRIVATE_SEED_LEN;

/// The seed that a word names. Digits that are not those of a seed are `fault hex`, also on the input, where one line feed
/// may stand behind them, and where someone types it. A random source that fails is the fault of the key's folder.
pub(crate) fn seed_of<'a, F, T, S: DrawSeed, R: Feed>(
    host: &ToolHost<'_, F, T>,
    seeds: &S,
    word: SeedWord<'a>,
    folder: &'a str,
    lines: &mut R,
) -> Result<PrivateSeed, Fault<'a>>
    ensures seed { IfOk result (λ seed. IsSeedOf (S.draws seeds.now) (R.rest lines.old) word.entry
        (seed.key_id ++ seed.seed)) }
    ensures fault { IfErr result (λ fault. fault ≢ ProgramFault.Output) }
{
    match word {
        SeedWord::Digits(digits) => read_digits(digits.as_bytes()),
        SeedWord::Random => match seeds.draw() {
            Ok(bytes) => Ok(PrivateSeed::from_bytes(&bytes)),
            Err(_) => Err(Fault::File(folder)),
        },
        SeedWord::Stdin => {
            if host.is_typed {
                return Err(Fault::Own(ToolFault::Hex));
            }
            read_line(lines)
        }
    }
}

// The seed of these hex digits.
fn read_digits<'a>(digits: &[u8]) -> Result<PrivateSeed, Fault<'a>>
    ensures seed { IfOk result (λ seed. decode_of digits.now ≡ Ok (seed.key_id ++ seed.seed)) }
    ensures fault { IfErr result (λ fault. fault ≢ ProgramFault.Output) }
{
    let mut bytes = [0; PRIVATE_SEED_LEN];
    if hex::decode_to_slice(digits, &mut bytes).is_err() {
        return Err(Fault::Own(ToolFault::Hex));
    }
    Ok(PrivateSeed::from_bytes(&bytes))
}

// The seed whose digits are all of the input, but for one line feed.
fn read_line<'a, R: Feed>(lines: &mut R) -> Result<PrivateSeed, Fault<'a>>
    ensures seed { IfOk result (λ seed. IsSeedOf (λ bytes. ⊥) (R.rest lines.old) SeedWord.Stdin
        (seed.key_id ++ seed.seed)) }
    ensures fault { IfErr result (λ fault. fault ≢ ProgramFault.Output) }
{
    // One byte more than digits and a line feed: then the input goes on.
    let mut text = [0; SEED_DIGITS + 2];
    match fill(lines, &mut text) {
        Ok(Filled::Part(len)) => read_digits(digits_of(&text[..len])),
        Ok(Filled::All) | Err(_) => Err(Fault::Own(ToolFault::Hex)),
    }
}

// What stands in front of a line feed at the end, if there is one.
fn digits_of(text: &[u8]) -> &[u8]
    ensures { IsLineOf result.now text.now }
{
    if text.is_empty() {
        return text;
    }
    let last = text.len() - 1;
    if text[last] != b'\n' {
        return text;
    }
    before_line_feed(text, last)
}

// What stands in front of the last byte, which is a line feed.
fn before_line_feed(text: &[u8], last: usize) -> &[u8]
    requires last { last + 1 ≡ length text.now }
    requires feed { slice_index_or text.now last 0 ≡ 10 }
    ensures { text.now ≡ result.now ++ 10 ∷ [] }
{
    &text[..last]
}
