//! Whether an audit that found no culprit read enough.

ghost use Rattle.std.specs.Prelude.{◌≡◌, false, true, IfOk};
ghost use Rattle.blocks.specs.Weights.{quorum_of, total_of};
ghost use Rattle.parallel_verify.specs.JudgedSources.{sound_weight as weight_of_sound};
ghost use Rattle.program_tool.specs.Strict.{FallsShort, HoldsUp, sound_line};

use base_text::put_number;
use base_wire::append;
use blocks::CommitteeView;
use parallel_verify::{Judgement, are_sound, sound_weight};
use program_words::Strictness;
use std::alloc::{AllocError, Global};

/// Whether the different replicas of sound sources weigh less than a quorum.
pub(crate) fn is_too_light(committee: &CommitteeView, judged: &[Judgement]) -> bool
    ensures yes { result ≡ true → FallsShort Strictness.Quorum committee.now judged.now }
    ensures no { result ≡ false → HoldsUp Strictness.Quorum committee.now judged.now }
{
    sound_weight(committee, judged) < committee.quorum()
}

/// Whether what was found of the sources is less than is asked for.
pub(crate) fn falls_short(
    strictness: Strictness,
    committee: &CommitteeView,
    judged: &[Judgement],
) -> bool
    ensures yes { result ≡ true → FallsShort strictness committee.now judged.now }
    ensures no { result ≡ false → HoldsUp strictness committee.now judged.now }
{
    match strictness {
        Strictness::Lax => false,
        Strictness::Quorum => is_too_light(committee, judged),
        Strictness::All => is_too_light(committee, judged) || !are_sound(judged),
    }
}

/// The line that says how much the different replicas of sound sources weigh, of how much, and what a quorum is:
/// `why sound 1 of 4, quorum 3`.
pub(crate) fn sound_line(
    alloc: Global,
    committee: &CommitteeView,
    judged: &[Judgement],
) -> Result<Vec<u8>, AllocError>
    ensures { IfOk result (λ line. line.items
        ≡ sound_line (weight_of_sound committee.now judged.now) (total_of committee.now)
        (quorum_of committee.now)) }
{
    let mut line = b"why sound ".to_vec(alloc)?;
    put_number(&mut line, sound_weight(committee, judged))?;
    append(&mut line, b" of ")?;
    put_number(&mut line, committee.total())?;
    append(&mut line, b", quorum ")?;
    put_number(&mut line, committee.quorum())?;
    append(&mut line, b"\n")?;
    Ok(line)
}
