//! Who is shown the frames of a source as they come.

ghost use Rattle.std.specs.Prelude.{◌++◌, ◌∷◌, [], ℕ, List, Option, None, Some, ⊤};
ghost use Rattle.base_wire.specs.Payloads.{IsPayload};
ghost use Rattle.log_format.specs.declared.status.Status.{Status as StatusValue};

use log_format::Status;

/// Is shown the frames of one source, each as it comes, and then how they end.
pub trait Observer: Drop {
    // from the first state to the second it was shown just these frames, and how they end, once it was
    ghost told: { Self → Self → List (List ℕ) → Option StatusValue → Type 0 };

    /// The next frame.
    fn frame(&mut self, payload: &[u8])
        requires { IsPayload payload.now }
        ensures { (s : Self) (frames : List (List ℕ)) → told s self.old frames None
            → told s self.new (frames ++ payload.now ∷ []) None };

    /// There are no more, and they end so.
    fn end(&mut self, status: Status)
        ensures { (s : Self) (frames : List (List ℕ)) → told s self.old frames None
            → told s self.new frames (Some status) };

    /// A state is reached from itself, with no frame shown.
    ghost stays: { (s : Self) → told s s [] None };
}

/// Nobody.
#[derive(Clone, Copy, Debug, Drop)]
pub struct NoOne;

impl Observer for NoOne {
    ghost told = { λ _ _ _ _. ⊤ };

    fn frame(&mut self, _payload: &[u8]) {}

    fn end(&mut self, _status: Status) {}

    ghost stays = { λ s. tt };
}
