//! Laws of frames and of feeders.
ghost use Rattle.std.specs.Prelude.{◌≡◌, ℕ, ◌≤◌, ◌++◌, List, length};
ghost use Rattle.mk_frame.specs.Frames.{frame_of, frames_of, limit, BeginsWithFrame, Feeding, IsProperPrefix};

/// No frame is a proper prefix of another.
pub fn no_frame_begins_another()
    ensures { (payload other : List ℕ) → length payload ≤ limit → length other ≤ limit
        → ¬ IsProperPrefix (frame_of payload) (frame_of other) }
{}

/// However the bytes were cut, the frames that a feeder gave, joined, and the bytes that it holds
/// are the bytes that were fed.
pub fn frames_joined()
    ensures { (fed : List ℕ) → (given : List (List ℕ)) → (held : List ℕ) → Feeding fed given held
        → fed ≡ frames_of given ++ held }
{}

/// Two feeders to which the same bytes were fed, in whatever pieces, and which have given all that
/// they can, gave the same payloads and hold the same bytes.
pub fn any_cutting()
    ensures { (fed : List ℕ) → (given : List (List ℕ)) → (other : List (List ℕ)) → (held : List ℕ)
        → (rest : List ℕ) → Feeding fed given held → Feeding fed other rest
        → ((payload : List ℕ) → (more : List ℕ) → ¬ BeginsWithFrame held payload more)
        → ((payload : List ℕ) → (more : List ℕ) → ¬ BeginsWithFrame rest payload more)
        → (given ≡ other) × (held ≡ rest) }
{}
