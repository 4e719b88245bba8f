//! The laws, as the contracts of functions with nothing to do.
ghost use Rattle.std.specs.Prelude.{◌≡◌, ◌^◌, ◌<◌, ◌≤◌, ℕ, List, [], ◌++◌, length, Option, Result, Ok, Err};
ghost use Rattle.odb_frame.specs.declared.error.FrameError.{FrameError};
ghost use Rattle.odb_frame.specs.Frames.{most_body, frame, frames, AreShort, first_of, answer_of, IsAnswer, IsTelling, NeedsEnd};
ghost use Rattle.odb_frame.specs.Frames.First.{Whole, Long};

/// Reading what was written gives the body back, whatever stands behind its frame; a body that is
/// too long to be read is known by its frame's length. Frames behind one another are those of one
/// list of bodies alone.
pub fn reads_written()
    ensures back { (body rest : List ℕ) → length body ≤ most_body
        → first_of (frame body ++ rest) ≡ Whole body }
    ensures long { (body rest : List ℕ) → most_body < length body → length body < 2 ^ 32
        → first_of (frame body ++ rest) ≡ Long (length body) }
    ensures apart { (a b : List (List ℕ)) → AreShort a → AreShort b → frames a ≡ frames b
        → a ≡ b }
{}

/// What is answered of the bytes received is what the whole input begins with, whatever else it
/// holds; it holds nothing else where the answer needs its end.
pub fn finds_first()
    ensures { (bytes rest : List ℕ) (result : Result (Option (List ℕ)) FrameError)
        → IsAnswer bytes result → IsTelling result → (NeedsEnd result → rest ≡ [])
        → answer_of (first_of (bytes ++ rest)) ≡ result }
{}
