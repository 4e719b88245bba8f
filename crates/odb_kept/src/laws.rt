//! The laws about the definitions, each the contract of a function with nothing to do.
ghost use Rattle.std.specs.Prelude.{◌⊎◌, ℕ, List, [], ◌∷◌, ◌++◌};
ghost use Rattle.odb_device.specs.World.{World, present};
ghost use Rattle.odb_device.specs.Images.{EachImage};
ghost use Rattle.odb_device.specs.Console.{Says, SaysOnly};
ghost use Rattle.odb_device.specs.Moments.{Runs};
ghost use Rattle.odb_device.specs.Steps.{Steps, IsQuiet};
ghost use Rattle.odb_kept.specs.Kept.{KeptBy, KeptByEither, KeptElsewhere};
ghost use Rattle.odb_kept.specs.Running.{IsRunning};
ghost use Rattle.odb_kept.specs.Decided.{Asking, Answered, asks, after_of, text_of};

/// Calls on one file are a step from one machine to another, where at each moment of them each
/// image of that file is as one of the machines asks, and the other files, which stay, are as both
/// ask: whatever a crash leaves at any moment, all of it is as one of the two asks.
pub fn keeps_by_step()
    ensures { (before after : Asking) (file : ℕ) (old new : World)
        → KeptElsewhere file (asks before) (present old)
        → KeptElsewhere file (asks after) (present old)
        → Runs file (EachImage (λ image. asks before file image ⊎ asks after file image)) old new
        → Steps (KeptByEither (asks before) (asks after)) old new }
{}

/// A run is kept along its answers. It begins so with an opening that the machine at entry keeps and
/// that says nothing; a step whose reply is then said goes on so; and so does a run behind a run.
pub fn keeps_along()
    ensures opens { (entry first : Asking) (old new : World)
        → Steps (KeptBy (asks entry)) old new → IsQuiet old new
        → KeptBy (asks first) (present new)
        → IsRunning asks after_of text_of entry first [] first old new }
    ensures goes_on { (entry first m : Asking) (answers : List Answered) (a : Answered)
        (old mid step new : World)
        → IsRunning asks after_of text_of entry first answers m old mid
        → Steps (KeptByEither (asks m) (asks a.after)) mid step → IsQuiet mid step
        → KeptBy (asks a.after) (present step)
        → SaysOnly (text_of a) step new → Says (text_of a) step new
        → IsRunning asks after_of text_of entry first (answers ++ a ∷ []) a.after old new }
    ensures joins { (entry first m last : Asking) (xs ys : List Answered) (old mid new : World)
        → IsRunning asks after_of text_of entry first xs m old mid
        → IsRunning asks after_of text_of m m ys last mid new
        → IsRunning asks after_of text_of entry first (xs ++ ys) last old new }
{}
