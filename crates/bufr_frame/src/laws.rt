ghost use Rattle.std.specs.Prelude.{◌≡◌, ◌↔◌, ◌≤◌, ◌+◌, ◌++◌, ◌∷◌, [], ℕ, true, List, length, take};
ghost use Rattle.std.specs.Prelude.{drop};
ghost use Rattle.std.specs.List.{AllByRecursion};
ghost use Rattle.bufr_frame.specs.declared.frames.Found.{Found as FoundFrame};
ghost use Rattle.bufr_frame.specs.Framings.{Framing};
ghost use Rattle.bufr_frame.specs.Streams.{cut, frames_from, sure, Stands};
ghost use Rattle.bufr_frame.specs.Cuts.{IsCut, IsOneFrame, frames_at, joined};
ghost use Rattle.bufr_frame.specs.Sures.{IsSure};
ghost use Rattle.bufr_frame.specs.Holdings.{StandsFor};
ghost use Rattle.bufr_frame.specs.NextFrames.{taken_in, IsRestOf, IsNextFrame, IsNoFrame};
ghost use Rattle.bufr_frame.specs.NextFrames.{StandsAfter, HandedOut, IsBetweenCalls};

/// Exactly one list of frames is in order, has no two that overlap, and covers the start of every
/// frame of the stream: the cut.
pub fn cut_is_taken_from_the_left()
    ensures is { (stream : List ℕ) → IsCut stream (cut stream) }
    ensures only { (stream : List ℕ) (frames : List FoundFrame)
        → IsCut stream frames → frames ≡ cut stream }
{}

/// The sure frames are the longest start of the cut with no open place before a frame, outside
/// earlier frames.
pub fn sure_is_the_longest_clear_front()
    ensures is { (stream : List ℕ) → IsSure stream (sure stream) }
    ensures only { (stream : List ℕ) (frames : List FoundFrame)
        → IsSure stream frames → frames ≡ sure stream }
{}

/// Sure frames stay sure whatever follows, and begin the cut.
pub fn sure_stays()
    ensures sure { (stream more : List ℕ) → sure (stream ++ more)
        ≡ sure stream ++ drop (length (sure stream)) (sure (stream ++ more)) }
    ensures cut { (stream : List ℕ) → cut stream
        ≡ sure stream ++ drop (length (sure stream)) (cut stream) }
    ensures longer_cut { (stream more : List ℕ) → cut (stream ++ more)
        ≡ sure stream ++ drop (length (sure stream)) (cut (stream ++ more)) }
{}

/// A framer holds what the relations ask for.
pub fn framer_holds_what_it_must()
    ensures { (framer : Framing) (stream : List ℕ) (out : ℕ)
        → Stands framer stream out ↔ StandsFor framer stream out }
{}

/// Whole frames, joined, are their own cut, whatever follows.
pub fn joined_frames_are_cut_apart()
    ensures joined { (frames : List (List ℕ)) → AllByRecursion IsOneFrame frames
        → cut (joined frames) ≡ frames_at 0 frames }
    ensures front { (frames : List (List ℕ)) (k n : ℕ) → AllByRecursion IsOneFrame frames
        → k ≤ length frames → length (joined (take k frames)) ≤ n
        → take k (cut (take n (joined frames))) ≡ frames_at 0 (take k frames) }
    ensures followed { (frames : List (List ℕ)) (more : List ℕ)
        → AllByRecursion IsOneFrame frames → cut (joined frames ++ more)
        ≡ frames_at 0 frames ++ frames_from true (length (joined frames)) 0 more }
{}

/// `take_next`, until it hands out none, returns the sure frames; with `finish` the cut.
pub fn frames_taken_are_the_sure_ones()
    ensures first { (framer : Framing) → Stands framer [] 0 → HandedOut framer [] [] }
    ensures piece { (framer : Framing) (stream piece : List ℕ) (frames : List FoundFrame)
        → HandedOut framer stream frames → IsBetweenCalls framer (stream ++ piece) piece frames }
    ensures one { (before after : Framing) (stream piece rest : List ℕ)
        (frames : List FoundFrame) (frame : FoundFrame)
        → IsBetweenCalls before stream piece frames → IsRestOf piece rest
        → IsNextFrame before (taken_in piece rest) frame
        → StandsAfter before after (taken_in piece rest) 1
        → IsBetweenCalls after stream rest (frames ++ frame ∷ []) }
    ensures room { (framer : Framing) (stream rest : List ℕ) (frames : List FoundFrame)
        → IsBetweenCalls framer stream rest frames → framer.fed + length rest ≡ length stream }
    ensures none { (before after : Framing) (stream piece : List ℕ) (frames : List FoundFrame)
        → IsBetweenCalls before stream piece frames → IsNoFrame before piece
        → StandsAfter before after piece 0
        → HandedOut after stream frames × (frames ≡ sure stream) }
    ensures end { (framer : Framing) (stream : List ℕ) (frames last : List FoundFrame)
        → HandedOut framer stream frames → last ≡ drop (length frames) (cut stream)
        → frames ++ last ≡ cut stream }
{}
