//! Laws of calls one after another, each given the rest that the call before left, in buffers of
//! any capacities. What the calls write in all does not depend on the capacities. The laws hold for
//! every call that meets the contract of `transcode`, `transcode_lossy`, `transcode_partial` or
//! `Stream::feed`, and so for each call for C in `dethrux`.

ghost use Rattle.std.specs.Prelude.{◌≡◌, ◌++◌, ℕ, List};
ghost use Rattle.std.specs.List.{flat_map};
ghost use Rattle.utf16_transcode.specs.StreamSplit.{decided};
ghost use Rattle.uses_buffers.specs.Calls.{Call, ConvertsUpTo, EndWith, Feed, FeedsAll, IsFeed, IsLossyCall, IsPartialCall, IsStrictCall, all_output, all_read, feed_output};

use utf16_transcode::{Direction, LossyDirection};

/// Lossy calls, of which each but the last stopped for lack of space, write the whole text.
pub fn lossy_calls<D: LossyDirection>()
    ensures { (input : List ℕ) (calls : List Call) (last : Call)
        → EndWith (IsLossyCall D.split.whole D.into) input calls last
        → all_output calls last ≡ flat_map D.into (D.split.whole input) }
{
    D::lossy_laws();
}

/// Partial calls, of which each but the last stopped for lack of space, write all that is certain.
pub fn partial_calls<D: LossyDirection>()
    ensures { (input : List ℕ) (calls : List Call) (last : Call)
        → EndWith (IsPartialCall D.split D.into) input calls last
        → all_output calls last ≡ flat_map D.into (decided D.split input) }
{
    D::lossy_laws();
}

/// Strict calls, of which each but the last stopped for lack of space, write the text up to the
/// first ill-formed sequence, and the last one says what follows it.
pub fn strict_calls<D: Direction>()
    ensures { (input : List ℕ) (calls : List Call) (last : Call)
        → EndWith (IsStrictCall D.from D.into D.IsValid D.other D.IsIllFormed) input calls last
        → ConvertsUpTo D.IsValid D.other D.IsIllFormed input (all_output calls last)
        (all_read calls last) last.stop }
{
    D::laws();
}

/// The calls of a stream that is cut into chunks anywhere write the whole text, together with the
/// replacement of what is pending at its end.
pub fn stream_calls<D: LossyDirection>()
    ensures { (bytes : List ℕ) (feeds : List Feed) (last : Feed)
        → FeedsAll (IsFeed D.split D.into) bytes feeds last
        → (flat_map feed_output feeds ++ feed_output last) ++ flat_map D.into
        (D.split.at_end last.pending)
        ≡ flat_map D.into (D.split.whole bytes) }
{
    D::lossy_laws();
}
