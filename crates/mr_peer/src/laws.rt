ghost use Rattle.mr_peer.specs.BatchSizes.{BatchesAreShort, GivenBatchesAreShort};
ghost use Rattle.mr_peer.specs.ReplyLaw.{HasOneReply};

/// An input is one reply or none. So the halves that take a reply have one answer to it, if no read fails and memory is there.
pub fn reply_law()
    ensures { HasOneReply }
{}

/// How long a batch's text is: of at most 64 lines, as over HTTP, far below the greatest body, so that no peer refuses it as too large.
pub fn batch_size_law()
    ensures lines { BatchesAreShort }
    ensures given { GivenBatchesAreShort }
{}
