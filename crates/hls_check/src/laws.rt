//! What the words of the contracts mean.

ghost use Rattle.std.specs.Prelude.{◌≡◌, List, map};
ghost use Rattle.playlist_text.specs.MediaLines.{Entry};
ghost use Rattle.segment_job.specs.Rotation.{KeyRotation, IsRotation};
ghost use Rattle.segment_job.specs.Segments.{SealedSegment};
ghost use Rattle.hls_check.specs.Unpacking.{packed, AllUnpack};
ghost use Rattle.hls_check.specs.Listed.{ListEach};

/// Segments that the keys of a rendition sealed unpack to the bodies of their plans, wherever entries list them by their
/// numbers and the indexes of their keys. So what is packed comes back.
pub fn segments_unpack_to_their_bodies()
    ensures { (keys : KeyRotation) (entries : List Entry) (sealed : List SealedSegment) → IsRotation keys →
        ListEach keys entries sealed →
        AllUnpack (packed keys.salt entries (map (λ s. s.bytes) sealed) keys.keys) (map (λ s. s.plan.body) sealed) }
{}
