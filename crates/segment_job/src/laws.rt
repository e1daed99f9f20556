//! What the words of the contracts mean.
ghost use Rattle.std.specs.Prelude.{◌≡◌, ◌≢◌, ◌<◌, ◌≤◌, ◌+◌, ◌*◌, ◌/◌, ◌%◌, ◌^◌, ◌∷◌, ℕ, List, Option, Some, length, slice_get, slice_range};
ghost use Rattle.aes_cbc.specs.Block.{IsBlock};
ghost use Rattle.aes_cbc.specs.Padding.{padded_text};
ghost use Rattle.psi_tables.specs.InForce.{InForce};
ghost use Rattle.psi_tables.specs.Head.{IsSameHead};
ghost use Rattle.playlist_text.specs.Vectors.{salted_vector};
ghost use Rattle.segment_job.specs.Rotation.{KeyRotation, IsRotation, number_of, key_index, key_of, vector_of};
ghost use Rattle.segment_job.specs.Runs.{KeyRun, GoOn};
ghost use Rattle.segment_job.specs.Segments.{plain, plan_head, sealed_segment, OpensTo, SealedSegment, IsSealed};
ghost use Rattle.segment_job.specs.Ranges.{widened, range_text};

use aes_cbc::laws::{one_text_is_sealed, sealed_length};
use psi_tables::{length_of_a_head, one_head_begins_bytes};

/// No two segments have the same vector, under any salt.
pub fn two_numbers_have_two_vectors()
    ensures { (salt : Option (List ℕ)) (m n : ℕ) → m < 2 ^ 64 → n < 2 ^ 64 →
        salted_vector salt m ≡ salted_vector salt n → m ≡ n }
{}

/// No two segments of a run are sealed under the same key and vector.
pub fn no_key_and_vector_come_twice()
    ensures { (r : KeyRotation) (m n : ℕ) → number_of r m < 2 ^ 64 → number_of r n < 2 ^ 64 → m ≢ n →
        ¬ ((key_of r m ≡ key_of r n) × (vector_of r m ≡ vector_of r n)) }
{}

/// No two segments of a rendition have the same vector, in all its runs, where each run goes on behind the one before and
/// all have one salt: so none are sealed under the same key and vector, whatever the keys of the runs are.
pub fn no_vector_comes_twice_in_all_runs()
    ensures { (first : KeyRun) (runs : List KeyRun) (i j m n : ℕ) (a b : KeyRun) → GoOn first runs →
        slice_get (first ∷ runs) i ≡ Some a → slice_get (first ∷ runs) j ≡ Some b → m < a.count → n < b.count →
        number_of a.keys m < 2 ^ 64 → number_of b.keys n < 2 ^ 64 → vector_of a.keys m ≡ vector_of b.keys n →
        (i ≡ j) × (m ≡ n) }
{}

/// Keys take turns: of all numbers the first period is the first key's, and a period behind a segment the next key has its
/// turn, behind the last one the first.
pub fn keys_take_turns()
    ensures first { (r : KeyRotation) (n : ℕ) → number_of r n < r.period → key_index r n ≡ 0 }
    ensures next { (r : KeyRotation) (n : ℕ) → IsRotation r →
        key_index r (n + r.period) ≡ (key_index r n + 1) % length r.keys }
{}

/// Under one key and vector, bytes open to at most one head with a rest behind it.
pub fn bytes_open_to_one_segment()
    ensures { (k v s : List ℕ) (t u : InForce) (a b c d : ℕ) (rest other : List ℕ) → IsBlock k → IsBlock v →
        OpensTo k v s t a b rest → OpensTo k v s u c d other → IsSameHead t u a b c d rest other }
{
    one_text_is_sealed();
    one_head_begins_bytes();
}

/// A sealed segment is the one that its rendition's keys make of its plan, wherever its key and its vector are those of
/// its number. It is as long as its padded segment.
pub fn key_and_vector_make_one_segment()
    ensures one { (r : KeyRotation) (s : SealedSegment) → IsSealed s → s.key ≡ key_of r s.plan.number →
        s.vector ≡ vector_of r s.plan.number → s ≡ sealed_segment r s.plan }
    ensures len { (s : SealedSegment) → IsSealed s → length s.bytes ≡ 16 * (length (plain s.plan) / 16 + 1) }
{
    sealed_length();
}

/// The text of a range of a sealed segment is that part of the padded segment. Behind the first block it is the same under
/// all vectors. So a range of the body, which a head stands in front of, opens alone to the body's bytes under any
/// vector: each I-frame does, from its byte range in the segment.
pub fn ranges_open_alone()
    ensures segment { (s : SealedSegment) (offset len : ℕ) → IsSealed s → offset + len ≤ length s.bytes →
        range_text s.key s.vector offset len (widened offset len s.bytes)
        ≡ slice_range (padded_text (plain s.plan)) offset (offset + len) }
    ensures any_vector { (k v u w : List ℕ) (offset len : ℕ) → 16 ≤ offset →
        range_text k v offset len w ≡ range_text k u offset len w }
    ensures body { (s : SealedSegment) (v : List ℕ) (offset len : ℕ) → IsSealed s → offset + len ≤ length s.plan.body →
        let place = length (plan_head s.plan) + offset in
        range_text s.key v place len (widened place len s.bytes) ≡ slice_range s.plan.body offset (offset + len) }
{
    length_of_a_head();
}
