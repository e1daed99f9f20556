//! What two runs give together, of which the later one goes on behind the earlier one.
ghost use Rattle.std.specs.Prelude.{◌≡◌, ◌+◌, ◌<◌, ◌++◌, ◌∷◌, ℕ, Bool, true, List, length, map};
ghost use Rattle.cutter.specs.Plans.{SegmentPlan};
ghost use Rattle.segment_job.specs.Rotation.{number_of};
ghost use Rattle.segment_job.specs.Segments.{sealed_segment};
ghost use Rattle.playlist_text.specs.Lines.{text_of};
ghost use Rattle.playlist_text.specs.MediaLines.{Entry};
ghost use Rattle.media_playlist.specs.Listed.{first, listed};
ghost use Rattle.media_playlist.specs.Lines.{entry_of, listing_of, media_lines, iframe_lines};
ghost use Rattle.media_playlist.specs.Seen.{IsPartOf};
ghost use Rattle.ladder_items.specs.Ladder.{Ladder, rendition_at, IsAllowed};
ghost use Rattle.ladder_items.specs.Rows.{row_of, rows_of};
ghost use Rattle.ladder_items.specs.Shown.{media_text, frames_text};
ghost use Rattle.item_io.specs.Items.{ItemValue, PlaylistValue, MediaItem};
ghost use Rattle.ladder_items.specs.Items.{Part, shown_of};
ghost use Rattle.ladder_items.specs.Weave.{Weaves};
ghost use Rattle.ladder_laws.specs.Resuming.{window_of, GoesOnFrom, window_of_both, IsOfBoth};

/// Wherever a run was cut off, the playlists of one that goes on behind it are, byte for byte, those of one window over the
/// rows of both. Where the later run asks for another least number of rows, its playlists still list parts of one history with
/// the earlier ones, from a place on that never falls.
pub fn two_runs_show_one_window()
    ensures media { (ladder later : Ladder) (r : ℕ) (plans more : List SegmentPlan) (ended : Bool) →
        GoesOnFrom ladder later r plans → later.window ≡ ladder.window → 0 < length (listed (window_of ladder r plans)) →
        media_text (shown_of later (rendition_at later r) more) ended ≡ text_of (media_lines (window_of_both ladder later r plans more) ended) }
    ensures iframes { (ladder later : Ladder) (r : ℕ) (plans more : List SegmentPlan) (ended : Bool) →
        GoesOnFrom ladder later r plans → later.window ≡ ladder.window → 0 < length (listed (window_of ladder r plans)) →
        frames_text (shown_of later (rendition_at later r) more) ended ≡ text_of (iframe_lines (window_of_both ladder later r plans more) ended) }
    ensures each { (ladder later : Ladder) (plans : List SegmentPlan) (parts : List Part)
        (front : List ItemValue) (media : PlaylistValue) (behind : List ItemValue) →
        GoesOnFrom ladder later media.rendition plans → later.window ≡ ladder.window →
        0 < length (listed (window_of ladder media.rendition plans)) → Weaves later parts (front ++ MediaItem media ∷ behind) →
        IsOfBoth ladder later plans parts media }
    ensures seen { (ladder later : Ladder) (r : ℕ) (plans more : List SegmentPlan) (ended then : Bool) (history : List Entry) (f : ℕ) →
        GoesOnFrom ladder later r plans → IsPartOf (listing_of (window_of ladder r plans) ended) history f →
        IsPartOf (listing_of (window_of later r more) then) (history ++ map entry_of (rows_of (rendition_at later r).keys more))
        (f + first (window_of later r more)) }
{
    media_playlist::a_resumed_window_shows_all_rows();
    media_playlist::each_playlist_is_a_part_of_one_history();
}

/// The segments of a run that goes on have the numbers behind those of the earlier run, and its first segment is a
/// discontinuity where anything came before (RFC 8216, 4.3.2.3).
pub fn numbers_go_on_behind_a_discontinuity()
    ensures numbers { (ladder later : Ladder) (r : ℕ) (plans : List SegmentPlan) (n : ℕ) →
        IsAllowed ladder → IsAllowed later → GoesOnFrom ladder later r plans →
        number_of (rendition_at later r).keys n ≡ number_of (rendition_at ladder r).keys (length plans + n) }
    ensures breaks { (later : Ladder) (r : ℕ) (plan : SegmentPlan) → IsAllowed later →
        0 < (rendition_at later r).gone.rows + length (rendition_at later r).earlier → plan.number ≡ 0 →
        (row_of (rendition_at later r).keys (sealed_segment (rendition_at later r).keys plan)).discontinuity ≡ true }
{}
