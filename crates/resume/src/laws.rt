//! What the words of the contracts mean.

ghost use Rattle.std.specs.Prelude.{◌≡◌, ◌+◌, ◌++◌, [], ℕ, Bool, List, Option, Some, map, slice_get};
ghost use Rattle.playlist_text.specs.MediaLines.{Entry, Listing};
ghost use Rattle.media_playlist.specs.Rows.{SegmentRow};
ghost use Rattle.media_playlist.specs.Listed.{first};
ghost use Rattle.media_playlist.specs.Lines.{entry_of, listing_of};
ghost use Rattle.media_playlist.specs.Seen.{IsPartOf};
ghost use Rattle.ladder_items.specs.Ladder.{RenditionValue, GoesOn};
ghost use Rattle.resume.specs.declared.restored.Wanted as TheWanted;
ghost use Rattle.ladder_items.specs.declared.settings.Kind.TheVariants.{Live};
ghost use Rattle.resume.specs.Restoring.{RestoredValue, MayGoOn, IsRestored, window_behind};
ghost use Rattle.resume.specs.Evening.{anew, beside, breaks, most_breaks, MayBeAnew};

/// A rendition whose keys begin with the next number goes on from what was restored, so a run takes it.
pub fn a_restored_rendition_goes_on()
    ensures { (wanted : TheWanted.Wanted) (r : RestoredValue) (rendition : RenditionValue) → MayGoOn wanted r →
        rendition.gone ≡ r.gone → rendition.earlier ≡ r.earlier → rendition.keys.first ≡ r.next →
        GoesOn wanted.kind wanted.target rendition }
{}

/// So does a rendition of a live ladder whose list begins anew.
pub fn a_list_begun_anew_goes_on()
    ensures { (wanted : TheWanted.Wanted) (most : ℕ) (r : RestoredValue) (rendition : RenditionValue) → MayGoOn wanted r →
        wanted.kind ≡ Live → MayBeAnew most r → rendition.gone ≡ (anew most r).gone → rendition.earlier ≡ [] →
        rendition.keys.first ≡ r.next → GoesOn wanted.kind wanted.target rendition }
{}

/// All renditions with playlists had as many discontinuities as the one that had the most, once they go on beside it: their next
/// segments have one discontinuity sequence number (RFC 8216, 6.2.4).
pub fn renditions_go_on_evenly()
    ensures { (found : List (Option RestoredValue)) (place : ℕ) (r : RestoredValue) → slice_get found place ≡ Some (Some r) →
        most_breaks found ≡ Some (breaks (beside (most_breaks found) r)) }
{}

/// A player that reloads sees no break: each media playlist of the next run lists a part of the same history as the one that
/// was restored, with the new segments behind it, from no earlier a place on, whatever window is asked for.
pub fn restored_playlists_go_on()
    ensures { (name : List ℕ) (wanted : TheWanted.Wanted) (l : Listing) (frames sizes : List ℕ) (r : RestoredValue) (window : ℕ)
        (more : List SegmentRow) (ended : Bool) (history : List Entry) (f : ℕ) →
        IsRestored name wanted l frames sizes r → IsPartOf l history f →
        IsPartOf (listing_of (window_behind name wanted r window more) ended) (history ++ map entry_of more)
        (f + first (window_behind name wanted r window more)) }
{}
