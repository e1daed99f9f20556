//! What the words of the contracts mean.

ghost use Rattle.std.specs.Prelude.{◌≡◌};
ghost use Rattle.playlist_text.specs.MediaLines.{Listing};
ghost use Rattle.media_reading.specs.MediaTexts.{IsListing, listing_text};

/// No text is that of two playlists.
pub fn a_text_lists_one_playlist()
    ensures { (l m : Listing) → IsListing l → IsListing m → listing_text l ≡ listing_text m → l ≡ m }
{}
