//! The words of faults that name no option, entry or path of their own.
ghost use Rattle.std.specs.Prelude.{◌≡◌};
ghost use Rattle.command_line.specs.Reasons.{
  checking_reason,
  cipher_reason,
  key_list_reason,
  opening_reason,
  resuming_reason,
  sealing_reason,
  unopened_reason,
  why_not,
};

use channel::ResumingFault;
use channel_folder::WhyNot;
use commands::{CheckingFault, CipherFault, KeyListFault, OpeningFault, SealingFault};
use hls_check::{CheckFault, UnpackFault};
use media_reading::ListFault;
use read_ahead::InputFault;

pub(crate) const NO_MEMORY: &str = "out of memory";

const UNREAD: &str = "standard input can't be read";

const UNWRITTEN: &str = "standard output can't be written: it is closed, or its disk is full";

const READ_LIMIT: &str = "2^40 reads did not reach the end of the input";

pub(crate) const UNREAD_KEY: &str = "the file of a key can't be read; nothing was written";

pub(crate) const BAD_KEY_FILE: &str =
    "the file of that key, counted from 1, is neither 16 bytes nor 32 hex digits with at most one line end";

pub(crate) const BAD_KEYS: &str = "a key of --keys is not 32 hex digits";

pub(crate) fn cipher_reason(fault: CipherFault) -> &'static str
    ensures { result.now ≡ cipher_reason fault }
{
    match fault {
        CipherFault::BadKey => "--key is not 32 hex digits",
        CipherFault::BadVector => {
            "exactly one of --seq and --iv is wanted, and --iv as 32 hex digits"
        }
        CipherFault::Unread => UNREAD_KEY,
        CipherFault::BadKeyFile(_) => BAD_KEY_FILE,
        CipherFault::NoMemory => NO_MEMORY,
    }
}

pub(crate) fn key_list_reason(fault: KeyListFault) -> &'static str
    ensures { result.now ≡ key_list_reason fault }
{
    match fault {
        KeyListFault::BadKey => BAD_KEYS,
        KeyListFault::Unread => UNREAD_KEY,
        KeyListFault::BadKeyFile(_) => BAD_KEY_FILE,
        KeyListFault::NoMemory => NO_MEMORY,
    }
}

pub(crate) fn sealing_reason(fault: SealingFault) -> &'static str
    ensures { result.now ≡ sealing_reason fault }
{
    match fault {
        SealingFault::Unread => UNREAD,
        SealingFault::ReadLimit => READ_LIMIT,
        SealingFault::Unwritten => UNWRITTEN,
        SealingFault::NoMemory => NO_MEMORY,
    }
}

pub(crate) fn opening_reason(fault: OpeningFault) -> &'static str
    ensures { result.now ≡ opening_reason fault }
{
    match fault {
        OpeningFault::Unread => UNREAD,
        OpeningFault::ReadLimit => READ_LIMIT,
        OpeningFault::BadHex => "the input is not one line of an even number of hex digits",
        OpeningFault::NotBlocks => "the digits are not whole blocks of 16 bytes, or there are none",
        OpeningFault::BadPadding => "sealed under another key or vector, or damaged",
        OpeningFault::Unwritten => UNWRITTEN,
        OpeningFault::NoMemory => NO_MEMORY,
    }
}

/// Why a rendition doesn't go on.
pub(crate) fn why_not(why: WhyNot) -> &'static str
    ensures { result.now ≡ why_not why }
{
    match why {
        WhyNot::Foreign => {
            "its playlists in --out are not what tshls writes for a rendition of this name, or one of the two is missing"
        }
        WhyNot::Ended =>
            "its playlist has ended: nothing may follow; take a new name or another folder",
        WhyNot::OtherTarget =>
            "its playlist has another target duration: give that one as --target",
        WhyNot::OtherSalt => "its playlist has another --salt, or none, or one where none is given",
        WhyNot::OtherKind =>
            "its playlist is that of an event and --event isn't given, or the other way",
        WhyNot::Uneven => {
            "it had another number of discontinuities than one before it: begin anew in another folder"
        }
        WhyNot::Lost(_) =>
            "that segment is listed, and its file is missing: put it back, or begin anew",
        WhyNot::Ahead(_) => {
            "the file of that segment is there and no playlist lists it: an older playlist was put back? Begin anew in another folder"
        }
        WhyNot::Limit => "the last number of a segment is passed",
    }
}

/// Why a ladder doesn't go on, where no rendition is told.
pub(crate) fn resuming_reason(fault: ResumingFault) -> &'static str
    ensures { result.now ≡ resuming_reason fault }
{
    match fault {
        ResumingFault::Unread => "--out, or a file in it, can't be read; nothing was written",
        ResumingFault::Outlet => "a file in --out can't be renamed or removed",
        ResumingFault::NoMemory => NO_MEMORY,
        ResumingFault::Not(_, why) => why_not(why),
        ResumingFault::OtherKeys(_, _) => {
            "the last segment under that key, counted from 0, does not open: its entry has another key"
        }
    }
}

pub(crate) fn unopened_reason(fault: InputFault) -> &'static str
    ensures { result.now ≡ unopened_reason fault }
{
    match fault {
        InputFault::Unread => "the path of an entry can't be opened; nothing was written",
        InputFault::NoMemory => NO_MEMORY,
    }
}

pub(crate) fn checking_reason(fault: CheckingFault) -> &'static str
    ensures { result.now ≡ checking_reason fault }
{
    match fault {
        CheckingFault::Unread => {
            "the playlist, or a segment that it lists, can't be read, or the playlist is not UTF-8"
        }
        CheckingFault::Unwritten => UNWRITTEN,
        CheckingFault::NoMemory => NO_MEMORY,
        CheckingFault::Faulty(CheckFault::Text(ListFault::NotProfile(_))) => {
            "that line of the playlist, counted from 1, is not what tshls writes there"
        }
        CheckingFault::Faulty(CheckFault::Text(ListFault::NoMemory)) => NO_MEMORY,
        CheckingFault::Faulty(CheckFault::Segments(why)) => match why {
            UnpackFault::Missing(_) => {
                "--keys has no key for that entry of the playlist, counted from 0"
            }
            UnpackFault::Closed(_) => {
                "that entry, counted from 0, does not open: another key, or its segment is damaged"
            }
            UnpackFault::NoHead(_) => {
                "that entry, counted from 0, opens to something else than a segment: exchanged or damaged"
            }
            UnpackFault::NoMemory => NO_MEMORY,
        },
    }
}
