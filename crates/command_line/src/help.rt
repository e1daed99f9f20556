//! What help tells of the faults of each command.

/// The faults of `seal`.
pub const SEAL: &str = "\
Faults, as 'tshls: NAME' on standard error:
  BadKey     --key is neither 32 hex digits nor @FILE
  BadVector  --iv isn't 32 hex digits, or --seq and --iv are both given, or neither is
  Unread     The file of the key, or standard input, couldn't be read; nothing was printed
  BadKeyFile The file of the key is neither 16 bytes nor 32 hex digits with at most one line end
  ReadLimit  2^40 reads didn't come to the end of the input
  Unwritten  Standard output took only a prefix of the line
  NoMemory   Memory was refused; nothing was printed";

/// The faults of `open`.
pub const OPEN: &str = "\
Faults, as 'tshls: NAME' on standard error:
  BadKey      --key is neither 32 hex digits nor @FILE
  BadVector   --iv isn't 32 hex digits, or --seq and --iv are both given, or neither is
  Unread      The file of the key, or standard input, couldn't be read; nothing was printed
  BadKeyFile  The file of the key is neither 16 bytes nor 32 hex digits with at most one line end
  ReadLimit   2^40 reads didn't come to the end of the input
  BadHex      The input isn't one line of an even number of hex digits
  NotBlocks   The digits aren't whole blocks of 16 bytes, or there are none
  BadPadding  Sealed under another key or vector, or damaged
  Unwritten   Standard output took only a prefix of the line
  NoMemory    Memory was refused; nothing was printed";

/// The faults of `one`.
pub const ONE: &str = "\
Ticks are 1/90000 s. Faults, as 'tshls: NAME NUMBERS' on standard error; what was printed before one stands:
  LongSegment  This segment would last longer than the target. Without --segment it is the target, so a key frame
               distance that doesn't divide it, or one lost key frame, ends the run. Give as --segment the target
               less the distance of key frames: --target 6 --segment 4 for a key frame every 2 s.
  NoProgram    No tables. The input is empty or isn't a transport stream (no packets were found); it has no PAT; the
               PAT or the PMT is damaged (bad CRC); the PAT doesn't have --program; or the PMT is of another form:
               several sections, not current, encrypted, or with another program's number.
  NoStart      No key frame to begin at. The program has no video of type 01, 02, 10, 1B or 24; its key frames have no
               random_access_indicator, or no PTS, or are scrambled; or the input ended before the first one.
  Settings     An option is outside its range: target, segment (at most the target), window, frame, gap, most,
               program, a side of the size; or the name isn't 1 to 64 bytes without control bytes and / . : or is
               'master'; or the codecs aren't 1 to 128 bytes of printable ASCII without a quotation mark.
  BigSegment   This segment has more packets than --most: give more, or a shorter --segment.
  Limit        The last number of a segment, or the range of time, is passed.
  BadKey       A key is neither 32 hex digits nor @FILE.
  Unread       The file of a key couldn't be read.
  BadKeyFile   The file of this key, counted from 1, is neither 16 bytes nor 32 hex digits with at most one line end.
  BadSize      The size isn't WIDTHxHEIGHT.
  BadVector    --salt isn't 32 hex digits.
  TooMany      More than 4096 keys.               ZeroPeriod  --period is 0.
  Read         Standard input couldn't be read.   ReadLimit   2^40 reads didn't come to its end.
  Outlet       Standard output can't be written.  NoMemory    Memory was refused.";

/// The faults of `pack`.
pub const PACK: &str = "\
Each segment and playlist is written to a file of its name in DIR, whole at any time, an older file replaced; nothing else
there is touched. When all streams have ended one line a rendition is printed, by name: NAME SEGMENTS SECONDS PEAK AVERAGE.

Each stream is read as its bytes come: one that is silent, or a FIFO that nobody opens, holds up no other, and a segment of
a live stream is listed as soon as it is sealed. The paths may be FIFOs of one encoder: they are read ahead, 32 MiB each, or
as --ahead says.

--resume goes on from the playlists in DIR: the next numbers, behind a discontinuity, under the same keys; where there are
none it is a first run. A block that a kill cut off is placed first. Without it a run begins at segment 0 again, over what is
there: draw new keys for that, or a new --salt at random. --remove removes a segment once it and the longest playlist that
listed it have played since it left the playlist (RFC 8216, 6.2.2), and with --resume what earlier runs left.

--metrics FILE is for node_exporter, which collects the *.prom files of a folder: for each rendition its segments, their time
and bytes, its rates, for how long no segment came, whether it ended, and by which fault. Where FILE can't be written,
'tshls: Metrics' is told once, and the run goes on.

Faults, as 'tshls: NAME NUMBERS' on standard error. R counts the renditions from 0, in the order of the entries; a fault
of its stream is told at once, and the others are packed to their ends. What was written before a fault stands.
  LongSegment R N  This segment would last longer than the target: see 'tshls one --help'
  NoProgram R      No tables                                    NoStart R      No key frame to begin at
  BigSegment R N   This segment has more packets than --most    Limit R        The last number or time is passed
  Read R           It couldn't be read, or gave nothing for --stall seconds
  ReadLimit R      2^40 reads didn't come to its end
  BadEntry N       Entry N, counted from 1, has fewer than four colons, or its size isn't WIDTHxHEIGHT, or a key is
                   neither 32 hex digits nor @FILE
  BadKeyFile N     A key file of entry N, counted from 1, is neither 16 bytes nor 32 hex digits with at most one line end
  BadVector        --salt isn't 32 hex digits
  TooMany          A rendition has more than 4096 keys          ZeroPeriod     --period is 0
  Settings         An option, a name, codecs or a side of a size is out of its range, two names are the same, or there are
                   more than 32 renditions
  Busy             Another tshls packs into DIR; nothing was read or written
  Unread           The file of a key can't be read, or a path can't be opened, or, with --resume, DIR can't be read; nothing
                   was written
  Outlet           A file can't be written: DIR isn't there, or full; the packager stopped
  Unwritten        All was packed, and standard output can't be written
  NoMemory         Memory was refused; the packager stopped

With --resume, before anything is opened:
  Foreign R        The playlists of R in DIR aren't those of tshls for this name, or one of the two is missing
  Ended R          Its playlist has ended                       Limit R        The last number is passed
  OtherTarget R    It has another --target                      OtherSalt R    It has another --salt, or none
  OtherKind R      It is that of an event and --event isn't given, or the other way
  Lost R N         Segment N is listed, and its file is missing
  Ahead R N        The file of segment N is there, and no playlist lists it: its number would be used twice
  Uneven R         It had another number of discontinuities than one before it
  OtherKeys R I    The last segment under key I, counted from 0, doesn't open";

/// The faults of `check`.
pub const CHECK: &str = "\
Faults, as 'tshls: NAME NUMBER' on standard error:
  BadKey      A key is neither 32 hex digits nor @FILE
  BadKeyFile  The file of this key, counted from 1, is neither 16 bytes nor 32 hex digits with at most one line end
  Unread      The file of a key, the playlist or a segment that it lists can't be read, or the playlist isn't UTF-8
  NotProfile  The line of this number isn't what tshls writes there
  Missing     The entry of this place, counted from 0, has no key among --keys
  Closed      Its segment doesn't open: another key, or damaged
  NoHead      It doesn't begin with tables
  Unwritten   Standard output took only a prefix of the line
  NoMemory    Memory was refused";
