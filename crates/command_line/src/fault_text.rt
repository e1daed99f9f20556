//! How faults print: their names, and the numbers that they have.
ghost use Rattle.std.specs.Prelude.{◌≡◌, Some, false, is_none};
ghost use Rattle.std.specs.Fmt.{DisplaysOnOk};
ghost use Rattle.command_line.specs.FaultLines.{
  checking_text,
  cipher_text,
  fault_line,
  fault_text,
  input_text,
  key_list_text,
  ladder_packing_text,
  ladder_text,
  opening_text,
  packing_text,
  resuming_text,
  sealing_text,
  settings_text,
  why_not_text,
};

use crate::fault::Fault;
use channel::ResumingFault;
use channel_folder::WhyNot;
use commands::{
    CheckingFault, CipherFault, KeyListFault, LadderFault, LadderPackingFault, OpeningFault,
    SealingFault, SettingsFault,
};
use hls_check::{CheckFault, UnpackFault};
use ladder_items::PackFault;
use media_reading::ListFault;
use read_ahead::InputFault;
use std::fmt;

impl fmt::Display for Fault {
    ghost output = { fault_line };

    fn fmt<W: fmt::Write>(&self, f: &mut fmt::Formatter<W>) -> fmt::Result {
        if is_bare(self) {
            return write_fault(f, self);
        }
        write_named(f, self)
    }
}

/// Whether what clap says is the whole line, without the program's name.
fn is_bare(fault: &Fault) -> bool
    ensures { result ≡ is_none (fault_text fault.now) }
{
    matches!(fault, Fault::Usage(_))
}

/// The line of a fault behind the program's name.
fn write_named<W: fmt::Write>(f: &mut fmt::Formatter<W>, fault: &Fault) -> fmt::Result
    requires { is_none (fault_text fault.now) ≡ false }
    ensures { DisplaysOnOk W.write_str_gives f.old result (fault_line fault.now) f.new }
{
    f.write_str("tshls: ")?;
    write_fault(f, fault)?;
    f.write_str("\n")
}

/// The name of a fault and its numbers; of a command line that isn't one, what clap says.
fn write_fault<W: fmt::Write>(f: &mut fmt::Formatter<W>, fault: &Fault) -> fmt::Result
    ensures { DisplaysOnOk W.write_str_gives f.old result (fault_text fault.now) f.new }
{
    match fault {
        Fault::Usage(error) => write!(f, "{error}"),
        Fault::NotUtf8 => f.write_str("NotUtf8"),
        Fault::NoMemory => f.write_str("NoMemory"),
        Fault::Busy => f.write_str("Busy"),
        Fault::Cipher(fault) => write_cipher(f, *fault),
        Fault::Settings(fault) => write_settings(f, *fault),
        Fault::KeyList(fault) => write_key_list(f, *fault),
        Fault::Ladder(fault) => write_ladder(f, *fault),
        Fault::Sealing(fault) => f.write_str(sealing_name(*fault)),
        Fault::Opening(fault) => f.write_str(opening_name(*fault)),
        Fault::Resuming(fault) => write_resuming(f, *fault),
        Fault::Unopened(fault) => f.write_str(unopened_name(*fault)),
        Fault::Packing(fault) => write_packing(f, *fault),
        Fault::LadderPacking(fault) => write_ladder_packing(f, *fault),
        Fault::Checking(fault) => write_checking(f, *fault),
    }
}

/// The name of a fault of a key and a vector, and the number of a bad key file.
fn write_cipher<W: fmt::Write>(f: &mut fmt::Formatter<W>, fault: CipherFault) -> fmt::Result
    ensures { DisplaysOnOk W.write_str_gives f.old result (Some (cipher_text fault)) f.new }
{
    match fault {
        CipherFault::BadKey => write!(f, "BadKey"),
        CipherFault::BadVector => write!(f, "BadVector"),
        CipherFault::Unread => write!(f, "Unread"),
        CipherFault::BadKeyFile(number) => write!(f, "BadKeyFile {number}"),
        CipherFault::NoMemory => write!(f, "NoMemory"),
    }
}

/// The name of a fault of some keys, and the number of a bad key file.
fn write_key_list<W: fmt::Write>(f: &mut fmt::Formatter<W>, fault: KeyListFault) -> fmt::Result
    ensures { DisplaysOnOk W.write_str_gives f.old result (Some (key_list_text fault)) f.new }
{
    match fault {
        KeyListFault::BadKey => write!(f, "BadKey"),
        KeyListFault::Unread => write!(f, "Unread"),
        KeyListFault::BadKeyFile(number) => write!(f, "BadKeyFile {number}"),
        KeyListFault::NoMemory => write!(f, "NoMemory"),
    }
}

/// The name of a fault of a packager's words, and the number of a bad key file.
fn write_settings<W: fmt::Write>(f: &mut fmt::Formatter<W>, fault: SettingsFault) -> fmt::Result
    ensures { DisplaysOnOk W.write_str_gives f.old result (Some (settings_text fault)) f.new }
{
    match fault {
        SettingsFault::BadKey => write!(f, "BadKey"),
        SettingsFault::BadSize => write!(f, "BadSize"),
        SettingsFault::BadVector => write!(f, "BadVector"),
        SettingsFault::TooMany => write!(f, "TooMany"),
        SettingsFault::ZeroPeriod => write!(f, "ZeroPeriod"),
        SettingsFault::Settings => write!(f, "Settings"),
        SettingsFault::Unread => write!(f, "Unread"),
        SettingsFault::BadKeyFile(number) => write!(f, "BadKeyFile {number}"),
        SettingsFault::NoMemory => write!(f, "NoMemory"),
    }
}

/// The name of a fault of the ladder's words, and the number of the entry that is bad or has a bad key file.
fn write_ladder<W: fmt::Write>(f: &mut fmt::Formatter<W>, fault: LadderFault) -> fmt::Result
    ensures { DisplaysOnOk W.write_str_gives f.old result (Some (ladder_text fault)) f.new }
{
    match fault {
        LadderFault::BadEntry(number) => write!(f, "BadEntry {number}"),
        LadderFault::BadVector => write!(f, "BadVector"),
        LadderFault::TooMany => write!(f, "TooMany"),
        LadderFault::ZeroPeriod => write!(f, "ZeroPeriod"),
        LadderFault::Settings => write!(f, "Settings"),
        LadderFault::Unread => write!(f, "Unread"),
        LadderFault::BadKeyFile(number) => write!(f, "BadKeyFile {number}"),
        LadderFault::NoMemory => write!(f, "NoMemory"),
    }
}

fn sealing_name(fault: SealingFault) -> &'static str
    ensures { result.now ≡ sealing_text fault }
{
    match fault {
        SealingFault::Unread => "Unread",
        SealingFault::ReadLimit => "ReadLimit",
        SealingFault::Unwritten => "Unwritten",
        SealingFault::NoMemory => "NoMemory",
    }
}

fn opening_name(fault: OpeningFault) -> &'static str
    ensures { result.now ≡ opening_text fault }
{
    match fault {
        OpeningFault::Unread => "Unread",
        OpeningFault::ReadLimit => "ReadLimit",
        OpeningFault::BadHex => "BadHex",
        OpeningFault::NotBlocks => "NotBlocks",
        OpeningFault::BadPadding => "BadPadding",
        OpeningFault::Unwritten => "Unwritten",
        OpeningFault::NoMemory => "NoMemory",
    }
}

/// Why a ladder doesn't go on: a name, and then the rendition's number and that of a segment or a key, where it has them.
fn write_resuming<W: fmt::Write>(f: &mut fmt::Formatter<W>, fault: ResumingFault) -> fmt::Result
    ensures { DisplaysOnOk W.write_str_gives f.old result (Some (resuming_text fault)) f.new }
{
    match fault {
        ResumingFault::Unread => write!(f, "Unread"),
        ResumingFault::Outlet => write!(f, "Outlet"),
        ResumingFault::NoMemory => write!(f, "NoMemory"),
        ResumingFault::Not(r, why) => write_why_not(f, r, why),
        ResumingFault::OtherKeys(r, i) => write!(f, "OtherKeys {r} {i}"),
    }
}

fn write_why_not<W: fmt::Write>(f: &mut fmt::Formatter<W>, r: usize, why: WhyNot) -> fmt::Result
    ensures { DisplaysOnOk W.write_str_gives f.old result (Some (why_not_text r why)) f.new }
{
    match why {
        WhyNot::Foreign => write!(f, "Foreign {r}"),
        WhyNot::Ended => write!(f, "Ended {r}"),
        WhyNot::OtherTarget => write!(f, "OtherTarget {r}"),
        WhyNot::OtherSalt => write!(f, "OtherSalt {r}"),
        WhyNot::OtherKind => write!(f, "OtherKind {r}"),
        WhyNot::Uneven => write!(f, "Uneven {r}"),
        WhyNot::Lost(n) => write!(f, "Lost {r} {n}"),
        WhyNot::Ahead(n) => write!(f, "Ahead {r} {n}"),
        WhyNot::Limit => write!(f, "Limit {r}"),
    }
}

fn unopened_name(fault: InputFault) -> &'static str
    ensures { result.now ≡ input_text fault }
{
    match fault {
        InputFault::Unread => "Unread",
        InputFault::NoMemory => "NoMemory",
    }
}

/// A packager's fault: its name, and then the rendition's number and the segment's, where it has them.
fn write_packing<W: fmt::Write>(f: &mut fmt::Formatter<W>, fault: PackFault) -> fmt::Result
    ensures { DisplaysOnOk W.write_str_gives f.old result (Some (packing_text fault)) f.new }
{
    match fault {
        PackFault::Settings => write!(f, "Settings"),
        PackFault::Read(r) => write!(f, "Read {r}"),
        PackFault::ReadLimit(r) => write!(f, "ReadLimit {r}"),
        PackFault::NoProgram(r) => write!(f, "NoProgram {r}"),
        PackFault::NoStart(r) => write!(f, "NoStart {r}"),
        PackFault::LongSegment(r, n) => write!(f, "LongSegment {r} {n}"),
        PackFault::BigSegment(r, n) => write!(f, "BigSegment {r} {n}"),
        PackFault::Limit(r) => write!(f, "Limit {r}"),
        PackFault::Outlet => write!(f, "Outlet"),
        PackFault::NoMemory => write!(f, "NoMemory"),
        PackFault::Held(r, n) => write!(f, "Held {r} {n}"),
    }
}

/// A fault of `check`: its name, and then the number of the first wrong line, or the place of the first such entry,
/// counted from 0.
fn write_checking<W: fmt::Write>(f: &mut fmt::Formatter<W>, fault: CheckingFault) -> fmt::Result
    ensures { DisplaysOnOk W.write_str_gives f.old result (Some (checking_text fault)) f.new }
{
    match fault {
        CheckingFault::Unread => write!(f, "Unread"),
        CheckingFault::Unwritten => write!(f, "Unwritten"),
        CheckingFault::NoMemory => write!(f, "NoMemory"),
        CheckingFault::Faulty(CheckFault::Text(why)) => match why {
            ListFault::NotProfile(line) => write!(f, "NotProfile {line}"),
            ListFault::NoMemory => write!(f, "NoMemory"),
        },
        CheckingFault::Faulty(CheckFault::Segments(why)) => match why {
            UnpackFault::Missing(i) => write!(f, "Missing {i}"),
            UnpackFault::Closed(i) => write!(f, "Closed {i}"),
            UnpackFault::NoHead(i) => write!(f, "NoHead {i}"),
            UnpackFault::NoMemory => write!(f, "NoMemory"),
        },
    }
}

/// A fault of `pack`: that of its packager, or of its summary.
fn write_ladder_packing<W: fmt::Write>(
    f: &mut fmt::Formatter<W>,
    fault: LadderPackingFault,
) -> fmt::Result
    ensures { DisplaysOnOk W.write_str_gives f.old result (Some (ladder_packing_text fault)) f.new }
{
    match fault {
        LadderPackingFault::Packing(fault) => write_packing(f, fault),
        LadderPackingFault::Unwritten => write!(f, "Unwritten"),
        LadderPackingFault::NoMemory => write!(f, "NoMemory"),
    }
}
