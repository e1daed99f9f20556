//! The numbers that a packager works by, as words tell them.
ghost use Rattle.std.specs.Prelude.{◌≡◌, ◌↔◌, ◌<◌, None, IfSome};
ghost use Rattle.std.specs.Option.{option_map, unwrap_or};
ghost use Rattle.commands.specs.Defaults.{numbers_of, name_of};
ghost use Rattle.commands.specs.Settings.{cut_of, FitsCut};

use cutter::CutSettings;
use limits::{MOST_PROGRAM, TICKS};

/// The target duration in seconds, where none is given.
pub const DEFAULT_TARGET: u64 = 6;

/// The least number of segments that a playlist lists, where none is given.
pub const DEFAULT_WINDOW: u64 = 5;

/// The ticks of an epoch's last frame, where none are given.
pub const DEFAULT_FRAME: u64 = 3600;

/// The ticks past which a new epoch begins, where none are given.
pub const DEFAULT_GAP: u64 = 900_000;

/// The most packets of a segment's body, where no number is given.
pub const DEFAULT_MOST: u64 = 1_000_000;

/// The segments in a row that a key seals, where no number is given.
pub const DEFAULT_PERIOD: u64 = 1;

/// The name of a rendition, where none is given.
pub const DEFAULT_NAME: &str = "v";

/// The numbers that were given.
#[derive(Clone, Copy, Debug, PartialEq, Eq, Drop)]
pub struct NumberWords {
    pub target: Option<u64>,
    pub segment: Option<u64>,
    pub window: Option<u64>,
    pub frame: Option<u64>,
    pub gap: Option<u64>,
    pub most: Option<u64>,
    pub period: Option<u64>,
    pub program: Option<u64>,
}

/// The numbers that a packager works by.
#[derive(Clone, Copy, Debug, PartialEq, Eq, Drop)]
pub struct Numbers {
    /// The target duration in seconds.
    pub target: u64,
    /// The least length of a segment in seconds.
    pub segment: u64,
    /// The least number of segments that a playlist lists behind removed ones.
    pub window: u64,
    /// What the last frame of an epoch lasts, in ticks.
    pub frame: u64,
    /// A longer distance of two times begins a new epoch, in ticks.
    pub gap: u64,
    /// The most packets of a segment's body.
    pub most: u64,
    /// How many segments in a row a key seals.
    pub period: u64,
    /// The program that is asked for; the first where it isn't given.
    pub program: Option<u64>,
}

impl NumberWords {
    /// The numbers that were given, and for the others what stands for them: the target for a segment's length.
    pub fn numbers(self) -> Numbers
        ensures { result ≡ numbers_of self }
    {
        let target = self.target.unwrap_or(DEFAULT_TARGET);
        Numbers {
            target,
            segment: self.segment.unwrap_or(target),
            window: self.window.unwrap_or(DEFAULT_WINDOW),
            frame: self.frame.unwrap_or(DEFAULT_FRAME),
            gap: self.gap.unwrap_or(DEFAULT_GAP),
            most: self.most.unwrap_or(DEFAULT_MOST),
            period: self.period.unwrap_or(DEFAULT_PERIOD),
            program: self.program,
        }
    }
}

/// The name of a rendition: the one given, else `v`.
pub(crate) fn name(given: Option<&str>) -> &str
    ensures { result.now ≡ name_of (option_map (λ t. t.now) given.entry) }
{
    given.unwrap_or(DEFAULT_NAME)
}

/// The program as the tables have it, where it is asked for; None for a number that no table has.
fn program(number: Option<u64>) -> Option<Option<u16>>
    ensures some { IfSome result (λ program. program ≡ number) }
    ensures none { (result ≡ None) ↔ (MOST_PROGRAM < unwrap_or number 0) }
{
    match number {
        Some(number) => match u16::try_from(number) {
            Ok(program) => Some(Some(program)),
            Err(_) => None,
        },
        None => Some(None),
    }
}

impl Numbers {
    /// How streams are cut by these numbers. None where the program isn't below 2^16, or a segment's ticks aren't below
    /// 2^64.
    pub fn cut_settings(&self) -> Option<CutSettings>
        ensures some { IfSome result (λ cut. cut ≡ cut_of self.now) }
        ensures none { (result ≡ None) ↔ ¬ FitsCut self.now }
    {
        let program = program(self.program)?;
        let segment = self.segment.checked_mul(TICKS)?;
        Some(CutSettings {
            program,
            segment,
            target: self.target,
            gap: self.gap,
            frame: self.frame,
            most: self.most,
        })
    }
}

/// How streams are cut by numbers that the settings have room for.
pub(crate) fn cut(numbers: Numbers) -> CutSettings
    requires { FitsCut numbers }
    ensures { result ≡ cut_of numbers }
{
    let Some(cut) = numbers.cut_settings() else {
        unreachable!()
    };
    cut
}
