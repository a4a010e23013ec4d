// What the words of the command line ask.
ghost use Rattle.std.specs.Prelude.{◌<◌, ◌≤◌};

/// The values of a session's settings, as the words give them.
#[derive(Clone, Copy)]
pub struct RunWords<'a> {
    /// The value of `--account`.
    pub account: &'a str,
    /// The value of `--region`.
    pub region: &'a str,
    /// The value of `--root`.
    pub root: &'a str,
    /// The value of `--boot`, where it is given.
    pub boot: Option<&'a str>,
    /// The value of `--as`.
    pub caller: &'a str,
}

/// Where the settings of a session come from.
#[derive(Clone, Copy)]
pub enum SessionWords<'a> {
    /// The values of the options.
    Values(RunWords<'a>),
    /// The values of `--config` and of `--as`, where that is given.
    File(&'a str, Option<&'a str>),
}

/// What the words of a command about one session name.
#[derive(Clone, Copy)]
pub struct SessionAsked<'a> {
    /// Where its settings come from.
    pub words: SessionWords<'a>,
    /// The value of `--load`, where it is given: the file of the journal that it begins with.
    pub load: Option<&'a str>,
}

/// What the words of `serve` name.
#[derive(Clone, Copy)]
pub struct ServeWords<'a> {
    /// The value of `--config`.
    pub file: &'a str,
    /// The value of `--listen`.
    pub address: &'a str,
    /// The number of `--workers`, from 1 to 64 (4).
    pub workers: u16,
    /// The number of `--connections`, from 1 to 1,000,000,000; 2^57 where it isn't given.
    pub connections: u64,
    /// The value of `--load`, where it is given: the file of the journal that it begins with.
    pub load: Option<&'a str>,
    /// Whether `--export` is given.
    pub exports: bool,

    ghost some: { 0 < workers },
    ghost few: { workers ≤ 64 },
    ghost bounded: { connections ≤ 144115188075855872 },
}

/// What the words of `load` name.
#[derive(Clone, Copy)]
pub struct LoadWords {
    /// The number of `--seed`.
    pub seed: u64,
    /// The number of `--requests`, from 1 to 100,000.
    pub requests: u32,

    ghost some: { 0 < requests },
    ghost few: { requests ≤ 100000 },
}

/// What the words ask.
#[derive(Clone, Copy)]
pub enum Asked<'a> {
    /// `run` with the session that it serves.
    Run(SessionAsked<'a>),
    /// `explain` with the session that it explains.
    Explain(SessionAsked<'a>),
    /// `export` with the session whose journal it writes.
    Export(SessionAsked<'a>),
    /// `check` with the value of `--config`.
    Check(&'a str),
    /// `serve` with the values of its options.
    Serve(ServeWords<'a>),
    /// `load` with the numbers of its options.
    Load(LoadWords),
}
